//! A shared book that one desk stops.
ghost use Rattle.std.specs.Prelude.{◌≡◌, ◌∷◌, [], false, None, length, IfOk};
ghost use Rattle.machine_book.specs.Bound.{CanOpen};
ghost use Rattle.machine_desk.specs.Sight.{IsReady};
ghost use Rattle.machine_desk.specs.declared.outlet.Flow.TheVariants.{Open};
ghost use Rattle.drive_round.specs.Ran.{MayBegin};
ghost use Rattle.trace_book.specs.Told.{sight_of, mine_of};

use base_types::{NoMemory, Seq, Text, Texts};
use machine_book::{Book, Opening};
use machine_desk::{Desk, Halt, Outlet};
use machine_events::{Entry, Event};
use std::alloc::Global;
use std::sync::Wait;
use trace_book::{Bell, Pass, SharedDesk, Shelf};

// The scripts of the round.
const SCRIPTS: u32 = 2;

/// An outlet that writes nothing.
#[derive(Drop)]
struct Silent;

impl Outlet for Silent {
    ghost out = { λ _. record { trace = false; written = None; faults = 0; flow = Open } };

    ghost piece = { λ _ _. [] };

    fn put(&mut self, _entry: &Entry) {}
}

fn names(alloc: Global) -> Result<Texts, NoMemory>
    ensures { IfOk result (λ all. length all ≡ 2) }
{
    let mut all = Seq::new(alloc);
    for _ in 0..SCRIPTS {
        all.push(Text::from_str(alloc, "s.py")?)?;
    }
    Ok(all)
}

fn empty_texts(alloc: Global) -> Result<Seq<Seq<u8>>, NoMemory>
    ensures { IfOk result (λ all. length all ≡ 2) }
{
    let mut all = Seq::new(alloc);
    for _ in 0..SCRIPTS {
        all.push(Seq::new(alloc))?;
    }
    Ok(all)
}

fn one_round(alloc: Global) -> Result<Opening, NoMemory>
    ensures can { IfOk result CanOpen }
    ensures rounds { IfOk result (λ it. it.rounds ≡ 2 ∷ []) }
{
    let mut rounds = Seq::new(alloc);
    rounds.push(SCRIPTS)?;
    Ok(Opening {
        scripts: names(alloc)?,
        texts: empty_texts(alloc)?,
        path: Seq::new(alloc),
        rounds,
    })
}

// A book for two scripts of one round.
fn open_book(alloc: Global) -> Result<Book<Silent>, NoMemory>
    ensures { IfOk result (λ book. MayBegin book 0 2) }
{
    let Ok(opening) = one_round(alloc) else {
        return Err(NoMemory);
    };
    let Ok(machine) = opening.machine() else {
        return Err(NoMemory);
    };
    let book = Book::new(opening, machine, Silent);
    Ok(book)
}

// Whether a desk makes no event more whose shared book another one has stopped.
fn refuses<R: Wait>(rt: &R, shelf: &Shelf<Silent>, bell: &Bell, first: Pass, second: Pass) -> bool
    requires first_table { first.table ≡ shelf.now.table.shared.table_id }
    requires second_table { second.table ≡ shelf.now.table.shared.table_id }
    requires ready { IsReady (sight_of second) }
    requires new { mine_of second ≡ [] }
{
    let stopping = SharedDesk::new(rt, shelf, first, bell);
    let mut going = SharedDesk::new(rt, shelf, second, bell);
    drop(stopping.stop());
    matches!(going.call(Event::PathGet), Err(Halt::NoMemory))
}

/// Whether a desk that stops its shared book ends the calls of the other one.
pub(crate) fn stops<R: Wait>(rt: &R, alloc: Global) -> Result<bool, NoMemory> {
    let book = open_book(alloc)?;
    let Ok((shelf, mut passes)) = Shelf::open(alloc, book, 0, SCRIPTS) else {
        return Err(NoMemory);
    };
    let Some(second) = passes.pop() else {
        return Ok(false);
    };
    let Some(first) = passes.pop() else {
        return Ok(false);
    };
    let bell = Bell::new();
    Ok(refuses(rt, &shelf, &bell, first, second))
}
