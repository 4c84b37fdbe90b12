//! A search that is a part of a script: what its steps want is given to them.
ghost use Rattle.std.specs.Prelude.{◌≡◌, ℕ, List, IfOk, OnOk, OnErr, IsErrOf, Option, false, []};
ghost use Rattle.std.specs.Option.{ForSome};
ghost use Rattle.machine_events.specs.declared.event.Event.{Event};
ghost use Rattle.machine_events.specs.declared.event.Event.TheVariants as events;
ghost use Rattle.machine_events.specs.declared.event.Reply.{Reply};
ghost use Rattle.meaning_runs.specs.Costs.{after_reply};
ghost use Rattle.meaning_runs.specs.Runs.{Run, Pays, Safe};
ghost use Rattle.path_finder.specs.Looking.{Await, awaits, input_kind, means, Suits, ForListing, ForKeeping};
ghost use Rattle.path_finder.specs.Steps.{Search, searches};
ghost use Rattle.path_finder.specs.declared.look.Stage.TheVariants as stages;
ghost use Rattle.path_finder.specs.declared.words.Found.{Found};
ghost use Rattle.path_finder.specs.declared.words.LookIn.{LookIn};
ghost use Rattle.path_finder.specs.declared.words.LookIn.TheVariants as given;
ghost use Rattle.path_finder.specs.declared.words.LookWant.TheVariants as wanted;
ghost use Rattle.meaning_script.specs.Searches.{searches_in, probe_of};
ghost use Rattle.drive_account.specs.View.{View, Stays};
ghost use Rattle.machine_shown.specs.Shown.{Shown, shown, Running};
ghost use Rattle.tree_files.specs.Count.{Rose};
ghost use Rattle.tree_files.specs.Files.{Files};
ghost use Rattle.drive_account.specs.At.{At};
ghost use Rattle.drive_account.specs.Searching.{AfterStep, CountsStep, Fits, SafeStep, IsSafe, MayGive, Given, GivesWant, Keeps, Taken, SearchParted, SearchRefused, SearchesAll};
ghost use Rattle.drive_account.specs.Asking.{Asked, AllKept};

use crate::{Budget, Halt, Port, pay_reply, texts_size};
use base_types::{Listing, NoMemory, Text, TreePath};
use machine_events::{Carried, Event, Reply};
use path_finder::{Found, Look, LookIn, LookWant, Probe};
use py_value::Items;
use spec_core::Dotted;
use tree_files::{Tree, TreeFault};

/// How a search is over.
#[derive(Drop)]
pub enum SearchEnd {
    /// It came to its answer.
    Found(Option<Found>),
    /// A payment could not be made.
    Out,
    /// A call of the tree failed after a payment that left so much before it.
    Unread(u64),
}

/// Where a step of a search leads.
#[derive(Drop)]
pub enum Step {
    /// The search goes on with this.
    On(LookIn),
    Over(SearchEnd),
}

/// A unit is paid for a call of the tree, or for an entry that is passed over.
fn pay_unit(budget: &mut Budget, of_tree: bool) -> Step
    ensures { (number : ℕ) (mine : List (Event × Reply)) → Given number mine mine budget.old budget.new
        (wanted.Pay of_tree) result }
{
    if budget.pay(of_tree, 1) {
        Step::On(LookIn::Paid)
    } else {
        Step::Over(SearchEnd::Out)
    }
}

/// What the reply about a listing tells.
fn probe_of(reply: &Reply) -> Option<Probe>
    ensures { result ≡ probe_of reply.now }
{
    match reply {
        Reply::Listing(time, bare, file) => Some(Probe {
            time: *time,
            bare: *bare,
            file: *file,
        }),
        _ => None,
    }
}

/// The reply about a listing is paid for.
fn listed(budget: &mut Budget, reply: Reply) -> Step
    ensures moves { (files : Option Files) (go : LookIn → Search) (k : Option Found → Run) (whole : Run) (fuel : ℕ)
        (mine : List (Event × Reply)) → At files whole fuel mine budget.old
        (after_reply reply (searches_in (go (given.Listed (probe_of reply))) k))
        → AfterStep files whole fuel mine budget.new go k result }
    ensures fits { Fits ForListing result }
    ensures counts { (faults : ℕ) → CountsStep faults faults result }
    ensures safe { (s : Shown) (go : LookIn → Search) (k : Option Found → Run)
        → Safe s (after_reply reply (searches_in (go (given.Listed (probe_of reply))) k)) → SafeStep s go k result }
{
    if !pay_reply(budget, &reply) {
        drop(reply);
        return Step::Over(SearchEnd::Out);
    }
    let probe = probe_of(&reply);
    drop(reply);
    Step::On(LookIn::Listed(probe))
}

/// The kept listing of a directory is asked for, for a unit.
fn ask<P: Port>(port: &mut P, budget: &mut Budget, dir: TreePath, part: Text) -> Result<Step, Halt>
    requires ready { (P.view port.old).ready }
    requires runs { (shown (P.view port.old).number (P.view port.old).mine).doing ≡ Running }
    ensures { GivesWant (P.view port.old) (P.view port.new) budget.old budget.new (wanted.DirGet dir part) result }
{
    if !budget.pay(false, 1) {
        drop(dir);
        drop(part);
        return Ok(Step::Over(SearchEnd::Out));
    }
    budget.read = None;
    match port.call(Event::DirGet { dir, part }) {
        Ok(reply) => Ok(listed(budget, reply)),
        Err(halt) => Err(halt),
    }
}

/// The names of a listing are paid for, once it is kept.
fn kept(budget: &mut Budget, units: u64) -> Step
    ensures moves { (files : Option Files) (go : LookIn → Search) (k : Option Found → Run) (whole : Run) (fuel : ℕ)
        (mine : List (Event × Reply)) → At files whole fuel mine budget.old
        (Pays false units (searches_in (go given.Kept) k)) → AfterStep files whole fuel mine budget.new go k result }
    ensures fits { Fits ForKeeping result }
    ensures counts { (faults : ℕ) → CountsStep faults faults result }
    ensures safe { (s : Shown) (go : LookIn → Search) (k : Option Found → Run)
        → Safe s (Pays false units (searches_in (go given.Kept) k)) → SafeStep s go k result }
{
    if budget.pay(false, units) {
        Step::On(LookIn::Kept)
    } else {
        Step::Over(SearchEnd::Out)
    }
}

/// The event by which a listing is kept.
fn keeping(dir: TreePath, listing: Listing) -> Result<Event, NoMemory>
    ensures { IfOk result (λ event. event ≡ events.DirSet dir listing) }
{
    let listing = Carried::new(dir.parts().alloc(), listing)?;
    Ok(Event::DirSet { dir, listing })
}

/// A listing is kept. The event is free, and the names are paid for after it.
fn keep<P: Port>(
    port: &mut P,
    budget: &mut Budget,
    dir: TreePath,
    listing: Listing,
) -> Result<Step, Halt>
    requires ready { (P.view port.old).ready }
    requires runs { (shown (P.view port.old).number (P.view port.old).mine).doing ≡ Running }
    ensures { GivesWant (P.view port.old) (P.view port.new) budget.old budget.new (wanted.DirSet dir listing) result }
{
    let units = texts_size(&listing.names);
    let event = match keeping(dir, listing) {
        Ok(event) => event,
        Err(_) => return Err(Halt::NoMemory),
    };
    budget.read = None;
    match port.call(event) {
        Ok(reply) => {
            drop(reply);
            Ok(kept(budget, units))
        }
        Err(halt) => Err(halt),
    }
}

/// Gives a search what it wants.
fn give_want<P: Port>(port: &mut P, budget: &mut Budget, want: LookWant) -> Result<Step, Halt>
    requires ready { (P.view port.old).ready }
    requires may { MayGive (shown (P.view port.old).number (P.view port.old).mine) want }
    ensures { GivesWant (P.view port.old) (P.view port.new) budget.old budget.new want result }
{
    match want {
        LookWant::Pay { tree } => Ok(pay_unit(budget, tree)),
        LookWant::DirGet { dir, part } => ask(port, budget, dir, part),
        LookWant::DirSet { dir, listing } => keep(port, budget, dir, listing),
        LookWant::Done(found) => Ok(Step::Over(SearchEnd::Found(found))),
    }
}

/// A call of the tree failed: the script stands where it paid for it.
fn unread(budget: &Budget) -> Result<Step, Halt>
    ensures taken { IfOk result (λ it. (files : Option Files) (faults faults' number : ℕ)
        (mine : List (Event × Reply)) (before : Search) (go : LookIn → Search) → Rose faults faults'
        → Taken files faults faults' number mine mine budget.now budget.now before go it) }
    ensures fits { IfOk result (λ it. (kind : Await) → Fits kind it) }
    ensures refused { IsErrOf result Halt.Refused → ⊥ }
{
    match budget.read {
        Some(left) => Ok(Step::Over(SearchEnd::Unread(left))),
        None => Err(Halt::NoMemory),
    }
}

/// The next step of a search, and what it wants.
fn take_step<P: Port, T: Tree>(
    port: &mut P,
    tree: &mut T,
    budget: &mut Budget,
    look: &mut Look,
    input: LookIn,
) -> Result<Step, Halt>
    requires ready { (P.view port.old).ready }
    requires safe { IsSafe (shown (P.view port.old).number (P.view port.old).mine) (means look.old input) }
    requires fits { awaits look.old.stage ≡ input_kind input }
    requires suits { ForSome (T.files tree.old) (λ f. Suits look.old.stage f) }
    ensures stays { Stays (P.view port.old) (P.view port.new) }
    ensures taken { IfOk result (Taken (T.files tree.old) (T.faults tree.old) (T.faults tree.new)
        (P.view port.old).number (P.view port.old).mine (P.view port.new).mine budget.old budget.new
        (means look.old input) (means look.new)) }
    ensures fits { IfOk result (Fits (awaits look.new.stage)) }
    ensures suits { OnOk result (ForSome (T.files tree.old) (λ f. Suits look.new.stage f)) }
    ensures kept { OnOk result (AllKept (T.lists tree.old) (T.lists tree.new) (P.view port.old).mine
        (P.view port.new).mine) }
    ensures holds { OnOk result (Keeps (P.view port.old) (P.view port.new)) }
    ensures part { OnErr result (SearchParted (T.files tree.old) (P.view port.old).mine
        (P.view port.new).mine budget.old (means look.old input)) }
    ensures refused { IsErrOf result Halt.Refused → SearchRefused (P.view port.new) (T.files tree.old)
        (P.view port.old).mine budget.old (means look.old input) }
    ensures asked { Asked (T.files tree.old) (T.files tree.new) (T.faults tree.old) (T.faults tree.new) }
{
    match look.next(tree, input) {
        Ok(want) => give_want(port, budget, want),
        Err(TreeFault::Failed) => unread(budget),
        Err(TreeFault::NoMemory) => Err(Halt::NoMemory),
    }
}

/// Searches to the end. A count of the steps that would pass the end of its type is want of memory.
fn search<P: Port, T: Tree>(
    port: &mut P,
    tree: &mut T,
    budget: &mut Budget,
    look: &mut Look,
) -> Result<SearchEnd, Halt>
    requires ready { (P.view port.old).ready }
    requires safe { IsSafe (shown (P.view port.old).number (P.view port.old).mine) (means look.old given.Start) }
    requires fresh { look.old.stage ≡ stages.Fresh }
    ensures { SearchesAll (P.view port.old) (P.view port.new) (T.files tree.old) (T.files tree.new) (T.faults tree.old)
        (T.faults tree.new) (T.lists tree.old) (T.lists tree.new) budget.old budget.new
        (means look.old given.Start) result }
{
    let mut input = LookIn::Start;
    let mut steps: u64 = 0;
    'steps: loop {
        if steps == u64::MAX {
            return Err(Halt::NoMemory);
        }
        steps += 1;
        let step = match take_step(port, tree, budget, look, input) {
            Ok(step) => step,
            Err(halt) => return Err(halt),
        };
        match step {
            Step::On(next) => input = next,
            Step::Over(over) => return Ok(over),
        }
    }
}

/// Searches for a name on a path.
pub fn seek<P: Port, T: Tree>(
    port: &mut P,
    tree: &mut T,
    budget: &mut Budget,
    name: Dotted,
    path: Items,
) -> Result<SearchEnd, Halt>
    requires ready { (P.view port.old).ready }
    requires safe { IsSafe (shown (P.view port.old).number (P.view port.old).mine) (searches name path []) }
    ensures { SearchesAll (P.view port.old) (P.view port.new) (T.files tree.old) (T.files tree.new) (T.faults tree.old)
        (T.faults tree.new) (T.lists tree.old) (T.lists tree.new) budget.old budget.new (searches name path []) result }
{
    let Ok(mut look) = Look::start(name, path) else {
        return Err(Halt::NoMemory);
    };
    let over = search(port, tree, budget, &mut look);
    drop(look);
    over
}
