//! Whether a token stands inside a `finally` block.

ghost use Rattle.std.specs.Prelude.{◌≡◌, ◌-◌, ◌++◌, ◌∷◌, [], IfOk, length, take};
ghost use Rattle.py_parser.specs.Places as places;

use base_types::{NoMemory, Seq};
use py_syntax::Lexeme;
use std::alloc::Global;

/// What the first token of a line makes of the block behind its colon.
#[derive(Clone, Copy)]
pub enum Opening {
    /// What holds around it holds in it.
    Same,
    /// It is a `finally` block.
    Within,
    /// It is the body of a function, in which no `finally` block around counts.
    Anew,
}

/// A place between two tokens of a source.
#[derive(Drop)]
pub struct Place {
    /// For each open block, the innermost last, whether it stands inside a `finally` block.
    pub blocks: Seq<bool>,
    /// Whether a logical line begins here.
    pub is_fresh: bool,
    /// What the line's first token makes of its block.
    pub opening: Opening,
    /// Whether what follows in the line stands inside a `finally` block.
    pub here: bool,
}

fn start(alloc: Global) -> Place
    ensures { result ≡ places.start }
{
    Place {
        blocks: Seq::new(alloc),
        is_fresh: true,
        opening: Opening::Same,
        here: false,
    }
}

/// Whether the innermost open block stands inside a `finally` block.
fn around(blocks: &[bool]) -> bool
    ensures { result ≡ places.around blocks.now }
{
    if blocks.is_empty() {
        return false;
    }
    blocks[blocks.len() - 1]
}

fn opening_of(lexeme: &Lexeme) -> Opening
    ensures { result ≡ places.opening_of lexeme.now }
{
    match lexeme {
        Lexeme::Finally => Opening::Within,
        Lexeme::Def => Opening::Anew,
        _ => Opening::Same,
    }
}

fn opened(opening: Opening, here: bool) -> bool
    ensures { result ≡ places.opened opening here }
{
    match opening {
        Opening::Within => true,
        Opening::Anew => false,
        Opening::Same => here,
    }
}

fn first_of_line(place: Place, lexeme: &Lexeme) -> Place
    ensures { result ≡ places.first_of_line place lexeme.now }
{
    Place {
        is_fresh: false,
        opening: opening_of(lexeme),
        here: around(place.blocks.as_slice()),
        blocks: place.blocks,
    }
}

fn behind_colon(place: Place) -> Place
    ensures { result ≡ places.behind_colon place }
{
    let here = opened(place.opening, place.here);
    Place { here, ..place }
}

/// The place behind one more token of a line.
fn within_line(place: Place, lexeme: &Lexeme) -> Place
    ensures { result ≡ places.within_line place.is_fresh place lexeme.now }
{
    if place.is_fresh {
        return first_of_line(place, lexeme);
    }
    match lexeme {
        Lexeme::Colon => behind_colon(place),
        _ => place,
    }
}

/// The place behind the opening token of an indented block.
fn indented(place: Place) -> Result<Place, NoMemory>
    ensures { IfOk result (λ it. it ≡ record {
      blocks = place.blocks ++ place.here ∷ [];
      is_fresh = place.is_fresh;
      opening = place.opening;
      here = place.here;
    }) }
{
    let here = place.here;
    let mut blocks = place.blocks;
    blocks.push(here)?;
    Ok(Place {
        blocks,
        is_fresh: place.is_fresh,
        opening: place.opening,
        here,
    })
}

/// The place behind the closing token of an indented block.
fn dedented(place: Place) -> Place
    ensures { result ≡ record {
      blocks = take (length place.blocks - 1) place.blocks;
      is_fresh = place.is_fresh;
      opening = place.opening;
      here = place.here;
    } }
{
    let mut blocks = place.blocks;
    blocks.drop_last();
    Place {
        blocks,
        is_fresh: place.is_fresh,
        opening: place.opening,
        here: place.here,
    }
}

/// The place behind one more token.
#[tactic(auto, unfolding(crate::specs::Places::behind))]
fn behind(place: Place, lexeme: &Lexeme) -> Result<Place, NoMemory>
    ensures { IfOk result (λ it. it ≡ places.behind place lexeme.now) }
{
    match lexeme {
        Lexeme::Newline => Ok(Place {
            is_fresh: true,
            ..place
        }),
        Lexeme::Indent => indented(place),
        Lexeme::Dedent => Ok(dedented(place)),
        _ => Ok(within_line(place, lexeme)),
    }
}

fn inside(place: &Place) -> bool
    ensures { result ≡ places.inside place.now }
{
    if place.is_fresh {
        return around(place.blocks.as_slice());
    }
    place.here
}

/// Whether a token behind these ones stands inside a `finally` block of its function. The work is linear in the tokens.
pub fn inside_finally(alloc: Global, front: &[Lexeme]) -> Result<bool, NoMemory>
    ensures { IfOk result (λ it. it ≡ places.inside_finally front.now) }
{
    let mut place = start(alloc);
    let mut rest = front;
    'tokens: while let [lexeme, after @ ..] = rest {
        place = behind(place, lexeme)?;
        rest = after;
    }
    Ok(inside(&place))
}
