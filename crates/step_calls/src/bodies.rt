//! Bodies of modules and scripts.
ghost use Rattle.std.specs.Prelude.{◌≡◌, ◌<◌, ◌-◌, IfOk};
ghost use Rattle.meaning_state.specs.declared.thread.Parsing.TheVariants as parsings;
ghost use Rattle.meaning_script.specs.Meaning as spec;
ghost use Rattle.step_calls.specs.Sources.{sources};
ghost use Rattle.step_calls.specs.BodyDepth as depth;
ghost use Rattle.py_frames.specs.Does.{Does, DoesIn, pieces, begins};
ghost use Rattle.py_frames.specs.declared.work.Item.TheVariants as items;

use crate::parsing::parsing_of;
use base_owners::Boxed;
use base_types::{NoMemory, Seq, Text};
use meaning_state::{Fault, Flow, Leave, Parsing, Scope, Source, Thread};
use py_frames::{Frame, Item, Want, fail};
use source_functions::Program;
use std::alloc::Global;
use std::mem;

/// A text costs a unit for each whole 64 bytes.
const BYTES_OF_A_UNIT: usize = 64;

/// A body comes: its text is paid for.
#[tactic(auto, using(crate::proofs::BodyDepth::bodies_more))]
pub fn start(
    alloc: Global,
    thread: &Thread,
    mid: u32,
    load: u32,
    name: Text,
    text: Seq<u8>,
) -> Result<Want, NoMemory>
    ensures { IfOk result (Does thread.now (begins (items.Start mid load name text) thread.now)) }
{
    if thread.left == 0 {
        return fail(alloc, thread, Fault::TooDeep);
    }
    let units = text.len() / BYTES_OF_A_UNIT;
    Ok(Want::Pay {
        of_tree: false,
        units: units as u64,
        item: Item::Begin {
            mid,
            load,
            name,
            text,
        },
    })
}

/// The statements of a script come next, in their own place. The thread keeps the script under the
/// name of its module.
fn run(
    alloc: Global,
    thread: &mut Thread,
    mid: u32,
    load: u32,
    name: Text,
    program: Program,
) -> Result<Want, NoMemory>
    requires { 0 < thread.old.left }
    ensures { IfOk result (Does thread.new (pieces (λ w d. spec.starts (spec.around_at w (d - 1)) mid load name
        (parsings.Parsed program)) thread.old)) }
{
    let body = program.body()?;
    let source = Source { mid, name, program };
    thread.state.kept.insert(load, source)?;
    let place = Scope {
        mid,
        load,
        function: None,
    };
    let scope = Boxed::new(alloc, mem::replace(&mut thread.state.scope, place))?;
    let left = thread.left;
    thread.left = left - 1;
    Ok(Want::Both(
        Item::Block { stmts: body, at: 0 },
        Frame::Back { scope, left },
    ))
}

/// A body begins whose text came to this.
#[tactic(auto, using(crate::proofs::BodyDepth::starts_more))]
fn begin_parsed(
    alloc: Global,
    thread: &mut Thread,
    mid: u32,
    load: u32,
    name: Text,
    parsing: Parsing,
) -> Result<Want, NoMemory>
    ensures { IfOk result (Does thread.new (pieces (λ w d. depth.starts_at w d mid load name parsing) thread.old)) }
{
    if thread.left == 0 {
        drop(parsing);
        return fail(alloc, thread, Fault::TooDeep);
    }
    match parsing {
        Parsing::Faulty(error) => Ok(Want::Go(Flow::Left(Leave::Raised(error)))),
        Parsing::Parsed(program) => run(alloc, thread, mid, load, name, program),
    }
}

/// A body begins, once its text is paid for.
pub fn begin(
    alloc: Global,
    thread: &mut Thread,
    mid: u32,
    load: u32,
    name: Text,
    text: Seq<u8>,
) -> Result<Want, NoMemory>
    ensures { IfOk result (DoesIn sources thread.new (begins (items.Begin mid load name text) thread.old sources)) }
{
    let parsing = parsing_of(alloc, text.as_slice())?;
    let want = begin_parsed(alloc, thread, mid, load, name, parsing)?;
    Ok(want)
}
