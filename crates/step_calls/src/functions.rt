//! Calls of functions (Language Reference 6.3.4 and 8.7).
ghost use Rattle.std.specs.Prelude.{◌≡◌, ◌<◌, ◌-◌, IfOk, OnOk};
ghost use Rattle.source_functions.specs.Functions.{function_of};
ghost use Rattle.std.specs.Prelude.{List, [], ◌∷◌};
ghost use Rattle.py_value.specs.declared.value.Value.{Value};
ghost use Rattle.meaning_state.specs.declared.thread.Parsing.TheVariants as parsings;
ghost use Rattle.meaning_script.specs.Meaning as spec;
ghost use Rattle.step_calls.specs.Depth as depth;
ghost use Rattle.py_frames.specs.Does.{Does, pieces, goes_on};
ghost use Rattle.py_frames.specs.declared.work.Frame.TheVariants as frames;

use base_owners::{Boxed, Shared};
use base_types::{Exact, NoMemory, Seq, Text};
use machine_events::Event;
use meaning_state::{Fault, Flow, FunctionScope, Leave, Locals, Parsing, Scope, Source, Thread};
use py_frames::{Frame, Item, OnReply, Want, fail};
use py_value::{ModRef, Value};
use source_functions::{Function, Program};
use std::alloc::Global;
use std::mem;

/// The first of the parameters takes a value. What is left of them.
fn bind<'a>(names: &'a [Text], value: Value, locals: &mut Locals) -> Result<&'a [Text], NoMemory>
    ensures { IfOk result (λ rest. (more : List Value) → spec.bound names.now (value ∷ more) locals.old
        ≡ spec.bound rest.now more locals.new) }
{
    match names {
        [] => Ok(names),
        [name, others @ ..] => {
            locals.set(name.copy()?, value)?;
            Ok(others)
        }
    }
}

/// The parameters with their arguments.
fn bound(names: &[Text], values: Seq<Value>, locals: Locals) -> Result<Locals, NoMemory>
    ensures { IfOk result (λ after. after ≡ spec.bound names.now values locals) }
{
    let mut rest = names;
    let mut locals = locals;
    for value in values.into_vec() {
        rest = bind(rest, value, &mut locals)?;
    }
    Ok(locals)
}

/// The function with one more owner, where there is one of this number.
fn function_at(program: &Program, index: u32) -> Result<Option<Shared<Function>>, NoMemory>
    ensures { IfOk result (λ function. function ≡ function_of program.now index) }
{
    match program.function_at(index) {
        None => Ok(None),
        Some(function) => Ok(Some(function.share()?)),
    }
}

/// The function's body comes next, in its own place.
fn run(
    alloc: Global,
    thread: &mut Thread,
    mid: u32,
    load: u32,
    arguments: Seq<Value>,
    function: Shared<Function>,
) -> Result<Want, NoMemory>
    requires { 0 < thread.old.left }
    ensures { IfOk result (Does thread.new (pieces (λ w d. depth.runs_in
        (spec.around_at w (d - 1)) mid load function arguments) thread.old)) }
{
    let parameters = function.get().def().parameters.as_slice();
    let locals = Locals::new(alloc);
    let locals = bound(parameters, arguments, locals)?;
    let body = function.get().body()?;
    let place = Scope {
        mid,
        load,
        function: Some(FunctionScope { function, locals }),
    };
    let scope = Boxed::new(alloc, mem::replace(&mut thread.state.scope, place))?;
    let left = thread.left;
    thread.left = left - 1;
    Ok(Want::Both(
        Item::Block { stmts: body, at: 0 },
        Frame::Back { scope, left },
    ))
}

/// A function is called that takes as many arguments, or else it fails.
fn enter(
    alloc: Global,
    thread: &mut Thread,
    mid: u32,
    load: u32,
    arguments: Seq<Value>,
    function: Shared<Function>,
) -> Result<Want, NoMemory>
    requires { 0 < thread.old.left }
    ensures { IfOk result (Does thread.new (pieces (λ w d. depth.enters_in
        (spec.around_at w (d - 1)) mid load arguments function) thread.old)) }
{
    let takes = function.get().def().parameters.len();
    let given = arguments.len();
    if given != takes {
        let name = function.get().def().name.copy()?;
        return fail(
            alloc,
            thread,
            Fault::Parameters {
                function: name,
                takes,
                given,
            },
        );
    }
    run(alloc, thread, mid, load, arguments, function)
}

/// A function is called, where there is one of its number.
fn enter_some(
    alloc: Global,
    thread: &mut Thread,
    mid: u32,
    load: u32,
    arguments: Seq<Value>,
    function: Option<Shared<Function>>,
) -> Result<Want, NoMemory>
    requires { 0 < thread.old.left }
    ensures { IfOk result (Does thread.new (pieces (λ w d. depth.enters_some
        (spec.around_at w (d - 1)) mid load arguments function) thread.old)) }
{
    match function {
        None => fail(alloc, thread, Fault::NotInProfile),
        Some(function) => enter(alloc, thread, mid, load, arguments, function),
    }
}

/// A function is called. Its text is asked for where the thread does not have it.
#[tactic(auto, using(crate::proofs::Depth::functions_more, crate::proofs::Depth::enters_is))]
pub fn call_function(
    alloc: Global,
    thread: &mut Thread,
    load: u32,
    index: u32,
    arguments: Seq<Value>,
) -> Result<Want, NoMemory>
    ensures { IfOk result (Does thread.new (pieces (λ w d. spec.functions_at w d load index arguments) thread.old)) }
{
    if thread.left == 0 {
        return fail(alloc, thread, Fault::TooDeep);
    }
    match thread.state.kept.get(load) {
        None => Ok(Want::Call(
            Event::Source(load),
            OnReply::Sourced {
                load,
                index,
                arguments,
            },
        )),
        Some(source) => {
            let mid = source.mid;
            let function = function_at(&source.program, index)?;
            enter_some(alloc, thread, mid, load, arguments, function)
        }
    }
}

/// The text of a load came and is kept, and then its function is called.
#[tactic(auto, using(crate::proofs::Depth::enters_is))]
fn keep(
    alloc: Global,
    thread: &mut Thread,
    load: u32,
    index: u32,
    arguments: Seq<Value>,
    module: ModRef,
    program: Program,
) -> Result<Want, NoMemory>
    requires { 0 < thread.old.left }
    ensures { IfOk result (Does thread.new (pieces (λ w d. spec.sourced
        (spec.around_at w (d - 1)) load index arguments «module» (parsings.Parsed program)) thread.old)) }
{
    let mid = module.mid();
    let name = module.name().copy()?;
    let function = function_at(&program, index)?;
    let source = Source { mid, name, program };
    thread.state.kept.insert(load, source)?;
    enter_some(alloc, thread, mid, load, arguments, function)
}

/// What the text of a function's load, which is of this module, comes to is known, and then the function is
/// called. A text that does not parse has no functions.
#[tactic(auto, using(crate::proofs::Depth::sourced_more))]
pub fn sourced(
    alloc: Global,
    thread: &mut Thread,
    load: u32,
    index: u32,
    arguments: Seq<Value>,
    module: ModRef,
    parsing: Parsing,
) -> Result<Want, NoMemory>
    ensures { IfOk result (Does thread.new (pieces (λ w d. depth.sourced_at w d load index arguments «module» parsing)
        thread.old)) }
{
    if thread.left == 0 {
        drop(parsing);
        return fail(alloc, thread, Fault::TooDeep);
    }
    match parsing {
        Parsing::Faulty(_) => fail(alloc, thread, Fault::NotInProfile),
        Parsing::Parsed(program) => keep(alloc, thread, load, index, arguments, module, program),
    }
}

/// What a body's way out gives its caller.
fn body_gives(flow: Flow) -> Flow
    ensures { result ≡ spec.body_gives flow }
{
    match flow {
        Flow::Left(Leave::Raised(error)) => Flow::Left(Leave::Raised(error)),
        Flow::Left(Leave::Return(value)) => Flow::Went(value),
        _ => Flow::Went(Value::Nothing),
    }
}

/// A body is done: the caller goes on where it stood.
pub fn come_back(thread: &mut Thread, scope: Boxed<Scope>, left: u32, flow: Flow) -> Want
    ensures { Does thread.new (goes_on (frames.Back scope left) flow thread.old) result }
{
    drop(mem::replace(&mut thread.state.scope, scope.into_inner()));
    thread.left = left;
    Want::Go(body_gives(flow))
}
