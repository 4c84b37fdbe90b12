//! Turns that see neither a port nor a tree, one after another.
ghost use Rattle.std.specs.Prelude.{◌≡◌, IfOk, IsErrOf, IsTrue};
ghost use Rattle.meaning_state.specs.declared.flow.Flow.TheVariants.{Went};
ghost use Rattle.drive_straight.specs.Remains.{Leads, begins, due, goes_on};
ghost use Rattle.drive_straight.specs.declared.execution.Execution.{Execution};
ghost use Rattle.drive_straight.specs.declared.next.Next.TheVariants as nexts;
ghost use Rattle.py_frames.specs.declared.want.Want.TheVariants as wants;
ghost use Rattle.py_run.specs.Turns.{HasPlainValue, IsPlain, Stepped, Wants, brought, feeds, remains, replied_at};

use crate::steps::next_frame;
use crate::turns::Turn;
use base_owners::Boxed;
use base_types::NoMemory;
use drive_account::{Halt, pay_reply};
use drive_straight::{
    Execution, Next, block, decide, evaluate, resume_block, resume_loop, resume_operand,
    resume_sized, spend, turn,
};
use find_load::In;
use machine_events::Reply;
use meaning_state::{Flow, Leave};
use py_frames::{Frame, Item, OnReply, Procedure, Want, is_namespace_path};
use py_value::Value;
use std::alloc::Global;
use step_calls::come_back;
use step_dispatch::{begin, fed, go_on, replied};
use step_imports::go_on_imported;
use step_simple::{is_local_name, member, read_global, store};

/// What comes next, piece by piece.
fn next_piece(alloc: Global, execution: &mut Execution, next: Next) -> Result<Want, NoMemory>
    ensures moves { Wants execution.old (due next) execution.new result }
    ensures held { execution.new.held ≡ execution.old.held }
{
    match next {
        Next::Went(value) => Ok(Want::Go(Flow::Went(value))),
        Next::Left(leave) => Ok(Want::Go(Flow::Left(leave))),
        Next::Evaluate(expr) => Ok(Want::Then(Item::Eval(expr))),
        Next::Block(stmts) => Ok(Want::Then(Item::Block { stmts, at: 0 })),
        Next::ReadGlobal(name) => read_global(&execution.thread, name),
        Next::Store(name, value) => store(&mut execution.thread, name, value),
        Next::Member(module, name) => member(alloc, &execution.thread, Value::Module(module), name),
        Next::Call { callee, arguments } => {
            begin(
                alloc,
                Item::Call { callee, arguments },
                &mut execution.thread,
            )
        }
        Next::Apply { expr, values } => {
            begin(alloc, Item::Apply { expr, values }, &mut execution.thread)
        }
        Next::Begun { stmts, at } => begin(alloc, Item::Begun { stmts, at }, &mut execution.thread),
        Next::Piece(item) => begin(alloc, item.into_inner(), &mut execution.thread),
        Next::Frame(waiting) => {
            let (frame, flow) = waiting.into_inner();
            go_on(alloc, frame, flow, &mut execution.thread)
        }
        Next::Wanted(want) => Ok(want.into_inner()),
    }
}

/// What is wanted, on the heap.
pub fn wanted(alloc: Global, want: Want) -> Result<Next, NoMemory>
    ensures { IfOk result (λ next. next ≡ nexts.Wanted want) }
{
    Ok(Next::Wanted(Boxed::new(alloc, want)?))
}

/// A way on comes to the work that waits.
fn passing(flow: Flow) -> Next
    ensures { (c : Execution) → due result c ≡ remains c (wants.Go flow) }
{
    match flow {
        Flow::Went(value) => Next::Went(value),
        Flow::Left(leave) => Next::Left(leave),
    }
}

/// Whether a piece of work begins in place. Nothing rests on the answer but the time that it takes.
fn begins_in_place(item: &Item) -> bool {
    match item {
        Item::Eval(_) => true,
        Item::Block { stmts: _, at: _ } => true,
        Item::Turn {
            test: _,
            body: _,
            turns: _,
        } => true,
        Item::ReadGlobal(_) => true,
        _ => false,
    }
}

/// A piece of work begins in place where it can, and is wanted where not.
fn begin_in_place(alloc: Global, execution: &mut Execution, item: Item) -> Result<Next, NoMemory>
    ensures moves { Leads execution.old (begins item) execution.new result }
    ensures held { execution.new.held ≡ execution.old.held }
{
    match item {
        Item::Eval(expr) => Ok(Next::Evaluate(expr)),
        Item::Block { stmts, at } => block(alloc, execution, stmts, at),
        Item::Turn { test, body, turns } => turn(alloc, execution, test, body, turns),
        Item::ReadGlobal(name) => Ok(Next::ReadGlobal(name)),
        item => wanted(alloc, Want::Then(item)),
    }
}

/// A piece of work begins, whatever it is.
fn begin_piece(alloc: Global, execution: &mut Execution, item: Item) -> Result<Want, NoMemory>
    ensures moves { Wants execution.old (begins item) execution.new result }
    ensures held { execution.new.held ≡ execution.old.held }
{
    begin(alloc, item, &mut execution.thread)
}

/// What is wanted comes next: piece by piece, until something is to be done in place, or asked of the machine or the
/// tree. A payment that cannot be made is left as it is.
///
/// A count of the pieces that would pass the end of its type ends it as well.
fn lead(alloc: Global, execution: &mut Execution, first: Want) -> Result<Next, NoMemory>
    ensures moves { Leads execution.old (λ c. remains c first) execution.new result }
    ensures held { execution.new.held ≡ execution.old.held }
{
    let mut want = first;
    let mut pieces: u64 = 0;
    'pieces: loop {
        if pieces == u64::MAX {
            return wanted(alloc, want);
        }
        pieces += 1;
        let item = match want {
            Want::Go(flow) => return Ok(passing(flow)),
            Want::Then(item) => item,
            Want::Both(item, frame) => match execution.work.push(frame) {
                Ok(()) => item,
                Err(no_memory) => {
                    drop(item);
                    return Err(no_memory);
                }
            },
            Want::Pay {
                of_tree,
                units,
                item,
            } => {
                if !spend(&mut execution.budget, of_tree, units) {
                    return wanted(
                        alloc,
                        Want::Pay {
                            of_tree,
                            units,
                            item,
                        },
                    );
                }
                item
            }
            other => return wanted(alloc, other),
        };
        if begins_in_place(&item) {
            return begin_in_place(alloc, execution, item);
        }
        want = begin_piece(alloc, execution, item)?;
    }
}

/// What comes next, piece by piece, until something is to be done in place or asked.
fn piece_on(alloc: Global, execution: &mut Execution, next: Next) -> Result<Next, NoMemory>
    ensures moves { Leads execution.old (due next) execution.new result }
    ensures held { execution.new.held ≡ execution.old.held }
{
    let want = next_piece(alloc, execution, next)?;
    lead(alloc, execution, want)
}

/// A way on comes to a frame, which goes on piece by piece; the way out of a body is gone at once.
fn leave(
    alloc: Global,
    execution: &mut Execution,
    frame: Frame,
    flow: Flow,
) -> Result<Next, NoMemory>
    ensures moves { Leads execution.old (goes_on frame flow) execution.new result }
    ensures held { execution.new.held ≡ execution.old.held }
{
    let want = match frame {
        Frame::Back { scope, left } => come_back(&mut execution.thread, scope, left, flow),
        Frame::Imported(left) => go_on_imported(left, flow, &mut execution.thread),
        frame => go_on(alloc, frame, flow, &mut execution.thread)?,
    };
    lead(alloc, execution, want)
}

/// A value comes to the work that waits.
fn came(alloc: Global, execution: &mut Execution, value: Value) -> Result<Next, NoMemory>
    ensures moves { Leads execution.old (due (nexts.Went value)) execution.new result }
    ensures held { execution.new.held ≡ execution.old.held }
{
    match execution.work.pop() {
        None => wanted(alloc, Want::Go(Flow::Went(value))),
        Some(Frame::Sized) => resume_sized(alloc, execution, value),
        Some(Frame::Block { stmts, at }) => resume_block(alloc, execution, stmts, at, value),
        Some(Frame::Loop { test, body, turns }) => {
            resume_loop(alloc, execution, test, body, turns, value)
        }
        Some(Frame::Operands { form, done }) => resume_operand(alloc, execution, form, done, value),
        Some(Frame::Decide { test, body, turns }) => {
            decide(alloc, execution, test, body, turns, value)
        }
        Some(Frame::Store(name)) => Ok(Next::Store(name, value)),
        Some(frame) => leave(alloc, execution, frame, Flow::Went(value)),
    }
}

/// A leave comes to the work that waits: to the first frame that stops it.
fn left(alloc: Global, execution: &mut Execution, way: Leave) -> Result<Next, NoMemory>
    ensures moves { Leads execution.old (due (nexts.Left way)) execution.new result }
    ensures held { execution.new.held ≡ execution.old.held }
{
    match execution.work.unwind(&way) {
        None => wanted(alloc, Want::Go(Flow::Left(way))),
        Some(frame) => leave(alloc, execution, frame, Flow::Left(way)),
    }
}

/// What comes next, until no work waits or something is to be asked of the machine or the tree.
///
/// A count of the turns that would pass the end of its type ends it as well.
fn straight(alloc: Global, execution: &mut Execution, first: Next) -> Result<Next, NoMemory>
    ensures moves { Leads execution.old (due first) execution.new result }
    ensures held { execution.new.held ≡ execution.old.held }
{
    let mut next = first;
    let mut turns: u64 = 0;
    'turns: loop {
        if turns == u64::MAX {
            return Ok(next);
        }
        turns += 1;
        let after = match next {
            Next::Went(value) => came(alloc, execution, value),
            Next::Left(way) => left(alloc, execution, way),
            Next::Evaluate(expr) => evaluate(alloc, execution, expr),
            Next::Block(stmts) => block(alloc, execution, stmts, 0),
            Next::Store(name, value) => {
                if !is_local_name(&execution.thread, &name) {
                    return Ok(Next::Store(name, value));
                }
                piece_on(alloc, execution, Next::Store(name, value))
            }
            Next::ReadGlobal(_) | Next::Member(_, _) | Next::Wanted(_) => {
                return Ok(next);
            }
            other => piece_on(alloc, execution, other),
        };
        match after {
            Ok(after) => next = after,
            Err(no_memory) => return Err(no_memory),
        }
    }
}

/// A way on comes to the work that waits. Where none is left, that is the end.
fn finish(alloc: Global, execution: &mut Execution, flow: Flow) -> Result<Turn, Halt>
    ensures turned { IfOk result (Stepped execution.old.budget execution.new (remains execution.old (wants.Go flow))) }
    ensures held { execution.new.held ≡ execution.old.held }
    ensures refused { IsErrOf result Halt.Refused → ⊥ }
{
    match next_frame(&mut execution.work, &flow) {
        None => Ok(Turn::Came(flow)),
        Some(frame) => match leave(alloc, execution, frame, flow) {
            Ok(next) => Ok(Turn::On(next)),
            Err(_) => Err(Halt::NoMemory),
        },
    }
}

/// What comes next, until the end or until something is to be asked of the machine or the tree.
pub fn go_straight(alloc: Global, execution: &mut Execution, next: Next) -> Result<Turn, Halt>
    ensures turned { IfOk result (Stepped execution.old.budget execution.new (due next execution.old)) }
    ensures held { execution.new.held ≡ execution.old.held }
    ensures refused { IsErrOf result Halt.Refused → ⊥ }
{
    match straight(alloc, execution, next) {
        Ok(next) => Ok(Turn::On(next)),
        Err(_) => Err(Halt::NoMemory),
    }
}

/// What is wanted comes next, until the end or until something is to be asked of the machine or the tree.
pub fn lead_on(alloc: Global, execution: &mut Execution, want: Want) -> Result<Turn, Halt>
    ensures turned { IfOk result (Stepped execution.old.budget execution.new (remains execution.old want)) }
    ensures held { execution.new.held ≡ execution.old.held }
    ensures refused { IsErrOf result Halt.Refused → ⊥ }
{
    match lead(alloc, execution, want) {
        Ok(next) => go_straight(alloc, execution, next),
        Err(_) => Err(Halt::NoMemory),
    }
}

/// A reply whose cost is paid comes to what waits for it.
fn reply_to(
    alloc: Global,
    execution: &mut Execution,
    on: OnReply,
    reply: Reply,
) -> Result<Turn, Halt>
    ensures turned { IfOk result (Stepped execution.old.budget execution.new (replied_at on reply execution.old)) }
    ensures held { execution.new.held ≡ execution.old.held }
    ensures refused { IsErrOf result Halt.Refused → ⊥ }
{
    match replied(alloc, on, reply, &mut execution.thread) {
        Ok(want) => lead_on(alloc, execution, want),
        Err(_) => Err(Halt::NoMemory),
    }
}

/// Whether a reply brings a value that is no path of a namespace.
fn has_plain_value(reply: &Reply) -> bool
    ensures { IsTrue result → HasPlainValue reply.now }
{
    match reply {
        Reply::Value(value) => !is_namespace_path(value),
        _ => false,
    }
}

/// Whether a reply brings a value to what waits for it, and nothing else is to be done: to the read of a variable of
/// the module, or of an attribute, that is no path of a namespace, and to the binding of a variable.
fn is_plain(on: &OnReply, reply: &Reply) -> bool
    ensures { IsTrue result → IsPlain on.now reply.now }
{
    match on {
        OnReply::Global(_) => has_plain_value(reply),
        OnReply::Member {
            module: _,
            name: _,
            is_raw: _,
        } => has_plain_value(reply),
        OnReply::Stored => match reply {
            Reply::Done => true,
            _ => false,
        },
        _ => false,
    }
}

/// The value that such a reply brings.
fn brought(reply: Reply) -> Value
    ensures { result ≡ brought reply }
{
    match reply {
        Reply::Value(value) => value,
        reply => {
            drop(reply);
            Value::Nothing
        }
    }
}

/// The reply to an event comes to what waits for it, once its cost is paid, and then all is done that can be in place.
pub fn follow(
    alloc: Global,
    execution: &mut Execution,
    on: OnReply,
    reply: Reply,
) -> Result<Turn, Halt>
    ensures turned { IfOk result (Stepped execution.old.budget execution.new
        (remains execution.old (wants.Replied on reply))) }
    ensures held { execution.new.held ≡ execution.old.held }
    ensures refused { IsErrOf result Halt.Refused → ⊥ }
{
    if !pay_reply(&mut execution.budget, &reply) {
        drop(on);
        drop(reply);
        return Ok(Turn::Out);
    }
    if is_plain(&on, &reply) {
        drop(on);
        return go_straight(alloc, execution, Next::Went(brought(reply)));
    }
    reply_to(alloc, execution, on, reply)
}

/// What is wanted that is to be asked neither of the machine nor of the tree.
pub fn work_on(alloc: Global, execution: &mut Execution, want: Want) -> Result<Turn, Halt>
    ensures turned { IfOk result (Stepped execution.old.budget execution.new (remains execution.old want)) }
    ensures held { execution.new.held ≡ execution.old.held }
    ensures refused { IsErrOf result Halt.Refused → ⊥ }
{
    match want {
        Want::Pay {
            of_tree,
            units,
            item,
        } => {
            if !execution.budget.pay(of_tree, units) {
                drop(item);
                return Ok(Turn::Out);
            }
            lead_on(alloc, execution, Want::Then(item))
        }
        Want::Replied(on, reply) => follow(alloc, execution, on, reply),
        Want::Go(flow) => finish(alloc, execution, flow),
        other => lead_on(alloc, execution, other),
    }
}

/// A procedure is fed.
pub fn feed(
    alloc: Global,
    execution: &mut Execution,
    procedure: Procedure,
    input: In,
) -> Result<Turn, Halt>
    ensures turned { IfOk result (Stepped execution.old.budget execution.new (feeds execution.old procedure input)) }
    ensures held { execution.new.held ≡ execution.old.held }
    ensures refused { IsErrOf result Halt.Refused → ⊥ }
{
    match fed(alloc, procedure, input, &mut execution.thread) {
        Ok(want) => lead_on(alloc, execution, want),
        Err(_) => Err(Halt::NoMemory),
    }
}
