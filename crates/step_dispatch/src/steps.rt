//! One step of work, by what comes next.
ghost use Rattle.std.specs.Prelude.{IfOk};
ghost use Rattle.step_calls.specs.Sources.{sources};
ghost use Rattle.py_frames.specs.Does as meant;
ghost use Rattle.py_frames.specs.Does.{Does, DoesIn, begins, goes_on, pieces, replies};
ghost use Rattle.py_frames.specs.declared.replies.OnReply.TheVariants as ons;
ghost use Rattle.py_frames.specs.declared.work.Frame.TheVariants as frames;
ghost use Rattle.py_frames.specs.declared.work.Item.TheVariants as items;

use crate::callees::call;
use base_owners::Shared;
use base_types::NoMemory;
use base_types::Seq;
use find_load::In;
use machine_events::Reply;
use meaning_state::Flow;
use meaning_state::Thread;
use py_frames::Frame;
use py_frames::Item;
use py_frames::OnReply;
use py_frames::Procedure;
use py_frames::Want;
use py_frames::listed;
use py_frames::roused;
use py_frames::search_path;
use py_frames::search_path_read;
use py_syntax::Expr;
use py_syntax::Stmt;
use py_value::Value;
use std::alloc::Global;
use step_calls::begin as begin_body;
use step_calls::come_back;
use step_calls::give_default;
use step_calls::source_came;
use step_calls::start;
use step_calls::tell;
use step_compound::begin_bind;
use step_compound::begin_block;
use step_compound::begin_branches;
use step_compound::begin_handle;
use step_compound::begin_imports;
use step_compound::begin_match;
use step_compound::begin_statement;
use step_compound::begin_test;
use step_compound::begin_try;
use step_compound::begin_turn;
use step_compound::begun;
use step_compound::go_on_block;
use step_compound::go_on_catch;
use step_compound::go_on_decide;
use step_compound::go_on_end_handler;
use step_compound::go_on_finally;
use step_compound::go_on_handle;
use step_compound::go_on_handlers;
use step_compound::go_on_imports;
use step_compound::go_on_loop;
use step_compound::go_on_resume;
use step_compound::go_on_store;
use step_compound::go_on_test;
use step_compound::unbound;
use step_expressions::apply;
use step_expressions::atom;
use step_expressions::augment;
use step_expressions::call_callee;
use step_expressions::callee;
use step_expressions::choose;
use step_expressions::evaluate;
use step_expressions::give_sized;
use step_expressions::operand_value;
use step_expressions::operands;
use step_expressions::second;
use step_from_names::begin_ask_submodules;
use step_from_names::begin_from_module;
use step_from_names::begin_star;
use step_from_names::begin_stars;
use step_from_names::begin_submodule;
use step_from_names::begin_submodules;
use step_from_names::go_on_stars;
use step_from_names::go_on_submodules;
use step_from_names::go_on_tried_submodule;
use step_from_names::replied_all;
use step_from_names::replied_entry;
use step_from_names::replied_from_module;
use step_from_names::replied_if_package;
use step_from_names::replied_missed;
use step_from_names::replied_names;
use step_from_names::replied_submodule;
use step_imports::begin_alias;
use step_imports::begin_binding;
use step_imports::begin_bindings;
use step_imports::begin_feed;
use step_imports::begin_from;
use step_imports::begin_import;
use step_imports::begin_parent;
use step_imports::fed as fed_procedure;
use step_imports::go_on_bindings;
use step_imports::go_on_from;
use step_imports::go_on_front;
use step_imports::go_on_fronted;
use step_imports::go_on_imported;
use step_imports::go_on_open;
use step_imports::go_on_parts;
use step_imports::replied_feed;
use step_imports::replied_package;
use step_simple::deleted;
use step_simple::global;
use step_simple::member;
use step_simple::member_deleted;
use step_simple::member_read;
use step_simple::member_stored;
use step_simple::perform;
use step_simple::read_global;
use step_simple::store;
use step_simple::stored;
use step_sys::add_entry;
use step_sys::delete_entry;
use step_sys::entry_deleted;
use step_sys::entry_found;
use step_sys::entry_popped;
use step_sys::entry_set;
use step_sys::entry_told;
use step_sys::has_entry;
use step_sys::method;
use step_sys::path_added;
use step_sys::pop_entry;
use step_sys::read_entry;
use step_sys::set_entry;

/// The next turn of a loop.
#[tactic(auto, using(crate::proofs::Sourced::begins_want))]
fn turn(
    thread: &Thread,
    test: Shared<Expr>,
    body: Shared<Seq<Stmt>>,
    turns: u64,
) -> Result<Want, NoMemory>
    ensures { IfOk result (DoesIn sources thread.now (begins (items.Turn test body turns) thread.now sources)) }
{
    Ok(begin_turn(thread, test, body, turns))
}

/// Begins a piece of work.
///
/// Here stand the pieces that a script begins most often, all others in `begin_any`: a call clears
/// a place for each value that any arm takes, so a function with few arms is begun quickly.
#[tactic(auto, using(crate::proofs::Sourced::begins_in, crate::proofs::Sourced::begins_want))]
pub fn begin(alloc: Global, item: Item, thread: &mut Thread) -> Result<Want, NoMemory>
    ensures { IfOk result (DoesIn sources thread.new (begins item thread.old sources)) }
{
    match item {
        Item::Eval(expr) => evaluate(alloc, thread, expr),
        Item::Atom(expr) => atom(alloc, thread, expr),
        Item::Operands { form, done } => operands(alloc, thread, form, done),
        Item::Apply { expr, values } => apply(alloc, thread, expr, values),
        Item::Perform { stmts, at, values } => perform(alloc, thread, stmts, at, values),
        Item::Block { stmts, at } => begin_block(thread, stmts, at),
        Item::Statement { stmts, at } => begin_statement(alloc, thread, stmts, at),
        Item::Begun { stmts, at } => begun(alloc, thread, stmts, at),
        Item::Turn { test, body, turns } => turn(thread, test, body, turns),
        Item::Test { test, body, turns } => begin_test(thread, test, body, turns),
        Item::Imports { stmts, at, place } => begin_imports(thread, stmts, at, place),
        Item::Alias { stmts, at, place } => begin_alias(alloc, thread, &stmts, at, place),
        Item::Import {
            name,
            is_parent,
            is_lazy,
        } => begin_import(alloc, name, is_parent, is_lazy, thread),
        Item::Feed(procedure, input) => begin_feed(alloc, procedure, input, thread),
        Item::Call { callee, arguments } => call(alloc, thread, callee, arguments),
        Item::Member { object, name } => member(alloc, thread, object, name),
        item => begin_any(alloc, item, thread),
    }
}

/// Begins a piece of work of any kind.
#[tactic(auto, using(crate::proofs::Sourced::begins_in, crate::proofs::Sourced::begins_want))]
fn begin_any(alloc: Global, item: Item, thread: &mut Thread) -> Result<Want, NoMemory>
    ensures { IfOk result (DoesIn sources thread.new (begins item thread.old sources)) }
{
    match item {
        Item::Give(flow) => Ok(Want::Go(flow)),
        Item::Eval(expr) => evaluate(alloc, thread, expr),
        Item::Atom(expr) => atom(alloc, thread, expr),
        Item::Operands { form, done } => operands(alloc, thread, form, done),
        Item::Apply { expr, values } => apply(alloc, thread, expr, values),
        Item::Callee { expr, object } => call_callee(alloc, thread, expr, object),
        Item::Method {
            expr,
            object,
            values,
        } => method(alloc, thread, expr, object, values),
        Item::SearchPath => Ok(search_path(thread)),
        Item::ReadEntry { key, default } => read_entry(alloc, thread, key, default),
        Item::HasEntry { key, is_negated } => has_entry(alloc, thread, key, is_negated),
        Item::SetEntry { key, value } => set_entry(alloc, thread, key, value),
        Item::DeleteEntry(key) => delete_entry(alloc, thread, key),
        Item::PopEntry { key, default } => pop_entry(alloc, thread, key, default),
        Item::AddEntry { at, value } => add_entry(alloc, thread, at, value),
        Item::Perform { stmts, at, values } => perform(alloc, thread, stmts, at, values),
        Item::Choose { expr, left } => choose(alloc, thread, expr, left),
        Item::ReadGlobal(name) => read_global(thread, name),
        Item::Member { object, name } => member(alloc, thread, object, name),
        Item::Call { callee, arguments } => call(alloc, thread, callee, arguments),
        Item::Store { name, value } => store(thread, name, value),
        Item::Augment { name, op, values } => augment(alloc, thread, name, op, values),
        Item::Block { stmts, at } => begin_block(thread, stmts, at),
        Item::Statement { stmts, at } => begin_statement(alloc, thread, stmts, at),
        Item::Begun { stmts, at } => begun(alloc, thread, stmts, at),
        Item::Imports { stmts, at, place } => begin_imports(thread, stmts, at, place),
        Item::Alias { stmts, at, place } => begin_alias(alloc, thread, &stmts, at, place),
        Item::Import {
            name,
            is_parent,
            is_lazy,
        } => begin_import(alloc, name, is_parent, is_lazy, thread),
        Item::Parent { name, is_parent } => begin_parent(alloc, name, is_parent, thread),
        Item::From { stmts, at } => begin_from(alloc, thread, stmts, at),
        Item::FromModule {
            module,
            name,
            is_bound,
        } => begin_from_module(thread, module, name, is_bound),
        Item::AskSubmodules { module, names } => begin_ask_submodules(alloc, thread, module, names),
        Item::Submodules { module, names, at } => begin_submodules(thread, module, names, at),
        Item::Submodule { module, name } => begin_submodule(thread, module, name),
        Item::Bindings {
            module,
            stmts,
            at,
            place,
        } => begin_bindings(thread, module, stmts, at, place),
        Item::Binding {
            module,
            stmts,
            at,
            place,
        } => begin_binding(alloc, thread, module, &stmts, at, place),
        Item::Stars { module, names, at } => begin_stars(thread, module, names, at),
        Item::Star { module, name } => begin_star(thread, module, name),
        Item::Feed(procedure, input) => begin_feed(alloc, procedure, input, thread),
        Item::Start {
            mid,
            load,
            name,
            text,
        } => start(alloc, thread, mid, load, name, text),
        Item::Begin {
            mid,
            load,
            name,
            text,
        } => begin_body(alloc, thread, mid, load, name, text),
        Item::Branches {
            branches,
            at,
            otherwise,
        } => { begin_branches(thread, branches, at, otherwise) }
        Item::Turn { test, body, turns } => Ok(begin_turn(thread, test, body, turns)),
        Item::Test { test, body, turns } => begin_test(thread, test, body, turns),
        Item::Try { stmts, at } => begin_try(alloc, thread, stmts, at),
        Item::Match {
            handlers,
            at,
            error,
        } => begin_match(thread, handlers, at, error),
        Item::Bind {
            handlers,
            at,
            error,
        } => begin_bind(alloc, thread, handlers, at, error),
        Item::Handle {
            handlers,
            at,
            error,
        } => begin_handle(alloc, thread, &handlers, at, error),
    }
}

/// The size of a value is paid.
#[tactic(auto, using(crate::proofs::Sourced::goes_on_want))]
fn sized(thread: &Thread, flow: Flow) -> Result<Want, NoMemory>
    ensures { IfOk result (DoesIn sources thread.now (goes_on frames.Sized flow thread.now sources)) }
{
    Ok(give_sized(thread, flow))
}

/// The statements of a block go on.
#[tactic(auto, using(crate::proofs::Sourced::goes_on_want))]
fn block(thread: &Thread, stmts: Shared<Seq<Stmt>>, at: usize, flow: Flow) -> Result<Want, NoMemory>
    ensures { IfOk result (DoesIn sources thread.now (goes_on (frames.Block stmts at) flow thread.now sources)) }
{
    Ok(go_on_block(thread, stmts, at, flow))
}

/// The block of a loop is over.
#[tactic(auto, using(crate::proofs::Sourced::goes_on_want))]
fn turned(
    thread: &Thread,
    test: Shared<Expr>,
    body: Shared<Seq<Stmt>>,
    turns: u64,
    flow: Flow,
) -> Result<Want, NoMemory>
    ensures { IfOk result (DoesIn sources thread.now
        (goes_on (frames.Loop test body turns) flow thread.now sources)) }
{
    Ok(go_on_loop(thread, test, body, turns, flow))
}

/// An import is over.
#[tactic(auto, using(crate::proofs::Sourced::goes_on_want))]
fn imported(left: u32, flow: Flow, thread: &mut Thread) -> Result<Want, NoMemory>
    ensures { IfOk result (DoesIn sources thread.new (goes_on (frames.Imported left) flow thread.old sources)) }
{
    Ok(go_on_imported(left, flow, thread))
}

/// The imports of a statement go on.
#[tactic(auto, using(crate::proofs::Sourced::goes_on_want))]
fn import_next(
    thread: &Thread,
    stmts: Shared<Seq<Stmt>>,
    at: usize,
    place: usize,
    flow: Flow,
) -> Result<Want, NoMemory>
    ensures { IfOk result (DoesIn sources thread.now
        (goes_on (frames.Imports stmts at place) flow thread.now sources)) }
{
    Ok(go_on_imports(thread, stmts, at, place, flow))
}

/// A way on comes to what waited for it.
///
/// As in `begin`, the frames that wait most often stand here, and all others in `go_on_any`.
#[tactic(auto, using(crate::proofs::Sourced::goes_on_in, crate::proofs::Sourced::goes_on_want))]
pub fn go_on(alloc: Global, frame: Frame, flow: Flow, thread: &mut Thread) -> Result<Want, NoMemory>
    ensures { IfOk result (DoesIn sources thread.new (goes_on frame flow thread.old sources)) }
{
    match frame {
        Frame::Sized => sized(thread, flow),
        Frame::Operands { form, done } => operand_value(alloc, thread, form, done, flow),
        Frame::Block { stmts, at } => block(thread, stmts, at, flow),
        Frame::Decide { test, body, turns } => go_on_decide(alloc, thread, test, body, turns, flow),
        Frame::Loop { test, body, turns } => turned(thread, test, body, turns, flow),
        Frame::Imported(left) => imported(left, flow, thread),
        Frame::Imports { stmts, at, place } => import_next(thread, stmts, at, place, flow),
        Frame::Open(procedure) => go_on_open(alloc, procedure, flow, thread),
        frame => go_on_any(alloc, frame, flow, thread),
    }
}

/// A way on comes to what waited for it, of any kind.
#[tactic(auto, using(crate::proofs::Sourced::goes_on_in, crate::proofs::Sourced::goes_on_want))]
fn go_on_any(alloc: Global, frame: Frame, flow: Flow, thread: &mut Thread) -> Result<Want, NoMemory>
    ensures { IfOk result (DoesIn sources thread.new (goes_on frame flow thread.old sources)) }
{
    match frame {
        Frame::Sized => Ok(give_sized(thread, flow)),
        Frame::Operands { form, done } => operand_value(alloc, thread, form, done, flow),
        Frame::Callee(expr) => Ok(callee(thread, expr, flow)),
        Frame::Listed { item, at } => listed(alloc, thread, item, at, flow),
        Frame::Roused { event, reply } => Ok(roused(thread, event, reply, flow)),
        Frame::Second(expr) => Ok(second(thread, expr, flow)),
        Frame::Block { stmts, at } => Ok(go_on_block(thread, stmts, at, flow)),
        Frame::Test {
            branches,
            at,
            otherwise,
        } => { go_on_test(alloc, thread, branches, at, otherwise, flow) }
        Frame::Decide { test, body, turns } => {
            go_on_decide(alloc, thread, test, body, turns, flow)
        }
        Frame::Loop { test, body, turns } => Ok(go_on_loop(thread, test, body, turns, flow)),
        Frame::Handlers { stmts, at } => go_on_handlers(thread, &stmts, at, flow),
        Frame::Catch {
            handlers,
            at,
            error,
        } => { go_on_catch(alloc, thread, handlers, at, error, flow) }
        Frame::Handle {
            handlers,
            at,
            error,
        } => { Ok(go_on_handle(thread, handlers, at, error, flow)) }
        Frame::EndHandler(bound) => Ok(go_on_end_handler(thread, bound, flow)),
        Frame::Finally(block) => go_on_finally(thread, block, flow),
        Frame::Resume(before) => Ok(go_on_resume(thread, before, flow)),
        Frame::Store(name) => Ok(go_on_store(thread, name, flow)),
        Frame::Imports { stmts, at, place } => { Ok(go_on_imports(thread, stmts, at, place, flow)) }
        Frame::Front { stmts, at, place } => go_on_front(alloc, thread, stmts, at, place, flow),
        Frame::Fronted { stmts, at, place } => {
            go_on_fronted(alloc, thread, &stmts, at, place, flow)
        }
        Frame::Parts {
            stmts,
            at,
            place,
            part,
        } => go_on_parts(alloc, thread, &stmts, at, place, part, flow),
        Frame::From { stmts, at } => go_on_from(alloc, thread, &stmts, at, flow),
        Frame::Submodules { module, names, at } => {
            Ok(go_on_submodules(thread, module, names, at, flow))
        }
        Frame::TriedSubmodule(name) => go_on_tried_submodule(thread, name, flow),
        Frame::Bindings {
            module,
            stmts,
            at,
            place,
        } => Ok(go_on_bindings(thread, module, stmts, at, place, flow)),
        Frame::Stars { module, names, at } => Ok(go_on_stars(thread, module, names, at, flow)),
        Frame::Imported(left) => Ok(go_on_imported(left, flow, thread)),
        Frame::Open(procedure) => go_on_open(alloc, procedure, flow, thread),
        Frame::Back { scope, left } => Ok(come_back(thread, scope, left, flow)),
        Frame::HasAttr => Ok(tell(thread, flow)),
        Frame::GetAttr(default) => Ok(give_default(thread, default, flow)),
    }
}

/// A statement or call is done, whatever the reply.
fn done(thread: &Thread, reply: Reply) -> Want
    ensures { Does thread.now (replies ons.Done reply thread.now) result }
{
    let _ = thread;
    drop(reply);
    Want::Go(Flow::Went(Value::Nothing))
}

/// The reply to an event comes to what waited for it.
///
/// As in `begin`, what waits most often stands here, and all else in `replied_any`.
#[tactic(auto, using(crate::proofs::Sourced::replies_in, crate::proofs::Sourced::replies_want))]
pub fn replied(
    alloc: Global,
    on: OnReply,
    reply: Reply,
    thread: &mut Thread,
) -> Result<Want, NoMemory>
    ensures { IfOk result (DoesIn sources thread.new (replies on reply thread.old sources)) }
{
    match on {
        OnReply::Global(name) => global(alloc, thread, name, reply),
        OnReply::Stored => stored(alloc, thread, reply),
        OnReply::Feed(procedure) => replied_feed(alloc, procedure, reply, thread),
        OnReply::Member {
            module,
            name,
            is_raw,
        } => member_read(alloc, thread, module, name, is_raw, reply),
        on => replied_any(alloc, on, reply, thread),
    }
}

/// The reply to an event comes to what waited for it, of any kind.
#[tactic(auto, using(crate::proofs::Sourced::replies_in, crate::proofs::Sourced::replies_want))]
fn replied_any(
    alloc: Global,
    on: OnReply,
    reply: Reply,
    thread: &mut Thread,
) -> Result<Want, NoMemory>
    ensures { IfOk result (DoesIn sources thread.new (replies on reply thread.old sources)) }
{
    match on {
        OnReply::Done => Ok(done(thread, reply)),
        OnReply::Global(name) => global(alloc, thread, name, reply),
        OnReply::Member {
            module,
            name,
            is_raw,
        } => member_read(alloc, thread, module, name, is_raw, reply),
        OnReply::Stored => stored(alloc, thread, reply),
        OnReply::MemberStored {
            module,
            name,
            value,
            is_raw,
        } => member_stored(alloc, thread, module, name, value, is_raw, reply),
        OnReply::Deleted(name) => deleted(alloc, thread, name, reply),
        OnReply::MemberDeleted {
            module,
            name,
            is_raw,
        } => member_deleted(alloc, thread, module, name, is_raw, reply),
        OnReply::Unbound(flow) => Ok(unbound(thread, flow, reply)),
        OnReply::Sourced {
            load,
            index,
            arguments,
        } => { source_came(alloc, thread, load, index, arguments, reply) }
        OnReply::Feed(procedure) => replied_feed(alloc, procedure, reply, thread),
        OnReply::FromModule {
            module,
            name,
            is_bound,
            is_raw,
        } => replied_from_module(alloc, thread, module, name, is_bound, is_raw, reply),
        OnReply::Entry {
            module,
            name,
            is_initialising,
        } => replied_entry(alloc, thread, module, name, is_initialising, reply),
        OnReply::IfPackage {
            module,
            names,
            is_raw,
        } => replied_if_package(alloc, thread, module, names, is_raw, reply),
        OnReply::Submodule {
            module,
            name,
            is_raw,
        } => replied_submodule(alloc, thread, &module, &name, is_raw, reply),
        OnReply::Missed(error) => Ok(replied_missed(thread, error, reply)),
        OnReply::All { module, is_raw } => replied_all(alloc, thread, module, is_raw, reply),
        OnReply::Names(module) => replied_names(alloc, thread, module, reply),
        OnReply::SearchPath => search_path_read(alloc, thread, reply),
        OnReply::EntryFound { key, default } => entry_found(alloc, thread, key, default, reply),
        OnReply::EntryTold(is_negated) => entry_told(alloc, thread, is_negated, reply),
        OnReply::EntrySet => entry_set(alloc, thread, reply),
        OnReply::EntryDeleted(key) => entry_deleted(alloc, thread, key, reply),
        OnReply::EntryPopped { key, default } => entry_popped(alloc, thread, key, default, reply),
        OnReply::PathAdded => path_added(alloc, thread, reply),
        OnReply::Package { stmts, at } => replied_package(alloc, thread, &stmts, at, reply),
    }
}

/// A procedure is fed.
#[tactic(auto, using(crate::proofs::Sourced::pieces_in))]
pub fn fed(
    alloc: Global,
    procedure: Procedure,
    input: In,
    thread: &mut Thread,
) -> Result<Want, NoMemory>
    ensures { IfOk result (DoesIn sources thread.new (pieces
        (λ w d. meant.fed w d procedure input) thread.old sources)) }
{
    fed_procedure(alloc, procedure, input, thread)
}
