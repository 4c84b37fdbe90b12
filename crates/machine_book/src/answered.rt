//! What an event changes.
ghost use Rattle.std.specs.Prelude.{◌≡◌, IfOk, OnOk, OnErr, IsTrue};
ghost use Rattle.machine_events.specs.Fitting.{Fits};
ghost use Rattle.machine_spec.specs.Allowed.{allowed};
ghost use Rattle.machine_spec.specs.Step.{step};
ghost use Rattle.machine_book.specs.Reads.{OnlyReads, is_told_at_once};

use base_types::{Exact, NoMemory};
use import_machine::Machine;
use machine_events::{Event, Reply};

/// Whether Ask has this answer only where nothing is waited for, and so nothing changed.
fn is_told_at_once(answer: &Reply) -> bool
    ensures { result ≡ is_told_at_once answer.now }
{
    matches!(answer, Reply::Module(_) | Reply::Missing | Reply::Halted)
}

/// Whether an event that gets this answer only reads. Ask does where its answer is told at once; else it may wait.
fn only_reads(event: &Event, answer: &Reply) -> bool
    ensures { IsTrue result → OnlyReads event.now answer.now }
{
    match event {
        Event::Ask(_) => is_told_at_once(answer),
        Event::GetVar { .. }
        | Event::Names(_)
        | Event::Source(_)
        | Event::Print(_)
        | Event::PathGet
        | Event::DirGet { .. }
        | Event::NsGet(_)
        | Event::TabGet(_) => true,
        Event::Take(_)
        | Event::Wake
        | Event::Add { .. }
        | Event::Finish { .. }
        | Event::Release(_)
        | Event::SetVar { .. }
        | Event::DelVar { .. }
        | Event::PathAdd { .. }
        | Event::DirSet { .. }
        | Event::Invalidate
        | Event::NsSet { .. }
        | Event::TabSet { .. }
        | Event::TabDel(_)
        | Event::ReloadBegin { .. }
        | Event::ReloadTake { .. }
        | Event::ReloadEnd { .. }
        | Event::AddLazy { .. }
        | Event::Rouse(_)
        | Event::Main { .. }
        | Event::End { .. } => false,
    }
}

/// The change that an event of a thread makes, which is allowed and whose answer is known, and the answer once more. Of an
/// event that only reads nothing is worked out again. An `Err` changes nothing.
pub(crate) fn answered(
    machine: &mut Machine,
    thread: u32,
    event: &Event,
    answer: &Reply,
) -> Result<Reply, NoMemory>
    requires may { IsTrue (allowed machine.old thread event.now) }
    requires answer { answer.now ≡ (step machine.old thread event.now).0 }
    ensures reply { IfOk result (λ it. it ≡ answer.now) }
    ensures fits { IfOk result (λ it. Fits event.now it) }
    ensures ok { OnOk result (machine.new ≡ (step machine.old thread event.now).1) }
    ensures err { OnErr result (machine.new ≡ machine.old) }
{
    machine.is_sound();
    if only_reads(event, answer) {
        let reply = answer.copy()?;
        return Ok(reply);
    }
    machine.step(thread, event.copy()?)
}
