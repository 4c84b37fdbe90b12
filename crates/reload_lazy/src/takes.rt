//! The lock of a reload, and then its body.
ghost use Rattle.std.specs.Prelude.{◌≡◌, ◌<◌, IfOk};
ghost use Rattle.machine_events.specs.declared.event.Event.TheVariants as ev;
ghost use Rattle.machine_events.specs.declared.event.Reply.TheVariants as replies;
ghost use Rattle.meaning_runs.specs.Runs.{Makes};
ghost use Rattle.meaning_state.specs.declared.fault.Fault.TheVariants as faults;
ghost use Rattle.find_load.specs.declared.words.In.TheVariants as ins;
ghost use Rattle.meaning_script.specs.Pieces.{most, pay};
ghost use Rattle.meaning_script.specs.Reload.{spec_found, stops, text_found};
ghost use Rattle.reload_lazy.specs.Reload.{ReloadGoes, meant, named, takes};
ghost use Rattle.reload_lazy.specs.Reloading.{again, body_again, called, does_at, keeps_state, loads_found, stops_at, take_event};
ghost use Rattle.reload_lazy.specs.declared.reloader.Awaited.TheVariants as await;

use crate::raises::{stop, stop_misfit};
use crate::reloader::{Awaited, Finding, Reloader};
use crate::waits::wait_for;
use base_types::{Exact, NoMemory, Seq, Texts};
use find_load::{Want, most};
use machine_events::{Event, Reply};
use meaning_state::Fault;
use py_value::{Items, ModRef, NsState};
use spec_core::{Dotted, Spec, SpecKind};

/// No turn is left: more is to be paid than any budget has.
fn overspend(p: &mut Reloader, name: Dotted) -> Want
    ensures goes { ReloadGoes (λ _ s k. pay most (stops (called p.old name) faults.NotInProfile s k)) p.new result }
{
    let payment = Want::Pay {
        of_tree: false,
        units: most(),
    };
    wait_for(p, name, Awaited::Spent, payment)
}

/// What the module is loaded by again.
fn spec_of(of: &ModRef, name: &Dotted, finding: &Finding) -> Result<Spec, NoMemory>
    ensures { IfOk result (λ it. it ≡ spec_found (named of.now name.now) (meant finding.now)) }
{
    match finding {
        Finding::Source { spec, .. } => spec.copy(),
        Finding::Space { portions, .. } => {
            let name = name.copy()?;
            let path = portions.copy()?;
            Spec::of(name, SpecKind::Namespace { path })
        }
    }
}

/// The text of its body, which is empty for a namespace.
fn text_of(finding: &Finding) -> Result<Seq<u8>, NoMemory>
    ensures { IfOk result (λ it. it ≡ text_found (meant finding.now)) }
{
    match finding {
        Finding::Source { text, .. } => text.copy(),
        Finding::Space { portions, .. } => Ok(Seq::new(portions.alloc())),
    }
}

/// The lock is asked for, to load what was found.
fn event_of(of: &ModRef, name: &Dotted, finding: &Finding) -> Result<Event, NoMemory>
    ensures { IfOk result (λ event. event ≡ take_event (named of.now name.now) finding.now) }
{
    let spec = spec_of(of, name, finding)?;
    let text = text_of(finding)?;
    Ok(Event::ReloadTake {
        mid: of.mid(),
        spec,
        text,
    })
}

/// A turn is taken by this event.
fn spend(p: &mut Reloader, name: Dotted, epoch: u64, finding: Finding, event: Event) -> Want
    requires turns { 0 < p.old.turns }
    requires event { event ≡ take_event (called p.old name) finding }
    ensures goes { ReloadGoes (again p.old name epoch finding) p.new result }
{
    p.turns -= 1;
    wait_for(p, name, Awaited::Took { epoch, finding }, Want::Call(event))
}

/// A turn is taken: the lock is asked for.
fn ask(p: &mut Reloader, name: Dotted, epoch: u64, finding: Finding) -> Result<Want, NoMemory>
    requires { 0 < p.old.turns }
    ensures goes { IfOk result (ReloadGoes (again p.old name epoch finding) p.new) }
{
    match event_of(&p.module, &name, &finding) {
        Ok(event) => Ok(spend(p, name, epoch, finding, event)),
        Err(error) => {
            drop(name);
            drop(finding);
            Err(error)
        }
    }
}

/// The next turn.
pub(crate) fn take(
    p: &mut Reloader,
    name: Dotted,
    epoch: u64,
    finding: Finding,
) -> Result<Want, NoMemory>
    ensures goes { IfOk result (ReloadGoes (again p.old name epoch finding) p.new) }
{
    if p.turns == 0 {
        drop(finding);
        return Ok(overspend(p, name));
    }
    ask(p, name, epoch, finding)
}

/// The first turn, once something was found.
pub(crate) fn take_first(
    p: &mut Reloader,
    name: Dotted,
    epoch: u64,
    finding: Finding,
) -> Result<Want, NoMemory>
    ensures goes { IfOk result (ReloadGoes (λ inside. takes inside most (called p.old name) epoch finding) p.new) }
{
    p.turns = most();
    take(p, name, epoch, finding)
}

/// The lock is waited for, and then the next turn is taken.
fn wait(p: &mut Reloader, name: Dotted, epoch: u64, finding: Finding) -> Want
    ensures goes { ReloadGoes (λ inside s k. Makes ev.Wake
        (λ _. again p.old name epoch finding inside s k)) p.new result }
{
    wait_for(p, name, Awaited::Waits { epoch, finding }, Want::Wait)
}

/// The body of the module runs again.
fn run_body(p: &mut Reloader, name: Dotted, load: u32, text: Seq<u8>) -> Result<Want, NoMemory>
    ensures goes { IfOk result (ReloadGoes (body_again p.old name load text) p.new) }
{
    let body = Want::Body {
        mid: p.module.mid(),
        load,
        name: name.owned()?,
        text,
    };
    Ok(wait_for(p, name, Awaited::Running(load), body))
}

/// A namespace has no body: the path that it was found on is kept.
fn keep_space(p: &mut Reloader, name: Dotted, load: u32, mid: u32, state: NsState) -> Want
    ensures goes { ReloadGoes (λ inside. keeps_state (called p.old name) state load mid) p.new result }
{
    let keep = Want::Call(Event::NsSet { mid, state });
    wait_for(p, name, Awaited::SpaceKept(load), keep)
}

/// The lock is taken: the module is loaded again.
fn load_again(
    p: &mut Reloader,
    name: Dotted,
    epoch: u64,
    finding: Finding,
    load: u32,
    mid: u32,
) -> Result<Want, NoMemory>
    ensures goes { IfOk result (ReloadGoes (loads_found p.old name epoch finding load mid) p.new) }
{
    match finding {
        Finding::Source { spec, text } => {
            drop(spec);
            run_body(p, name, load, text)
        }
        Finding::Space { path, portions } => {
            let state = NsState::of(path, epoch, portions)?;
            Ok(keep_space(p, name, load, mid, state))
        }
    }
}

/// Waiting for the lock would close a cycle.
fn stop_deadlock(p: &mut Reloader, name: Dotted) -> Result<Want, NoMemory>
    ensures goes { IfOk result (ReloadGoes (stops_at p.old name (faults.Deadlock name)) p.new) }
{
    let text = name.owned()?;
    Ok(stop(p, name, Fault::Deadlock(text)))
}

/// The module is not the entry of its name any more.
fn stop_not_cached(p: &mut Reloader, name: Dotted) -> Result<Want, NoMemory>
    ensures goes { IfOk result (ReloadGoes (stops_at p.old name (faults.NoLongerCached name)) p.new) }
{
    let text = name.owned()?;
    Ok(stop(p, name, Fault::NoLongerCached(text)))
}

/// The lock was asked for.
pub(crate) fn took(
    p: &mut Reloader,
    name: Dotted,
    epoch: u64,
    finding: Finding,
    reply: Reply,
) -> Result<Want, NoMemory>
    ensures goes { IfOk result (ReloadGoes (does_at p.old name (await.Took epoch finding) (ins.Replied reply)) p.new) }
{
    match reply {
        Reply::Load(load, mid) => load_again(p, name, epoch, finding, load, mid),
        Reply::Wait(_) => Ok(wait(p, name, epoch, finding)),
        Reply::Deadlock => {
            drop(finding);
            stop_deadlock(p, name)
        }
        Reply::NotThere => {
            drop(finding);
            stop_not_cached(p, name)
        }
        other => {
            drop(finding);
            Ok(stop_misfit(p, name, other))
        }
    }
}
