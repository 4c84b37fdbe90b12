//! The path of a namespace, as a module reads its own.
ghost use Rattle.std.specs.Prelude.{◌≡◌, IfOk};
ghost use Rattle.std.specs.Option.{option_map};
ghost use Rattle.std.specs.FinMap as maps;
ghost use Rattle.meaning_state.specs.declared.thread.Source.{Source};
ghost use Rattle.meaning_script.specs.Meaning.{around_at};
ghost use Rattle.meaning_script.specs.Names as spec;
ghost use Rattle.py_frames.specs.Does.{Does, pieces};

use base_types::{Exact, NoMemory, Text};
use meaning_state::{Fault, Thread};
use py_frames::{Want, fail, replace};
use std::alloc::Global;

/// The name that the thread's own module was loaded under.
fn own_name(thread: &Thread) -> Result<Option<Text>, NoMemory>
    ensures { IfOk result (λ name. name ≡ option_map (λ (source : Source). source.name)
        (maps.get thread.now.state.kept thread.now.state.scope.load)) }
{
    match thread.state.kept.get(thread.state.scope.load) {
        None => Ok(None),
        Some(source) => Ok(Some(source.name.copy()?)),
    }
}

/// The path of a namespace was read in the module itself.
pub(crate) fn replace_own(alloc: Global, thread: &Thread, name: &Text) -> Result<Want, NoMemory>
    ensures { IfOk result (Does thread.now (pieces (λ w d. spec.replaces_own (around_at w d).access
        (maps.get thread.now.state.kept thread.now.state.scope.load) name.now) thread.now)) }
{
    match own_name(thread)? {
        None => fail(alloc, thread, Fault::NotInProfile),
        Some(module) => replace(alloc, thread, thread.state.scope.mid, module, name),
    }
}
