//! What a running script keeps.
ghost use Rattle.drive_straight.specs.Remains.{Fresh};

use drive_account::{Budget, Held};
use meaning_state::{Scope, Stack, State, Thread};
use py_frames::Work;
use spec_core::NumberMap;
use std::alloc::Global;

/// What a running script keeps: its budget, what it holds of the machine, what its steps see, and
/// the work that waits.
#[derive(Drop)]
pub struct Execution {
    pub budget: Budget,
    pub held: Held,
    pub thread: Thread,
    pub work: Work,
}

/// The most bodies, calls and imports that may be open at once.
const DEPTH: u32 = 200;

impl Execution {
    /// What a script keeps before its first step. It takes no memory.
    pub fn first(alloc: Global, script: u32, fuel: u64) -> Execution
        ensures { Fresh script fuel result }
    {
        Execution {
            budget: Budget {
                left: fuel,
                read: None,
                of_tree: false,
            },
            held: Held::new(alloc),
            thread: Thread {
                left: DEPTH,
                state: State {
                    scope: Scope {
                        mid: script,
                        load: script,
                        function: None,
                    },
                    kept: NumberMap::new(alloc),
                    handling: Stack::new(alloc),
                },
            },
            work: Work::new(alloc),
        }
    }
}
