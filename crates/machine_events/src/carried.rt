//! What an event carries that is large.
ghost use Rattle.std.specs.Prelude.{◌≡◌, IfOk};

use base_types::{Exact, NoMemory, Same};
use std::alloc::Global;
use std::marker::Model;
use std::sync::Arc;

/// What an event carries that is large and rare: a copy is one owner more, whichever thread has it, and contracts see
/// the value. By it all events are small, and a history holds one of them for each thing that was done.
pub struct Carried<T> {
    inner: Arc<T>,
}

impl<T> Model for Carried<T> {
    ghost use Rattle.std.specs.Arc.{arc_value};

    ghost Value = { T };

    ghost coded = { T.code };

    ghost view = { λ it. arc_value it.inner };
}

impl<T> Carried<T> {
    /// The value, to be looked at.
    pub fn get(&self) -> &T
        ensures { result.now ≡ self.now }
    {
        self.inner.as_ref()
    }
}

impl<T: Drop> Carried<T> {
    /// Puts a value on the heap, with one owner. An `Err` comes for want of memory alone, and drops the value.
    pub fn new(alloc: Global, value: T) -> Result<Carried<T>, NoMemory>
        ensures { IfOk result (λ it. it ≡ value) }
    {
        Ok(Carried {
            inner: Arc::new(alloc, value)?,
        })
    }
}

impl<T: Drop> Exact for Carried<T> {
    fn copy(&self) -> Result<Carried<T>, NoMemory> {
        Ok(Carried {
            inner: self.inner.clone()?,
        })
    }
}

impl<T: Same> Same for Carried<T> {
    fn is_same(&self, other: &Carried<T>) -> bool {
        self.get().is_same(other.get())
    }
}

impl<T: Drop> Drop for Carried<T> {
    fn drop(self) {
        let Carried { inner } = self;
        drop(inner);
    }
}
