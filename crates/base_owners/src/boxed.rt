//! An owner of a value on the heap.
ghost use Rattle.std.specs.Prelude.{◌≡◌, IfOk, MatchResult};

use base_types::NoMemory;
use std::alloc::Global;
use std::marker::Model;

/// A value on the heap, which contracts see as the value. What holds a large value rarely is small by
/// it, so that it is moved quickly.
pub struct Boxed<T> {
    inner: Box<T>,
}

impl<T> Model for Boxed<T> {
    ghost Value = { T };

    ghost coded = { T.code };

    ghost view = { λ b. b.inner.value };
}

impl<T> Boxed<T> {
    /// The value.
    pub fn into_inner(self) -> T
        ensures { result ≡ self }
    {
        let Boxed { inner } = self;
        Box::into_inner(inner)
    }

    /// The value, to be looked at.
    pub fn get(&self) -> &T
        ensures { result.now ≡ self.now }
    {
        &*self.inner
    }
}

impl<T> Boxed<T> {
    ghost use Rattle.std.specs.Borrow.{Lends, sem};
    ghost use Rattle.base_owners.specs.contracts.boxed.Boxed.{the_row};

    /// The value, to be changed where it lies.
    pub fn get_mut(&mut self) -> &mut T
        ensures* writes_back { sem 𝓛 (Lends (the_row T.row) T.row self.entry result (λ w. w)) }
        ensures value { result.now ≡ self.old }
    {
        self.inner.as_mut()
    }

    /// Puts a value on the heap. Where there is no memory for it, it comes back.
    pub fn hold(alloc: Global, value: T) -> Result<Boxed<T>, T>
        ensures { MatchResult result (λ it. it ≡ value) (λ back. back ≡ value) }
    {
        match Box::new(alloc, value) {
            Ok(inner) => Ok(Boxed { inner }),
            Err(refused) => Err(refused.value),
        }
    }
}

impl<T: Drop> Boxed<T> {
    /// Puts a value on the heap. An `Err` comes for want of memory alone, and drops the value.
    pub fn new(alloc: Global, value: T) -> Result<Boxed<T>, NoMemory>
        ensures { IfOk result (λ it. it ≡ value) }
    {
        Ok(Boxed {
            inner: Box::new(alloc, value)?,
        })
    }
}

impl<T: Drop> Drop for Boxed<T> {
    fn drop(self) {
        let Boxed { inner } = self;
        drop(inner);
    }
}
