ghost use Rattle.std.specs.Prelude.{◌≡◌, IfOk};

use crate::no_memory::NoMemory;
use crate::seq::Seq;
use crate::text::Text;

/// A type whose copies are the same as contracts compare them.
pub trait Exact: Sized {
    fn copy(&self) -> Result<Self, NoMemory>
        ensures { IfOk result (λ it. it ≡ self.now) };
}

impl Exact for Text {
    fn copy(&self) -> Result<Text, NoMemory> {
        Ok(self.clone()?)
    }
}

impl<T: Exact + Drop> Exact for Seq<T> {
    fn copy(&self) -> Result<Seq<T>, NoMemory> {
        let mut copies = Seq::new(self.alloc());
        for item in self.as_slice() {
            copies.push(item.copy()?)?;
        }
        Ok(copies)
    }
}

impl<T: Exact> Exact for Option<T> {
    fn copy(&self) -> Result<Option<T>, NoMemory> {
        match self {
            None => Ok(None),
            Some(item) => Ok(Some(item.copy()?)),
        }
    }
}

impl Exact for u8 {
    fn copy(&self) -> Result<u8, NoMemory> {
        Ok(*self)
    }
}

impl Exact for u32 {
    fn copy(&self) -> Result<u32, NoMemory> {
        Ok(*self)
    }
}
