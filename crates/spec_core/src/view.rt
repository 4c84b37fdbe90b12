//! A dotted name that is part of another.
ghost use Rattle.std.specs.Prelude.{◌≡◌, IfOk, IsTrue, ℕ, List, None};
ghost use Rattle.spec_core.specs.Names.{parent_of, tail_of, front_of, joined};
ghost use Rattle.spec_core.specs.Identifiers.{is_dotted};

use crate::name::Dotted;
use crate::parts::{around_last_dot, front_of, tail_of};
use base_types::{NoMemory, Text};
use std::alloc::Global;
use std::marker::Model;

/// A dotted name that is borrowed from a longer one, as its parent is. Contracts see its bytes.
#[derive(Drop)]
pub struct DottedView<'a> {
    text: &'a str,
    alloc: Global,
}

impl<'a> Model for DottedView<'a> {
    ghost use Rattle.std.specs.Prelude.{List, ℕ, IsTrue};
    ghost use Rattle.spec_core.specs.Identifiers.{is_dotted};

    ghost Value = { List ℕ };

    ghost view = { λ name. name.text.now };

    ghost invariant = { λ name. IsTrue (is_dotted name.text.now) };
}

impl<'a> DottedView<'a> {
    /// A view of a text that is a dotted name.
    pub(crate) fn of(alloc: Global, text: &'a str) -> DottedView<'a>
        requires { IsTrue (is_dotted text.now) }
        ensures { result ≡ text.now }
    {
        DottedView { text, alloc }
    }

    /// The whole name with its dots.
    pub fn text(&self) -> &'a str
        ensures { result.now ≡ self.now }
    {
        self.text
    }

    /// The name as one of its own.
    pub fn own(&self) -> Result<Dotted, NoMemory>
        ensures { IfOk result (λ it. it ≡ self.now) }
    {
        Ok(Dotted::of(Text::from_str(self.alloc, self.text)?))
    }

    /// The name without its last part. None exactly where it has no dot.
    pub fn parent(&self) -> Option<DottedView<'a>>
        ensures { result ≡ parent_of self.now }
    {
        match around_last_dot(self.text) {
            Some((front, _)) => Some(DottedView::of(self.alloc, front)),
            None => None,
        }
    }

    /// The last part.
    pub fn tail(&self) -> &'a str
        ensures value { result.now ≡ tail_of self.now }
        ensures dotted { IsTrue (is_dotted result.now) }
        ensures one { parent_of result.now ≡ None }
    {
        tail_of(self.text)
    }

    /// The first part.
    pub fn front(&self) -> &'a str
        ensures value { result.now ≡ front_of self.now }
        ensures dotted { IsTrue (is_dotted result.now) }
        ensures one { parent_of result.now ≡ None }
    {
        front_of(self.text)
    }

    /// This name with a further one behind it.
    pub(crate) fn followed_by(&self, name: &str) -> Result<Dotted, NoMemory>
        requires { IsTrue (is_dotted name.now) }
        ensures { IfOk result (λ it. it ≡ joined self.now name.now) }
    {
        let mut text = Text::from_str(self.alloc, self.text)?;
        text.push_str(".")?;
        text.push_str(name)?;
        Ok(Dotted::of(text))
    }
}
