//! Dotted names.
ghost use Rattle.std.specs.Prelude.{◌≡◌, ◌↔◌, IsTrue, IsFalse, IfOk, MatchOption, None, Some, refl, nat_eq};
ghost use Rattle.std.specs.Cmp.{partial_equiv_from_equiv};
ghost use Rattle.std.specs.Cmp.Lexicographic.{pointwise, slice_cmp, nat_list_eq_equiv, nat_list_cmp_total, texts_po, texts_ties};
ghost use Rattle.std.specs.Cmp.Rules.{hashing};
ghost use Rattle.std.specs.Hash as fed;
ghost use Rattle.std.proofs.Common.{rules};
ghost use Rattle.std.specs.Ordering.{nat_cmp};
ghost use Rattle.spec_core.specs.Identifiers.{is_dotted};
ghost use Rattle.spec_core.specs.Known.{known_text};
ghost use Rattle.spec_core.specs.Names.{parent_of, tail_of, front_of, joined};

use crate::ident::is_dotted;
use crate::known::{KnownName, known_text};
use crate::view::DottedView;
use base_types::{Exact, NoMemory, Same, Text};
use std::alloc::{AllocError, Global};
use std::cmp::Ordering;
use std::hash::{Hash, Hasher};
use std::marker::Model;

/// A dotted name: identifiers joined by single dots, each in its own normal form NFKC and none a keyword. Contracts
/// see its bytes.
#[derive(Debug)]
pub struct Dotted {
    text: Text,
}

impl Model for Dotted {
    ghost use Rattle.std.specs.Prelude.{List, ℕ, IsTrue};
    ghost use Rattle.spec_core.specs.Identifiers.{is_dotted};

    ghost Value = { List ℕ };

    ghost view = { λ name. name.text };

    ghost invariant = { λ name. IsTrue (is_dotted name.text) };
}

impl Dotted {
    /// The name that a text spells. None exactly where the text is no dotted name.
    pub fn read(text: &Text) -> Result<Option<Dotted>, NoMemory>
        ensures { IfOk result (λ read. MatchOption read (IsFalse (is_dotted text.now))
            (λ name. (name ≡ text.now) × IsTrue (is_dotted text.now))) }
    {
        if is_dotted(text.alloc(), text.as_str())? {
            Ok(Some(Dotted::of(text.copy()?)))
        } else {
            Ok(None)
        }
    }

    /// A name that the import system itself knows.
    pub fn known(alloc: Global, name: KnownName) -> Result<Dotted, NoMemory>
        ensures { IfOk result (λ it. it ≡ known_text name) }
    {
        Ok(Dotted::of(Text::from_str(alloc, known_text(name))?))
    }

    /// The name with a text that is one.
    pub(crate) fn of(text: Text) -> Dotted
        requires { IsTrue (is_dotted text) }
        ensures { result ≡ text }
    {
        Dotted { text }
    }

    /// The whole name with its dots.
    pub fn text(&self) -> &str
        ensures value { result.now ≡ self.now }
        ensures dotted { IsTrue (is_dotted self.now) }
    {
        self.text.as_str()
    }

    /// The allocator that the name was made with.
    pub fn alloc(&self) -> Global {
        self.text.alloc()
    }

    /// The whole name as a text of its own.
    pub fn owned(&self) -> Result<Text, NoMemory>
        ensures { IfOk result (λ text. text ≡ self.now) }
    {
        self.text.copy()
    }

    /// The name, borrowed.
    pub fn view(&self) -> DottedView<'_>
        ensures { result ≡ self.now }
    {
        DottedView::of(self.alloc(), self.text())
    }

    /// The name without its last part. None exactly where it has no dot.
    pub fn parent(&self) -> Option<DottedView<'_>>
        ensures { result ≡ parent_of self.now }
    {
        self.view().parent()
    }

    /// The last part.
    pub fn tail(&self) -> &str
        ensures value { result.now ≡ tail_of self.now }
        ensures dotted { IsTrue (is_dotted result.now) }
        ensures one { parent_of result.now ≡ None }
    {
        self.view().tail()
    }

    /// The first part.
    pub fn front(&self) -> &str
        ensures value { result.now ≡ front_of self.now }
        ensures dotted { IsTrue (is_dotted result.now) }
        ensures one { parent_of result.now ≡ None }
    {
        self.view().front()
    }

    /// This name with one more part.
    pub fn child(&self, part: &Text) -> Result<Dotted, NoMemory>
        requires { IsTrue (is_dotted part.now) }
        ensures { IfOk result (λ it. it ≡ joined self.now part.now) }
    {
        self.view().followed_by(part.as_str())
    }
}

impl Clone for Dotted {
    ghost is_clone = { λ name it. it ≡ name };

    fn clone(&self) -> Result<Dotted, AllocError> {
        Ok(Dotted {
            text: self.text.clone()?,
        })
    }
}

impl Exact for Dotted {
    fn copy(&self) -> Result<Dotted, NoMemory> {
        Ok(self.clone()?)
    }
}

impl Same for Dotted {
    fn is_same(&self, other: &Dotted) -> bool {
        self.text.is_same(&other.text)
    }
}

impl PartialEq for Dotted {
    ghost eq = { pointwise nat_eq };

    ghost laws = { partial_equiv_from_equiv nat_list_eq_equiv };

    fn eq(&self, other: &Dotted) -> bool {
        self.text == other.text
    }
}

impl Eq for Dotted {
    ghost laws = { nat_list_eq_equiv };
}

impl PartialOrd for Dotted {
    ghost partial_cmp = { λ x y. Some (slice_cmp nat_cmp x y) };

    ghost laws = { texts_po };

    fn partial_cmp(&self, other: &Dotted) -> Option<Ordering> {
        Some(self.cmp(other))
    }
}

impl Ord for Dotted {
    ghost cmp = { slice_cmp nat_cmp };

    ghost total = { nat_list_cmp_total };

    ghost matches_partial_cmp = { λ x y. refl };

    ghost matches_eq = { texts_ties };

    fn cmp(&self, other: &Dotted) -> Ordering {
        self.text.cmp(&other.text)
    }
}

impl Hash for Dotted {
    ghost hash_input = { fed.str };

    ghost respects_eq = { Prim.search (hashing, rules) };

    fn hash<H: Hasher>(&self, state: &mut H) {
        self.text.hash(state);
    }
}

impl Drop for Dotted {
    fn drop(self) {
        let Dotted { text } = self;
        drop(text);
    }
}
