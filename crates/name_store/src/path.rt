//! Paths of fields.
ghost use Rattle.std.specs.Prelude.{◌≡◌, ◌<◌, ◌++◌, ◌∷◌, [], length};
ghost use Rattle.name_store.specs.Parts.{IsPathOf, descr_at};

use elem_descr::{Descr, MAX_DEPTH};
use std::marker::Model;

/// The numbers of the fields that lead to a part of an item, outermost first. The path to the whole
/// item is empty, and a path has at most as many fields as records can be nested.
#[derive(Clone, Copy)]
pub struct Path {
    numbers: [usize; MAX_DEPTH],
    len: usize,
}

impl Model for Path {
    ghost use Rattle.std.specs.Prelude.{List, ℕ, length, take};
    ghost use Rattle.name_store.specs.inside.KeptPaths.{IsKept, in_places, kept-len, kept-numbers};

    ghost Value = { List ℕ };

    ghost view = { λ p. take p.len p.numbers };

    ghost invariant = { λ p. IsKept p.len p.numbers };

    ghost inverse = { λ path. record { numbers = in_places path; len = length path } };

    ghost inverse_ok = { λ p h. λ i.
        record { numbers = kept-numbers p.len p.numbers h i; len = kept-len p.len p.numbers h i } };
}

impl Path {
    /// The path to the whole of an item.
    pub fn whole() -> Path
        ensures { result ≡ [] }
    {
        Path {
            numbers: [0; MAX_DEPTH],
            len: 0,
        }
    }

    /// The path to a field of the part that this path leads to.
    pub fn then(self, field: usize) -> Path
        requires { length self < 4 }
        ensures { result ≡ self ++ field ∷ [] }
    {
        let mut numbers = self.numbers;
        numbers[self.len] = field;
        Path {
            numbers,
            len: self.len + 1,
        }
    }

    fn as_slice(&self) -> &[usize]
        ensures { result.now ≡ self.now }
    {
        &self.numbers[..self.len]
    }

    /// The element type of the part that the path leads to, in items of this type.
    pub fn descr_in<'a>(&self, whole: &'a Descr) -> &'a Descr
        requires { IsPathOf whole.now self.now }
        ensures { result.now ≡ descr_at whole.now self.now }
    {
        let mut descr = whole;
        for number in self.as_slice() {
            descr = &descr.field(*number).descr;
        }
        descr
    }
}
