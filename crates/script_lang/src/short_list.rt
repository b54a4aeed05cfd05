//! Lists that store their first items inline.
ghost use Rattle.std.specs.Prelude.{◌≡◌, ◌<◌, ◌≤◌, ◌++◌, ◌∷◌, [], length, IfOk, IsOk, OnOk, OnErr};

use smallvec::SmallVec;
use std::alloc::{AllocError, Global};
use std::default::MadeWith;
use std::marker::Model;

/// A list whose first `N` items take no memory of their own.
#[derive(Drop)]
pub struct ShortList<T, const N: usize> {
    items: SmallVec<T, N>,
}

impl<T, const N: usize> Model for ShortList<T, N> {
    ghost use Rattle.std.specs.Prelude.{List, ◌≤◌};
    ghost use Rattle.script_lang.specs.Words.{coded_list};

    ghost Value = { List T };

    ghost coded = { coded_list T.code };

    ghost view = { λ l. l.items.items };

    ghost invariant = { λ l. N ≤ l.items.capacity };
}

impl<T: MadeWith<Global> + Drop, const N: usize> ShortList<T, N> {
    pub fn new(alloc: Global) -> ShortList<T, N>
        ensures { result ≡ [] }
    {
        ShortList {
            items: SmallVec::new(alloc),
        }
    }

    pub fn push(&mut self, item: T) -> Result<(), AllocError>
        ensures ok { OnOk result (self.new ≡ self.old ++ item ∷ []) }
        ensures err { OnErr result (self.new ≡ self.old) }
        ensures succeeds { length self.old < N → IsOk result }
    {
        self.items.push(item)?;
        Ok(())
    }

    pub fn as_slice(&self) -> &[T]
        ensures { result.now ≡ self.now }
    {
        self.items.as_slice()
    }
}

impl<T: MadeWith<Global> + Copy, const N: usize> ShortList<T, N> {
    /// A copy of the items; up to `N` take no memory of their own.
    pub fn from_slice(alloc: Global, items: &[T]) -> Result<ShortList<T, N>, AllocError>
        ensures value { IfOk result (λ list. list ≡ items.now) }
        ensures succeeds { length items.now ≤ N → IsOk result }
    {
        let items = SmallVec::from_slice(alloc, items)?;
        Ok(ShortList { items })
    }
}
