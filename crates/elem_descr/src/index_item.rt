//! The items of an index list.
ghost use Rattle.std.specs.Prelude.{◌≡◌};
ghost use Rattle.elem_descr.specs.Clauses.{is_basic, is_ellipsis};

/// One item of an index list, in which an array is given as an `A`.
#[derive(Clone, Copy, Debug, Default, PartialEq, Eq, Drop)]
pub enum IndexItem<A> {
    Integer(i128),
    /// `start:stop:step`
    Slice {
        start: Option<i128>,
        stop: Option<i128>,
        step: Option<i128>,
    },
    /// `...`
    #[default]
    Ellipsis,
    /// `None`
    NewAxis,
    /// An array of indices, or a mask.
    Array(A),
}

impl<A> IndexItem<A> {
    /// Whether it is not an array.
    pub fn is_basic(&self) -> bool
        ensures { result ≡ is_basic self.now }
    {
        !matches!(self, IndexItem::Array(_))
    }

    pub fn is_ellipsis(&self) -> bool
        ensures { result ≡ is_ellipsis self.now }
    {
        matches!(self, IndexItem::Ellipsis)
    }
}
