//! The kinds of index arrays.
ghost use Rattle.std.specs.Prelude.{◌≡◌};
ghost use Rattle.fancy_index.specs.Clauses.{index_array_of, kind};

use arrays::Items;
use elem_descr::{Descr, Scalar};

/// The kinds of index arrays.
#[derive(Clone, Copy, Debug, PartialEq, Eq)]
pub(crate) enum Kind {
    /// Numbers along an axis.
    Integers,
    /// A mask: the indexes at which it is true, along as many axes as it has.
    Mask,
    /// Not an index.
    NoIndex,
}

/// The kind of index that an array is.
pub(crate) fn kind_of(array: Items<'_>) -> Kind
    ensures { result ≡ kind (index_array_of array.entry) }
{
    match (array.descr, array.layout.shape.as_slice()) {
        (Descr::Scalar(Scalar::Byte { .. }), _) => Kind::Integers,
        (Descr::Scalar(Scalar::Int { .. }), _) => Kind::Integers,
        (Descr::Scalar(Scalar::Bool), [_, ..]) => Kind::Mask,
        _ => Kind::NoIndex,
    }
}
