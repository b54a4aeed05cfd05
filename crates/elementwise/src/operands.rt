//! Two arrays that are broadcast together: in which scalar they are read, and their results when each
//! is cast as a whole and stretched.
ghost use Rattle.std.specs.Prelude.{IfOk, ◌≡◌};
ghost use Rattle.elementwise.specs.Words.{little};
ghost use Rattle.elementwise.specs.inside.Combined.{AreCastable, IsCombined};

use crate::fast::columns::made;
use crate::held::Held;
use crate::loops::row_pairs::{Broadcast, Operands};
use crate::pairing::Pairing;
use arrays::{Items, Owned};
use broadcasting::stretched_to;
use elem_descr::{Descr, Scalar};
use machine_numbers::little;
use shape_strides::Shape;
use std::alloc::{AllocError, Global};

/// The scalar in which two operands are read: a little-endian one, or the same in the byte order of
/// the larger operand, so that this operand is read in place.
pub(crate) fn read_as(scalar: &Scalar, left: Items<'_>, right: Items<'_>) -> Scalar
    requires { little scalar.now ≡ scalar.now }
    ensures { little result ≡ scalar.now }
{
    let is_right = left.layout.shape.items() < right.layout.shape.items();
    let larger = if is_right { right } else { left };
    match larger.descr {
        Descr::Scalar(from) if little(from) == *scalar => *from,
        _ => *scalar,
    }
}

/// The results for the items of two arrays, each of which is cast as a whole and then stretched.
/// Its frame is large, so it is not inlined.
#[inline(never)]
pub(crate) fn make_whole(
    alloc: Global,
    pairing: &Pairing,
    both: Broadcast<'_>,
) -> Result<Owned, AllocError>
    requires { AreCastable pairing.now both }
    ensures { IfOk result (IsCombined pairing.now both.entry) }
{
    let Broadcast { left, right, shape } = both;
    let _items = shape.items();
    let left_to = Descr::Scalar(pairing.left());
    let right_to = Descr::Scalar(pairing.right());
    let left_held = Held::of(alloc, left, &left_to)?;
    let right_held = Held::of(alloc, right, &right_to)?;
    let left = left_held.items();
    let right = right_held.items();
    let first = stretched_to(alloc, left.layout, shape)?;
    let second = stretched_to(alloc, right.layout, shape)?;
    let operands = Operands {
        left: Items {
            block: left.block,
            layout: &first,
            descr: left.descr,
        },
        right: Items {
            block: right.block,
            layout: &second,
            descr: right.descr,
        },
    };
    made(alloc, pairing, operands)
}
