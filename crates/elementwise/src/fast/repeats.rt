//! Pairs of items that repeat: compared once, and their bools written many times.
ghost use Rattle.std.specs.Prelude.{IfOk, IsTrue, ◌≡◌};
ghost use Rattle.elementwise.specs.Clauses.{BoolScalar, ScalarDescr, can_stretch, AreCompared, AreComparable, IsMade, stretched_items};

use crate::casts::cast_numbers;
use crate::fast::layouts::without_repeats;
use crate::loops::row_pairs::Broadcast;
use crate::scalar_comparisons::compare_scalars;
use arrays::{Items, Owned};
use broadcasting::{repeats, stretched_to};
use elem_descr::{Comparison, Scalar};
use shape_strides::Shape;
use std::alloc::{AllocError, Global};

/// The bools of an array that is stretched to a shape, in a block of their own.
fn spread(alloc: Global, made: &Owned, shape: &Shape) -> Result<Owned, AllocError>
    requires bools { made.now.descr ≡ ScalarDescr BoolScalar }
    requires stretches { IsTrue (can_stretch made.now.layout.shape shape.now) }
    ensures { IfOk result
        (IsMade (ScalarDescr BoolScalar) shape.now
        (stretched_items made.now.descr made.now.block made.now.layout shape.now)) }
{
    let _items = shape.items();
    let items = made.items();
    let wide = stretched_to(alloc, items.layout, shape)?;
    let bools = Items {
        block: items.block,
        layout: &wide,
        descr: items.descr,
    };
    cast_numbers(alloc, bools, &Scalar::Bool, &Scalar::Bool)
}

/// A comparison of numbers, or of byte strings. Pairs of items that repeat are compared once.
pub(crate) fn compare_once(
    alloc: Global,
    comparison: Comparison,
    both: Broadcast<'_>,
) -> Result<Owned, AllocError>
    requires { AreComparable both.left.descr.now both.right.descr.now }
    ensures { IfOk result (AreCompared comparison both.entry) }
{
    let Broadcast { left, right, shape } = both;
    if !repeats(left.layout) && !repeats(right.layout) {
        return compare_scalars(alloc, comparison, both);
    }
    let small = without_repeats(alloc, left.layout, right.layout, shape)?;
    let once = Broadcast {
        left: Items {
            block: left.block,
            layout: &small.0,
            descr: left.descr,
        },
        right: Items {
            block: right.block,
            layout: &small.1,
            descr: right.descr,
        },
        shape: &small.0.shape,
    };
    let made = compare_scalars(alloc, comparison, once)?;
    spread(alloc, &made, shape)
}
