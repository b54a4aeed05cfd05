//! What differs from reduction to reduction: the type of its result, whether it needs items, its
//! result without items, and the loop that computes it.
ghost use Rattle.std.specs.Prelude.{IfOk, [], length, true, ℕ, ◌*◌, ◌<◌, ◌≡◌, ◌≤◌};
ghost use Rattle.reductions.specs.Clauses.{needs_items, result_scalar, Little, Scalar, item_at, max_items, size, AreReduced, HaveItems, IsReduced, IsStored, lists_from, depends_on_order};

use crate::fills::reduced;
use crate::folds::{Best, PlaceOf, Truth, Wrapping};
use crate::lines::Numbers;
use elem_descr::{Order, Red, Scalar, Width};
use machine_numbers::{LowFirst, Number, NumberTask, Ordered, little};
use raw_block::{BlockBuilder, RawBlock};
use shape_strides::StridedAxis;
use std::alloc::{AllocError, Global};

/// The type of a result. That of a sum is signed, unless the items are unsigned integers.
pub(crate) fn result_scalar(reduction: Red, scalar: &Scalar) -> Scalar
    ensures { result ≡ result_scalar reduction scalar.now }
{
    let signed = match (reduction, scalar) {
        (Red::Sum | Red::Product, Scalar::Byte { signed } | Scalar::Int { signed, .. }) => *signed,
        _ => true,
    };
    match reduction {
        Red::Minimum | Red::Maximum => little(scalar),
        Red::Any | Red::All => Scalar::Bool,
        _ => Scalar::Int {
            signed,
            width: Width::Eight,
            order: Order::Little,
        },
    }
}

/// Whether a reduction needs at least one item.
pub(crate) fn needs_items(reduction: Red) -> bool
    ensures { result ≡ needs_items reduction }
{
    matches!(
        reduction,
        Red::Minimum | Red::Maximum | Red::ArgMin | Red::ArgMax
    )
}

/// Whether the result depends on the order of the numbers.
pub(crate) fn depends_on_order(reduction: Red) -> bool
    ensures { result ≡ depends_on_order reduction }
{
    matches!(reduction, Red::ArgMin | Red::ArgMax)
}

/// A block with `count` copies of one number.
fn repeated<T: Number>(alloc: Global, total: T, count: usize) -> Result<RawBlock, AllocError>
    requires { count ≤ max_items }
    ensures items { IfOk result (λ b. (k : ℕ) → k < count
        → IsStored (T.scalar Little) (T.value total) (item_at (k * T.WIDTH) T.WIDTH b)) }
    ensures len { IfOk result (λ b. length b ≡ count * T.WIDTH) }
{
    let mut item = [0; 8];
    total.write::<LowFirst>(&mut item[..T::WIDTH]);
    let mut block = BlockBuilder::try_new(alloc, count * T::WIDTH)?;
    block.push_repeated(&item[..T::WIDTH], count);
    Ok(block.finish())
}

/// A block with `count` results of a reduction of no items, if it is defined for no items.
pub(crate) fn empty_block(
    alloc: Global,
    reduction: Red,
    count: usize,
) -> Result<RawBlock, AllocError>
    requires few { count ≤ max_items }
    requires none { needs_items reduction ≡ true → count ≡ 0 }
    ensures items { IfOk result (λ b. (scalar : Scalar) (k : ℕ) → k < count
        → IsReduced reduction scalar [] (item_at (k * size (result_scalar reduction scalar))
        (size (result_scalar reduction scalar)) b)) }
    ensures len { IfOk result (λ b. (scalar : Scalar)
        → length b ≡ count * size (result_scalar reduction scalar)) }
{
    match reduction {
        Red::Sum => repeated(alloc, 0_u64, count),
        Red::Product => repeated(alloc, 1_u64, count),
        Red::Any => repeated(alloc, false, count),
        Red::All => repeated(alloc, true, count),
        _ => RawBlock::try_zeroed(alloc, 0),
    }
}

/// A block with the reductions of lists, one after another: of the list of all numbers of a layout,
/// or of the lists along an axis that start at each of them.
#[derive(Drop)]
pub(crate) struct Reducing<'a> {
    pub(crate) alloc: Global,
    pub(crate) reduction: Red,
    pub(crate) firsts: Numbers<'a>,
    pub(crate) axis: Option<StridedAxis>,
}

impl<'a> NumberTask for Reducing<'a> {
    type Out = Result<RawBlock, AllocError>;

    ghost Needs = { λ t scalar. (size t.firsts.scalar.now ≡ size scalar)
        × HaveItems t.firsts t.axis };

    ghost Gives = { λ t scalar block. IfOk block
        (AreReduced t.reduction scalar t.firsts.bytes.now (size (result_scalar t.reduction scalar))
        (lists_from t.firsts.layout.now t.axis)) };

    fn run<N: Number, O: Ordered>(self) -> Result<RawBlock, AllocError> {
        let (alloc, firsts, axis) = (self.alloc, self.firsts, self.axis);
        match self.reduction {
            Red::Sum => reduced::<N, O, Wrapping<false>>(alloc, firsts, axis),
            Red::Product => reduced::<N, O, Wrapping<true>>(alloc, firsts, axis),
            Red::Minimum => reduced::<N, O, Best<false>>(alloc, firsts, axis),
            Red::Maximum => reduced::<N, O, Best<true>>(alloc, firsts, axis),
            Red::Any => reduced::<N, O, Truth<false>>(alloc, firsts, axis),
            Red::All => reduced::<N, O, Truth<true>>(alloc, firsts, axis),
            Red::ArgMin => reduced::<N, O, PlaceOf<false>>(alloc, firsts, axis),
            Red::ArgMax => reduced::<N, O, PlaceOf<true>>(alloc, firsts, axis),
        }
    }
}
