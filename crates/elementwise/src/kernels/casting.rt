//! Casts of the numbers of operands: which kernel does them.
ghost use Rattle.std.specs.Prelude.{◌*◌, ◌≡◌, ◌≤◌};
ghost use Rattle.elementwise.specs.Clauses.{IsNumber, Little, item_size, size, wrap, AreAllMade, pairs_of, number_pair};

use crate::loops::numbers::{Kernel, append};
use crate::loops::row_pairs::Operands;
use elem_descr::{Order, Scalar, Width};
use machine_numbers::{HighFirst, LowFirst, Number, Ordered};
use raw_block::BlockBuilder;

/// The first number, cast to another type.
struct Casting;

impl<S: Number, T: Number> Kernel<S, S, T> for Casting {
    ghost makes = { λ a _. wrap (T.scalar Little) a };

    #[inline(always)]
    fn make(left: S, _right: S) -> T {
        T::of_bits(left.bits())
    }
}

/// The first of two numbers of one type, cast to a scalar. Whether the scalar is signed makes no
/// difference to the bytes.
pub(crate) fn cast<S: Number, P: Ordered>(
    scalar: &Scalar,
    block: BlockBuilder,
    operands: Operands<'_, '_>,
) -> BlockBuilder
    requires number { IsNumber scalar.now }
    requires left { item_size operands.left.descr.now ≡ S.WIDTH }
    requires right { item_size operands.right.descr.now ≡ S.WIDTH }
    requires room { pairs_of operands * size scalar.now ≤ block.1 }
    ensures { AreAllMade
        (number_pair (S.scalar P.order) (S.scalar P.order) scalar.now (λ a _. wrap scalar.now a))
        (size scalar.now) operands.entry block result }
{
    match scalar {
        Scalar::Bool => append::<Casting, S, S, bool, P, LowFirst>(block, operands),
        Scalar::Byte { .. } => append::<Casting, S, S, u8, P, LowFirst>(block, operands),
        Scalar::Int { width, order, .. } => match (width, order) {
            (Width::Two, Order::Little) => append::<Casting, S, S, u16, P, LowFirst>(
                block, operands,
            ),
            (Width::Two, Order::Big) => append::<Casting, S, S, u16, P, HighFirst>(block, operands),
            (Width::Four, Order::Little) => append::<Casting, S, S, u32, P, LowFirst>(
                block, operands,
            ),
            (Width::Four, Order::Big) => append::<Casting, S, S, u32, P, HighFirst>(
                block, operands,
            ),
            (Width::Eight, Order::Little) => append::<Casting, S, S, u64, P, LowFirst>(
                block, operands,
            ),
            (Width::Eight, Order::Big) => append::<Casting, S, S, u64, P, HighFirst>(
                block, operands,
            ),
        },
        Scalar::Bytes(_) => unreachable!(),
    }
}
