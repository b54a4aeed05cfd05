//! Comparisons of the numbers of operands: which kernel does them.
ghost use Rattle.std.specs.Prelude.{if◌then◌else◌, int_lt, pos, ◌≡◌, ◌≤◌};
ghost use Rattle.elementwise.specs.Clauses.{BoolScalar, says, item_size, AreAllMade, pairs_of, number_pair, said, says_number};

use crate::kernels::bits;
use crate::loops::numbers::{Kernel, append};
use crate::loops::row_pairs::Operands;
use elem_descr::Comparison;
use machine_numbers::{LowFirst, Number, Ordered};
use raw_block::BlockBuilder;

/// The result of a comparison, given whether the first value is less or greater than the second.
pub(crate) fn says(comparison: Comparison, below: bool, above: bool) -> bool
    ensures { result ≡ says comparison below above }
{
    match comparison {
        Comparison::Equal => !(below || above),
        Comparison::NotEqual => below || above,
        Comparison::Less => below,
        Comparison::LessOrEqual => !above,
        Comparison::Greater => above,
        Comparison::GreaterOrEqual => !below,
    }
}

/// `HOLDS` if `BELOW & below` or `ABOVE & above`, and `!HOLDS` otherwise.
#[inline(always)]
pub(crate) fn is_said<const BELOW: bool, const ABOVE: bool, const HOLDS: bool>(
    below: bool,
    above: bool,
) -> bool
    ensures { result ≡ said BELOW ABOVE HOLDS below above }
{
    (BELOW & below | ABOVE & above) == HOLDS
}

/// A comparison of two numbers, which may be of two types. It is `HOLDS` if the first is less than
/// the second and `BELOW` is true, or if it is greater and `ABOVE` is true; otherwise the other
/// bool.
struct Said<const BELOW: bool, const ABOVE: bool, const HOLDS: bool>;

impl<const BELOW: bool, const ABOVE: bool, const HOLDS: bool, A: Number, B: Number> Kernel<
    A,
    B,
    bool,
> for Said<BELOW, ABOVE, HOLDS> {
    ghost makes = { λ a b. if said BELOW ABOVE HOLDS (int_lt a b) (int_lt b a)
        then pos 1 else pos 0 };

    #[inline(always)]
    fn make(left: A, right: B) -> bool {
        let first = left.bits();
        let second = right.bits();
        let below = bits::is_below(A::SIGNED, first, B::SIGNED, second);
        let above = bits::is_below(B::SIGNED, second, A::SIGNED, first);
        is_said::<BELOW, ABOVE, HOLDS>(below, above)
    }
}

type Same = Said<true, true, false>;

type Different = Said<true, true, true>;

type Below = Said<true, false, true>;

type AtMost = Said<false, true, false>;

type Above = Said<false, true, true>;

type AtLeast = Said<true, false, false>;

/// A comparison of numbers of two types, which appends bools.
#[inline(never)]
pub(crate) fn compare<A: Number, B: Number, O: Ordered>(
    comparison: Comparison,
    block: BlockBuilder,
    operands: Operands<'_, '_>,
) -> BlockBuilder
    requires left { item_size operands.left.descr.now ≡ A.WIDTH }
    requires right { item_size operands.right.descr.now ≡ B.WIDTH }
    requires room { pairs_of operands ≤ block.1 }
    ensures { AreAllMade
        (number_pair (A.scalar O.order) (B.scalar O.order) BoolScalar (says_number comparison)) 1
        operands.entry block result }
{
    match comparison {
        Comparison::Equal => append::<Same, A, B, bool, O, LowFirst>(block, operands),
        Comparison::NotEqual => append::<Different, A, B, bool, O, LowFirst>(block, operands),
        Comparison::Less => append::<Below, A, B, bool, O, LowFirst>(block, operands),
        Comparison::LessOrEqual => append::<AtMost, A, B, bool, O, LowFirst>(block, operands),
        Comparison::Greater => append::<Above, A, B, bool, O, LowFirst>(block, operands),
        Comparison::GreaterOrEqual => append::<AtLeast, A, B, bool, O, LowFirst>(block, operands),
    }
}
