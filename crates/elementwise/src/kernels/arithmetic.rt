//! Operations on two numbers of one type. Each works on the lowest 64 bits, of which a number keeps
//! as many as its type has.
ghost use Rattle.std.specs.Prelude.{true, ◌-ℤ◌};
ghost use Rattle.elementwise.specs.Clauses.{Little, integer, wrap, Add, Subtract, Multiply, And, Or, Xor, ShiftLeft, ShiftRight, binary, division_op};

use crate::kernels::bits;
use crate::loops::numbers::Kernel;
use machine_numbers::Number;

pub(crate) struct Adding;

impl<N: Number> Kernel<N, N, N> for Adding {
    ghost makes = { binary Add (N.scalar Little) };

    #[inline(always)]
    fn make(left: N, right: N) -> N {
        N::of_bits(left.bits().wrapping_add(right.bits()))
    }
}

pub(crate) struct Subtracting;

impl<N: Number> Kernel<N, N, N> for Subtracting {
    ghost makes = { binary Subtract (N.scalar Little) };

    #[inline(always)]
    fn make(left: N, right: N) -> N {
        N::of_bits(left.bits().wrapping_sub(right.bits()))
    }
}

pub(crate) struct Multiplying;

impl<N: Number> Kernel<N, N, N> for Multiplying {
    ghost makes = { binary Multiply (N.scalar Little) };

    #[inline(always)]
    fn make(left: N, right: N) -> N {
        N::of_bits(left.bits().wrapping_mul(right.bits()))
    }
}

pub(crate) struct BitwiseAnd;

impl<N: Number> Kernel<N, N, N> for BitwiseAnd {
    ghost makes = { binary And (N.scalar Little) };

    #[inline(always)]
    fn make(left: N, right: N) -> N {
        N::of_bits(left.bits() & right.bits())
    }
}

pub(crate) struct BitwiseOr;

impl<N: Number> Kernel<N, N, N> for BitwiseOr {
    ghost makes = { binary Or (N.scalar Little) };

    #[inline(always)]
    fn make(left: N, right: N) -> N {
        N::of_bits(left.bits() | right.bits())
    }
}

pub(crate) struct BitwiseXor;

impl<N: Number> Kernel<N, N, N> for BitwiseXor {
    ghost makes = { binary Xor (N.scalar Little) };

    #[inline(always)]
    fn make(left: N, right: N) -> N {
        N::of_bits(left.bits() ^ right.bits())
    }
}

pub(crate) struct LeftShift;

impl<N: Number> Kernel<N, N, N> for LeftShift {
    ghost makes = { binary ShiftLeft (N.scalar Little) };

    #[inline(always)]
    fn make(left: N, right: N) -> N {
        N::of_bits(bits::shift_left(8 * N::WIDTH as u64, left.bits(), right.bits()))
    }
}

pub(crate) struct RightShift;

impl<N: Number> Kernel<N, N, N> for RightShift {
    ghost makes = { binary ShiftRight (N.scalar Little) };

    #[inline(always)]
    fn make(left: N, right: N) -> N {
        N::of_bits(bits::shift_right(N::SIGNED, 8 * N::WIDTH as u64, left.bits(), right.bits()))
    }
}

/// These bits minus the second number.
pub(crate) struct SubtractingFrom<const BITS: u64>;

impl<const BITS: u64, N: Number> Kernel<N, N, N> for SubtractingFrom<BITS> {
    ghost makes = { λ _ b. wrap (N.scalar Little) (integer true 8 BITS -ℤ b) };

    #[inline(always)]
    fn make(_left: N, right: N) -> N {
        N::of_bits(BITS.wrapping_sub(right.bits()))
    }
}

/// Computes quotients or remainders.
pub(crate) struct Dividing<const LEAVES: bool>;

impl<const LEAVES: bool, N: Number> Kernel<N, N, N> for Dividing<LEAVES> {
    ghost makes = { binary (division_op LEAVES) (N.scalar Little) };

    #[inline(always)]
    fn make(left: N, right: N) -> N {
        let first = left.bits();
        let second = right.bits();
        let quotient = bits::quotient(N::SIGNED, first, second);
        N::of_bits(bits::division(LEAVES, first, second, quotient))
    }
}
