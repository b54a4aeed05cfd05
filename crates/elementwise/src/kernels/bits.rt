//! Operations on numbers that are given by their lowest 64 bits; all higher bits repeat the sign.
//! Also a note for the prover that bytes are below 256.
ghost use Rattle.std.specs.Prelude.{◌≡◌, ◌<◌, ◌≤◌, Bool, int_lt, slice_index_or, ℕ};
ghost use Rattle.elementwise.specs.Clauses.{Scalar, integer, low_bits, exact, floor_quotient, shifted_left, shifted_right, division_op, is_negative, magnitude_of};

/// Whether the number is negative.
#[inline(always)]
pub(crate) fn is_negative(signed: bool, bits: u64) -> bool
    ensures { result ≡ is_negative signed bits }
{
    signed && bits >= 1 << 63
}

/// The absolute value of a number.
#[inline(always)]
pub(crate) fn magnitude(negative: bool, bits: u64) -> u64
    ensures { result ≡ magnitude_of negative bits }
{
    if negative { bits.wrapping_neg() } else { bits }
}

/// The bits of a quotient, rounded down. Division by 0 gives 0.
#[inline(always)]
pub(crate) fn quotient(signed: bool, left: u64, right: u64) -> u64
    ensures { result
        ≡ low_bits 8 (floor_quotient (integer signed 8 left) (integer signed 8 right)) }
{
    let below = is_negative(signed, left);
    let over = is_negative(signed, right);
    let size = magnitude(below, left);
    let divisor = magnitude(over, right);
    if size == 0 || divisor == 0 {
        return 0;
    }
    if below == over {
        return size / divisor;
    }
    !((size - 1) / divisor)
}

/// The bits of a quotient, or of the remainder that it leaves. Division by 0 gives 0.
#[inline(always)]
pub(crate) fn division(leaves: bool, left: u64, right: u64, quotient: u64) -> u64
    ensures { (signed : Bool) (scalar : Scalar)
        → quotient ≡ low_bits 8 (floor_quotient (integer signed 8 left) (integer signed 8 right))
        → result
        ≡ low_bits 8
        (exact (division_op leaves) scalar (integer signed 8 left) (integer signed 8 right)) }
{
    if !leaves {
        return quotient;
    }
    if right == 0 {
        return 0;
    }
    left.wrapping_sub(right.wrapping_mul(quotient))
}

/// The bits of a number of `width` bits, shifted left. The shift itself is by less than `width`,
/// and a longer one selects 0, so there is no branch.
#[inline(always)]
pub(crate) fn shift_left(width: u64, left: u64, right: u64) -> u64
    requires { width ≤ 64 }
    ensures { (signed : Bool)
        → result
        ≡ low_bits 8 (shifted_left width (integer signed 8 left) (integer signed 8 right)) }
{
    let moved = left << (right % width.max(1));
    if right < width { moved } else { 0 }
}

/// The bits of a number of `width` bits, shifted right.
#[inline(always)]
pub(crate) fn shift_right(signed: bool, width: u64, left: u64, right: u64) -> u64
    requires { width ≤ 64 }
    ensures { result
        ≡ low_bits 8 (shifted_right width (integer signed 8 left) (integer signed 8 right)) }
{
    let by = right % width.max(1);
    let moved = if signed {
        (left.cast_signed() >> by).cast_unsigned()
    } else {
        left >> by
    };
    let sign = if is_negative(signed, left) {
        u64::MAX
    } else {
        0
    };
    if right < width { moved } else { sign }
}

/// Whether a number is less than another. If both are signed, a single comparison decides.
#[inline(always)]
pub(crate) fn is_below(left_signed: bool, left: u64, right_signed: bool, right: u64) -> bool
    ensures { result ≡ int_lt (integer left_signed 8 left) (integer right_signed 8 right) }
{
    if left_signed && right_signed {
        return left.cast_signed() < right.cast_signed();
    }
    let below = is_negative(left_signed, left);
    if below == is_negative(right_signed, right) {
        left < right
    } else {
        below
    }
}

/// Tells the prover that the elements of a `u8` slice are below 256. Does nothing.
pub(crate) fn note_slice(bytes: &[u8])
    ensures { (k : ℕ) → slice_index_or bytes.now k 0 < 256 }
{
    let _len = bytes.len();
}
