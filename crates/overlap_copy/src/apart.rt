//! Decides by byte ranges and strides whether two layouts in one block are disjoint.
ghost use Rattle.std.specs.Prelude.{IsTrue, false, if◌then◌else◌, length, nat_le, pos, slice_index_or, unsigned_abs, ◌%◌, ◌+◌, ◌<◌, ◌↔◌, ◌∷◌, ◌≡◌};
ghost use Rattle.overlap_copy.specs.Clauses.{AreApart, IsGcd, IsGreatestDivisor, LieBetween, steps, do_ranges_meet, have_common_byte, Fits, max_bytes, offsets};

use shape_strides::Layout;

/// The greatest common divisor, by Euclid's steps.
pub(crate) fn common_divisor(a: usize, b: usize) -> usize
    ensures { IsGcd a b result }
{
    let mut divisor = a;
    let mut rest = b;
    while rest > 0 {
        let next = divisor % rest;
        divisor = rest;
        rest = next;
    }
    divisor
}

/// How many bytes an axis steps over in either direction, or 0 if it has fewer than two items.
fn step_along(strides: &[isize], axis: usize, len: usize) -> usize
    requires { axis < length strides.now }
    ensures { result
        ≡ (if nat_le 2 len then unsigned_abs (slice_index_or strides.now axis (pos 0)) else 0) }
{
    if len < 2 {
        return 0;
    }
    strides[axis].unsigned_abs()
}

/// The greatest common divisor of a number and all steps of a layout.
fn divisor_with(number: usize, layout: &Layout) -> usize
    ensures { IsGreatestDivisor result (number ∷ steps layout.now) }
{
    let lengths = layout.shape.as_slice();
    let strides = layout.strides.as_slice();
    let mut divisor = number;
    for (axis, len) in lengths.iter().enumerate() {
        divisor = common_divisor(divisor, step_along(strides, axis, *len));
    }
    divisor
}

/// The difference of two numbers, modulo a third.
fn difference(from: usize, to: usize, modulus: usize) -> usize
    requires { 0 < modulus }
    ensures below { result < modulus }
    ensures value { (from + result) % modulus ≡ to % modulus }
{
    let from = from % modulus;
    let to = to % modulus;
    if from <= to {
        to - from
    } else {
        modulus - (from - to)
    }
}

/// Whether the items of `b` fall into the gaps between the items of `a`, judged by the common
/// divisor of all strides.
fn lie_between(a: &Layout, a_item: usize, b: &Layout, b_item: usize) -> bool
    ensures { IsTrue result ↔ LieBetween a.now a_item b.now b_item }
{
    let divisor = divisor_with(divisor_with(0, a), b);
    if divisor == 0 {
        return false;
    }
    let behind = difference(a.offset, b.offset, divisor);
    a_item <= behind && b_item <= divisor - behind
}

/// Whether the items of two layouts, of `a_item` and `b_item` bytes, may have bytes in common. They
/// have none if one layout is empty, if every byte of one is below every byte of the other, or if
/// the strides show that the items of one fall between those of the other. It takes no memory, and
/// time proportional to the number of axes.
pub fn may_overlap(a: &Layout, a_item: usize, b: &Layout, b_item: usize) -> bool
    requires a_fits { Fits a.now max_bytes a_item }
    requires b_fits { Fits b.now max_bytes b_item }
    ensures exact { result ≡ false ↔ AreApart a.now a_item b.now b_item }
    ensures sound { result ≡ false
        → have_common_byte (offsets a.now) a_item (offsets b.now) b_item ≡ false }
{
    if !ranges_meet(a, a_item, b, b_item) {
        return false;
    }
    !lie_between(a, a_item, b, b_item)
}

/// Whether the byte ranges of two layouts, with items of `a_item` and `b_item` bytes, overlap.
/// Items can share bytes only if they do. It takes no memory, and time proportional to the number
/// of axes.
pub fn ranges_meet(a: &Layout, a_item: usize, b: &Layout, b_item: usize) -> bool
    requires a_fits { Fits a.now max_bytes a_item }
    requires b_fits { Fits b.now max_bytes b_item }
    ensures value { result ≡ do_ranges_meet (offsets a.now) a_item (offsets b.now) b_item }
    ensures sound { result ≡ false
        → have_common_byte (offsets a.now) a_item (offsets b.now) b_item ≡ false }
{
    let a = a.span(a_item);
    let b = b.span(b_item);
    a.start < b.end && b.start < a.end
}
