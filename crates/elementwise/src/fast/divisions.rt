//! Divisions of pairs of numbers. If there are many numbers and a single divisor, its reciprocal is
//! used.
ghost use Rattle.elementwise.specs.Bits.{IsTruth};
ghost use Rattle.elementwise.specs.Operations.{binary, exact, floor_quotient};
ghost use Rattle.std.specs.Prelude.{IfSome, true, unsigned_abs, ℕ, ◌*◌, ◌-◌, ◌/◌, ◌<◌, ◌^◌, ◌≡◌, ◌≤◌};
ghost use Rattle.elementwise.specs.Words.{Little, Scalar, integer, is_bool, low_bits, number_of_side};
ghost use Rattle.elementwise.specs.inside.PairPasses.{division_op, number_pair};
ghost use Rattle.elementwise.specs.inside.Sides.{pair_count, AreMade};

use crate::fast::byte_divisions::push_divided_bytes;
use crate::kernels::arithmetic::Dividing;
use crate::kernels::bits::{self, is_negative, magnitude, note_slice};
use crate::loops::numbers::Numbers;
use crate::loops::row_pairs::{Pairs, Pass};
use crate::tuning::{FEW_PAIRS, MANY_BYTES};
use machine_numbers::{LowFirst, Number, Ordered};
use raw_block::BlockBuilder;
use std::marker::PhantomData;

/// The divisor of all pairs, if there are many pairs with a single divisor other than 0.
fn divisor_of<N: Number, O: Ordered>(pairs: Pairs<'_, '_>) -> Option<Divisor>
    requires { pairs.right.width ≡ N.WIDTH }
    ensures signed { IfSome result (λ d. d.signed ≡ N.SIGNED) }
    ensures truth { IfSome result (λ d. is_bool (N.scalar Little) ≡ true
        → IsTruth (integer N.SIGNED 8 d.bits)) }
    ensures small { IfSome result (λ d. unsigned_abs (integer N.SIGNED 8 d.bits)
        < 2 ^ (8 * N.WIDTH)) }
    ensures each { IfSome result (λ d. (k : ℕ) → k < pair_count pairs.entry
        → number_of_side (N.scalar O.order) pairs.entry.right k ≡ integer N.SIGNED 8 d.bits) }
{
    note_slice(pairs.right.bytes);
    if pairs.right.run.step != 0 || pairs.right.run.count < FEW_PAIRS {
        return None;
    }
    let bits = pairs.right.number::<N, O>(0).bits();
    let size = magnitude(is_negative(N::SIGNED, bits), bits);
    if size == 0 {
        return None;
    }
    Some(Divisor {
        signed: N::SIGNED,
        bits,
        size,
        reciprocal: u64::MAX / size,
    })
}

/// Appends the quotients or remainders of the first numbers of pairs, which all have this divisor.
#[inline(always)]
fn push_divided<const LEAVES: bool, N: Number, O: Ordered>(
    block: BlockBuilder,
    pairs: Pairs<'_, '_>,
    divisor: Divisor,
) -> BlockBuilder
    requires left { pairs.left.width ≡ N.WIDTH }
    requires signed { divisor.signed ≡ N.SIGNED }
    requires truth { is_bool (N.scalar Little) ≡ true → IsTruth (integer N.SIGNED 8 divisor.bits) }
    requires small { unsigned_abs (integer N.SIGNED 8 divisor.bits) < 2 ^ (8 * N.WIDTH) }
    requires each { (k : ℕ) → k < pair_count pairs
        → number_of_side (N.scalar O.order) pairs.right k ≡ integer N.SIGNED 8 divisor.bits }
    requires room { pair_count pairs * N.WIDTH ≤ block.1 }
    ensures { AreMade
        (number_pair (N.scalar O.order) (N.scalar O.order) (N.scalar Little)
        (binary (division_op LEAVES) (N.scalar Little))) N.WIDTH pairs.entry block result }
{
    note_slice(pairs.left.bytes);
    let mut block = block;
    for k in 0..pairs.left.run.count {
        let left = pairs.left.number::<N, O>(k);
        let bits = divisor.division(LEAVES, N::SIGNED, N::WIDTH, left.bits());
        N::of_bits(bits).push::<LowFirst>(&mut block);
    }
    block
}

/// Quotients or remainders of numbers in a byte order.
#[derive_where(Clone, Copy)]
pub(crate) struct Divisions<const LEAVES: bool, N, O>(pub(crate) PhantomData<(N, O)>);

impl<const LEAVES: bool, N: Number, O: Ordered> Pass for Divisions<LEAVES, N, O> {
    ghost makes = { λ _. number_pair (N.scalar O.order) (N.scalar O.order) (N.scalar Little)
        (binary (division_op LEAVES) (N.scalar Little)) };

    ghost Reads = { λ _ width width'. (width ≡ N.WIDTH) × (width' ≡ N.WIDTH) };

    ghost width = { λ _. N.WIDTH };

    ghost not_empty = { λ _. N.is_small.0 };

    fn push_row(&self, block: BlockBuilder, pairs: Pairs<'_, '_>) -> BlockBuilder {
        let Pairs { left, right } = pairs;
        let near = N::WIDTH as isize;
        let many_bytes = N::WIDTH == 1 && !N::SIGNED && left.run.count >= MANY_BYTES;
        let one_by_one = Numbers::<Dividing<LEAVES>, N, N, N, O, LowFirst>(PhantomData);
        match divisor_of::<N, O>(pairs) {
            Some(divisor) if left.run.step == near => {
                let pairs = pairs.with_steps(N::WIDTH as isize, right.run.step);
                push_divided::<LEAVES, N, O>(block, pairs, divisor)
            }
            Some(divisor) => push_divided::<LEAVES, N, O>(block, pairs, divisor),
            None if many_bytes && left.run.step == 1 && right.run.step == 1 => {
                push_divided_bytes::<LEAVES, N, O>(block, pairs.with_steps(1, 1))
            }
            None => one_by_one.push_row(block, pairs),
        }
    }
}

/// A number of 16 bits, divided by another. The product with the reciprocal, rounded down, is the
/// quotient or one less.
#[inline(always)]
fn divided_16(number: u16, by: u16, reciprocal: u16) -> u16
    requires some { 1 ≤ by }
    requires divides { reciprocal ≡ (2 ^ 16 - 1) / by }
    ensures { result ≡ number / by }
{
    let (_, near) = number.carrying_mul(reciprocal, 0);
    let rest = number - near * by;
    if rest >= by { near + 1 } else { near }
}

/// A number of 32 bits, divided by another.
#[inline(always)]
fn divided_32(number: u32, by: u32, reciprocal: u32) -> u32
    requires some { 1 ≤ by }
    requires divides { reciprocal ≡ (2 ^ 32 - 1) / by }
    ensures { result ≡ number / by }
{
    let (_, near) = number.carrying_mul(reciprocal, 0);
    let rest = number - near * by;
    if rest >= by { near + 1 } else { near }
}

/// A number of 64 bits, divided by another.
#[inline(always)]
fn divided_64(number: u64, by: u64, reciprocal: u64) -> u64
    requires some { 1 ≤ by }
    requires divides { reciprocal ≡ (2 ^ 64 - 1) / by }
    ensures { result ≡ number / by }
{
    let (_, near) = number.carrying_mul(reciprocal, 0);
    let rest = number - near * by;
    if rest >= by { near + 1 } else { near }
}

/// A divisor other than 0, given by its lowest 64 bits.
#[derive(Clone, Copy, Drop)]
pub(crate) struct Divisor {
    pub(crate) signed: bool,
    pub(crate) bits: u64,
    /// The absolute value of the divisor.
    size: u64,
    /// The largest number of 64 bits, divided by the absolute value.
    reciprocal: u64,
    ghost some: { 1 ≤ size },
    ghost far: { size ≡ unsigned_abs (integer signed 8 bits) },
    ghost divides: { reciprocal ≡ (2 ^ 64 - 1) / size },
}

impl Divisor {
    /// A number of `width` bytes, divided by the absolute value of the divisor. It is computed with
    /// as few bits as hold both.
    #[inline(always)]
    fn divided(self, width: usize, number: u64) -> u64
        requires number { number < 2 ^ (8 * width) }
        requires divisor { self.size < 2 ^ (8 * width) }
        ensures { result ≡ number / self.size }
    {
        let by = self.size;
        let reciprocal = self.reciprocal;
        match width {
            1 => {
                let number = u16::from(number as u8);
                u64::from(divided_16(number, by as u16, (reciprocal >> 48) as u16))
            }
            2 => u64::from(divided_16(number as u16, by as u16, (reciprocal >> 48) as u16)),
            4 => u64::from(divided_32(number as u32, by as u32, (reciprocal >> 32) as u32)),
            _ => divided_64(number, by, reciprocal),
        }
    }

    /// The bits of the quotient of a number of `width` bytes, rounded down. Each step is the same
    /// for all numbers, so the loop can use vector instructions.
    #[inline(always)]
    fn quotient(self, signed: bool, width: usize, left: u64) -> u64
        requires signed { self.signed ≡ signed }
        requires left { unsigned_abs (integer signed 8 left) < 2 ^ (8 * width) }
        requires divisor { unsigned_abs (integer signed 8 self.bits) < 2 ^ (8 * width) }
        ensures { result
            ≡ low_bits 8 (floor_quotient (integer signed 8 left) (integer signed 8 self.bits)) }
    {
        let over = is_negative(signed, self.bits);
        let turned = magnitude(over, left);
        let left = left.cast_signed();
        let below = signed & if over { left > 0 } else { left < 0 };
        let size = if below { !turned } else { turned };
        let whole = self.divided(width, size);
        if below { !whole } else { whole }
    }

    /// The bits of the quotient or the remainder of a number of `width` bytes.
    #[inline(always)]
    pub(crate) fn division(self, leaves: bool, signed: bool, width: usize, left: u64) -> u64
        requires signed { self.signed ≡ signed }
        requires left { unsigned_abs (integer signed 8 left) < 2 ^ (8 * width) }
        requires divisor { unsigned_abs (integer signed 8 self.bits) < 2 ^ (8 * width) }
        ensures { (scalar : Scalar)
            → result
            ≡ low_bits 8
            (exact (division_op leaves) scalar (integer signed 8 left)
            (integer signed 8 self.bits)) }
    {
        let quotient = self.quotient(signed, width, left);
        if leaves {
            left.wrapping_sub(self.bits.wrapping_mul(quotient))
        } else {
            quotient
        }
    }
}
