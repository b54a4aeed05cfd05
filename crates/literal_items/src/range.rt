//! The numbers of a range as items.
ghost use Rattle.std.specs.Prelude.{◌≡◌, ◌<◌, ◌≤◌, ◌↔◌, ◌+◌, ◌*◌, ◌++◌, ℕ, ℤ, pos, ◌+ℤ◌, ◌*ℤ◌, FitsSigned, IsTrue, length, true, IfOk};
ghost use Rattle.literal_items.specs.Clauses.{list_all, w128, ScalarDescr, Gives, IsNumber, is_value, low_bits, size, items_in, is_before, numbers_from, IsGap, joined, max_items, range_numbers, range_count, range_length, range_items, numbered};

use elem_descr::{Refusal, Scalar, is_value};
use machine_numbers::{Number, NumberTask, Ordered, on_number};
use raw_block::{BlockBuilder, RawBlock};
use std::alloc::Global;

/// The most numbers that a range may have.
const MAX_NUMBERS: u128 = 1 << 24;

/// The distance from the start to the stop in the direction of the step, or 0 if the stop is not
/// ahead.
fn distance(start: &i128, stop: &i128, step: &i128) -> u128
    ensures gap { IsGap result start.now stop.now step.now }
    ensures start_fits { FitsSigned w128 start.now }
    ensures stop_fits { FitsSigned w128 stop.now }
{
    let is_ahead = if *step < 0 {
        stop < start
    } else {
        start < stop
    };
    if is_ahead { start.abs_diff(*stop) } else { 0 }
}

/// How many numbers start, start + step, .. there are before the stop. A step of 0 is refused as
/// `ZeroStep`, and more than 2^24 numbers as `TooLarge`.
pub fn range_len(start: &i128, stop: &i128, step: &i128) -> Result<usize, Refusal>
    ensures value { result ≡ range_length start.now stop.now step.now }
    ensures count { IfOk result (λ n. n ≡ range_count start.now stop.now step.now) }
    ensures numbers { IfOk result (λ n. range_numbers start.now stop.now step.now
        ≡ numbers_from start.now step.now n) }
    ensures few { IfOk result (λ n. n ≤ max_items) }
    ensures before { IfOk result (λ n. (k : ℕ) → (k < n)
        ↔ IsTrue (is_before step.now stop.now (start.now +ℤ step.now *ℤ pos k))) }
    ensures fits { IfOk result (λ n. (k : ℕ) → k < n
        → FitsSigned w128 (start.now +ℤ step.now *ℤ pos k)) }
{
    if *step == 0 {
        return Err(Refusal::ZeroStep);
    }
    let count = distance(start, stop, step).div_ceil(step.unsigned_abs());
    if count > MAX_NUMBERS {
        return Err(Refusal::TooLarge);
    }
    Ok(count as usize)
}

/// The number that is `k` steps after the start.
fn number_at(start: &i128, step: &i128, k: usize) -> i128
    requires { FitsSigned w128 (start.now +ℤ step.now *ℤ pos k) }
    ensures { result ≡ start.now +ℤ step.now *ℤ pos k }
{
    (k as i128).wrapping_mul(*step).wrapping_add(*start)
}

/// Whether the first `count` of the numbers start, start + step, .. are values of the scalar. All
/// lie between the first and the last, so these two decide.
fn are_values(scalar: &Scalar, start: &i128, step: &i128, count: usize) -> bool
    requires number { IsNumber scalar.now }
    requires fits { (k : ℕ) → k < count → FitsSigned w128 (start.now +ℤ step.now *ℤ pos k) }
    ensures { result ≡ list_all (is_value scalar.now) (numbers_from start.now step.now count) }
{
    if count == 0 {
        return true;
    }
    is_value(scalar, *start) && is_value(scalar, number_at(start, step, count - 1))
}

/// The lowest 64 bits of a number.
fn low_bits(number: &i128) -> u64
    ensures { result ≡ low_bits 8 number.now }
{
    number.rem_euclid(1 << 64) as u64
}

/// The first `count` of the numbers start, start + step, .., which are to be appended. They are
/// counted by their lowest 64 bits.
struct Counting<'a> {
    start: &'a i128,
    step: &'a i128,
    count: usize,
    block: BlockBuilder,
}

impl<'a> NumberTask for Counting<'a> {
    type Out = BlockBuilder;

    ghost Needs = { λ t scalar.
        (list_all (is_value scalar) (numbers_from t.start.now t.step.now t.count) ≡ true)
        × (t.count * size scalar ≤ t.block.1) };

    ghost Gives = { λ t scalar block.
        (block.0 ≡ t.block.0 ++ joined (numbered scalar t.start.now t.step.now) t.count)
        × (t.count * size scalar + block.1 ≡ t.block.1) };

    fn run<N: Number, O: Ordered>(self) -> BlockBuilder {
        let Counting {
            start,
            step,
            count,
            mut block,
        } = self;
        let mut bits = low_bits(start);
        let step = low_bits(step);
        for _done in 0..count {
            N::of_bits(bits).push::<O>(&mut block);
            bits = bits.wrapping_add(step);
        }
        block
    }
}

/// A block of the numbers start, start + step, .. before the stop, one after another. A step of 0
/// is refused as `ZeroStep`, then more than 2^24 numbers as `TooLarge`, then a number that is not a
/// value of the scalar as `LiteralOutOfRange`.
pub fn range_block(
    alloc: Global,
    scalar: &Scalar,
    start: &i128,
    stop: &i128,
    step: &i128,
) -> Result<RawBlock, Refusal>
    requires number { IsNumber scalar.now }
    ensures whole { IfOk result
        (λ block. length block ≡ range_count start.now stop.now step.now * size scalar.now) }
    ensures items { Gives (λ block.
        items_in (ScalarDescr scalar.now) (range_count start.now stop.now step.now) block) result
        (range_items scalar.now start.now stop.now step.now) }
{
    let count = range_len(start, stop, step)?;
    if !are_values(scalar, start, step, count) {
        return Err(Refusal::LiteralOutOfRange);
    }
    let block = BlockBuilder::try_new(alloc, count * scalar.size())?;
    let counting = Counting {
        start,
        step,
        count,
        block,
    };
    Ok(on_number(scalar, counting).finish())
}
