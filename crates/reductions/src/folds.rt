//! Reductions that visit numbers one by one.
ghost use Rattle.std.specs.Prelude.{◌≡◌, ◌+◌, ◌<◌, ◌^◌, ℕ, ℤ, pos, Bool, true, false, [], ◌∷◌, ◌++◌, List, length, if◌then◌else◌, IsTrue};
ghost use Rattle.std.proofs.Common.{refl};
ghost use Rattle.reductions.specs.Words.{fold, Order, Little, low_bits, size, Red};
ghost use Rattle.reductions.specs.Reductions.{first_place, result_scalar};
ghost use Rattle.reductions.specs.inside.Numbers.{number_at, numbers_at, numbers_of, CanTakeIn, TakesIn, IsStored, IsReduced};
ghost use Rattle.reductions.specs.inside.FoldLaws.{total_of, total, total_is, total_size, truth_of, truth, truth_is, truth_size, is_true_bits};
ghost use Rattle.reductions.specs.inside.FoundLaws.{HasFound, HasSought, better_next, better_stays};
ghost use Rattle.reductions.specs.inside.Extremes.{reduction_of, places_of, is_better, better, best_of, best_from, best_is, best_size, place_is, place_size, better_kept, better_left};

use crate::parts::{part, place_of};
use crate::tuning::SEARCH_BLOCK;
use machine_numbers::{Number, Ordered, Side};

/// A reduction of numbers of one type, number by number. It starts with the first number, and then
/// visits all numbers, the first one included.
pub(crate) trait Fold<S: Number> {
    /// The state: what is known of the numbers so far.
    type Held: Copy;

    /// The result.
    type Total: Number;

    ghost reduction: { Red };

    // What the state says, given the first number and the numbers so far.
    ghost holds: { Self.Held → ℤ → List ℤ → Type 0 };

    ghost meaning: { List ℤ → ℤ };

    fn start(first: S) -> Self::Held
        ensures { holds result (S.value first) [] };

    /// Visits one more number, which has `place` numbers before it.
    fn step(held: Self::Held, item: S, place: usize) -> Self::Held
        ensures { (first : ℤ) (seen : List ℤ) → place ≡ length seen → holds held first seen
            → holds result first (seen ++ S.value item ∷ []) };

    fn finish(held: Self::Held) -> Self::Total
        ensures { (first : ℤ) (rest : List ℤ) → holds held first (first ∷ rest)
            → Self.Total.value result ≡ meaning (first ∷ rest) };

    /// Whether no further number can change the state.
    #[inline(always)]
    fn is_decided(held: Self::Held) -> bool
        ensures { IsTrue result
            → (order : Order) (first : ℤ) (seen : List ℤ) (bytes offsets : List ℕ)
            → holds held first seen → holds held first
            (seen ++ numbers_at (S.scalar order) bytes offsets) }
    {
        false
    }

    /// Whether `is_decided` is worth asking along the way. A hint: either answer is right.
    #[inline(always)]
    fn may_end_early() -> bool {
        false
    }

    /// Visits numbers, which have `seen` numbers before them.
    #[inline(always)]
    fn visit<O: Ordered>(held: Self::Held, seen: usize, side: Side<'_>) -> Self::Held
        requires { CanTakeIn S.WIDTH seen side }
        ensures { TakesIn holds held seen (numbers_of (S.scalar O.order) side.entry) result }
    {
        let mut held = held;
        for k in 0..side.run.count {
            held = Self::step(held, side.number::<S, O>(k), seen + k);
        }
        held
    }

    ghost gives: { (order : Order) (bytes : List ℕ) (numbers : List ℤ) → length numbers < 2 ^ 63
        → IsStored (Self.Total.scalar Little) (meaning numbers) bytes
        → IsReduced reduction (S.scalar order) numbers bytes };

    ghost has_size: { (order : Order) → size (result_scalar reduction (S.scalar order))
        ≡ Self.Total.WIDTH };
}

/// Sums or products, modulo 2^64.
pub(crate) struct Wrapping<const PRODUCT: bool>;

impl<S: Number, const PRODUCT: bool> Fold<S> for Wrapping<PRODUCT> {
    type Held = u64;

    type Total = u64;

    ghost reduction = { total_of PRODUCT };

    ghost holds = { λ held first seen. held ≡ low_bits 8 (total PRODUCT seen) };

    ghost meaning = { λ numbers. pos (low_bits 8 (total PRODUCT numbers)) };

    ghost gives = { λ order bytes numbers few is.
        total_is PRODUCT (S.scalar order) bytes numbers is };

    ghost has_size = { λ order. total_size PRODUCT (S.scalar order) };

    fn start(first: S) -> u64 {
        u64::from(PRODUCT)
    }

    fn step(held: u64, item: S, place: usize) -> u64 {
        if PRODUCT {
            return held.wrapping_mul(item.bits());
        }
        held.wrapping_add(item.bits())
    }

    fn finish(held: u64) -> u64 {
        held
    }
}

/// The least or the greatest number.
pub(crate) struct Best<const GREATEST: bool>;

/// Whether a number is better than the best one so far.
#[inline(always)]
fn is_better<S: Number, const GREATEST: bool>(item: S, best: S) -> bool
    ensures { result ≡ is_better GREATEST (S.value item) (S.value best) }
{
    if GREATEST {
        return best.is_less(item);
    }
    item.is_less(best)
}

/// Whether no number of the type is better. It is used for bools only.
#[inline(always)]
fn is_last<S: Number, const GREATEST: bool>(best: S) -> bool
    ensures { IsTrue result → (order : Order) (bytes : List ℕ) (offset : ℕ)
        → is_better GREATEST (number_at (S.scalar order) bytes offset) (S.value best) ≡ false }
{
    if !S::are_bools() {
        return false;
    }
    (best.bits() != 0) == GREATEST
}

impl<S: Number, const GREATEST: bool> Fold<S> for Best<GREATEST> {
    type Held = S;

    type Total = S;

    ghost reduction = { reduction_of GREATEST };

    ghost holds = { λ held first seen. S.value held ≡ fold (better GREATEST) first seen };

    ghost meaning = { best_of GREATEST };

    ghost gives = { λ order bytes numbers few is.
        best_is GREATEST (S.scalar order) (S.scalar Little) bytes numbers (S.is_little order) is };

    ghost has_size = { λ order. best_size GREATEST (S.scalar order) S.WIDTH (S.has_width order) };

    fn start(first: S) -> S {
        first
    }

    fn step(held: S, item: S, place: usize) -> S {
        if is_better::<S, GREATEST>(item, held) {
            return item;
        }
        held
    }

    fn is_decided(held: S) -> bool {
        is_last::<S, GREATEST>(held)
    }

    fn may_end_early() -> bool {
        S::are_bools()
    }

    fn finish(held: S) -> S {
        held
    }
}

/// Whether any number is true, or all of them.
pub(crate) struct Truth<const ALL: bool>;

impl<S: Number, const ALL: bool> Fold<S> for Truth<ALL> {
    type Held = bool;

    type Total = bool;

    ghost reduction = { truth_of ALL };

    ghost holds = { λ held first seen. held ≡ truth ALL seen };

    ghost meaning = { λ numbers. if truth ALL numbers then pos 1 else pos 0 };

    ghost gives = { λ order bytes numbers few is. truth_is ALL (S.scalar order) bytes numbers is };

    ghost has_size = { λ order. truth_size ALL (S.scalar order) };

    fn start(first: S) -> bool {
        ALL
    }

    fn step(held: bool, item: S, place: usize) -> bool {
        let is_true = item.bits() != 0;
        if ALL { held & is_true } else { held | is_true }
    }

    fn is_decided(held: bool) -> bool {
        held != ALL
    }

    fn may_end_early() -> bool {
        true
    }

    fn finish(held: bool) -> bool {
        held
    }
}

/// The best number so far, and its first place, or that of the block that contains it.
#[derive(Clone, Copy)]
pub(crate) struct Found<S> {
    best: S,
    place: usize,
}

/// Visits the numbers of a block that begins at a place. The best number has the place of its block.
#[inline(always)]
fn seek_in<S: Number, O: Ordered, const GREATEST: bool>(
    held: Found<S>,
    place: usize,
    block: Side<'_>,
) -> Found<S>
    requires width { block.width ≡ S.WIDTH }
    requires few { block.run.count < 2 ^ 63 }
    ensures { HasSought GREATEST (numbers_of (S.scalar O.order) block.entry)
        (S.value held.best) held.place place (S.value result.best) result.place }
{
    let best = <Best<GREATEST> as Fold<S>>::visit::<O>(held.best, 0, block);
    if !is_better::<S, GREATEST>(best, held.best) {
        return held;
    }
    Found { best, place }
}

/// The place of the best number.
pub(crate) struct PlaceOf<const GREATEST: bool>;

impl<S: Number, const GREATEST: bool> Fold<S> for PlaceOf<GREATEST> {
    type Held = Found<S>;

    type Total = u64;

    ghost reduction = { places_of GREATEST };

    ghost holds = { λ held first seen. HasFound (better GREATEST)
        (S.value held.best) held.place first seen };

    ghost meaning = { λ numbers. pos (first_place (best_of GREATEST numbers) numbers) };

    ghost gives = { λ order bytes numbers few is.
        place_is GREATEST (S.scalar order) bytes numbers few is };

    ghost has_size = { λ order. place_size GREATEST (S.scalar order) };

    fn start(first: S) -> Found<S> {
        Found {
            best: first,
            place: 0,
        }
    }

    fn step(held: Found<S>, item: S, place: usize) -> Found<S> {
        if is_better::<S, GREATEST>(item, held.best) {
            return Found { best: item, place };
        }
        held
    }

    fn is_decided(held: Found<S>) -> bool {
        is_last::<S, GREATEST>(held.best)
    }

    fn may_end_early() -> bool {
        S::are_bools()
    }

    fn visit<O: Ordered>(held: Found<S>, seen: usize, side: Side<'_>) -> Found<S> {
        let all = side.run.count;
        let mut sought = held;
        sought.place = all;
        let mut done = 0;
        while done < all {
            let block = part(side, done, SEARCH_BLOCK.min(all - done));
            sought = seek_in::<S, O, GREATEST>(sought, done, block);
            done += block.run.count;
        }
        let Found { best, place } = sought;
        if place == all {
            return held;
        }
        let block = part(side, place, SEARCH_BLOCK.min(all - place));
        let place = seen + place + place_of::<S, O>(best, block);
        Found { best, place }
    }

    fn finish(held: Found<S>) -> u64 {
        held.place as u64
    }
}
