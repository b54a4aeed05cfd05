//! The ranks of the true ones among adjacent bools, sixteen bools at a time.
ghost use Rattle.std.specs.Prelude.{IsTrue, List, get_or, length, pos, replicate, take, ℕ, ◌++◌, ◌+◌, ◌<◌, ◌≡◌, ◌≤◌, ◌/◌, ◌%◌, ◌^◌};
ghost use Rattle.fancy_index.specs.Clauses.{max_items, truth, AreAll, AreNoted, IsBlock, LieInBytes, bits, ranks_from, true_ranks};

use crate::bools::{Bools, note_true};
use raw_block::array_at;
use std::simd::prelude::*;

/// The places of the true ones among four bools, and then zeros. The row of four bools is the
/// number that has them as its bits, the first one as the lowest. A constant would be copied at
/// each use.
static PLACES: [[u8; 4]; 16] = [
    [0, 0, 0, 0],
    [0, 0, 0, 0],
    [1, 0, 0, 0],
    [0, 1, 0, 0],
    [2, 0, 0, 0],
    [0, 2, 0, 0],
    [1, 2, 0, 0],
    [0, 1, 2, 0],
    [3, 0, 0, 0],
    [0, 3, 0, 0],
    [1, 3, 0, 0],
    [0, 1, 3, 0],
    [2, 3, 0, 0],
    [0, 2, 3, 0],
    [1, 2, 3, 0],
    [0, 1, 2, 3],
];

/// How many of the four bools of a row are true.
static COUNTS: [usize; 16] = [0, 1, 1, 2, 1, 2, 2, 3, 1, 2, 2, 3, 2, 3, 3, 4];

/// The number that has sixteen bools as its bits, the first one as the lowest.
#[inline(always)]
fn bits_of(bools: u8x16) -> usize
    ensures { (k : ℕ) → k < 16 → result / 2 ^ k % 2 ≡ truth (get_or bools k 0) }
{
    bools.simd_ne(u8x16::splat(0)).to_bitmask() as usize
}

/// Writes the ranks of the true bools of a row after the first `many` ranks, and returns how many
/// there are then. Each lane of `first` is the rank of the first bool. Four ranks are written, and
/// those of true bools stay, so there is no branch.
#[inline(always)]
fn note_four(found: &mut [u32], many: usize, row: usize, first: u32x4) -> usize
    requires few { many + 4 ≤ length found.old }
    requires row { row < 16 }
    ensures many { result ≤ many + 4 }
    ensures found { (rank : ℕ) → first ≡ replicate 4 rank → rank + 4 ≤ max_items
        → take result found.new ≡ take many found.old ++ true_ranks rank (bits 4 row) }
{
    let ranks = u8x4::from_array(PLACES[row]).cast::<u32>() + first;
    ranks.copy_to_slice(&mut found[many..]);
    many + COUNTS[row]
}

/// Writes the ranks of the true ones among sixteen adjacent bools, unless all are false, after the
/// first `many` ranks, and returns how many there are then.
#[inline(always)]
fn note_sixteen(found: &mut [u32; 512], many: usize, bools: Bools<'_>, at: usize) -> usize
    requires lie { LieInBytes bools }
    requires adjacent { bools.run.step ≡ pos 1 }
    requires end { at + 16 ≤ bools.run.count }
    requires few { many + 16 ≤ 512 }
    ensures many { result ≤ many + 16 }
    ensures found { (whole : List ℕ) → take many found.old ++ ranks_from bools.entry at ≡ whole
        → take result found.new ++ ranks_from bools.entry (at + 16) ≡ whole }
{
    let loaded = array_at::<16>(bools.bytes, bools.run.offset + at);
    let mut bits = bits_of(u8x16::from_array(loaded));
    if bits == 0 {
        return many;
    }
    let mut many = many;
    let mut first = u32x4::splat((bools.rank + at) as u32);
    for _ in 0..4usize {
        many = note_four(found, many, bits % 16, first);
        first += u32x4::splat(4);
        bits /= 16;
    }
    many
}

/// Writes the ranks of the true ones among adjacent bools. Sixteen that are all false are passed over
/// at once.
fn note_sixteens(found: &mut [u32; 512], bools: Bools<'_>, from: usize, end: usize) -> usize
    requires block { IsBlock bools from end }
    requires adjacent { bools.run.step ≡ pos 1 }
    ensures { AreNoted bools.entry from end found.new result }
{
    let mut many = 0;
    let mut at = from;
    while end - at >= 16 {
        many = note_sixteen(found, many, bools, at);
        at += 16;
    }
    note_true(found, many, bools, at, end)
}

/// Writes the ranks of the bools in a range, which are all true.
fn note_all(found: &mut [u32; 512], bools: Bools<'_>, from: usize, end: usize) -> usize
    requires block { IsBlock bools from end }
    requires all { AreAll bools from end 1 }
    ensures { AreNoted bools.entry from end found.new result }
{
    let mut rank = (bools.rank + from) as u32;
    for k in from..end {
        found[k - from] = rank;
        rank += 1;
    }
    end - from
}

/// Whether the bytes of a range are all the same.
fn are_same(bytes: &[u8], from: usize, end: usize) -> bool
    requires { end ≤ length bytes.now }
    ensures { IsTrue result → (k : ℕ) → from ≤ k → k < end
        → get_or bytes.now k 0 ≡ get_or bytes.now from 0 }
{
    let mut same = true;
    for k in from..end {
        same &= bytes[k] == bytes[from];
    }
    same
}

/// Writes the ranks of the true bools of a block, which are adjacent. If all of them or none of them
/// are true, they are not looked at one by one.
pub(crate) fn note_adjacent(
    found: &mut [u32; 512],
    bools: Bools<'_>,
    from: usize,
    end: usize,
) -> usize
    requires block { IsBlock bools from end }
    requires adjacent { bools.run.step ≡ pos 1 }
    requires some { from < end }
    ensures { AreNoted bools.entry from end found.new result }
{
    let offset = bools.run.offset;
    let first = offset + from;
    if !are_same(bools.bytes, first, offset + end) {
        note_sixteens(found, bools, from, end)
    } else if bools.bytes[first] == 0 {
        0
    } else {
        note_all(found, bools, from, end)
    }
}
