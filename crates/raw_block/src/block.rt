//! A block of bytes: how it is read, written and dropped.
ghost use Rattle.std.specs.Prelude.{◌≡◌, ℕ, pos, ◌+◌, ◌*◌, ◌/◌, ◌^◌, ◌<◌, ◌≤◌, List, length, slice_index_or};
ghost use Rattle.raw_block.specs.Words.{sem, refill};
ghost use Rattle.raw_block.specs.Bytes.{item_at, put, little_number, little_bytes, EachWithin, copied, copied_within, filled, swapped, traded};
ghost use Rattle.raw_block.specs.NumberRuns.{signed_number, signed_numbers, adjacent_items, adjacent_numbers, AreArrays, with_run, SameBeside};
ghost use Rattle.raw_block.specs.inside.Sizes.{IsSizeFor};

mod builder;

use crate::base::{Base, Bytes, Deed, WORD, deallocate};
use crate::item::{move_item, number_of, put_item};
use crate::number_runs::{RunI32, RunI64, items_at};
use crate::strided::{self, Steps, StridedItems};
pub use builder::BlockBuilder;
use std::alloc::Global;
use std::marker::Model;

/// One block of memory, which starts at a multiple of 16. It is made from zeros or from given
/// bytes. A contract sees a block as the list of its bytes.
pub struct RawBlock {
    base: Base,
    len: usize,
    bytes: Bytes,
    deed: Deed<Global>,
    alloc: Global,
}

impl Model for RawBlock {
    ghost use Rattle.std.specs.Prelude.{ℕ, List};

    ghost Value = { List ℕ };

    ghost use Rattle.raw_block.specs.Block.{IsBlock};

    ghost view = { λ b. b.bytes.items };

    ghost invariant = { IsBlock };
}

/// The size of the words that hold `len` bytes.
fn padded(len: usize) -> usize
    requires { len + 15 < 2 ^ 63 }
    ensures value { result ≡ (len + 15) / 16 * 16 }
    ensures size { IsSizeFor result len }
{
    (len + 15) / WORD * WORD
}

impl RawBlock {
    ghost use Rattle.raw_block.specs.BlockLends.{lends_block, lends_run};

    /// The number of bytes.
    pub fn len(&self) -> usize
        ensures len { result ≡ length self.now }
        ensures small { result < 2 ^ 63 }
    {
        self.len
    }

    /// The allocator that the memory is from.
    pub fn allocator(&self) -> Global {
        self.alloc
    }

    /// All bytes, for reading.
    pub fn bytes(&self) -> &[u8]
        ensures { result.now ≡ self.now }
    {
        self.bytes.as_slice(self.base, self.len)
    }

    /// All bytes, for writing.
    pub fn bytes_mut(&mut self) -> &mut [u8]
        ensures* writes_back { sem 𝓛 (lends_block self.entry result) }
        ensures value { result.now ≡ self.old }
        ensures same_len { (ws : List ℕ) → length ws ≡ length self.old
            → refill (length self.old) self.old ws ≡ ws }
    {
        self.bytes.as_mut_slice(self.base, self.len)
    }

    /// The `n` adjacent numbers of four bytes that start at `at`.
    pub fn run_i32(&self, at: usize, n: usize) -> RunI32<'_>
        requires { at + 4 * n ≤ length self.now }
        ensures len { length result ≡ n }
        ensures numbers { (k : ℕ) → k < n → slice_index_or result k (pos 0)
            ≡ signed_number 4 (item_at (at + 4 * k) 4 self.now) }
    {
        let items = items_at::<4>(self.bytes(), at, n);
        RunI32 { items }
    }

    /// Numbers of four bytes, for writing. Each is stored with its lowest byte first.
    pub fn run_i32_mut(&mut self, at: usize, n: usize) -> &mut [[u8; 4]]
        requires { at + 4 * n ≤ length self.old }
        ensures* writes_back { sem 𝓛 (lends_run 4 at self.entry result) }
        ensures len { length result.now ≡ n }
        ensures items { result.now ≡ adjacent_items 4 at n self.old }
        ensures before { signed_numbers 4 result.now ≡ adjacent_numbers 4 at n self.old }
        ensures after { (items : List (List ℕ)) → AreArrays 4 n items
            → adjacent_numbers 4 at n (with_run at items self.old) ≡ signed_numbers 4 items }
        ensures others { (items : List (List ℕ)) → AreArrays 4 n items
            → SameBeside at (4 * n) self.old (with_run at items self.old) }
    {
        self.bytes.run_mut::<4>(self.base, at, n)
    }

    /// The `n` adjacent numbers of eight bytes that start at `at`.
    pub fn run_i64(&self, at: usize, n: usize) -> RunI64<'_>
        requires { at + 8 * n ≤ length self.now }
        ensures len { length result ≡ n }
        ensures numbers { (k : ℕ) → k < n → slice_index_or result k (pos 0)
            ≡ signed_number 8 (item_at (at + 8 * k) 8 self.now) }
    {
        let items = items_at::<8>(self.bytes(), at, n);
        RunI64 { items }
    }

    /// Numbers of eight bytes, for writing. Each is stored with its lowest byte first.
    pub fn run_i64_mut(&mut self, at: usize, n: usize) -> &mut [[u8; 8]]
        requires { at + 8 * n ≤ length self.old }
        ensures* writes_back { sem 𝓛 (lends_run 8 at self.entry result) }
        ensures len { length result.now ≡ n }
        ensures items { result.now ≡ adjacent_items 8 at n self.old }
        ensures before { signed_numbers 8 result.now ≡ adjacent_numbers 8 at n self.old }
        ensures after { (items : List (List ℕ)) → AreArrays 8 n items
            → adjacent_numbers 8 at n (with_run at items self.old) ≡ signed_numbers 8 items }
        ensures others { (items : List (List ℕ)) → AreArrays 8 n items
            → SameBeside at (8 * n) self.old (with_run at items self.old) }
    {
        self.bytes.run_mut::<8>(self.base, at, n)
    }

    /// The number in the `width` bytes that start at `at`, lowest byte first.
    pub fn load(&self, at: usize, width: usize) -> u64
        requires width { width ≤ 8 }
        requires bounds { at + width ≤ length self.now }
        ensures value { result ≡ little_number width (item_at at width self.now) }
        ensures small { result < 256 ^ width }
    {
        number_of(&self.bytes()[at..at + width])
    }

    /// Writes the lowest `width` bytes of `bits` at `at`, lowest byte first.
    pub fn store(&mut self, at: usize, width: usize, bits: u64)
        requires width { width ≤ 8 }
        requires bounds { at + width ≤ length self.old }
        ensures stored { self.new ≡ put at (little_bytes width bits) self.old }
        ensures len { length self.new ≡ length self.old }
    {
        put_item(self.bytes_mut(), at, &bits.to_le_bytes()[..width]);
    }

    /// Writes the item at `at`.
    pub fn put(&mut self, at: usize, item: &[u8])
        requires { at + length item.now ≤ length self.old }
        ensures written { self.new ≡ put at item.now self.old }
        ensures len { length self.new ≡ length self.old }
    {
        put_item(self.bytes_mut(), at, item);
    }

    /// Copies `n` bytes from `src` to `dst`. The two ranges may overlap.
    pub fn move_within(&mut self, dst: usize, src: usize, n: usize)
        requires dst { dst + n ≤ length self.old }
        requires src { src + n ≤ length self.old }
        ensures moved { self.new ≡ put dst (item_at src n self.old) self.old }
        ensures len { length self.new ≡ length self.old }
    {
        move_item(self.bytes_mut(), dst, src, n);
    }

    /// Copies `n` bytes of `other` from `src` to `dst`.
    pub fn copy_from(&mut self, dst: usize, other: &RawBlock, src: usize, n: usize)
        requires dst { dst + n ≤ length self.old }
        requires src { src + n ≤ length other.now }
        ensures copied { self.new ≡ put dst (item_at src n other.now) self.old }
        ensures len { length self.new ≡ length self.old }
    {
        put_item(self.bytes_mut(), dst, &other.bytes()[src..src + n]);
    }

    /// Copies items of `other` to these places, one after the other.
    pub fn copy_strided(&mut self, to: Steps, other: &RawBlock, from: StridedItems)
        requires to { EachWithin (length self.old) to.at to.step from.width from.count }
        requires from { EachWithin
            (length other.now) from.steps.at from.steps.step from.width from.count }
        ensures copied { self.new
            ≡ copied to.at to.step other.now from.steps.at from.steps.step from.width from.count
            self.old }
        ensures len { length self.new ≡ length self.old }
    {
        strided::copy(self.bytes_mut(), to, other.bytes(), from);
    }

    /// Copies items of the block to other places in it, one after the other. Where the two overlap,
    /// an item is read as earlier copies left it.
    pub fn copy_strided_within(&mut self, to: Steps, from: StridedItems)
        requires to { EachWithin (length self.old) to.at to.step from.width from.count }
        requires from { EachWithin
            (length self.old) from.steps.at from.steps.step from.width from.count }
        ensures copied { self.new
            ≡ copied_within to.at to.step from.steps.at from.steps.step from.width from.count
            self.old }
        ensures len { length self.new ≡ length self.old }
    {
        strided::copy_within(self.bytes_mut(), to, from);
    }

    /// Writes the item to the first `n` of these places.
    pub fn fill_strided(&mut self, to: Steps, item: &[u8], n: usize)
        requires { EachWithin (length self.old) to.at to.step (length item.now) n }
        ensures filled { self.new ≡ filled to.at to.step item.now n self.old }
        ensures len { length self.new ≡ length self.old }
    {
        strided::fill(self.bytes_mut(), to, item, n);
    }

    /// Exchanges items with as many at other places, one pair after the other. The two items of a
    /// pair may overlap: their bytes are exchanged one by one, from the first to the last.
    pub fn swap_strided(&mut self, a: Steps, b: StridedItems)
        requires a { EachWithin (length self.old) a.at a.step b.width b.count }
        requires b { EachWithin (length self.old) b.steps.at b.steps.step b.width b.count }
        ensures swapped { self.new
            ≡ swapped a.at a.step b.steps.at b.steps.step b.width b.count self.old }
        ensures len { length self.new ≡ length self.old }
    {
        strided::swap(self.bytes_mut(), a, b.steps, b.width, b.count);
    }

    /// Exchanges the items at these places with items of `other`, one pair after the other.
    pub fn trade_strided(&mut self, a: Steps, other: &mut RawBlock, b: StridedItems)
        requires a { EachWithin (length self.old) a.at a.step b.width b.count }
        requires b { EachWithin (length other.old) b.steps.at b.steps.step b.width b.count }
        ensures traded { (self.new, other.new)
            ≡ traded a.at a.step b.steps.at b.steps.step b.width b.count self.old other.old }
        ensures len { (length self.new ≡ length self.old) × (length other.new ≡ length other.old) }
    {
        strided::trade(self.bytes_mut(), a, other.bytes_mut(), b);
    }
}

impl Drop for RawBlock {
    fn drop(self) {
        let RawBlock {
            base,
            len,
            bytes,
            deed,
            alloc,
        } = self;
        deallocate(&alloc, base, padded(len), bytes, deed);
    }
}
