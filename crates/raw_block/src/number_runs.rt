//! Adjacent numbers, stored in two's complement with the lowest byte first.
ghost use Rattle.std.specs.Prelude.{◌≡◌, ℕ, pos, ◌+◌, ◌*◌, ◌<◌, ◌≤◌, [], length, slice_index_or};
ghost use Rattle.raw_block.specs.Clauses.{item_at, signed_numbers};

use byteorder::{ByteOrder, LittleEndian};
use std::marker::Model;

/// The `n` adjacent items of `N` bytes that start at `at`.
pub(crate) fn items_at<const N: usize>(bytes: &[u8], at: usize, n: usize) -> &[[u8; N]]
    requires some { 0 < N }
    requires within { at + N * n ≤ length bytes.now }
    ensures len { length result.now ≡ n }
    ensures items { (k : ℕ) → k < n → slice_index_or result.now k []
        ≡ item_at (at + N * k) N bytes.now }
{
    bytes[at..at + N * n].as_chunks::<N>().0
}

/// Numbers of four bytes, for reading. A contract sees them as a list.
#[derive(Drop)]
pub struct RunI32<'a> {
    pub(crate) items: &'a [[u8; 4]],
}

impl<'a> Model for RunI32<'a> {
    ghost use Rattle.std.specs.Prelude.{ℤ, List};
    ghost use Rattle.raw_block.specs.Clauses.{signed_numbers};

    ghost Value = { List ℤ };

    ghost view = { λ r. signed_numbers 4 r.items.now };
}

impl RunI32<'_> {
    /// The number at this index.
    #[inline(always)]
    pub fn get(&self, place: usize) -> i32
        requires { place < length self.now }
        ensures { result ≡ slice_index_or self.now place (pos 0) }
    {
        let items = self.items;
        LittleEndian::read_u32(&items[place]).cast_signed()
    }
}

/// Numbers of eight bytes, for reading. A contract sees them as a list.
#[derive(Drop)]
pub struct RunI64<'a> {
    pub(crate) items: &'a [[u8; 8]],
}

impl<'a> Model for RunI64<'a> {
    ghost use Rattle.std.specs.Prelude.{ℤ, List};
    ghost use Rattle.raw_block.specs.Clauses.{signed_numbers};

    ghost Value = { List ℤ };

    ghost view = { λ r. signed_numbers 8 r.items.now };
}

impl RunI64<'_> {
    /// The number at this index.
    #[inline(always)]
    pub fn get(&self, place: usize) -> i64
        requires { place < length self.now }
        ensures { result ≡ slice_index_or self.now place (pos 0) }
    {
        let items = self.items;
        LittleEndian::read_u64(&items[place]).cast_signed()
    }
}
