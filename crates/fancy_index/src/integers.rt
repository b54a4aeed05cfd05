//! Integers, read one by one, and the indexes that they stand for.
ghost use Rattle.std.specs.Prelude.{◌≡◌, ◌≤◌, ◌<◌, ℤ, List, length, get_or, pos};
ghost use Rattle.fancy_index.specs.Words.{max_items};
ghost use Rattle.fancy_index.specs.inside.Words.{word, words_along, LiesIn, IsPlaceOf, ArePlaces};

use byteorder::{BigEndian, ByteOrder, LittleEndian};
use elem_descr::Order;
use raw_block::array_at;
use shape_strides::Run;

/// The form in which an integer is stored.
#[derive(Clone, Copy)]
pub(crate) struct Form {
    pub signed: bool,
    pub order: Order,
    pub width: usize,
}

/// Whether a signed number is in range for an axis of `n` items, and if so, the index that it
/// stands for. There is no branch: as an unsigned number, a negative one is not less than `n`.
#[inline(always)]
pub(crate) fn signed_place(n: usize, at: i64) -> (bool, u32)
    requires { n ≤ max_items }
    ensures { IsPlaceOf n at result }
{
    let place = (at + if at < 0 { n as i64 } else { 0 }).cast_unsigned();
    (place < n as u64, (place % (1 << 32)) as u32)
}

/// Whether an unsigned number is in range for an axis of `n` items, and if so, the index that it
/// stands for.
#[inline(always)]
fn unsigned_place(n: usize, at: u64) -> (bool, u32)
    requires { n ≤ max_items }
    ensures { IsPlaceOf n (pos at) result }
{
    (at < n as u64, (at % (1 << 32)) as u32)
}

/// Whether an integer of `N` bytes is in range for an axis of `n` items, and if so, the index that
/// it stands for.
#[inline(always)]
pub(crate) fn word_place<const N: usize>(form: Form, item: &[u8; N], n: usize) -> (bool, u32)
    requires few { (1 ≤ N) × (N ≤ 8) }
    requires width { form.width ≡ N }
    requires small { n ≤ max_items }
    ensures { IsPlaceOf n (word form item.now) result }
{
    match (form.order, form.signed) {
        (Order::Little, false) => unsigned_place(n, LittleEndian::read_uint(item, N)),
        (Order::Little, true) => signed_place(n, LittleEndian::read_int(item, N)),
        (Order::Big, false) => unsigned_place(n, BigEndian::read_uint(item, N)),
        (Order::Big, true) => signed_place(n, BigEndian::read_int(item, N)),
    }
}

/// Integers that are read one by one.
pub(crate) trait Integral: Drop {
    ghost numbers: { Self → List ℤ };

    /// Whether the number at `k` is in range for an axis of `n` items, and if so, the index that it
    /// stands for.
    fn place(&self, k: usize, n: usize) -> (bool, u32)
        requires within { k < length (numbers self.now) }
        requires small { n ≤ max_items }
        ensures { IsPlaceOf n (get_or (numbers self.now) k (pos 0)) result };
}

/// The integers of `N` bytes in a run of items.
#[derive(Clone, Copy, Drop)]
pub(crate) struct Words<'a, const N: usize> {
    pub bytes: &'a [u8],
    pub form: Form,
    pub run: Run,
    pub ghost width: { form.width ≡ N },
    pub ghost few: { (1 ≤ N) × (N ≤ 8) },
    pub ghost lies: { LiesIn bytes.now form.width run },
}

impl<const N: usize> Integral for Words<'_, N> {
    ghost numbers = { λ words. words_along words.form words.bytes.now words.run };

    #[inline(always)]
    fn place(&self, k: usize, n: usize) -> (bool, u32) {
        let item = array_at::<N>(self.bytes, self.run.offset_after(k));
        word_place::<N>(self.form, &item, n)
    }
}

/// Writes the indexes that integers stand for on an axis of `n` items, and returns whether all are
/// in range. All integers are visited, which is faster than stopping at the first that is out of
/// range.
pub(crate) fn put_places<R: Integral>(places: &mut [u32], integers: R, n: usize) -> bool
    requires small { n ≤ max_items }
    requires many { length places.old ≡ length (R.numbers integers) }
    ensures { ArePlaces n (R.numbers integers) result places.new }
{
    let mut are = true;
    for k in 0..places.len() {
        let (is, place) = integers.place(k, n);
        are = are & is;
        places[k] = place;
    }
    are
}
