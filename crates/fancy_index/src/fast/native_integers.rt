//! Adjacent integers in the machine's byte order, read as numbers.
ghost use Rattle.std.specs.Prelude.{◌≡◌, ◌≤◌, length, IsTrue};
ghost use Rattle.fancy_index.specs.Words.{max_items};
ghost use Rattle.fancy_index.specs.inside.Words.{words_along, IsNative, LiesIn, ArePlaces};

use crate::integers::{Form, Integral, Words, put_places, signed_place};
use elem_descr::Order;
use raw_block::{RawBlock, RunI32, RunI64};
use shape_strides::Run;

impl Integral for RunI32<'_> {
    ghost numbers = { λ run. run };

    #[inline(always)]
    fn place(&self, k: usize, n: usize) -> (bool, u32) {
        let at = self.get(k);
        let place = (at + if at < 0 { n as i32 } else { 0 }).cast_unsigned();
        (place < n as u32, place)
    }
}

impl Integral for RunI64<'_> {
    ghost numbers = { λ run. run };

    #[inline(always)]
    fn place(&self, k: usize, n: usize) -> (bool, u32) {
        signed_place(n, self.get(k))
    }
}

/// Whether integers of this form are adjacent and in the machine's own byte order.
fn is_native(form: Form, run: Run) -> bool
    ensures { IsTrue result → IsNative form run }
{
    form.signed && form.order == Order::Little && run.is_packed(form.width)
}

/// Writes the indexes that a run of integers stands for on an axis of `n` items, and returns whether
/// all are in range. Adjacent integers in the machine's byte order are read as numbers. Its loops
/// need all registers, so it is not inlined.
#[inline(never)]
pub(crate) fn put_run<const N: usize>(
    places: &mut [u32],
    block: &RawBlock,
    form: Form,
    run: Run,
    n: usize,
) -> bool
    requires few { (1 ≤ N) × (N ≤ 8) }
    requires width { form.width ≡ N }
    requires small { n ≤ max_items }
    requires lies { LiesIn block.now form.width run }
    requires many { length places.old ≡ length (words_along form block.now run) }
    ensures { ArePlaces n (words_along form block.now run) result places.new }
{
    let bytes = block.bytes();
    match (N, is_native(form, run)) {
        (4, true) => put_places(places, block.run_i32(run.offset, run.count), n),
        (8, true) => put_places(places, block.run_i64(run.offset, run.count), n),
        _ => put_places(places, Words::<N> { bytes, form, run }, n),
    }
}
