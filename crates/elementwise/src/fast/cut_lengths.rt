//! The lengths to which byte strings can be cut before they are compared.
ghost use Rattle.std.specs.Prelude.{All, IfOk, length, ◌+◌, ◌≡◌, ◌≤◌};
ghost use Rattle.elementwise.specs.Clauses.{ScalarDescr, Bytes, item_at, offsets, without_nuls, CanCut};

use crate::fast::layouts::without_repeats;
use crate::kernels::byte_strings::without_nuls;
use crate::loops::row_pairs::Broadcast;
use crate::tuning::TWO_WORDS;
use arrays::Items;
use broadcasting::repeats;
use elem_descr::BytesLen;
use shape_strides::{Layout, Shape, Walk};
use std::alloc::{AllocError, Global};

/// The length of the longest byte string without its trailing NULs, and at least 1.
fn longest(block: &[u8], layout: &Layout, width: usize) -> usize
    requires some { 1 ≤ width }
    requires inside { All (λ offset. offset + width ≤ length block.now) (offsets layout.now) }
    ensures some { 1 ≤ result }
    ensures within { result ≤ width }
    ensures least { All (λ offset. length (without_nuls (item_at offset width block.now)) ≤ result)
        (offsets layout.now) }
{
    let mut most = 1;
    for offset in Walk::new(layout) {
        most = without_nuls(&block[offset..offset + width]).len().max(most);
    }
    most
}

/// The length to which the byte strings of an array can be cut: that of the longest one without its
/// trailing NULs, if the array is shown in a shape with more items; otherwise that of its items.
/// Items that repeat are looked at once.
fn trimmed_in(
    alloc: Global,
    items: Items<'_>,
    width: usize,
    shape: &Shape,
) -> Result<usize, AllocError>
    requires descr { items.descr.now ≡ ScalarDescr (Bytes width) }
    requires some { 1 ≤ width }
    ensures cut { IfOk result (CanCut items.entry width) }
    ensures some { IfOk result (λ n. 1 ≤ n) }
{
    let layout = items.layout;
    if !repeats(layout) && layout.shape.items() >= shape.items() {
        return Ok(width);
    }
    let small = without_repeats(alloc, layout, layout, &layout.shape)?;
    Ok(longest(items.block.bytes(), &small.0, width))
}

/// The lengths to which the byte strings of two arrays can be cut without a change of their order.
/// They are equal if they can be, since byte strings of one length are compared by words.
pub(crate) fn cut_lengths(
    alloc: Global,
    width: BytesLen,
    other_width: BytesLen,
    both: Broadcast<'_>,
) -> Result<(BytesLen, BytesLen), AllocError>
    requires left { both.left.descr.now ≡ ScalarDescr (Bytes width) }
    requires right { both.right.descr.now ≡ ScalarDescr (Bytes other_width) }
    ensures left { IfOk result (λ cut. CanCut both.entry.left width cut.0) }
    ensures right { IfOk result (λ cut. CanCut both.entry.right other_width cut.1) }
{
    let (len, other_len) = (width.get(), other_width.get());
    if len == other_len && len <= TWO_WORDS {
        return Ok((width, other_width));
    }
    let longest = trimmed_in(alloc, both.left, len, both.shape)?;
    let other_longest = trimmed_in(alloc, both.right, other_len, both.shape)?;
    let most = longest.max(other_longest);
    let cut = BytesLen::try_new(most.min(len)).unwrap();
    let other_cut = BytesLen::try_new(most.min(other_len)).unwrap();
    Ok((cut, other_cut))
}
