//! Appends the bytes of items as a file stores them: a bool is 0 or 1, and padding is zero.
ghost use Rattle.std.specs.Prelude.{All, IfOk, IsTrue, OnOk, length, replicate, ◌*◌, ◌++◌, ◌+◌, ◌-◌, ◌||◌, ◌≡◌, ◌≤◌};
ghost use Rattle.npy_format.specs.Clauses.{AreInOrder, EachWithin, blocks, count, decode_item, encode_item, is_c_contiguous, is_f_contiguous, is_fortran, item_at, item_size, leaves_of, max_bytes, offsets, put, run_offsets, addresses_in_file, as_in_file, capped, gathered, limit, limits_from, flat_map, repeat};

use elem_descr::{Descr, Leaf, Scalar};
use raw_block::{Steps, part};
use shape_strides::{Layout, Run, Runs};
use std::alloc::{AllocError, Global};

/// Appends the items of `width` bytes of a run, all at once if they are adjacent.
fn push_run(file: &mut Vec<u8>, bytes: &[u8], run: Run, width: usize) -> Result<(), AllocError>
    requires within { EachWithin (length bytes.now) run.offset run.step width run.count }
    requires some { 1 ≤ run.count }
    ensures { OnOk result
        (file.new.items ≡ file.old.items ++ gathered width bytes.now (run_offsets run)) }
{
    if run.is_packed(width) {
        return file.extend_from_slice(part(bytes, run.offset, run.count * width));
    }
    let items = Steps::new(run.offset, run.step);
    for k in 0..run.count {
        file.extend_from_slice(part(bytes, items.place(k), width))?;
    }
    Ok(())
}

/// Whether items of `width` bytes are adjacent in C order or in Fortran order, and whether they are
/// in Fortran order and not in C order.
pub(crate) fn adjacency(layout: &Layout, width: usize) -> (bool, bool)
    ensures together { result.0 ≡ (is_c_contiguous width (offsets layout.now)
        || is_f_contiguous width layout.now.shape (offsets layout.now)) }
    ensures fortran { result.1 ≡ is_fortran width layout.now.shape (offsets layout.now) }
{
    let in_c = layout.is_c(width);
    let fortran = !in_c && layout.is_f(width);
    (in_c || fortran, fortran)
}

/// Appends the items of `width` bytes of a layout in the order in which a file stores them.
/// `together` says whether they are adjacent in this order.
pub(crate) fn push_items(
    file: &mut Vec<u8>,
    bytes: &[u8],
    layout: &Layout,
    width: usize,
    together: bool,
) -> Result<(), AllocError>
    requires inside { All (λ offset. offset + width ≤ length bytes.now) (offsets layout.now) }
    requires width { width ≤ 65536 }
    requires together { together ≡ (is_c_contiguous width (offsets layout.now)
        || is_f_contiguous width layout.now.shape (offsets layout.now)) }
    ensures { OnOk result
        (file.new.items ≡ file.old.items
        ++ gathered width bytes.now
        (addresses_in_file width layout.now.shape (offsets layout.now))) }
{
    let count = layout.shape.items();
    if together {
        return file.extend_from_slice(part(bytes, layout.first_address(), count * width));
    }
    for run in Runs::new(layout) {
        push_run(file, bytes, run, width)?;
    }
    Ok(())
}

/// The largest byte that a file stores for a scalar.
fn limit(scalar: &Scalar) -> u8
    ensures { result ≡ limit scalar.now }
{
    match scalar {
        Scalar::Bool => 1,
        _ => 255,
    }
}

/// Appends a byte up to a length.
pub(crate) fn pad(bytes: &mut Vec<u8>, len: usize, byte: u8) -> Result<(), AllocError>
    requires { length bytes.old.items ≤ len }
    ensures { OnOk result
        (bytes.new.items ≡ bytes.old.items ++ replicate (len - length bytes.old.items) byte) }
{
    bytes.resize(len, byte)?;
    Ok(())
}

/// The limits of the bytes of an item of `bytes` bytes: the largest that a file stores.
fn limits(alloc: Global, leaves: &[Leaf], bytes: usize) -> Result<Vec<u8>, AllocError>
    requires in_order { AreInOrder 0 leaves.now bytes }
    requires small { bytes ≤ 65536 }
    ensures { IfOk result (λ limits. limits.items ≡ limits_from 0 leaves.now bytes) }
{
    let mut limits = Vec::new(alloc);
    for leaf in leaves {
        pad(&mut limits, leaf.at, 0)?;
        pad(
            &mut limits,
            leaf.at + leaf.scalar.size(),
            limit(&leaf.scalar),
        )?;
    }
    pad(&mut limits, bytes, 0)?;
    Ok(limits)
}

/// The limits of the bytes of an item of an element type.
pub(crate) fn item_limits(alloc: Global, descr: &Descr) -> Result<Vec<u8>, AllocError>
    ensures limits { IfOk result
        (λ limits. limits.items ≡ limits_from 0 (leaves_of descr.now) (item_size descr.now)) }
    ensures in_order { AreInOrder 0 (leaves_of descr.now) (item_size descr.now) }
{
    match descr {
        Descr::Scalar(scalar) => {
            let leaf = Leaf {
                scalar: *scalar,
                at: 0,
            };
            limits(alloc, &[leaf], scalar.size())
        }
        Descr::Record(whole) => limits(alloc, whole.leaves(), whole.size()),
    }
}

/// Whether items with these limits are written as they are.
pub(crate) fn are_plain(limits: &[u8]) -> bool
    ensures { IsTrue result → All (λ limit. limit ≡ 255) limits.now }
{
    limits.iter().all(|limit| *limit == 255)
}

/// Caps each byte at its limit.
fn cap(bytes: &mut [u8], limits: &[u8])
    requires { length bytes.old ≤ length limits.now }
    ensures { bytes.new ≡ capped bytes.old limits.now }
{
    for k in 0..bytes.len() {
        bytes[k] = bytes[k].min(limits[k]);
    }
}

/// Caps each of `len` bytes from `at` on at its limit.
fn cap_at(bytes: &mut [u8], at: usize, len: usize, limits: &[u8])
    requires within { at + len ≤ length bytes.old }
    requires enough { len ≤ length limits.now }
    ensures { bytes.new ≡ put at (capped (item_at at len bytes.old) limits.now) bytes.old }
{
    cap(&mut bytes[at..at + len], limits);
}

/// Caps each byte at its limit. The limits are repeated as often as needed.
fn cap_each(bytes: &mut [u8], limits: &[u8])
    requires { 1 ≤ length limits.now }
    ensures { bytes.new ≡ capped bytes.old (repeat (length bytes.old) limits.now) }
{
    let mut at = 0;
    while at < bytes.len() {
        let len = limits.len().min(bytes.len() - at);
        cap_at(bytes, at, len, limits);
        at += len;
    }
}

/// Writes `count` adjacent items, whose bytes have these limits, as a file stores them.
pub(crate) fn write_items(
    alloc: Global,
    bytes: &mut [u8],
    count: usize,
    descr: &Descr,
    limits: &[u8],
) -> Result<(), AllocError>
    requires len { length bytes.old ≡ count * item_size descr.now }
    requires in_order { AreInOrder 0 (leaves_of descr.now) (item_size descr.now) }
    requires limits { limits.now ≡ limits_from 0 (leaves_of descr.now) (item_size descr.now) }
    ensures { OnOk result (bytes.new ≡ as_in_file descr.now count bytes.old) }
{
    if are_plain(limits) {
        return Ok(());
    }
    let _len = bytes.len();
    // (a loop over some hundred bytes at once takes far fewer instructions than one over each item)
    let many = limits.repeat(alloc, count.min(512 / descr.size()) + 1)?;
    cap_each(bytes, many.as_slice());
    Ok(())
}
