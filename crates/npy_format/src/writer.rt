//! Writes files.
ghost use Rattle.std.specs.Prelude.{◌≡◌, ◌++◌, ◌+◌, ◌*◌, ◌<◌, ◌≤◌, length, map, All, IfOk, Err};
ghost use Rattle.npy_format.specs.Clauses.{TooLarge, Gives, item_size, item_from, max_bytes, count, offsets, written_text, written_header, is_fortran, item_at, saved, AreBytes, LoadsAs, IsSound};

use crate::file_header::file_header;
use crate::header_text::header_text;
use crate::items::{adjacency, are_plain, item_limits, push_items, write_items};
use arrays::bytes_of;
use elem_descr::{Descr, Refusal};
use raw_block::{RawBlock, part};
use shape_strides::{Layout, Shape};
use std::alloc::{AllocError, Global};

/// A file in two parts, the second of which may be the bytes of a block.
#[derive(Drop)]
pub struct SavedParts<'a> {
    pub front: Vec<u8>,
    pub items: &'a [u8],
}

/// The bytes of a file before its items.
fn header(alloc: Global, descr: &Descr, fortran: bool, shape: &Shape) -> Result<Vec<u8>, AllocError>
    ensures { IfOk result
        (λ file. file.items ≡ written_header (written_text descr.now fortran shape.now)) }
{
    let text = header_text(alloc, descr, fortran, shape)?;
    file_header(alloc, text.as_slice())
}

/// What holds for an element type. For the prover alone.
fn look_at(descr: &Descr)
    ensures { IsSound descr.now }
{
    let _bytes = match descr {
        Descr::Scalar(scalar) => scalar.size(),
        Descr::Record(whole) => whole.size(),
    };
}

/// What is saved of the items of a layout loads again. For the prover alone.
fn will_load(bytes: &[u8], layout: &Layout, descr: &Descr)
    requires { All (λ offset. offset + item_size descr.now ≤ length bytes.now)
        (offsets layout.now) }
    ensures bytes { AreBytes bytes.now }
    ensures loads { let items = map (item_from descr.now bytes.now) (offsets layout.now) in
        IfOk (saved descr.now layout.now.shape (offsets layout.now) items)
        (λ file. LoadsAs file descr.now layout.now.shape items) }
{
    look_at(descr);
    let _bytes = bytes.len();
    let _lengths = layout.shape.as_slice();
}

/// The file that `npy_write` returns, in two parts. If the items are stored in the block as in the
/// file, the second part is their bytes there.
pub fn npy_parts<'a>(
    alloc: Global,
    block: &'a RawBlock,
    layout: &Layout,
    descr: &Descr,
) -> Result<SavedParts<'a>, Refusal>
    requires inside { All (λ offset. offset + item_size descr.now ≤ length block.now)
        (offsets layout.now) }
    ensures gives { Gives (λ parts. parts.front.items ++ parts.items.now) result
        (saved descr.now layout.now.shape (offsets layout.now)
        (map (item_from descr.now block.now) (offsets layout.now))) }
    ensures large { max_bytes < count layout.now.shape * item_size descr.now →
        result ≡ Err TooLarge }
    ensures loads { let items = map (item_from descr.now block.now) (offsets layout.now) in
        IfOk (saved descr.now layout.now.shape (offsets layout.now) items)
        (λ file. LoadsAs file descr.now layout.now.shape items) }
{
    let bytes = block.bytes();
    will_load(bytes, layout, descr);
    let len = bytes_of(layout.shape.items(), descr)?;
    let width = descr.size();
    let (together, fortran) = adjacency(layout, width);
    let mut front = header(alloc, descr, fortran, &layout.shape)?;
    let limits = item_limits(alloc, descr)?;
    if together && are_plain(&limits) {
        let items = part(bytes, layout.first_address(), len);
        return Ok(SavedParts { front, items });
    }
    let start = front.len();
    front.reserve_exact(len)?;
    push_items(&mut front, bytes, layout, width, together)?;
    write_items(
        alloc,
        &mut front.as_mut_slice()[start..],
        layout.shape.items(),
        descr,
        &limits,
    )?;
    Ok(SavedParts { front, items: &[] })
}

/// The file of the items of a layout, of version 1.0, or 2.0 if the header is too long for that.
/// The items are in Fortran order if they are stored so and not in C order, and in C order
/// otherwise. Padding is zero, and a bool 0 or 1, whatever the block contains.
///
/// More than 2^28 bytes of items are `TooLarge`. Every other file loads as an array of the same
/// element type, shape and items, whether or not there is memory to write it.
///
/// For programs that keep files in memory; `save` passes the two parts on.
pub fn npy_write(
    alloc: Global,
    block: &RawBlock,
    layout: &Layout,
    descr: &Descr,
) -> Result<Vec<u8>, Refusal>
    requires inside { All (λ offset. offset + item_size descr.now ≤ length block.now)
        (offsets layout.now) }
    ensures gives { Gives (λ file. file.items) result
        (saved descr.now layout.now.shape (offsets layout.now)
        (map (item_from descr.now block.now) (offsets layout.now))) }
    ensures large { max_bytes < count layout.now.shape * item_size descr.now →
        result ≡ Err TooLarge }
    ensures loads { let items = map (item_from descr.now block.now) (offsets layout.now) in
        IfOk (saved descr.now layout.now.shape (offsets layout.now) items)
        (λ file. LoadsAs file descr.now layout.now.shape items) }
{
    let SavedParts { mut front, items } = npy_parts(alloc, block, layout, descr)?;
    front.extend_from_slice(items)?;
    Ok(front)
}
