//! The text of an array: items in nested brackets, each value padded to the width of its leaf.
ghost use Rattle.array_print.specs.Clauses.{Memory, Sends, SendsPart, StartsWith};
ghost use Rattle.array_print.specs.Printed.{array_text, field_texts, in_parentheses, items_from, structure_text};
ghost use Rattle.std.specs.Prelude.{All, IfOk, IsErrOf, IsTrue, OnErr, OnOk, [], drop, get_or, length, pos, slice_index_or, vec_capacity, ◌*ℤ◌, ◌++◌, ◌+ℤ◌, ◌+◌, ◌<◌, ℕ, ◌^◌, ◌↔◌, ◌≡◌, ◌≤◌, ◌*◌, ◌⊎◌};
ghost use Rattle.array_print.specs.Words.{item_size, leaf_count, leaves_of, listed, max_items, offsets};
ghost use Rattle.array_print.specs.inside.ItemTexts.{AreItemsAt, IsItemAt, part_text, text_at, value_texts};
ghost use Rattle.array_print.specs.inside.Parts.{LeadsOn};
ghost use Rattle.array_print.specs.inside.Pushed.{Pushes};

use crate::axes::{past_ones, repeats, step_along};
use crate::bands::{PrintFault, Room, WriteFault, push, push_byte};
use crate::padding::{comma, push_few, push_lead, push_record_end};
use crate::tuning::{LONG_ROOM, ROOM, SHORT_ITEM};
use crate::values::push_value;
use crate::widths::widths_of;
use elem_descr::{Descr, Field};
use shape_strides::Layout;
use std::io::Write;
use std::mem::replace;

/// Items of one descriptor in a block of bytes, the layout of an array of them, and the widths to
/// which the texts of their values are padded.
#[derive(Clone, Copy)]
pub struct Items<'a> {
    pub descr: &'a Descr,
    pub block: &'a [u8],
    pub layout: &'a Layout,
    pub widths: &'a [usize],
}

/// The item at an offset.
#[derive(Clone, Copy)]
pub struct Item<'a> {
    pub items: Items<'a>,
    pub offset: usize,
}

/// Appends the text of the `k`-th value of an item.
#[inline(always)]
fn push_leaf<W: Write>(
    writer: &mut W,
    out: &mut Room,
    item: &Item<'_>,
    k: usize,
) -> Result<(), WriteFault>
    requires leaf { k < length (leaves_of item.now.items.descr.now) }
    requires few { k ≤ 2048 }
    requires item { IsItemAt item.now.items item.now.offset }
    ensures { Pushes (get_or (value_texts item.now.items item.now.offset) k []) result
        (W.contents writer.old) (W.contents writer.new) out.old out.new }
{
    let items = &item.items;
    let (scalar, at) = items.descr.leaf_at(k);
    let place = item.offset + at;
    let bytes = &items.block[place..place + scalar.size()];
    push_value(writer, out, &scalar, items.widths[k], bytes)
}

/// Appends the text of a field whose first leaf is the `k`-th of the item, and returns the number
/// of the leaf after it.
#[cycle(fields)]
fn push_field<W: Write>(
    writer: &mut W,
    out: &mut Room,
    item: &Item<'_>,
    descr: &Descr,
    k: usize,
) -> Result<usize, WriteFault>
    requires leaves { k + length (leaves_of descr.now) ≤ length (leaves_of item.now.items.descr.now) }
    requires few { length (leaves_of item.now.items.descr.now) ≤ 2048 }
    requires item { IsItemAt item.now.items item.now.offset }
    ensures text { Pushes
        (structure_text descr.now (drop k (value_texts item.now.items item.now.offset)))
        result (W.contents writer.old) (W.contents writer.new) out.old out.new }
    ensures next { IfOk result (λ next. next ≡ k + length (leaves_of descr.now)) }
{
    match descr {
        Descr::Scalar(_) => {
            push_leaf(writer, out, item, k)?;
            Ok(k + 1)
        }
        Descr::Record(inner) => push_record(writer, out, item, inner.fields(), k),
    }
}

/// Appends the text of a record whose first leaf is the `k`-th of the item, with its fields in
/// parentheses, and returns the number of the leaf after it.
#[cycle(fields)]
fn push_record<W: Write>(
    writer: &mut W,
    out: &mut Room,
    item: &Item<'_>,
    fields: &[Field],
    k: usize,
) -> Result<usize, WriteFault>
    requires leaves { k + leaf_count (listed fields.now)
        ≤ length (leaves_of item.now.items.descr.now) }
    requires few { length (leaves_of item.now.items.descr.now) ≤ 2048 }
    requires item { IsItemAt item.now.items item.now.offset }
    ensures text { Pushes (in_parentheses (field_texts (listed fields.now)
        (drop k (value_texts item.now.items item.now.offset))))
        result (W.contents writer.old) (W.contents writer.new) out.old out.new }
    ensures next { IfOk result (λ next. next ≡ k + leaf_count (listed fields.now)) }
{
    let mut leaf = k;
    push_byte(writer, out, b'(')?;
    for (i, field) in fields.iter().enumerate() {
        push(writer, out, comma(i))?;
        leaf = push_field(writer, out, item, &field.descr, leaf)?;
    }
    push_record_end(writer, out, fields.len())?;
    Ok(leaf)
}

/// Appends the text of one item.
fn push_item<W: Write>(writer: &mut W, out: &mut Room, item: &Item<'_>) -> Result<(), WriteFault>
    requires { IsItemAt item.now.items item.now.offset }
    ensures { Pushes (text_at item.now.items item.now.offset) result
        (W.contents writer.old) (W.contents writer.new) out.old out.new }
{
    let descr = item.items.descr;
    let _leaves = descr.leaf_count();
    push_field(writer, out, item, descr, 0)?;
    Ok(())
}

/// Appends the text of the items that the axes from `axis` on lead to, starting at an offset. The
/// caller has appended one opening bracket for each axis before `axis`. Axes of length 1 are passed
/// over at once.
fn push_block<W: Write>(
    writer: &mut W,
    out: &mut Room,
    items: &Items<'_>,
    axis: usize,
    offset: usize,
) -> Result<(), WriteFault>
    requires { AreItemsAt items.now items.now.layout.now axis offset }
    ensures { Pushes (part_text items.now items.now.layout.now axis offset) result
        (W.contents writer.old) (W.contents writer.new) out.old out.new }
{
    let lengths = items.layout.shape.as_slice();
    let next = past_ones(lengths, axis);
    if next > axis {
        push_few(writer, out, b'[', next - axis)?;
        push_block(writer, out, items, next, offset)?;
        return push_few(writer, out, b']', next - axis);
    }
    if axis == lengths.len() {
        let items = *items;
        return push_item(writer, out, &Item { items, offset });
    }
    let strides = items.layout.strides.as_slice();
    let mut kept: Option<Vec<u8>> = None;
    push_byte(writer, out, b'[')?;
    for k in 0..lengths[axis] {
        push_lead(writer, out, k, axis, lengths.len() - axis - 1)?;
        if let Some(text) = &kept {
            push(writer, out, text.as_slice())?;
            continue;
        }
        let from = out.text.len();
        let sent = out.sent;
        let block = step_along(offset, strides, axis, k);
        push_block(writer, out, items, axis + 1, block)?;
        if repeats(strides, axis) {
            kept = out.keep(from, sent);
        }
    }
    out.give_back(kept);
    push_byte(writer, out, b']')
}

/// The room for a text.
fn room_for(layout: &Layout, descr: &Descr) -> usize
    ensures { 4 * 65536 ≤ result }
{
    if descr.size() > SHORT_ITEM && layout.strides.as_slice().contains(&0) {
        let bytes = layout.shape.items().saturating_mul(descr.size());
        return bytes.saturating_mul(4).min(LONG_ROOM).max(ROOM);
    }
    ROOM
}

/// Appends the text of an array whose items are at the layout's offsets in a block. What there is no
/// room for is sent, and the end is left to be sent. All memory is asked for before the first byte
/// is sent.
pub fn print_by_bands<W: Write>(
    writer: &mut W,
    out: &mut Vec<u8>,
    block: &[u8],
    layout: &Layout,
    descr: &Descr,
) -> Result<(), PrintFault>
    requires inside { All (λ offset. offset + item_size descr.now ≤ length block.now)
        (offsets layout.now) }
    ensures ok { OnOk result
        (Sends (W.contents writer.old) (W.contents writer.new) out.new.items (out.old.items
        ++ array_text descr.now layout.now.shape
        (items_from descr.now block.now (offsets layout.now)))) }
    ensures write { IsErrOf result PrintFault.Write →
        SendsPart (W.contents writer.old) (W.contents writer.new) (out.old.items
        ++ array_text descr.now layout.now.shape
        (items_from descr.now block.now (offsets layout.now))) }
    ensures memory { IsErrOf result PrintFault.Memory →
        (writer.new ≡ writer.old) × StartsWith out.new.items out.old.items }
    ensures asked { (writer.new ≡ writer.old) ⊎ (4 * 65536 ≤ vec_capacity out.new) }
    ensures wanted { IsErrOf result PrintFault.Write → 4 * 65536 ≤ vec_capacity out.new }
    ensures room { vec_capacity out.old ≤ vec_capacity out.new }
{
    if layout.shape.items() == 0 {
        return Ok(out.extend_from_slice(b"[]")?);
    }
    let widths = widths_of(*out.allocator(), block, layout, descr)?;
    let room = room_for(layout, descr);
    let mut kept = Vec::new(*out.allocator());
    kept.reserve(room)?;
    out.reserve(room)?;
    let items = Items {
        descr,
        block,
        layout,
        widths: widths.as_slice(),
    };
    let empty = Vec::new(*out.allocator());
    let mut room = Room {
        text: replace(out, empty),
        sent: 0,
        kept,
    };
    let printed = push_block(writer, &mut room, &items, 0, layout.offset);
    *out = room.text;
    Ok(printed?)
}
