//! Single items at shifted places: gathered, copied and filled, one after the other.
ghost use Rattle.std.specs.Prelude.{◌≡◌, ◌+◌, ◌≤◌, ◌++◌, length};
ghost use Rattle.fancy_index.specs.Clauses.{CanPush, CanPut, FitAt, HaveFilled, HavePushed, HavePut, first_offsets, item_at, put};

use crate::fast::even_steps::are_adjacent;
use crate::item_sources::{PackedItems, Source};
use crate::plan_rows::{Shifted, moved};
use arrays::{copy_run, packed_run, push_run};
use raw_block::{BlockBuilder, RawBlock, array_at};
use shape_strides::Run;

impl<'a> Shifted<'a> {
    ghost use Rattle.std.specs.Prelude.{◌≡◌, ◌+◌, ◌≤◌, length, map, slice_range, IfSome};
    ghost use Rattle.fancy_index.specs.inside.Kept.{AreWide, first_offsets};
    ghost use Rattle.fancy_index.specs.inside.Moved.{IsRunOf, moved_offset};

    /// The bytes of the inner items together, if they are a single item or adjacent ones, of `width`
    /// bytes.
    pub(crate) fn row_bytes(self, width: usize) -> Option<usize>
        ensures { IfSome result (AreWide self.entry width) }
    {
        if self.is_single() {
            return Some(width);
        }
        if self.inner.shape.items() == 0 {
            return None;
        }
        let run = self.inner.as_one_run()?;
        if !run.is_packed(width) {
            return None;
        }
        run.count.checked_mul(width)
    }

    /// Those with the shifts in a range.
    pub(crate) fn part(self, from: usize, end: usize) -> Shifted<'a>
        requires order { from ≤ end }
        requires end { end ≤ length self.shifts.now }
        ensures len { from + length result.shifts.now ≡ end }
        ensures offsets { first_offsets result
            ≡ map (moved_offset self.entry.inner.now.offset self.entry.place)
            (slice_range self.entry.shifts.now from end) }
    {
        Shifted {
            shifts: &self.shifts[from..end],
            inner: self.inner,
            place: self.place,
        }
    }

    /// The first items as a run, if items of `width` bytes are adjacent and not wide.
    pub(crate) fn as_run(self, width: usize) -> Option<Run>
        requires some { 1 ≤ length self.shifts.now }
        requires few { length self.shifts.now ≤ 128 }
        ensures { IfSome result (λ run. IsRunOf (first_offsets self.entry) run) }
    {
        if !are_adjacent(self.shifts, width) {
            return None;
        }
        Some(Run {
            offset: moved(self.inner.offset, self.place, self.shifts[0] as usize),
            count: self.shifts.len(),
            step: width as isize,
        })
    }
}

/// Appends the `width` bytes that start at `at`. If the compiler knows the width, and it is a
/// common one, this is a single load and store.
#[inline(always)]
fn push_item(items: &mut BlockBuilder, bytes: &[u8], at: usize, width: usize)
    requires inside { at + width ≤ length bytes.now }
    requires room { width ≤ items.old.1 }
    ensures bytes { items.new.0 ≡ items.old.0 ++ item_at at width bytes.now }
    ensures left { width + items.new.1 ≡ items.old.1 }
{
    match width {
        1 => items.push_array::<1>(array_at::<1>(bytes, at)),
        2 => items.push_array::<2>(array_at::<2>(bytes, at)),
        3 => items.push_array::<3>(array_at::<3>(bytes, at)),
        4 => items.push_array::<4>(array_at::<4>(bytes, at)),
        8 => items.push_array::<8>(array_at::<8>(bytes, at)),
        16 => items.push_array::<16>(array_at::<16>(bytes, at)),
        _ => items.push_bytes(&bytes[at..at + width]),
    }
}

/// Copies `width` bytes, starting at `at`, over those of a block. If the compiler knows the width,
/// and it is a common one, this is a single load and store.
#[inline(always)]
fn put_item(block: &mut RawBlock, to: usize, bytes: &[u8], at: usize, width: usize)
    requires to { to + width ≤ length block.old }
    requires from { at + width ≤ length bytes.now }
    ensures written { block.new ≡ put to (item_at at width bytes.now) block.old }
    ensures len { length block.new ≡ length block.old }
{
    match width {
        1 => block.put(to, &array_at::<1>(bytes, at)),
        2 => block.put(to, &array_at::<2>(bytes, at)),
        3 => block.put(to, &array_at::<3>(bytes, at)),
        4 => block.put(to, &array_at::<4>(bytes, at)),
        8 => block.put(to, &array_at::<8>(bytes, at)),
        _ => block.put(to, &bytes[at..at + width]),
    }
}

/// Appends the items at the shifted places. If the compiler knows the width, each is a single load
/// and store.
#[inline(always)]
pub(crate) fn push_each(items: BlockBuilder, source: Source<'_>, rows: Shifted<'_>) -> BlockBuilder
    requires { CanPush (first_offsets rows) source items }
    ensures { HavePushed (first_offsets rows.entry) source.entry items result }
{
    let Source { block, width } = source;
    let base = rows.inner.offset;
    let bytes = block.bytes();
    let mut items = items;
    for shift in rows.shifts {
        let from = moved(base, rows.place, *shift as usize);
        push_item(&mut items, bytes, from, width);
    }
    items
}

/// Appends the items at the shifted places: as one range if they are adjacent, and otherwise with a
/// loop of its own for each common width.
fn push_stretch(items: BlockBuilder, source: Source<'_>, rows: Shifted<'_>) -> BlockBuilder
    requires some { 1 ≤ length rows.shifts.now }
    requires few { length rows.shifts.now ≤ 128 }
    requires can { CanPush (first_offsets rows) source items }
    ensures { HavePushed (first_offsets rows.entry) source.entry items result }
{
    let Source { block, width } = source;
    match (rows.as_run(width), width) {
        (Some(run), _) => {
            let mut items = items;
            push_run(&mut items, block, run, width);
            items
        }
        (_, 1) => push_each(items, Source { block, width: 1 }, rows),
        (_, 2) => push_each(items, Source { block, width: 2 }, rows),
        (_, 3) => push_each(items, Source { block, width: 3 }, rows),
        (_, 4) => push_each(items, Source { block, width: 4 }, rows),
        (_, 8) => push_each(items, Source { block, width: 8 }, rows),
        (_, 16) => push_each(items, Source { block, width: 16 }, rows),
        _ => push_each(items, source, rows),
    }
}

/// Appends the items at the shifted places, range by range.
pub(crate) fn push_singles(
    items: BlockBuilder,
    source: Source<'_>,
    rows: Shifted<'_>,
) -> BlockBuilder
    requires { CanPush (first_offsets rows) source items }
    ensures { HavePushed (first_offsets rows.entry) source.entry items result }
{
    let mut items = items;
    let mut from = 0;
    while from < rows.shifts.len() {
        let end = rows.shifts.len().min(from + 128);
        items = push_stretch(items, source, rows.part(from, end));
        from = end;
    }
    items
}

/// Copies the items of a source, each to one of the shifted places. Returns where the copied items
/// end. If the compiler knows the width, each is a single load and store.
#[inline(always)]
pub(crate) fn scatter_each(
    block: &mut RawBlock,
    rows: Shifted<'_>,
    source: PackedItems<'_>,
) -> usize
    requires { CanPut (first_offsets rows) source block.old }
    ensures { HavePut (first_offsets rows.entry) source.entry block.old block.new result }
{
    let PackedItems { items, at, width } = source;
    let _len = items.len();
    let base = rows.inner.offset;
    let bytes = items.bytes();
    let mut from = at;
    for shift in rows.shifts {
        let to = moved(base, rows.place, *shift as usize);
        put_item(block, to, bytes, from, width);
        from += width;
    }
    from
}

/// Copies the items of a source to the shifted places: as one range if these are adjacent, and
/// otherwise with a loop of its own for each common width.
fn scatter_stretch(block: &mut RawBlock, rows: Shifted<'_>, source: PackedItems<'_>) -> usize
    requires some { 1 ≤ length rows.shifts.now }
    requires few { length rows.shifts.now ≤ 128 }
    requires can { CanPut (first_offsets rows) source block.old }
    ensures { HavePut (first_offsets rows.entry) source.entry block.old block.new result }
{
    let PackedItems { items, at, width } = source;
    let len = items.len();
    match (rows.as_run(width), width) {
        (Some(run), _) => {
            let from = packed_run(at, width, run.count, len);
            copy_run(block, run, items, from, width);
            at + run.count * width
        }
        (_, 1) => scatter_each(block, rows, PackedItems { width: 1, ..source }),
        (_, 2) => scatter_each(block, rows, PackedItems { width: 2, ..source }),
        (_, 3) => scatter_each(block, rows, PackedItems { width: 3, ..source }),
        (_, 4) => scatter_each(block, rows, PackedItems { width: 4, ..source }),
        (_, 8) => scatter_each(block, rows, PackedItems { width: 8, ..source }),
        _ => scatter_each(block, rows, source),
    }
}

/// Copies the items of a source to the shifted places, range by range.
pub(crate) fn scatter_singles(
    block: &mut RawBlock,
    rows: Shifted<'_>,
    source: PackedItems<'_>,
) -> usize
    requires { CanPut (first_offsets rows) source block.old }
    ensures { HavePut (first_offsets rows.entry) source.entry block.old block.new result }
{
    let mut at = source.at;
    let mut from = 0;
    while from < rows.shifts.len() {
        let end = rows.shifts.len().min(from + 128);
        at = scatter_stretch(block, rows.part(from, end), PackedItems { at, ..source });
        from = end;
    }
    at
}

/// Writes the item at each shifted place. If the compiler knows the length of the item, each is a
/// single store.
#[inline(always)]
pub(crate) fn fill_each(block: &mut RawBlock, rows: Shifted<'_>, item: &[u8])
    requires { FitAt (first_offsets rows) (length item.now) block.old }
    ensures { HaveFilled (first_offsets rows.entry) item.now block.old block.new }
{
    let base = rows.inner.offset;
    for shift in rows.shifts {
        block.put(moved(base, rows.place, *shift as usize), item);
    }
}

/// Writes the item at the shifted places, with a loop of its own for each common width.
pub(crate) fn fill_singles(block: &mut RawBlock, rows: Shifted<'_>, item: &[u8])
    requires { FitAt (first_offsets rows) (length item.now) block.old }
    ensures { HaveFilled (first_offsets rows.entry) item.now block.old block.new }
{
    match *item {
        [a] => fill_each(block, rows, &[a]),
        [a, b] => fill_each(block, rows, &[a, b]),
        [a, b, c] => fill_each(block, rows, &[a, b, c]),
        [a, b, c, d] => fill_each(block, rows, &[a, b, c, d]),
        [a, b, c, d, e, f, g, h] => { fill_each(block, rows, &[a, b, c, d, e, f, g, h]) }
        _ => fill_each(block, rows, item),
    }
}
