//! The offsets of a layout's items as sums: one for the row, and one for the column.
ghost use Rattle.std.specs.Prelude.{All, IfOk, IfSome, length, ◌<◌, ◌≡◌, ◌≤◌};
ghost use Rattle.fancy_index.specs.Words.{count, max_bytes, offsets};
ghost use Rattle.fancy_index.specs.inside.Tables.{IsTableOf};

use crate::along_axes::along;
use crate::tuning::{CACHED_ITEMS, FEWEST_COLUMNS, NEAR_BYTES, NEAR_STEPS};
use shape_strides::{Layout, MAX_ITEMS, Walk};
use std::alloc::{AllocError, Global};

/// The items of a layout as rows and columns. Its first axes lead to the rows, and the others to
/// the columns.
#[derive(Drop)]
pub(crate) struct OffsetTable {
    /// The offset of the first item of each row.
    pub rows: Vec<u32>,
    /// The offset of each item of the first row.
    pub columns: Vec<u32>,
    /// The offset of the first item.
    pub start: u32,
    /// How many rows a row is from the next one that is near it in memory.
    pub step: usize,
}

/// How many of the first axes lead to the rows.
fn row_axes(lengths: &[usize]) -> usize
    ensures { result ≤ length lengths.now }
{
    let mut columns: usize = 1;
    let mut axis = lengths.len();
    while axis > 0 && columns < FEWEST_COLUMNS {
        axis -= 1;
        columns = columns.saturating_mul(lengths[axis]);
    }
    axis
}

/// The least distance, in bytes, between two items along an axis.
fn least_stride(lengths: &[usize], strides: &[isize]) -> usize
    requires { length strides.now ≡ length lengths.now }
{
    let mut least = usize::MAX;
    for axis in 0..lengths.len() {
        let stride = strides[axis].unsigned_abs();
        if lengths[axis] > 1 && stride > 0 {
            least = least.min(stride);
        }
    }
    least
}

/// How many items an item is from the next one that is near it in memory, if they are many.
fn items_between(lengths: &[usize], strides: &[isize]) -> Option<usize>
    requires { length strides.now ≡ length lengths.now }
{
    let near = least_stride(lengths, strides)
        .saturating_mul(NEAR_STEPS)
        .max(NEAR_BYTES);
    let mut items: usize = 1;
    let mut axis = lengths.len();
    while axis > 0 {
        axis -= 1;
        let stride = strides[axis].unsigned_abs();
        if lengths[axis] > 1 && stride > 0 && stride < near && items >= CACHED_ITEMS {
            return Some(items);
        }
        items = items.saturating_mul(lengths[axis]);
    }
    None
}

/// The offsets of a layout's items, in C order.
fn offsets_of(alloc: Global, layout: &Layout) -> Result<Vec<u32>, AllocError>
    ensures items { IfOk result (λ v. v.items ≡ offsets layout.now) }
    ensures small { IfOk result (λ v. All (λ offset. offset ≤ max_bytes) v.items) }
{
    let mut list = Vec::new(alloc);
    for offset in Walk::new(layout) {
        list.push(offset as u32)?;
    }
    Ok(list)
}

/// The table of a layout whose first `axes` axes lead to the rows.
fn table(
    alloc: Global,
    layout: &Layout,
    axes: usize,
    between: usize,
) -> Result<OffsetTable, AllocError>
    requires axes { axes ≤ length layout.now.shape }
    requires some { 0 < count layout.now.shape }
    ensures { IfOk result (IsTableOf layout.now) }
{
    let start = layout.offset;
    let (before, after) = layout.shape.as_slice().split_at(axes);
    let outer = along(alloc, layout, 0, before, start)?;
    let inner = along(alloc, layout, axes, after, start)?;
    let rows = offsets_of(alloc, &outer)?;
    let columns = offsets_of(alloc, &inner)?;
    let step = (between / columns.len().max(1)).clamp(1, MAX_ITEMS);
    Ok(OffsetTable {
        rows,
        columns,
        start: start as u32,
        step,
    })
}

/// The table of a layout in which items that are near each other in memory are far from each other
/// in C order, if there is memory for it.
pub(crate) fn table_if_spread(alloc: Global, layout: &Layout) -> Option<OffsetTable>
    ensures { IfSome result (IsTableOf layout.now) }
{
    if layout.shape.items() == 0 {
        return None;
    }
    let lengths = layout.shape.as_slice();
    let between = items_between(lengths, layout.strides.as_slice())?;
    table(alloc, layout, row_axes(lengths), between).ok()
}
