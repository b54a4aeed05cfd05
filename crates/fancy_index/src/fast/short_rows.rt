//! Short rows: a few items at each place of a run, as `a[:,j]` selects them if `j` is short. They
//! are gathered, copied and filled in a single loop, with a loop of its own for each common width,
//! and for two, three and four items.
ghost use Rattle.std.specs.Prelude.{◌≡◌, ◌≤◌};
ghost use Rattle.fancy_index.specs.Words.{BeginsWithin, count, max_items, offsets, run_offsets};

use crate::fast::even_steps::are_adjacent;
use crate::fast::singles::{fill_each, push_each, scatter_each};
use crate::item_sources::{PackedItems, Source};
use crate::plan_rows::{PlanAxes, Shifted};
use crate::tuning::{FEW_SHIFTS, SHORT_ROW};
use raw_block::{BlockBuilder, RawBlock};
use shape_strides::Run;

/// The items of a plan whose inner axes have a single item: at each place of a run, one item for
/// each of a few shifts.
#[derive(Clone, Copy, Drop)]
pub(crate) struct ShortRows<'a> {
    pub axes: &'a PlanAxes,
    pub shifts: &'a [u32],
    pub places: Run,
    pub ghost shifted: { shifts.now ≡ axes.now.shifts.items },
    pub ghost same: { run_offsets places ≡ offsets axes.now.outer },
    pub ghost begins: { BeginsWithin places },
    pub ghost few: { places.count ≤ max_items },
    pub ghost single: { count axes.now.inner.shape ≡ 1 },
}

/// Calls a method of short rows. The compiler knows how many shifts there are, if they are two,
/// three or four, so that these stay in registers.
macro_rules! on_shifts {
    ($rows:expr, $work:ident($($arg:expr),*)) => {
        match *$rows.shifts {
            [a, b] => $rows.with(&[a, b]).$work($($arg),*),
            [a, b, c] => $rows.with(&[a, b, c]).$work($($arg),*),
            [a, b, c, d] => $rows.with(&[a, b, c, d]).$work($($arg),*),
            _ => $rows.$work($($arg),*),
        }
    };
}

impl<'a> ShortRows<'a> {
    ghost use Rattle.std.specs.Prelude.{◌<◌, length, IfSome};
    ghost use Rattle.fancy_index.specs.inside.Kept.{CanPush, CanPut, FitAt, HaveFilled, HavePushed, HavePut, first_offsets, offsets_from, row_at, short_offsets};

    /// The items of a plan, of `width` bytes, as short rows, if they are.
    pub(crate) fn of(axes: &'a PlanAxes, width: usize) -> Option<ShortRows<'a>>
        ensures { IfSome result (λ rows. short_offsets rows ≡ offsets_from axes.now) }
    {
        let shifts = axes.shifts.as_slice();
        if shifts.len() > SHORT_ROW || axes.inner.shape.items() != 1 {
            return None;
        }
        if shifts.len() > FEW_SHIFTS && are_adjacent(shifts, width) {
            return None;
        }
        let _count = axes.outer.shape.items();
        let places = axes.outer.as_one_run()?;
        Some(ShortRows {
            axes,
            shifts,
            places,
        })
    }

    /// The same rows, given the same shifts.
    #[inline(always)]
    fn with(self, shifts: &'a [u32]) -> ShortRows<'a>
        requires { shifts.now ≡ self.shifts.now }
        ensures { short_offsets result ≡ short_offsets self.entry }
    {
        ShortRows {
            axes: self.axes,
            shifts,
            places: self.places,
        }
    }

    /// The items at one of the places.
    #[inline(always)]
    fn row(self, k: usize) -> Shifted<'a>
        requires { k < self.places.count }
        ensures { first_offsets result ≡ row_at self.entry k }
    {
        Shifted {
            shifts: self.shifts,
            inner: &self.axes.inner,
            place: self.places.offset_after(k),
        }
    }

    /// Appends all items. If the compiler knows the width, each is a single load and store.
    #[inline(always)]
    fn push_rows(self, items: BlockBuilder, source: Source<'_>) -> BlockBuilder
        requires { CanPush (short_offsets self) source items }
        ensures { HavePushed (short_offsets self.entry) source.entry items result }
    {
        let mut items = items;
        for k in 0..self.places.count {
            items = push_each(items, source, self.row(k));
        }
        items
    }

    #[inline(always)]
    fn push_on_width(self, items: BlockBuilder, source: Source<'_>) -> BlockBuilder
        requires { CanPush (short_offsets self) source items }
        ensures { HavePushed (short_offsets self.entry) source.entry items result }
    {
        match source.width {
            1 => self.push_rows(items, Source { width: 1, ..source }),
            2 => self.push_rows(items, Source { width: 2, ..source }),
            4 => self.push_rows(items, Source { width: 4, ..source }),
            8 => self.push_rows(items, Source { width: 8, ..source }),
            _ => self.push_rows(items, source),
        }
    }

    /// Appends all items.
    pub(crate) fn push(self, items: BlockBuilder, source: Source<'_>) -> BlockBuilder
        requires { CanPush (short_offsets self) source items }
        ensures { HavePushed (short_offsets self.entry) source.entry items result }
    {
        on_shifts!(self, push_on_width(items, source))
    }

    /// Copies the items of a source to all places. Returns where the copied items end. If the
    /// compiler knows the width, each is a single load and store.
    #[inline(always)]
    fn scatter_rows(self, block: &mut RawBlock, source: PackedItems<'_>) -> usize
        requires { CanPut (short_offsets self) source block.old }
        ensures { HavePut (short_offsets self.entry) source.entry block.old block.new result }
    {
        let mut at = source.at;
        for k in 0..self.places.count {
            at = scatter_each(block, self.row(k), PackedItems { at, ..source });
        }
        at
    }

    #[inline(always)]
    fn scatter_on_width(self, block: &mut RawBlock, source: PackedItems<'_>) -> usize
        requires { CanPut (short_offsets self) source block.old }
        ensures { HavePut (short_offsets self.entry) source.entry block.old block.new result }
    {
        match source.width {
            1 => self.scatter_rows(block, PackedItems { width: 1, ..source }),
            2 => self.scatter_rows(block, PackedItems { width: 2, ..source }),
            4 => self.scatter_rows(block, PackedItems { width: 4, ..source }),
            8 => self.scatter_rows(block, PackedItems { width: 8, ..source }),
            _ => self.scatter_rows(block, source),
        }
    }

    /// Copies the items of a source to all places. Returns where the copied items end.
    pub(crate) fn scatter(self, block: &mut RawBlock, source: PackedItems<'_>) -> usize
        requires { CanPut (short_offsets self) source block.old }
        ensures { HavePut (short_offsets self.entry) source.entry block.old block.new result }
    {
        on_shifts!(self, scatter_on_width(block, source))
    }

    /// Writes the item to all places. If the compiler knows its length, each is a single store.
    #[inline(always)]
    fn fill_rows(self, block: &mut RawBlock, item: &[u8])
        requires { FitAt (short_offsets self) (length item.now) block.old }
        ensures { HaveFilled (short_offsets self.entry) item.now block.old block.new }
    {
        for k in 0..self.places.count {
            fill_each(block, self.row(k), item);
        }
    }

    #[inline(always)]
    fn fill_on_width(self, block: &mut RawBlock, item: &[u8])
        requires { FitAt (short_offsets self) (length item.now) block.old }
        ensures { HaveFilled (short_offsets self.entry) item.now block.old block.new }
    {
        match *item {
            [a] => self.fill_rows(block, &[a]),
            [a, b] => self.fill_rows(block, &[a, b]),
            [a, b, c, d] => self.fill_rows(block, &[a, b, c, d]),
            [a, b, c, d, e, f, g, h] => self.fill_rows(block, &[a, b, c, d, e, f, g, h]),
            _ => self.fill_rows(block, item),
        }
    }

    /// Writes the item to all places.
    pub(crate) fn fill(self, block: &mut RawBlock, item: &[u8])
        requires { FitAt (short_offsets self) (length item.now) block.old }
        ensures { HaveFilled (short_offsets self.entry) item.now block.old block.new }
    {
        on_shifts!(self, fill_on_width(block, item))
    }
}
