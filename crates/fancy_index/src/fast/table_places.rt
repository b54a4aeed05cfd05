//! The integers of an array, read in an order near that of memory, and the indexes that they stand
//! for.
ghost use Rattle.std.specs.Prelude.{◌≡◌, ◌<◌, ◌≤◌, length};
ghost use Rattle.fancy_index.specs.inside.Items.{numbers_in};
ghost use Rattle.fancy_index.specs.inside.Readings.{CellsLie, IsReading, cell_words};
ghost use Rattle.fancy_index.specs.inside.Tables.{AreRead, InCells, InRows};
ghost use Rattle.fancy_index.specs.inside.Words.{ArePlaces};

use crate::fast::offset_tables::OffsetTable;
use crate::index_arrays::Named;
use crate::integers::{Form, Integral, put_places, word_place};
use crate::tuning::NEAR_COLUMNS;
use raw_block::array_at;

/// The integers of `N` bytes in some columns of a row.
#[derive(Clone, Copy, Drop)]
struct Cells<'a, const N: usize> {
    bytes: &'a [u8],
    form: Form,
    columns: &'a [u32],
    row: u32,
    start: u32,
    ghost width: { form.width ≡ N },
    ghost few: { (1 ≤ N) × (N ≤ 8) },
    ghost lie: { CellsLie bytes.now form.width row start columns.now },
}

impl<const N: usize> Integral for Cells<'_, N> {
    ghost numbers = { λ cells.
        cell_words cells.form cells.bytes.now cells.row cells.start cells.columns.now };

    #[inline(always)]
    fn place(&self, k: usize, n: usize) -> (bool, u32) {
        let at = self.row + self.columns[k] - self.start;
        let item = array_at::<N>(self.bytes, at as usize);
        word_place::<N>(self.form, &item, n)
    }
}

/// An array of integers, and the table of its layout.
#[derive(Clone, Copy, Drop)]
pub(crate) struct Reading<'a> {
    pub named: Named<'a>,
    pub form: Form,
    pub table: &'a OffsetTable,
    pub ghost reading: { IsReading named form table.now },
}

/// Writes the indexes that the integers in some columns of a row stand for, and returns whether all
/// of these are in range.
fn put_cells<const N: usize>(
    places: &mut [u32],
    reading: Reading<'_>,
    row: usize,
    from: usize,
    end: usize,
) -> bool
    requires few { (1 ≤ N) × (N ≤ 8) }
    requires width { reading.form.width ≡ N }
    requires many { length places.old ≡ length (numbers_in reading.named.array) }
    requires row { row < length reading.table.now.rows.items }
    requires order { from ≤ end }
    requires end { end ≤ length reading.table.now.columns.items }
    ensures { let among = InCells (length reading.entry.table.now.columns.items) row from end in
        let named = reading.entry.named in
        AreRead named.n (numbers_in named.array) among result places.old places.new }
{
    let Reading { named, form, table } = reading;
    let rows = table.rows.as_slice();
    let columns = table.columns.as_slice();
    let first = row * columns.len();
    let cells = Cells::<N> {
        bytes: named.array.block.bytes(),
        form,
        columns: &columns[from..end],
        row: rows[row],
        start: table.start,
    };
    put_places(&mut places[first + from..first + end], cells, named.n)
}

/// The same in a row, and in each `step`th row from there on.
fn put_rows<const N: usize>(
    places: &mut [u32],
    reading: Reading<'_>,
    first: usize,
    from: usize,
    end: usize,
) -> bool
    requires few { (1 ≤ N) × (N ≤ 8) }
    requires width { reading.form.width ≡ N }
    requires many { length places.old ≡ length (numbers_in reading.named.array) }
    requires first { first < reading.table.now.step }
    requires order { from ≤ end }
    requires end { end ≤ length reading.table.now.columns.items }
    ensures { let table = reading.entry.table.now in
        let columns = length table.columns.items in
        let among = InRows columns table.step first from end in
        let named = reading.entry.named in
        AreRead named.n (numbers_in named.array) among result places.old places.new }
{
    let mut are = true;
    let mut row = first;
    while row < reading.table.rows.len() {
        are = are & put_cells::<N>(places, reading, row, from, end);
        row += reading.table.step;
    }
    are
}

/// The same in all columns, some at a time.
fn put_columns<const N: usize>(places: &mut [u32], reading: Reading<'_>, first: usize) -> bool
    requires few { (1 ≤ N) × (N ≤ 8) }
    requires width { reading.form.width ≡ N }
    requires many { length places.old ≡ length (numbers_in reading.named.array) }
    requires first { first < reading.table.now.step }
    ensures { let table = reading.entry.table.now in
        let columns = length table.columns.items in
        let among = InRows columns table.step first 0 columns in
        let named = reading.entry.named in
        AreRead named.n (numbers_in named.array) among result places.old places.new }
{
    let columns = reading.table.columns.len();
    let mut are = true;
    let mut from = 0;
    while from < columns {
        let end = from + NEAR_COLUMNS.min(columns - from);
        are = are & put_rows::<N>(places, reading, first, from, end);
        from = end;
    }
    are
}

/// Writes the indexes that all integers stand for, and returns whether all are in range. Rows that
/// are near each other in memory are read one after the other.
pub(crate) fn put_table<const N: usize>(places: &mut [u32], reading: Reading<'_>) -> bool
    requires few { (1 ≤ N) × (N ≤ 8) }
    requires width { reading.form.width ≡ N }
    requires many { length places.old ≡ length (numbers_in reading.named.array) }
    ensures { let named = reading.entry.named in
        ArePlaces named.n (numbers_in named.array) result places.new }
{
    let mut are = true;
    for first in 0..reading.table.step {
        are = are & put_columns::<N>(places, reading, first);
    }
    are
}
