//! Copies the items of a grid column by column to where they are row by row.
ghost use Rattle.std.specs.Prelude.{◌≡◌, ◌+◌, ◌*◌, ◌^◌, ◌<◌, ◌≤◌, pos, ◌≤ℤ◌, ◌<ℤ◌, length};
ghost use Rattle.raw_block.specs.Clauses.{position, place, grid_items, GridWithin, band};

use crate::strided::{Steps, copy_arrays};

/// Where the items of a grid are: the first one, and the distances to the next row and the next
/// column, in bytes.
#[derive(Clone, Copy, Drop)]
pub struct Grid {
    pub at: usize,
    pub row_step: isize,
    pub column_step: isize,
    pub rows: usize,
    pub columns: usize,
}

impl Grid {
    /// Some of its rows, starting with one of them.
    pub(crate) fn band(self, first: usize, rows: usize) -> Grid
        requires low { pos 0 ≤ℤ position self.at self.row_step first }
        requires high { position self.at self.row_step first <ℤ pos (2 ^ 64) }
        ensures { result ≡ band self first rows }
    {
        Grid {
            at: Steps::new(self.at, self.row_step).place(first),
            rows,
            ..self
        }
    }

    /// Where the items of a column are.
    fn column(self, j: usize) -> Steps
        requires low { pos 0 ≤ℤ position self.at self.column_step j }
        requires high { position self.at self.column_step j <ℤ pos (2 ^ 64) }
        ensures { (result.at ≡ place self.at self.column_step j) × (result.step ≡ self.row_step) }
    {
        let top = Steps::new(self.at, self.column_step).place(j);
        Steps::new(top, self.row_step)
    }
}

/// Copies the items, of `N` bytes, of a grid in `other` over adjacent items. They are read and
/// written by columns, so that each cache line is used while it is in the cache.
pub(crate) fn copy_by_columns<const N: usize>(bytes: &mut [u8], other: &[u8], grid: Grid)
    requires some { 0 < grid.rows }
    requires bytes { length bytes.old ≡ grid.rows * (grid.columns * N) }
    requires small { grid.columns * N < 2 ^ 63 }
    requires source { GridWithin (length other.now) grid N }
    ensures { bytes.new ≡ grid_items grid N other.now }
{
    let row = grid.columns * N;
    for column in 0..grid.columns {
        let to = Steps {
            at: column * N,
            step: row as isize,
        };
        let from = grid.column(column);
        copy_arrays::<N>(bytes, to, other, from, grid.rows);
    }
}
