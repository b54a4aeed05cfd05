//! The offsets of a layout's items, one after the other in C order.
ghost use Rattle.shape_strides.specs.Addresses.{address_at};
ghost use Rattle.shape_strides.specs.Indexes.{IsIndex, count, rank};
ghost use Rattle.shape_strides.specs.Limits.{max_axes, max_bytes};
ghost use Rattle.shape_strides.specs.Walks.{AreAxes, offsets_at};
ghost use Rattle.std.specs.Prelude.{All, length, pos, slice_index, ℕ, ◌+◌, ◌<◌, ◌≡◌, ◌≤◌};

use crate::layout::Layout;
use crate::steps::{back, forward};
use std::marker::Model;

/// The offsets of a layout's items in C order, seen as the list of the remaining ones. It takes no
/// memory, whatever the number of axes.
#[derive(Drop)]
pub struct Walk<'a> {
    lengths: &'a [usize],
    strides: &'a [isize],
    start: usize,
    index: [usize; 64],
    offset: usize,
    left: usize,
}

impl<'a> Model for Walk<'a> {
    ghost use Rattle.std.specs.Prelude.{List, ℕ, ◌-◌, drop, take, length};

    ghost Value = { List ℕ };

    ghost use Rattle.shape_strides.specs.Indexes.{count};
    ghost use Rattle.shape_strides.specs.Walks.{AreAxes, IsOnWalk, offsets_at};

    ghost view = { λ w. drop (count w.lengths.now - w.left)
        (offsets_at w.lengths.now w.strides.now w.start) };

    ghost invariant = { λ w. AreAxes w.lengths.now w.strides.now w.start
        × IsOnWalk w.lengths.now w.strides.now w.start
        (take (length w.lengths.now) w.index) w.offset w.left };
}

impl<'a> Walk<'a> {
    ghost use Rattle.shape_strides.specs.Layouts.{offsets, Fits};

    /// A walk over all items of a layout.
    pub fn new(layout: &'a Layout) -> Walk<'a>
        ensures items { result ≡ offsets layout.now }
        ensures count { length (offsets layout.now) ≡ count layout.now.shape }
        ensures within { (len item : ℕ) → Fits layout.now len item
            → All (λ offset. offset + item ≤ len) (offsets layout.now) }
    {
        Walk::over(
            layout.shape.as_slice(),
            layout.strides.as_slice(),
            layout.offset,
            layout.shape.items(),
        )
    }

    /// The offsets that axes lead to.
    pub(crate) fn over(
        lengths: &'a [usize],
        strides: &'a [isize],
        start: usize,
        items: usize,
    ) -> Walk<'a>
        requires axes { AreAxes lengths.now strides.now start }
        requires few { length lengths.now ≤ max_axes }
        requires items { items ≡ count lengths.now }
        ensures { result ≡ offsets_at lengths.now strides.now start }
    {
        Walk {
            lengths,
            strides,
            start,
            index: [0; 64],
            offset: start,
            left: items,
        }
    }
}

/// Goes on to the next index in C order, and from the last one back to the first. Returns the
/// offset there.
fn advance(
    lengths: &[usize],
    strides: &[isize],
    start: usize,
    index: &mut [usize],
    offset: usize,
) -> usize
    requires axes { AreAxes lengths.now strides.now start }
    requires index { IsIndex lengths.now index.old }
    requires offset { pos offset ≡ address_at strides.now start index.old }
    ensures index { IsIndex lengths.now index.new }
    ensures rank { rank lengths.now index.old + 1 < count lengths.now
        → rank lengths.now index.new ≡ rank lengths.now index.old + 1 }
    ensures offset { pos result ≡ address_at strides.now start index.new }
{
    let mut offset = offset;
    let mut axis = lengths.len();
    while axis > 0 {
        axis -= 1;
        let number = index[axis];
        if number + 1 < lengths[axis] {
            index[axis] = number + 1;
            return forward(offset, strides, axis, 1);
        }
        index[axis] = 0;
        offset = back(offset, strides, axis, number);
    }
    start
}

impl<'a> Iterator for Walk<'a> {
    ghost use Rattle.std.specs.Iterator.{YieldsFirst, item_count};

    type Item = usize;

    ghost next_gives = { YieldsFirst (λ left. left) };

    ghost remaining = { item_count (λ left. left) };

    fn next(&mut self) -> Option<usize> {
        if self.left == 0 {
            return None;
        }
        let axes = self.lengths.len();
        let offset = self.offset;
        self.left -= 1;
        self.offset = advance(
            self.lengths,
            self.strides,
            self.start,
            &mut self.index[..axes],
            offset,
        );
        Some(offset)
    }
}

/// Writes the index that has this rank among items of these lengths.
pub fn index_at(lengths: &[usize], at: usize, index: &mut [usize])
    requires axes { length index.old ≡ length lengths.now }
    requires rank { at < count lengths.now }
    ensures index { IsIndex lengths.now index.new }
    ensures rank { rank lengths.now index.new ≡ at }
{
    let mut left = at;
    let mut axis = lengths.len();
    while axis > 0 {
        axis -= 1;
        let len = lengths[axis];
        index[axis] = left % len;
        left /= len;
    }
}

impl Layout {
    ghost use Rattle.shape_strides.specs.Layouts.{offsets};

    /// The offset of the item at a rank.
    pub fn at_rank(&self, at: usize) -> usize
        requires { at < count self.now.shape }
        ensures entry { result ≡ slice_index (offsets self.now) at }
        ensures bound { result < max_bytes }
    {
        let axes = self.shape.rank();
        let mut index = [0; 64];
        index_at(self.shape.as_slice(), at, &mut index[..axes]);
        self.at(&index[..axes])
    }
}
