//! Shapes: the lengths of an array's axes.
ghost use Rattle.std.specs.Prelude.{◌≡◌, ◌+◌, ◌<◌, ◌≤◌, length, reverse, swap, nat_le, IsTrue, All, IfOk, Some};
ghost use Rattle.std.proofs.Common.{min};
ghost use Rattle.shape_strides.specs.Words.{list_all, Gives};
ghost use Rattle.shape_strides.specs.Limits.{max_axes, max_items};
ghost use Rattle.shape_strides.specs.Indexes.{count};
ghost use Rattle.shape_strides.specs.Shapes.{shape_of, shape_text, IsShape};

use elem_descr::Refusal;
use smallvec::SmallVec;
use std::alloc::{AllocError, Global};
use std::fmt;
use std::marker::Model;

/// The greatest number of axes.
pub const MAX_AXES: usize = 64;

/// The greatest length of an axis, and the greatest number of items.
pub const MAX_ITEMS: usize = 1 << 24;

/// The lengths of an array's axes, the first axis first. Up to four axes take no memory.
#[derive(Drop)]
pub struct Shape {
    axes: SmallVec<usize, 4>,
    items: usize,
}

impl Model for Shape {
    ghost use Rattle.std.specs.Prelude.{◌≡◌, List, ℕ};
    ghost use Rattle.shape_strides.specs.Indexes.{count};
    ghost use Rattle.shape_strides.specs.Shapes.{IsShape};

    ghost Value = { List ℕ };

    ghost view = { λ s. s.axes.items };

    ghost invariant = { λ s. IsShape s.axes.items × (s.items ≡ count s.axes.items) };
}

/// Whether each length is within the limit.
fn are_within_limit(lengths: &[usize]) -> bool
    ensures value { result ≡ list_all (λ n. nat_le n max_items) lengths.now }
    ensures all { IsTrue result → All (λ n. n ≤ max_items) lengths.now }
{
    lengths.iter().all(|len| *len <= MAX_ITEMS)
}

/// The product of the lengths, or one more than `MAX_ITEMS` if it is greater than that.
fn capped_count(lengths: &[usize]) -> usize
    requires { All (λ n. n ≤ max_items) lengths.now }
    ensures { result ≡ min (count lengths.now) (max_items + 1) }
{
    let mut items = 1;
    for len in lengths {
        items = (items * *len).min(MAX_ITEMS + 1);
    }
    items
}

impl Shape {
    /// The shape with these lengths. More than 64 axes are refused first; then a length or a
    /// number of items above 2^24, where the number of items is the exact product, so that one
    /// length of 0 makes it 0.
    pub fn try_new(alloc: Global, lengths: &[usize]) -> Result<Shape, Refusal>
        ensures { Gives (λ s. s) result (shape_of lengths.now) }
    {
        if lengths.len() > MAX_AXES {
            return Err(Refusal::TooManyAxes);
        }
        if !are_within_limit(lengths) || capped_count(lengths) > MAX_ITEMS {
            return Err(Refusal::TooLarge);
        }
        Ok(Shape::from_lengths(alloc, lengths)?)
    }

    /// The shape with these lengths, which are known to be those of a shape.
    pub fn from_lengths(alloc: Global, lengths: &[usize]) -> Result<Shape, AllocError>
        requires { IsShape lengths.now }
        ensures { IfOk result (λ s. s ≡ lengths.now) }
    {
        let axes = SmallVec::from_slice(alloc, lengths)?;
        let items = capped_count(lengths);
        Ok(Shape { axes, items })
    }

    /// The lengths of the axes.
    pub fn as_slice(&self) -> &[usize]
        ensures value { result.now ≡ self.now }
        ensures rank { length self.now ≤ max_axes }
        ensures lengths { All (λ n. n ≤ max_items) self.now }
        ensures items { count self.now ≤ max_items }
    {
        self.axes.as_slice()
    }

    /// The number of axes.
    pub fn rank(&self) -> usize
        ensures value { result ≡ length self.now }
        ensures limit { result ≤ max_axes }
    {
        self.axes.len()
    }

    /// The number of items.
    pub fn items(&self) -> usize
        ensures value { result ≡ count self.now }
        ensures limit { result ≤ max_items }
    {
        self.items
    }

    pub fn try_copy(alloc: Global, shape: &Shape) -> Result<Shape, AllocError>
        ensures { IfOk result (λ s. s ≡ shape.now) }
    {
        let axes = SmallVec::from_slice(alloc, shape.axes.as_slice())?;
        Ok(Shape {
            axes,
            items: shape.items,
        })
    }

    /// Reverses the axes.
    pub(crate) fn reverse(&mut self)
        ensures { self.new ≡ reverse self.old }
    {
        self.axes.as_mut_slice().reverse();
    }

    /// Swaps an axis and the next one.
    pub(crate) fn swap(&mut self, axis: usize)
        requires { axis + 1 < length self.old }
        ensures { self.new ≡ swap self.old axis (axis + 1) }
    {
        self.axes.as_mut_slice().swap(axis, axis + 1);
    }
}

/// The shape as Python writes a tuple: `()`, `(3,)`, `(2, 3)`.
impl fmt::Display for Shape {
    ghost output = { λ s. Some (shape_text s) };

    fn fmt<W: fmt::Write>(&self, f: &mut fmt::Formatter<W>) -> fmt::Result {
        match self.as_slice() {
            [] => write!(f, "()"),
            [len] => write!(f, "({len},)"),
            [first, rest @ ..] => {
                write!(f, "({first}")?;
                for len in rest {
                    write!(f, ", {len}")?;
                }
                write!(f, ")")
            }
        }
    }
}
