//! The bytes that a layout's items take, its axes, and whether two layouts have the same offsets.
ghost use Rattle.std.specs.Prelude.{All, Any, Contains, IfOk, IsTrue, [], length, take, ℕ, ◌+◌, ◌<◌, ◌↔◌, ◌≡◌, ◌≤◌};
ghost use Rattle.shape_strides.specs.Clauses.{offsets, axes};

use crate::address_order::axes_of;
use crate::layout::Layout;
use crate::single_run::joined_axes;
use crate::stacked::Axis;
use crate::steps::reach_of;
use std::alloc::{AllocError, Global};
use std::ops::Range;

impl Layout {
    ghost use Rattle.shape_strides.specs.Clauses.{Fits, offsets, max_bytes, LieAbove, LieBelow};

    /// The bytes from the lowest to the highest of any item of `item` bytes, or `0..0` without
    /// items.
    pub fn span(&self, item: usize) -> Range<usize>
        requires { Fits self.now max_bytes item }
        ensures empty { offsets self.now ≡ [] → (result.start ≡ 0) × (result.end ≡ 0) }
        ensures low { All (λ offset. result.start ≤ offset) (offsets self.now) }
        ensures high { All (λ offset. offset + item ≤ result.end) (offsets self.now) }
        ensures first { 0 < length (offsets self.now) → Contains (offsets self.now) result.start }
        ensures last { 0 < length (offsets self.now)
            → Any (λ offset. offset + item ≡ result.end) (offsets self.now) }
        ensures limit { result.end ≤ max_bytes }
    {
        if self.shape.items() == 0 {
            return 0..0;
        }
        let lengths = self.shape.as_slice();
        let strides = self.strides.as_slice();
        let reach = reach_of(lengths, strides);
        let start = self.offset - reach.below as usize;
        let end = self.offset + reach.above as usize + item;
        start..end
    }

    /// The axes without their directions, in order. The offsets are as far above the lowest one as
    /// the indexes reach along the axes, and as far below the highest one.
    pub fn axes(&self) -> [Axis; 64]
        ensures value { take (length self.now.shape) result ≡ axes self.now.strides self.now.shape }
        ensures above { (first : ℕ) → All (λ offset. first ≤ offset) (offsets self.now)
            → Contains (offsets self.now) first
            → LieAbove first (axes self.now.strides self.now.shape) (offsets self.now) }
        ensures below { (last : ℕ) → All (λ offset. offset ≤ last) (offsets self.now)
            → Contains (offsets self.now) last
            → LieBelow last (axes self.now.strides self.now.shape) (offsets self.now) }
    {
        axes_of(self.shape.as_slice(), self.strides.as_slice())
    }
}

/// Whether two layouts have the same offsets in C order, whatever their shapes. It takes time by
/// axes, not by items.
pub fn have_same_offsets(alloc: Global, first: &Layout, second: &Layout) -> Result<bool, AllocError>
    ensures { IfOk result (λ same. IsTrue same ↔ (offsets first.now ≡ offsets second.now)) }
{
    let items = first.shape.items();
    if items != second.shape.items() {
        return Ok(false);
    }
    if items == 0 {
        return Ok(true);
    }
    if first.offset != second.offset {
        return Ok(false);
    }
    let left = joined_axes(alloc, first)?;
    let right = joined_axes(alloc, second)?;
    Ok(left.as_slice() == right.as_slice())
}
