//! C order and Fortran order, and strides as NumPy shows them.
ghost use Rattle.std.specs.Prelude.{◌≡◌, ◌≢◌, ◌*◌, ◌<◌, ◌≤◌, pos, length, map, reverse, slice_index_or, IfOk, IsTrue, IsFalse};
ghost use Rattle.shape_strides.specs.Clauses.{max_bytes, count, offsets, Fits, IsNested, multiples, f_multiples, f_strides, fortran_order, first_address, printed_strides, is_c_contiguous, is_f_contiguous, max_reach};

use crate::layout::Layout;
use crate::shape::Shape;
use crate::steps::f_order_strides;
use crate::strides::Strides;
use std::alloc::{AllocError, Global};

/// Whether an axis steps over `bytes` bytes. An axis of length 1 takes no step.
fn steps_over(strides: &[isize], axis: usize, len: usize, bytes: u128) -> bool
    requires axis { axis < length strides.now }
    requires bytes { bytes ≤ max_reach }
    ensures yes { IsTrue result → 2 ≤ len → slice_index_or strides.now axis (pos 0) ≡ pos bytes }
    ensures no { IsFalse result → (len ≢ 1)
        × (slice_index_or strides.now axis (pos 0) ≢ pos bytes) }
{
    len == 1 || strides[axis] as i128 == bytes as i128
}

impl Layout {
    /// The layout of items of `item` bytes one after another in Fortran order, in which the first
    /// axis changes fastest, from the start of the buffer. Without items, its strides are 0.
    pub fn f_order(alloc: Global, shape: &Shape, item: usize) -> Result<Layout, AllocError>
        requires item_low { 1 ≤ item }
        requires item_high { item ≤ 65536 }
        requires bytes { count shape.now * item ≤ max_bytes }
        ensures shape { IfOk result (λ l. l.shape ≡ shape.now) }
        ensures offset { IfOk result (λ l. l.offset ≡ 0) }
        ensures strides { IfOk result (λ l. 0 < count shape.now
            → l.strides ≡ f_strides item shape.now) }
        ensures offsets { IfOk result (λ l. offsets l ≡ f_multiples item shape.now) }
        ensures order { IfOk result (λ l. fortran_order shape.now (offsets l)
            ≡ multiples item (count shape.now)) }
        ensures count { IfOk result (λ l. length (offsets l) ≡ count shape.now) }
        ensures nested { IfOk result (λ l. IsNested (offsets l) item) }
        ensures fits { IfOk result (λ l. Fits l (count shape.now * item) item) }
    {
        let strides = f_order_strides(alloc, shape, item)?;
        let shape = Shape::try_copy(alloc, shape)?;
        Ok(Layout {
            shape,
            strides,
            offset: 0,
        })
    }

    /// The layout with its axes reversed: its items in C order are those of the layout in Fortran
    /// order.
    pub fn reversed(alloc: Global, layout: &Layout) -> Result<Layout, AllocError>
        ensures shape { IfOk result (λ l. l.shape ≡ reverse layout.now.shape) }
        ensures offsets { IfOk result
            (λ l. offsets l ≡ fortran_order layout.now.shape (offsets layout.now)) }
    {
        let mut reversed = Layout::try_copy(alloc, layout)?;
        reversed.shape.reverse();
        reversed.strides.reverse();
        Ok(reversed)
    }

    /// The offset of the first item in C order, or 0 if there are no items.
    pub fn first_address(&self) -> usize
        ensures { result ≡ first_address (offsets self.now) }
    {
        self.offset
    }

    /// The strides as NumPy prints them, except that the stride of an axis of length 1 is 0, and so
    /// are all strides if there are no items.
    pub fn printed_strides(alloc: Global, layout: &Layout) -> Result<Strides, AllocError>
        ensures { IfOk result (λ s. s ≡ printed_strides layout.now.shape (offsets layout.now)) }
    {
        let strides = layout.strides.as_slice();
        let mut printed = Strides::new(alloc);
        for (axis, len) in layout.shape.as_slice().iter().enumerate() {
            printed.push(if *len < 2 { 0 } else { strides[axis] })?;
        }
        Ok(printed)
    }

    /// Whether the items, of `item` bytes, are adjacent in C order. A layout of at most one item is
    /// in that order, whatever its strides.
    pub fn is_c(&self, item: usize) -> bool
        ensures { result ≡ is_c_contiguous item (offsets self.now) }
    {
        if self.shape.items() == 0 {
            return true;
        }
        let lengths = self.shape.as_slice();
        let strides = self.strides.as_slice();
        let mut bytes = item as u128;
        let mut axis = lengths.len();
        while axis > 0 {
            axis -= 1;
            if !steps_over(strides, axis, lengths[axis], bytes) {
                return false;
            }
            bytes *= lengths[axis] as u128;
        }
        true
    }

    /// Whether the items, of `item` bytes, are adjacent in Fortran order.
    pub fn is_f(&self, item: usize) -> bool
        ensures { result ≡ is_f_contiguous item self.now.shape (offsets self.now) }
    {
        if self.shape.items() == 0 {
            return true;
        }
        let lengths = self.shape.as_slice();
        let strides = self.strides.as_slice();
        let mut step = item as u128;
        for (axis, len) in lengths.iter().enumerate() {
            if !steps_over(strides, axis, *len, step) {
                return false;
            }
            step *= *len as u128;
        }
        true
    }
}
