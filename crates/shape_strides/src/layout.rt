//! Layouts: where in a buffer the items of an array lie.
ghost use Rattle.std.specs.Prelude.{◌≡◌, ◌↔◌, ◌+◌, ◌*◌, ◌<◌, ◌≤◌, pos, length, map, slice_index, All, IfOk, IfSome, IsSome, IsTrue};
ghost use Rattle.shape_strides.specs.Limits.{max_bytes};
ghost use Rattle.shape_strides.specs.Indexes.{count};
ghost use Rattle.shape_strides.specs.Addresses.{LieWithin};

use crate::shape::Shape;
use crate::steps::{c_order_strides, forward, reach_of};
use crate::strides::Strides;
use std::alloc::{AllocError, Global};

/// The most bytes of a buffer.
pub const MAX_BYTES: usize = 1 << 28;

/// Where in a buffer the items of an array are: the first one is `offset` bytes from the start of
/// the buffer, and each step along an axis adds the stride of that axis. Each item begins within
/// the limit of a buffer. Without items, the offset and the strides are 0.
#[derive(Drop)]
pub struct Layout {
    pub shape: Shape,
    pub strides: Strides,
    pub offset: usize,
    ghost one_stride_an_axis: { length strides ≡ length shape },
    ghost within_limit: { LieWithin shape strides offset max_bytes 1 },
    ghost zero_if_empty: { count shape ≡ 0 → (offset ≡ 0) × (strides ≡ map (λ _. pos 0) shape) },
}

/// Whether every item, of `item` bytes, of an array with these numbers lies within the first `len`
/// bytes.
fn lie_within(shape: &Shape, strides: &Strides, offset: usize, len: usize, item: usize) -> bool
    requires { length strides.now ≡ length shape.now }
    ensures { IsTrue result ↔ LieWithin shape.now strides.now offset len item }
{
    if shape.items() == 0 {
        return true;
    }
    let lengths = shape.as_slice();
    let strides = strides.as_slice();
    let offset = offset as u128;
    let reach = reach_of(lengths, strides);
    let end = offset + reach.above + item as u128;
    reach.below <= offset && end <= len as u128
}

impl Layout {
    ghost use Rattle.shape_strides.specs.Indexes.{rank, IsIndex};
    ghost use Rattle.shape_strides.specs.Layouts.{address, offsets, Fits, IsNested, multiples, c_strides};

    /// The layout with these numbers, or nothing if some item begins beyond the limit of a buffer.
    /// Without items, the offset and the strides become 0.
    pub fn new(shape: Shape, strides: Strides, offset: usize) -> Option<Layout>
        requires { length strides ≡ length shape }
        ensures found { IsSome result ↔ LieWithin shape strides offset max_bytes 1 }
        ensures shape { IfSome result (λ l. l.shape ≡ shape) }
        ensures strides { IfSome result (λ l. 0 < count shape → l.strides ≡ strides) }
        ensures offset { IfSome result (λ l. 0 < count shape → l.offset ≡ offset) }
    {
        if !lie_within(&shape, &strides, offset, MAX_BYTES, 1) {
            return None;
        }
        if shape.items() > 0 {
            return Some(Layout {
                shape,
                strides,
                offset,
            });
        }
        Some(Layout {
            shape,
            strides: strides.zeroed(),
            offset: 0,
        })
    }

    /// The layout of items of `item` bytes one after another in C order, from the start of the
    /// buffer. Without items, its strides are 0.
    pub fn c_order(alloc: Global, shape: &Shape, item: usize) -> Result<Layout, AllocError>
        requires item_low { 1 ≤ item }
        requires item_high { item ≤ 65536 }
        requires bytes { count shape.now * item ≤ max_bytes }
        ensures shape { IfOk result (λ l. l.shape ≡ shape.now) }
        ensures offset { IfOk result (λ l. l.offset ≡ 0) }
        ensures strides { IfOk result (λ l. 0 < count shape.now
            → l.strides ≡ c_strides item shape.now) }
        ensures offsets { IfOk result (λ l. offsets l ≡ multiples item (count shape.now)) }
        ensures count { IfOk result (λ l. length (offsets l) ≡ count shape.now) }
        ensures nested { IfOk result (λ l. IsNested (offsets l) item) }
        ensures fits { IfOk result (λ l. Fits l (count shape.now * item) item) }
    {
        let strides = c_order_strides(alloc, shape, item)?;
        let shape = Shape::try_copy(alloc, shape)?;
        Ok(Layout {
            shape,
            strides,
            offset: 0,
        })
    }

    pub fn try_copy(alloc: Global, layout: &Layout) -> Result<Layout, AllocError>
        ensures { IfOk result (λ l. l ≡ layout.now) }
    {
        let shape = Shape::try_copy(alloc, &layout.shape)?;
        let strides = Strides::from_slice(alloc, layout.strides.as_slice())?;
        Ok(Layout {
            shape,
            strides,
            offset: layout.offset,
        })
    }

    /// The offset of the item at an index.
    pub fn at(&self, index: &[usize]) -> usize
        requires { IsIndex self.now.shape index.now }
        ensures entry { result ≡ slice_index (offsets self.now) (rank self.now.shape index.now) }
        ensures address { pos result ≡ address self.now index.now }
        ensures among { rank self.now.shape index.now < length (offsets self.now) }
        ensures bound { result < max_bytes }
    {
        // For the prover alone: each length is within its limit.
        let _lengths = self.shape.as_slice();
        let strides = self.strides.as_slice();
        let mut at = self.offset;
        for (axis, number) in index.iter().enumerate() {
            at = forward(at, strides, axis, *number);
        }
        at
    }

    /// Whether every item, of `item` bytes, lies within the first `len` bytes. This holds for a
    /// layout without items.
    pub fn fits(&self, len: usize, item: usize) -> bool
        ensures value { IsTrue result ↔ Fits self.now len item }
        ensures offsets { IsTrue result → All (λ offset. offset + item ≤ len) (offsets self.now) }
    {
        lie_within(&self.shape, &self.strides, self.offset, len, item)
    }
}
