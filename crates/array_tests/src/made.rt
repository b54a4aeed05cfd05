//! Layouts for tests.
use crate::check::check;
use shape_strides::{Layout, Shape, Strides};
use std::alloc::Global;
use std::process::Abort;

/// An array: its lengths, its strides and the offset of its first item.
pub(crate) type Numbers = (&'static [usize], &'static [isize], usize);

/// The layout with these numbers, if there is one.
pub(crate) fn layout_if(rt: &impl Abort, alloc: Global, numbers: Numbers) -> Option<Layout> {
    let (lengths, steps, offset) = numbers;
    let shape = Shape::try_new(alloc, lengths).expect(rt, "no shape");
    let strides = Strides::from_slice(alloc, steps).expect(rt, "no memory");
    let count = strides.as_slice().len();
    check(rt, count == shape.as_slice().len(), "a stride an axis");
    Layout::new(shape, strides, offset)
}

pub(crate) fn layout_of(rt: &impl Abort, alloc: Global, numbers: Numbers) -> Layout {
    layout_if(rt, alloc, numbers).expect(rt, "no layout")
}
