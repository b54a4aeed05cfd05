//! Which views may overlap by their ranges and strides alone. Whether they share bytes is NumPy's `shares_memory`.
ghost use Rattle.shape_strides.specs.Limits.{max_bytes};
ghost use Rattle.shape_strides.specs.Layouts.{Fits};
ghost use Rattle.std.specs.Prelude.{◌≤◌};

use crate::check::check;
use overlap_copy::{may_overlap, share_cell};
use shape_strides::{Layout, Shape, Strides};
use std::alloc::Global;
use std::process::Abort;

/// Items along one axis: how many, the step, the offset and the bytes of one.
type Axis = (usize, isize, usize, usize);

/// A view: a layout of items of so many bytes.
#[derive(Drop)]
struct View {
    layout: Layout,
    item: usize,
    ghost fits: { Fits layout max_bytes item },
    ghost some: { 1 ≤ item },
}

fn view_of(rt: &impl Abort, alloc: Global, axis: Axis) -> View {
    let (len, step, offset, item) = axis;
    let shape = Shape::try_new(alloc, &[len]).expect(rt, "no shape");
    let strides = Strides::from_slice(alloc, &[step]).expect(rt, "no memory");
    let count = strides.as_slice().len();
    check(rt, count == shape.as_slice().len(), "a stride an axis");
    let layout = Layout::new(shape, strides, offset).expect(rt, "no layout");
    check(
        rt,
        item >= 1 && layout.fits(1 << 28, item),
        "items that fit",
    );
    View { layout, item }
}

/// Whether two views may overlap, and whether they share bytes.
fn share(rt: &impl Abort, alloc: Global, a: &View, b: &View, wanted: (bool, bool)) {
    let may = may_overlap(&a.layout, a.item, &b.layout, b.item);
    let shares = share_cell(alloc, &a.layout, a.item, &b.layout, b.item).expect(rt, "no memory");
    check(rt, (may, shares) == wanted, "bytes in common");
}

/// `share` of two views, and of the second and the first.
fn share_both(rt: &impl Abort, alloc: Global, first: Axis, second: Axis, wanted: (bool, bool)) {
    let a = view_of(rt, alloc, first);
    let b = view_of(rt, alloc, second);
    share(rt, alloc, &a, &b, wanted);
    share(rt, alloc, &b, &a, wanted);
}

/// Two views; whether they may overlap, by ranges and strides; whether they share bytes.
const ROWS: &[(Axis, Axis, bool, bool)] = &[
    ((3, 8, 0, 4), (3, 8, 4, 4), false, false),
    ((3, 8, 0, 4), (5, 4, 4, 4), true, true),
    ((6, 4, 0, 4), (6, 4, 0, 4), true, true),
    ((3, 4, 0, 4), (3, 4, 12, 4), false, false),
    ((3, 8, 0, 4), (3, -8, 20, 4), false, false),
    ((3, 8, 4, 4), (3, -8, 20, 4), true, true),
    ((3, -4, 8, 4), (1, 4, 0, 4), true, true),
    ((3, -4, 8, 4), (3, 4, 12, 4), false, false),
    ((0, 4, 12, 4), (6, 4, 0, 4), false, false),
    ((6, 4, 0, 4), (0, 4, 12, 4), false, false),
    ((0, 4, 0, 4), (0, 4, 0, 4), false, false),
    ((8, 2, 0, 1), (8, 2, 1, 1), false, false),
    ((4, 4, 0, 2), (4, 4, 2, 2), false, false),
    ((4, 4, 0, 2), (4, 4, 1, 2), true, true),
    ((4, 4, 0, 4), (4, 4, 3, 1), true, true),
    ((3, 0, 4, 4), (2, 4, 4, 4), true, true),
    ((3, 0, 4, 4), (2, 8, 0, 4), false, false),
    ((2, 6, 0, 2), (2, 2, 2, 2), true, false),
];

#[test]
fn views_that_share_bytes(rt: HostRuntime) {
    for (a, b, may, share) in ROWS {
        share_both(&rt, rt.alloc(), *a, *b, (*may, *share));
    }
}
