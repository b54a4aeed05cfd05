//! How many bytes the items of an array reach, and which arrays reach too far for a buffer.
use crate::check::check;
use crate::made::{Numbers, layout_if, layout_of};
use shape_strides::Layout;
use std::process::Abort;

/// An array, the size of an item, and the least number of bytes that it fits in.
const LEAST: &[(Numbers, usize, usize)] = &[
    ((&[3, 2], &[4, 12], 0), 4, 24),
    ((&[3], &[-8], 16), 4, 20),
    ((&[], &[], 7), 2, 9),
];

#[test]
fn fits_to_the_byte(rt: HostRuntime) {
    for (numbers, item, len) in LEAST {
        let layout = layout_of(&rt, rt.alloc(), *numbers);
        check(&rt, layout.fits(*len, *item), "fits");
        check(
            &rt,
            *len > 0 && !layout.fits(*len - 1, *item),
            "fits to the byte",
        );
    }
    let empty = layout_of(&rt, rt.alloc(), (&[0], &[-8], 99));
    check(&rt, empty.fits(0, 4), "no item fits no byte");
}

/// Arrays with an item that begins below 0, or beyond the limit of a buffer.
const BEYOND: &[Numbers] = &[
    (&[3], &[-8], 15),
    (&[2], &[4], (1 << 28) - 4),
    (&[], &[], 1 << 28),
    (&[2, 2], &[isize::MAX, isize::MAX], usize::MAX),
];

fn is_at(rt: &impl Abort, layout: &Layout, strides: &[isize], offset: usize) {
    check(rt, layout.strides.as_slice() == strides, "strides");
    check(rt, layout.offset == offset, "offset");
}

#[test]
fn beyond_a_buffer(rt: HostRuntime) {
    for numbers in BEYOND {
        let found = layout_if(&rt, rt.alloc(), *numbers);
        check(&rt, found.is_none(), "no layout");
    }
    let last = layout_of(&rt, rt.alloc(), (&[2], &[4], (1 << 28) - 5));
    is_at(&rt, &last, &[4], (1 << 28) - 5);
    let empty = layout_of(&rt, rt.alloc(), (&[2, 0], &[16, 4], 1 << 40));
    is_at(&rt, &empty, &[0, 0], 0);
}

/// An array, the size of an item, and the range of its bytes.
const SPANS: &[(Numbers, usize, usize, usize)] = &[
    ((&[3, 2], &[4, 12], 0), 4, 0, 24),
    ((&[3], &[-8], 16), 4, 0, 20),
    ((&[2, 2], &[-6, 2], 8), 1, 2, 11),
    ((&[2, 3], &[0, 1], 5), 2, 5, 9),
    ((&[], &[], 7), 2, 7, 9),
    ((&[2, 0], &[4, 4], 12), 4, 0, 0),
];

#[test]
fn spans_of_bytes(rt: HostRuntime) {
    for (numbers, item, start, end) in SPANS {
        let layout = layout_of(&rt, rt.alloc(), *numbers);
        check(&rt, layout.fits(1 << 28, *item), "within the limit");
        let bytes = layout.span(*item);
        check(&rt, bytes.start == *start && bytes.end == *end, "a range");
    }
}
