//! Headers of NPY files, read as `numpy.lib.format` has them, and refused in the order of the reader.
use crate::check::check;
use elem_descr::{Refusal, format_write};
use npy_files::header_read;
use std::alloc::Global;
use std::process::Abort;
use std::test::Fail;

/// A header, the format text of its element type, whether the items are in Fortran order, and the shape.
const READ: &[(&str, &str, bool, &[usize])] = &[
    (
        "{'descr': '<i4', 'fortran_order': False, 'shape': (3,), }",
        "<i",
        false,
        &[3],
    ),
    (
        "{\"shape\": (3L,), \"fortran_order\": False, \"descr\": \"<i4\"}",
        "<i",
        false,
        &[3],
    ),
    (
        "{'descr': '<i4', 'fortran_order': True, 'shape': (2, 3), }",
        "<i",
        true,
        &[2, 3],
    ),
    (
        "{'descr': [('x', '<i4'), ('y', '>i2')], 'fortran_order': False, 'shape': (1,), }",
        "T{<i:x:>h:y:}",
        false,
        &[1],
    ),
    (
        "{'descr': [('x', '|i1'), ('', '|V3'), ('s', [('y', '<i4')])], 'fortran_order': False, 'shape': (), }",
        "T{<b:x:3xT{<i:y:}:s:}",
        false,
        &[],
    ),
    (
        "\n{ 'shape':(0 , 5,),\t'fortran_order':False,'descr':'|S5'}\r\n",
        "<5s",
        false,
        &[0, 5],
    ),
];

/// Headers by the refusal.
const REFUSED: &[(Refusal, &[&str])] = &[
    (
        Refusal::BadHeader,
        &[
            "",
            "{}",
            "{'descr': '<i4', 'fortran_order': False}",
            "{'descr': '<i4', 'fortran_order': False, 'shape': (-1,)}",
            "{'descr': '<i4', 'fortran_order': False, 'shape': (03,)}",
            "{'descr': '<i4', 'fortran_order': False, 'shape': (3)}",
            "{'descr': '<i4', 'fortran_order': False, 'shape': [3]}",
            "{'descr': '<i4', 'fortran_order': 0, 'shape': (3,)}",
            "{'shape': (3,), 'descr': '<i4', 'fortran_order': False, 'shape': (3,)}",
            "{'descr': '<f8', 'fortran_order': False, 'shape': (3,), 'x': 1}",
            "{'descr': u'<i4', 'fortran_order': False, 'shape': (3,)}",
            "{'descr': '<i4', 'fortran_order': False, 'shape': (3,)} x",
            "{'descr': [[[[[[[[[[[[[[[[]]]]]]]]]]]]]]]], 'fortran_order': False, 'shape': (3,)}",
        ],
    ),
    (
        Refusal::BadDescriptor,
        &[
            "{'descr': 3, 'fortran_order': False, 'shape': (3,)}",
            "{'descr': {}, 'fortran_order': False, 'shape': (3,)}",
            "{'descr': '<i3', 'fortran_order': False, 'shape': (3,)}",
            "{'descr': [('x', '<i4'), ('x', '<i4')], 'fortran_order': False, 'shape': (3,)}",
        ],
    ),
    (
        Refusal::DescriptorLeftOut,
        &[
            "{'descr': '<f8', 'fortran_order': False, 'shape': (16777217,)}",
            "{'descr': [], 'fortran_order': False, 'shape': (3,)}",
            "{'descr': [('x', '<i4', (2,))], 'fortran_order': False, 'shape': (3,)}",
            "{'descr': [('x', '<i4'), ('x', '<f4')], 'fortran_order': False, 'shape': (3,)}",
            "{'descr': [[[[[[[[[[[[[[[]]]]]]]]]]]]]]], 'fortran_order': False, 'shape': (3,)}",
            "{'descr': [('x', '|V65537')], 'fortran_order': False, 'shape': (3,)}",
        ],
    ),
    (
        Refusal::TooLarge,
        &[
            "{'descr': [('', '|V65537')], 'fortran_order': False, 'shape': (3,)}",
            "{'descr': '<i4', 'fortran_order': False, 'shape': (16777217,)}",
            "{'descr': '<i4', 'fortran_order': False, 'shape': (0, 16777217)}",
            "{'descr': '<i4', 'fortran_order': False, 'shape': (4096, 8192)}",
        ],
    ),
];

#[test]
fn headers_that_are_read(rt: HostRuntime) -> Result<(), Fail> {
    for (text, format, fortran, shape) in READ {
        let header = header_read(rt.alloc(), text.as_bytes())?;
        let written = format_write(rt.alloc(), &header.descr)?;
        check(&rt, written.as_slice() == format.as_bytes(), text);
        check(&rt, header.fortran == *fortran, text);
        check(&rt, header.shape.as_slice() == *shape, text);
    }
    Ok(())
}

fn are_refused(rt: &impl Abort, alloc: Global, refusal: Refusal, texts: &[&str]) {
    for text in texts {
        let found = header_read(alloc, text.as_bytes()).err();
        check(rt, found == Some(refusal), text);
    }
}

#[test]
fn headers_that_are_refused(rt: HostRuntime) {
    for (refusal, texts) in REFUSED {
        are_refused(&rt, rt.alloc(), *refusal, texts);
    }
}
