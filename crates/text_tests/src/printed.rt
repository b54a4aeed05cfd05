//! Arrays as NumPy prints them, but for byte strings with a quote, a backslash, a tab or the end of
//! a line: those bytes are written with `\x` as other bytes that are not printable.
use crate::check::check;
use crate::made::{Array, Numbers, array_of, c_order_of};
use array_print::print_by_bands;
use elem_descr::Refusal;
use std::alloc::{AllocError, Global};
use std::process::Abort;

/// A descriptor as a script gives it, the lengths of the axes, the items one after another in C
/// order, and the text.
type Row = (&'static str, &'static [usize], &'static [u8], &'static str);

const SHAPES: &[Row] = &[
    ("|i1", &[], b"\x07", "7"),
    ("|i1", &[], b"\xf9", "-7"),
    ("|i1", &[0], b"", "[]"),
    ("|i1", &[2, 0, 3], b"", "[]"),
    ("|b1", &[0], b"", "[]"),
    ("T{b:x:}", &[3, 0], b"", "[]"),
    ("|i1", &[5], b"\0\0\x01\x02\x03", "[0 0 1 2 3]"),
    ("|i1", &[2], b"\x07\xf9", "[ 7 -7]"),
    ("|i1", &[2, 1], b"\x03\x06", "[[3]\n [6]]"),
    ("|i1", &[2, 3], b"\0\0\0\x07\0\0", "[[0 0 0]\n [7 0 0]]"),
    (
        "|i1",
        &[2, 1, 1, 2],
        b"\0\x01\x02\x03",
        "[[[[0 1]]]\n\n\n [[[2 3]]]]",
    ),
    ("|i1", &[2, 1, 1], b"\0\x01", "[[[0]]\n\n [[1]]]"),
    ("|i1", &[1, 1, 2], b"\0\x01", "[[[0 1]]]"),
    (
        "|i1",
        &[1, 2, 1, 3, 1],
        b"\0\x01\x02\x03\x04\x05",
        "[[[[[0]\n    [1]\n    [2]]]\n\n\n  [[[3]\n    [4]\n    [5]]]]]",
    ),
    (
        "|i1",
        &[2, 2, 2],
        b"\0\x01\x02\x03\x04\x05\x06\xf9",
        "[[[ 0  1]\n  [ 2  3]]\n\n [[ 4  5]\n  [ 6 -7]]]",
    ),
];

const BOOLS: &[Row] = &[
    ("|b1", &[3], b"\x01\0\x01", "[ True False  True]"),
    ("|b1", &[1], b"\x07", "[ True]"),
    ("|b1", &[2], b"\x01\x80", "[ True  True]"),
    ("|b1", &[], b"\x07", "True"),
    ("|b1", &[], b"\0", "False"),
    ("|b1", &[2, 1], b"\0\x01", "[[False]\n [ True]]"),
];

const INTEGERS: &[Row] = &[
    ("|u1", &[3], b"\xff\0\x2c", "[255   0  44]"),
    ("|u1", &[4], b"\x01\x02\xff\xfe", "[  1   2 255 254]"),
    ("|i1", &[4], b"\x01\x02\xff\xfe", "[ 1  2 -1 -2]"),
    (">i2", &[2], b"\x01\x02\xff\xfe", "[258  -2]"),
    ("<u2", &[2], b"\x01\x02\xff\xfe", "[  513 65279]"),
    (">i4", &[1], b"\x01\x02\xff\xfe", "[16973822]"),
    ("<u4", &[1], b"\x01\x02\xff\xfe", "[4278125057]"),
    (
        ">u8",
        &[],
        b"\xff\xff\xff\xff\xff\xff\xff\xff",
        "18446744073709551615",
    ),
    ("<i8", &[1], b"\0\0\0\0\0\0\0\x80", "[-9223372036854775808]"),
    (
        ">i8",
        &[2],
        b"\x80\0\0\0\0\0\0\0\0\0\0\0\0\0\0\x05",
        "[-9223372036854775808                    5]",
    ),
];

const BYTE_STRINGS: &[Row] = &[
    ("|S3", &[2], b"ab\0a\0c", "[b'ab' b'a\\x00c']"),
    ("|S2", &[2], b"\0\0\0x", "[b'' b'\\x00x']"),
    ("|S4", &[], b"'\\\xc8\"", "b'\\x27\\x5c\\xc8\"'"),
    ("|S4", &[1], b" ~\x1f\x7f", "[b' ~\\x1f\\x7f']"),
    (
        "|S4",
        &[2, 1],
        b"\t\n\0\0abcd",
        "[[b'\\x09\\x0a']\n [b'abcd']]",
    ),
];

const RECORDS: &[Row] = &[
    ("T{<i:x:>h:y:}", &[1], b"\0\0\0\0\x01\x02", "[(0, 258)]"),
    (
        "T{<b:x:3x<i:y:}",
        &[2],
        b"\0\x09\x09\x09\0\0\0\0\x05\x09\x09\x09\xff\xff\xff\xff",
        "[(0,  0) (5, -1)]",
    ),
    ("T{b:x:}", &[1], b"\x01", "[(1,)]"),
    ("T{b:x:}", &[2], b"\x01\xf6", "[(  1,) (-10,)]"),
    ("T{b:x:}", &[], b"\x05", "(5,)"),
    ("T{?:x:b:y:}", &[], b"\x01\x01", "(True, 1)"),
    (
        "T{?:x:b:y:}",
        &[2],
        b"\x01\x01\0\x02",
        "[( True, 1) (False, 2)]",
    ),
    (
        "T{2s:x:B:y:b:z:}",
        &[2],
        b"ab\x05\0a\0\x0c\xff",
        "[(b'ab',  5,  0) (b'a', 12, -1)]",
    ),
    (
        "T{B:x:B:y:}",
        &[2, 2],
        b"\x01\x02\x03\x64\x05\x06\x07\x08",
        "[[(1,   2) (3, 100)]\n [(5,   6) (7,   8)]]",
    ),
    (
        "T{B:a:B:b:B:c:B:d:B:e:B:f:B:g:B:h:B:i:}",
        &[2],
        b"\x01\x02\x03\x04\x05\x06\x07\x08\x09\x01\x02\x03\x04\x05\x06\x07\x08\x0a",
        "[(1, 2, 3, 4, 5, 6, 7, 8,  9) (1, 2, 3, 4, 5, 6, 7, 8, 10)]",
    ),
];

/// A layout, and the text of two-byte integers 0 to 5.
const VIEWS: &[(Numbers, &str)] = &[
    ((&[3], &[-4], 8), "[4 2 0]"),
    ((&[3, 2], &[2, 6], 0), "[[0 3]\n [1 4]\n [2 5]]"),
    ((&[2, 2], &[0, 2], 2), "[[1 2]\n [1 2]]"),
    ((&[], &[], 10), "5"),
];

fn print(
    rt: &impl Abort,
    alloc: Global,
    out: &mut Vec<u8>,
    array: &Array,
) -> Result<(), AllocError> {
    let Array {
        descr,
        layout,
        block,
    } = array;
    check(rt, layout.fits(1 << 28, 1), "within the limit");
    check(rt, layout.fits(block.len(), descr.size()), "within");
    let mut sent = Vec::new(alloc);
    print_by_bands(&mut sent, out, block.bytes(), layout, descr).map_err(|_| AllocError)?;
    check(rt, sent.is_empty(), "a short text is held");
    Ok(())
}

/// Appends an array to a text that stands already. Where memory runs out the text is as before, and
/// the array is printed again.
fn prints(rt: &impl Abort, alloc: Global, array: &Array, want: &str) -> Result<(), AllocError> {
    let mut out = Vec::from_slice(alloc, b"a = ")?;
    if print(rt, alloc, &mut out, array).is_err() {
        check(rt, out.as_slice() == b"a = ".as_slice(), want);
        print(rt, alloc, &mut out, array)?;
    }
    let text = out.strip_prefix(b"a = ".as_slice());
    check(rt, text == Some(want.as_bytes()), want);
    Ok(())
}

fn prints_row(rt: &impl Abort, alloc: Global, row: &Row) -> Result<(), Refusal> {
    let (descr, lengths, block, want) = *row;
    let array = c_order_of(rt, alloc, descr, lengths, block)?;
    prints(rt, alloc, &array, want)?;
    Ok(())
}

/// Rows that are printed, each once more where memory runs out before the text.
fn prints_rows(rt: &impl Abort, alloc: Global, rows: &[Row]) {
    for row in rows {
        let is_printed = prints_row(rt, alloc, row).is_ok() || prints_row(rt, alloc, row).is_ok();
        check(rt, is_printed, row.3);
    }
}

#[test]
fn shapes(rt: HostRuntime) {
    prints_rows(&rt, rt.alloc(), SHAPES)
}

#[test]
fn bools(rt: HostRuntime) {
    prints_rows(&rt, rt.alloc(), BOOLS)
}

#[test]
fn integers(rt: HostRuntime) {
    prints_rows(&rt, rt.alloc(), INTEGERS)
}

#[test]
fn byte_strings(rt: HostRuntime) {
    prints_rows(&rt, rt.alloc(), BYTE_STRINGS)
}

#[test]
fn records(rt: HostRuntime) {
    prints_rows(&rt, rt.alloc(), RECORDS)
}

fn prints_view(
    rt: &impl Abort,
    alloc: Global,
    numbers: Numbers,
    want: &str,
) -> Result<(), Refusal> {
    let block = b"\0\0\x01\0\x02\0\x03\0\x04\0\x05\0";
    let array = array_of(rt, alloc, "<i2", numbers, block)?;
    prints(rt, alloc, &array, want)?;
    Ok(())
}

#[test]
fn views(rt: HostRuntime) {
    for (numbers, want) in VIEWS {
        let is_printed = prints_view(&rt, rt.alloc(), *numbers, want).is_ok()
            || prints_view(&rt, rt.alloc(), *numbers, want).is_ok();
        check(&rt, is_printed, want);
    }
}
