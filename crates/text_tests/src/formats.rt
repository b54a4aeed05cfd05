//! Format texts of PEP 3118, read and written.
use crate::check::check;
use elem_descr::{Descr, Field, Refusal, Scalar, format_read, format_write, typestr_write};
use std::alloc::{AllocError, Global};
use std::process::Abort;
use std::test::Fail;

/// A format text, the size of its items, and its fields with name, type string and offset; of a
/// record NumPy's type string is `|V` and its size. The sizes and the fields are those of NumPy, which
/// reads a format text by `numpy.core._internal._dtype_from_pep3118`. Only `f1` in `T{i:x:i}` is a
/// name of our own, and the last four texts are none that NumPy reads.
const READ: &[(&str, usize, &str)] = &[
    ("?", 1, "|b1"),
    ("b", 1, "|i1"),
    ("<B", 1, "|u1"),
    ("h", 2, "<i2"),
    (">H", 2, ">u2"),
    ("=i", 4, "<i4"),
    ("@I", 4, "<u4"),
    ("l", 8, "<i8"),
    ("<l", 4, "<i4"),
    ("^L", 8, "<u8"),
    (">L", 4, ">u4"),
    ("!q", 8, ">i8"),
    ("<Q", 8, "<u8"),
    ("5s", 5, "|S5"),
    ("s", 1, "|S1"),
    ("<0065536s", 65536, "|S65536"),
    ("T{i:x:}", 4, "x <i4 0"),
    ("T{<i:x:>h:y:}", 6, "x <i4 0 y >i2 4"),
    ("T{b:a:i:b:}", 8, "a |i1 0 b <i4 4"),
    ("T{^b:a:i:b:}", 5, "a |i1 0 b <i4 1"),
    ("T{<b:a:i:b:}", 5, "a |i1 0 b <i4 1"),
    ("T{b:a:q:b:h:c:}", 24, "a |i1 0 b <i8 8 c <i2 16"),
    ("T{=b:a:q:b:h:c:}", 11, "a |i1 0 b <i8 1 c <i2 9"),
    ("T{h:a:l:b:}", 16, "a <i2 0 b <i8 8"),
    ("T{<h:a:l:b:}", 6, "a <i2 0 b <i4 2"),
    ("T{b:a:3xi:b:}", 8, "a |i1 0 b <i4 4"),
    ("T{b:a:5xi:b:}", 12, "a |i1 0 b <i4 8"),
    ("T{<b:a:3xi:b:}", 8, "a |i1 0 b <i4 4"),
    ("T{2xh:a:x}", 6, "a <i2 2"),
    ("T{<2xh:a:x}", 5, "a <i2 2"),
    ("T{iii}", 12, "f0 <i4 0 f1 <i4 4 f2 <i4 8"),
    ("T{i:x:i}", 8, "x <i4 0 f1 <i4 4"),
    ("T{5s:name:B:age:}", 6, "name |S5 0 age |u1 5"),
    ("T{5s:name:i:age:}", 12, "name |S5 0 age <i4 8"),
    ("T{?:a:?:b:h:c:}", 4, "a |b1 0 b |b1 1 c <i2 2"),
    ("T{i:x:<q:y:}", 12, "x <i4 0 y <i8 4"),
    ("T{<q:x:@b:y:}", 9, "x <i8 0 y |i1 8"),
    ("T{@i:x:<b:y:}", 5, "x <i4 0 y |i1 4"),
    ("T{@i:x:>b:y:@b:z:}", 8, "x <i4 0 y |i1 4 z |i1 5"),
    ("T{b:a:>h:b:@i:c:}", 8, "a |i1 0 b >i2 1 c <i4 4"),
    (
        "T{q:a:b:b:q:c:b:d:}",
        32,
        "a <i8 0 b |i1 8 c <i8 16 d |i1 24",
    ),
    (
        "T{^q:a:b:b:q:c:b:d:}",
        18,
        "a <i8 0 b |i1 8 c <i8 9 d |i1 17",
    ),
    ("T{10x5s:t:}", 15, "t |S5 10"),
    ("T{B:a:xB:b:2xB:c:}", 6, "a |u1 0 b |u1 2 c |u1 5"),
    ("T{L:l:L:m:}", 16, "l <u8 0 m <u8 8"),
    ("T{>L:l:L:m:}", 8, "l >u4 0 m >u4 4"),
    ("T{b:x:T{i:y:}:s:}", 8, "x |i1 0 s |V4 4"),
    ("T{b:x:T{<i:y:}:s:}", 5, "x |i1 0 s |V4 1"),
    ("T{^b:x:T{i:y:}:s:}", 5, "x |i1 0 s |V4 1"),
    ("T{b:x:T{b:y:i:z:}:s:b:w:}", 16, "x |i1 0 s |V8 4 w |i1 12"),
    ("T{T{h:a:T{q:b:}:c:b:d:}:e:h:f:}", 32, "e |V24 0 f <i2 24"),
    ("T{T{T{T{b:x:}:t:}:s:}:r:}", 1, "r |V1 0"),
    ("T{b:x:T{b:y:>h:z:}:s:h:w:}", 6, "x |i1 0 s |V3 1 w >i2 4"),
    ("T{T{>h:a:}:s:h:b:}", 4, "s |V2 0 b >i2 2"),
    ("T{T{i:x:}:s:T{i:x:}:t:}", 8, "s |V4 0 t |V4 4"),
    ("T{b:a:3xT{<i:b:}:s:x}", 9, "a |i1 0 s |V4 4"),
    ("T{T{5s:n:B:a:}:p:i:k:}", 12, "p |V6 0 k <i4 8"),
    ("T{T{2xh:x:}:s:2x@q:y:}", 16, "s |V4 0 y <i8 8"),
    ("T{h:a:T{b:x:T{q:y:}:u:}:s:}", 24, "a <i2 0 s |V16 8"),
    ("T{b:x:T{T{T{q:a:}:b:}:c:}:d:}", 16, "x |i1 0 d |V8 8"),
    ("T{T{q:x:<b:y:}:s:@i:z:}", 16, "s |V9 0 z <i4 12"),
    ("T{i:x:T{b:x:}:s:}", 8, "x <i4 0 s |V1 4"),
    (" @ < i ", 4, "<i4"),
    (" < T{ i:x:  >  i:y: 2x } ", 10, "x <i4 0 y >i4 4"),
    ("T{i:x:0xi:y:}", 8, "x <i4 0 y <i4 4"),
    ("T{65535x?:last:}", 65536, "last |b1 65535"),
];

/// A text of records within records, its leaves with type string and offset in the item, and what is
/// written of it. The leaves are those of NumPy, which reads either text as one and the same type.
const NESTED: &[(&str, &str, &str)] = &[
    ("T{b:x:T{i:y:}:s:}", "|i1 0 <i4 4", "T{<b:x:3xT{<i:y:}:s:}"),
    ("T{b:x:T{<i:y:}:s:}", "|i1 0 <i4 1", "T{<b:x:T{<i:y:}:s:}"),
    (
        "T{b:x:T{b:y:i:z:}:s:b:w:}",
        "|i1 0 |i1 4 <i4 8 |i1 12",
        "T{<b:x:3xT{<b:y:3x<i:z:}:s:<b:w:3x}",
    ),
    (
        "T{T{h:a:T{q:b:}:c:b:d:}:e:h:f:}",
        "<i2 0 <i8 8 |i1 16 <i2 24",
        "T{T{<h:a:6xT{<q:b:}:c:<b:d:7x}:e:<h:f:6x}",
    ),
    (
        "T{T{T{T{b:x:}:t:}:s:}:r:}",
        "|i1 0",
        "T{T{T{T{<b:x:}:t:}:s:}:r:}",
    ),
    (
        "T{b:x:T{b:y:>h:z:}:s:h:w:}",
        "|i1 0 |i1 1 >i2 2 >i2 4",
        "T{<b:x:T{<b:y:>h:z:}:s:>h:w:}",
    ),
    (
        "T{T{5s:n:B:a:}:p:i:k:}",
        "|S5 0 |u1 5 <i4 8",
        "T{T{<5s:n:<B:a:}:p:2x<i:k:}",
    ),
    (
        "T{T{2xh:x:}:s:2x@q:y:}",
        "<i2 2 <i8 8",
        "T{T{2x<h:x:}:s:4x<q:y:}",
    ),
    (
        "T{h:a:T{b:x:T{q:y:}:u:}:s:}",
        "<i2 0 |i1 8 <i8 16",
        "T{<h:a:6xT{<b:x:7xT{<q:y:}:u:}:s:}",
    ),
    (
        "T{T{q:x:<b:y:}:s:@i:z:}",
        "<i8 0 |i1 8 <i4 12",
        "T{T{<q:x:<b:y:}:s:3x<i:z:}",
    ),
];

/// Where our texts differ from NumPy's: a record within is aligned by the mark at its `T`, where NumPy
/// takes the mark at its closing brace, and one without a name is called by its place.
const OUR_OWN: &[(&str, usize, &str)] = &[
    ("T{<T{@i:y:}:s:b:x:}", 5, "s |V4 0 x |i1 4"),
    ("T{b:x:T{q:y:<b:z:}:s:}", 17, "x |i1 0 s |V9 8"),
    ("T{b:x:T{i:y:}}", 8, "x |i1 0 f1 |V4 4"),
    (" T{ b:x: T{ i:y: } } ", 8, "x |i1 0 f1 |V4 4"),
];

const REFUSED: &[(&str, Refusal)] = &[
    ("i4", Refusal::BadDescriptor),
    ("", Refusal::BadDescriptor),
    ("<", Refusal::BadDescriptor),
    ("y", Refusal::BadDescriptor),
    ("5", Refusal::BadDescriptor),
    ("i<", Refusal::BadDescriptor),
    ("i5", Refusal::BadDescriptor),
    ("i :x:", Refusal::BadDescriptor),
    ("T{", Refusal::BadDescriptor),
    ("T{i:x:", Refusal::BadDescriptor),
    ("T{i:x}", Refusal::BadDescriptor),
    ("T{i :x:}", Refusal::BadDescriptor),
    ("T{5 s:x:}", Refusal::BadDescriptor),
    ("T{i:x:i:x:}", Refusal::BadDescriptor),
    ("T{i:f1:i}", Refusal::BadDescriptor),
    ("T{i:x:}<", Refusal::BadDescriptor),
    ("{i:x:}", Refusal::BadDescriptor),
    ("f", Refusal::DescriptorLeftOut),
    ("<d", Refusal::DescriptorLeftOut),
    ("3Zd", Refusal::DescriptorLeftOut),
    ("&i", Refusal::DescriptorLeftOut),
    ("(2)i", Refusal::DescriptorLeftOut),
    ("2i", Refusal::DescriptorLeftOut),
    ("3?", Refusal::DescriptorLeftOut),
    ("0s", Refusal::DescriptorLeftOut),
    ("x", Refusal::DescriptorLeftOut),
    ("i:x:", Refusal::DescriptorLeftOut),
    ("i:", Refusal::DescriptorLeftOut),
    ("i<h", Refusal::DescriptorLeftOut),
    ("i5s", Refusal::DescriptorLeftOut),
    ("99999s:a:", Refusal::DescriptorLeftOut),
    ("T{}", Refusal::DescriptorLeftOut),
    ("T{4x}", Refusal::DescriptorLeftOut),
    ("T{x:a:i:b:}", Refusal::DescriptorLeftOut),
    ("T{i::}", Refusal::DescriptorLeftOut),
    ("T{i:it's:}", Refusal::DescriptorLeftOut),
    ("5T{i:x:}", Refusal::DescriptorLeftOut),
    ("2T{", Refusal::DescriptorLeftOut),
    ("T{2T{i:x:}:y:}", Refusal::DescriptorLeftOut),
    ("T{T{}:x:}", Refusal::DescriptorLeftOut),
    ("T{T{4x}:x:}", Refusal::DescriptorLeftOut),
    ("T{T{T{T{T{b}}}}}", Refusal::DescriptorLeftOut),
    ("T{T{T{T{T{5", Refusal::DescriptorLeftOut),
    ("T{T{i:x:}::}", Refusal::DescriptorLeftOut),
    ("T{T{}5", Refusal::DescriptorLeftOut),
    ("T{i:x:}T{i:x:}", Refusal::DescriptorLeftOut),
    ("T{T{i:x:}:x:T{i:x:}:x:}", Refusal::BadDescriptor),
    ("T{i:x:T{i:y:}:x:}", Refusal::BadDescriptor),
    ("T{T{i:x:i:x:}:y:}", Refusal::BadDescriptor),
    ("T{T{i:x:}:y:", Refusal::BadDescriptor),
    ("T{T{i:x:}:y", Refusal::BadDescriptor),
    ("T{T{i:x:}", Refusal::BadDescriptor),
    ("T{T:x:}", Refusal::BadDescriptor),
    ("5T", Refusal::BadDescriptor),
    ("T{i:x:}i", Refusal::DescriptorLeftOut),
    ("65537s", Refusal::TooLarge),
    ("99999s i", Refusal::TooLarge),
    ("T{99999s:a:}", Refusal::TooLarge),
    ("T{99999999999999999999x:a:}", Refusal::TooLarge),
    ("T{65535xi:x:}", Refusal::TooLarge),
    ("T{T{65536x?}:a:}", Refusal::TooLarge),
    ("T{T{65535x?}:a:?:b:}", Refusal::TooLarge),
    ("T{T{65535x?}:a:T{?}:a:}", Refusal::BadDescriptor),
    ("T{65535x}", Refusal::DescriptorLeftOut),
];

const FIELDS: &[(&str, Option<usize>)] = &[("x", Some(0)), ("y", Some(1)), ("z", None)];

const WRITTEN: &[(&str, &str)] = &[
    ("i", "<i"),
    ("s", "<1s"),
    ("!l", ">i"),
    ("l", "<q"),
    (">B", "<B"),
    ("T{i:x:>h}", "T{<i:x:>h:f1:}"),
    ("T{b:a:i:b:}", "T{<b:a:3x<i:b:}"),
    ("T{2x5s:t:h:n:}", "T{2x<5s:t:1x<h:n:}"),
    ("T{q:a:?:b:}", "T{<q:a:<?:b:7x}"),
];

fn push_scalar(alloc: Global, shown: &mut Vec<u8>, scalar: &Scalar) -> Result<(), AllocError> {
    let text = typestr_write(alloc, *scalar)?;
    shown.extend_from_slice(text.as_slice())
}

fn push_number(alloc: Global, shown: &mut Vec<u8>, number: usize) -> Result<(), AllocError> {
    let text = format!(in alloc; " {number}")?;
    shown.extend_from_slice(text.as_bytes())
}

fn push_type(alloc: Global, shown: &mut Vec<u8>, descr: &Descr) -> Result<(), AllocError> {
    match descr {
        Descr::Scalar(scalar) => push_scalar(alloc, shown, scalar),
        Descr::Record(record) => {
            let text = format!(in alloc; "|V{}", record.size())?;
            shown.extend_from_slice(text.as_bytes())
        }
    }
}

fn push_field(alloc: Global, shown: &mut Vec<u8>, field: &Field) -> Result<(), AllocError> {
    if !shown.is_empty() {
        shown.push(b' ')?;
    }
    shown.extend_from_slice(field.name.as_slice())?;
    shown.push(b' ')?;
    push_type(alloc, shown, &field.descr)?;
    push_number(alloc, shown, field.at)
}

/// Appends the name, the type string and the offset of each field, or the type string of a scalar.
fn push_fields(alloc: Global, shown: &mut Vec<u8>, descr: &Descr) -> Result<(), AllocError> {
    match descr {
        Descr::Scalar(scalar) => push_scalar(alloc, shown, scalar)?,
        Descr::Record(record) => {
            for field in record.fields() {
                push_field(alloc, shown, field)?;
            }
        }
    }
    Ok(())
}

/// The descriptor has items of this size, and these fields.
fn is_as_told(
    rt: &impl Abort,
    alloc: Global,
    descr: &Descr,
    size: usize,
    fields: &str,
) -> Result<(), AllocError> {
    let mut shown = Vec::new(alloc);
    push_fields(alloc, &mut shown, descr)?;
    check(rt, descr.size() == size, fields);
    check(rt, shown.as_slice() == fields.as_bytes(), fields);
    Ok(())
}

/// What is written of a descriptor, read again.
fn read_again(alloc: Global, descr: &Descr) -> Result<Descr, Refusal> {
    let written = format_write(alloc, descr)?;
    format_read(alloc, written.as_slice())
}

/// A copy of what is written of a descriptor and read again.
fn copied(alloc: Global, descr: &Descr) -> Result<Descr, Refusal> {
    let again = read_again(alloc, descr)?;
    let copy = Descr::try_copy(alloc, &again)?;
    Ok(copy)
}

fn reads(
    rt: &impl Abort,
    alloc: Global,
    text: &str,
    size: usize,
    fields: &str,
) -> Result<(), Refusal> {
    let descr = format_read(alloc, text.as_bytes())?;
    is_as_told(rt, alloc, &descr, size, fields)?;
    let copy = copied(alloc, &descr)?;
    is_as_told(rt, alloc, &copy, size, fields)?;
    Ok(())
}

#[test]
fn formats_as_numpy_reads_them(rt: HostRuntime) -> Result<(), Fail> {
    for (text, size, fields) in READ {
        reads(&rt, rt.alloc(), text, *size, fields)?;
    }
    Ok(())
}

#[test]
fn formats_of_our_own(rt: HostRuntime) -> Result<(), Fail> {
    for (text, size, fields) in OUR_OWN {
        reads(&rt, rt.alloc(), text, *size, fields)?;
    }
    Ok(())
}

/// The type string and the offset of each leaf.
fn leaves(alloc: Global, descr: &Descr) -> Result<Vec<u8>, AllocError> {
    let mut shown = Vec::new(alloc);
    for k in 0..descr.leaf_count() {
        if k > 0 {
            shown.push(b' ')?;
        }
        let (scalar, at) = descr.leaf_at(k);
        push_scalar(alloc, &mut shown, &scalar)?;
        push_number(alloc, &mut shown, at)?;
    }
    Ok(shown)
}

fn nests(
    rt: &impl Abort,
    alloc: Global,
    text: &str,
    want: &str,
    spelled: &str,
) -> Result<(), Refusal> {
    let descr = format_read(alloc, text.as_bytes())?;
    let shown = leaves(alloc, &descr)?;
    check(rt, shown.as_slice() == want.as_bytes(), text);
    let again = copied(alloc, &descr)?;
    let written = format_write(alloc, &again)?;
    check(rt, written.as_slice() == spelled.as_bytes(), text);
    Ok(())
}

#[test]
fn records_within_records(rt: HostRuntime) -> Result<(), Fail> {
    for (text, leaves, written) in NESTED {
        nests(&rt, rt.alloc(), text, leaves, written)?;
    }
    Ok(())
}

/// A record of 32 bytes.
const RECORD: &str = "T{bbbbbbbbbbbbbbbbbbbbbbbbbbbbbbbb}";

/// The leaves of a record of so many such records and a last one.
fn read_leaves(alloc: Global, records: u32, last: &str) -> Result<usize, Refusal> {
    let mut text = String::from_str(alloc, "T{")?;
    for _ in 0..records {
        text.push_str(RECORD)?;
    }
    text.push_str(last)?;
    text.push_str("}")?;
    Ok(format_read(alloc, text.as_bytes())?.leaf_count())
}

const LEAVES: &[(u32, &str, Result<usize, Refusal>)] = &[
    (63, RECORD, Ok(2048)),
    (
        63,
        "T{bbbbbbbbbbbbbbbbbbbbbbbbbbbbbbbbb}",
        Err(Refusal::TooLarge),
    ),
    (64, "T{b}", Err(Refusal::TooLarge)),
];

#[test]
fn most_leaves(rt: HostRuntime) {
    for (records, last, wanted) in LEAVES {
        check(
            &rt,
            read_leaves(rt.alloc(), *records, last) == *wanted,
            last,
        );
    }
}

/// Records of 64 and of 65 bytes.
const FIELDS_OF: &[(&str, Result<usize, Refusal>)] = &[
    (
        "T{bbbbbbbbbbbbbbbbbbbbbbbbbbbbbbbbbbbbbbbbbbbbbbbbbbbbbbbbbbbbbbbb}",
        Ok(64),
    ),
    (
        "T{bbbbbbbbbbbbbbbbbbbbbbbbbbbbbbbbbbbbbbbbbbbbbbbbbbbbbbbbbbbbbbbbb}",
        Err(Refusal::TooLarge),
    ),
];

fn read_fields(alloc: Global, text: &str) -> Result<usize, Refusal> {
    Ok(format_read(alloc, text.as_bytes())?.fields().len())
}

#[test]
fn most_fields(rt: HostRuntime) {
    for (text, wanted) in FIELDS_OF {
        check(&rt, read_fields(rt.alloc(), text) == *wanted, text);
    }
}

#[test]
fn refused_formats(rt: HostRuntime) {
    for (text, refusal) in REFUSED {
        let found = format_read(rt.alloc(), text.as_bytes()).err();
        check(&rt, found == Some(*refusal), text);
    }
}

fn written(alloc: Global, text: &str) -> Result<Vec<u8>, Refusal> {
    let descr = format_read(alloc, text.as_bytes())?;
    let written = format_write(alloc, &descr)?;
    Ok(written)
}

#[test]
fn written_formats(rt: HostRuntime) -> Result<(), Fail> {
    for (text, want) in WRITTEN {
        let written = written(rt.alloc(), text)?;
        check(&rt, written.as_slice() == want.as_bytes(), text);
    }
    Ok(())
}

/// The fields of `T{i:x:2xh:y:}` by name and by place.
fn finds_fields(rt: &impl Abort, descr: &Descr) {
    for (name, place) in FIELDS {
        check(rt, descr.leaf_of(name.as_bytes()) == *place, name);
    }
    assert!(rt; descr.leaf_count() == 2);
    let (scalar, at) = descr.leaf_at(1);
    assert!(rt; (scalar.size(), at) == (2, 6));
}

#[test]
fn fields_by_name(rt: HostRuntime) -> Result<(), Fail> {
    let descr = format_read(rt.alloc(), b"T{i:x:2xh:y:}")?;
    finds_fields(&rt, &descr);
    let scalar = format_read(rt.alloc(), b"i")?;
    assert!(rt; scalar.leaf_of(b"").is_none());
    Ok(())
}
