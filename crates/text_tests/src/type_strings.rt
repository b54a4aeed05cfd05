//! Type strings, read as NumPy reads them, and written.
use crate::check::check;
use elem_descr::{Order, Refusal, Scalar, Width, typestr_read, typestr_write};
use std::test::Fail;

const REFUSED: &[(&str, Refusal)] = &[
    ("?", Refusal::BadDescriptor),
    ("", Refusal::BadDescriptor),
    ("<", Refusal::BadDescriptor),
    ("<i3", Refusal::BadDescriptor),
    ("<<i4", Refusal::BadDescriptor),
    ("!i4", Refusal::BadDescriptor),
    ("b2", Refusal::BadDescriptor),
    ("u16", Refusal::BadDescriptor),
    ("i04", Refusal::BadDescriptor),
    ("S-1", Refusal::BadDescriptor),
    ("S5x", Refusal::BadDescriptor),
    ("s5", Refusal::BadDescriptor),
    ("<f4", Refusal::DescriptorLeftOut),
    ("c16", Refusal::DescriptorLeftOut),
    ("<M8[ns]", Refusal::DescriptorLeftOut),
    ("|O", Refusal::DescriptorLeftOut),
    ("<U3", Refusal::DescriptorLeftOut),
    ("|V2", Refusal::DescriptorLeftOut),
    ("|S0", Refusal::DescriptorLeftOut),
    ("S", Refusal::DescriptorLeftOut),
    ("S65537", Refusal::TooLarge),
    ("S99999999999999999999999999999999", Refusal::TooLarge),
];

const WRITTEN: &[(&str, &str)] = &[
    ("|b1", "|b1"),
    ("<i1", "|i1"),
    ("u1", "|u1"),
    ("|i2", "<i2"),
    (">i4", ">i4"),
    ("=i8", "<i8"),
    ("u2", "<u2"),
    (">u8", ">u8"),
    (">S5", "|S5"),
    ("|S00065536", "|S65536"),
];

fn integer(signed: bool, width: Width, order: Order) -> Scalar {
    Scalar::Int {
        signed,
        width,
        order,
    }
}

#[test]
fn numbers_as_numpy_reads_them(rt: HostRuntime) {
    let table = [
        ("b1", Scalar::Bool),
        ("<b1", Scalar::Bool),
        ("|i1", Scalar::Byte { signed: true }),
        (">u1", Scalar::Byte { signed: false }),
        ("<i4", integer(true, Width::Four, Order::Little)),
        (">i4", integer(true, Width::Four, Order::Big)),
        ("=u8", integer(false, Width::Eight, Order::Little)),
        ("|u2", integer(false, Width::Two, Order::Little)),
        (">i8", integer(true, Width::Eight, Order::Big)),
        ("i2", integer(true, Width::Two, Order::Little)),
    ];
    for (text, scalar) in table {
        check(&rt, typestr_read(text.as_bytes()) == Ok(scalar), text);
    }
}

#[test]
fn refused_type_strings(rt: HostRuntime) {
    for (text, refusal) in REFUSED {
        check(&rt, typestr_read(text.as_bytes()) == Err(*refusal), text);
    }
}

#[test]
fn written_type_strings(rt: HostRuntime) -> Result<(), Fail> {
    for (text, want) in WRITTEN {
        let scalar = typestr_read(text.as_bytes())?;
        let written = typestr_write(rt.alloc(), scalar)?;
        check(&rt, written.as_slice() == want.as_bytes(), text);
    }
    Ok(())
}
