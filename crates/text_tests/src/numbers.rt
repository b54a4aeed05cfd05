//! Numbers as bytes, in either byte order.
ghost use Rattle.std.specs.Prelude.{◌≡◌, ◌≤◌, length};
ghost use Rattle.elem_descr.specs.Encoding.{IsNumber, size};

use elem_descr::{Order, Scalar, Width, num_read, num_write};
use std::process::Abort;

fn integer(signed: bool, width: Width, order: Order) -> Scalar
    ensures { result ≡ Scalar.Int signed width order }
{
    Scalar::Int {
        signed,
        width,
        order,
    }
}

/// The bytes mean the value, and the value is written so.
fn packs(rt: &impl Abort, scalar: &Scalar, bytes: &[u8], value: i128)
    requires number { IsNumber scalar.now }
    requires whole { length bytes.now ≡ size scalar.now }
    requires few { length bytes.now ≤ 8 }
{
    let mut room = [0xaa; 8];
    let written = &mut room[..bytes.len()];
    num_write(*scalar, value, written);
    assert!(rt; num_read(*scalar, bytes) == value, "for {value}");
    assert!(rt; &*written == bytes, "for {value}");
}

/// As Python's `struct.pack` packs them, like those of the next two tests.
#[test]
fn packed_bytes(rt: HostRuntime) {
    packs(&rt, &Scalar::Bool, &[1], 1);
    packs(&rt, &Scalar::Byte { signed: true }, &[0x80], -128);
    packs(&rt, &Scalar::Byte { signed: false }, &[0xc8], 200);
}

#[test]
fn packed_low_byte_first(rt: HostRuntime) {
    let rt = &rt;
    let little = Order::Little;
    packs(rt, &integer(true, Width::Two, little), &[0xfe, 0xff], -2);
    packs(
        rt,
        &integer(false, Width::Two, little),
        &[0xcd, 0xab],
        0xabcd,
    );
    packs(
        rt,
        &integer(true, Width::Four, little),
        &[0xef, 0xbe, 0xad, 0xde],
        -559_038_737,
    );
    packs(
        rt,
        &integer(false, Width::Four, little),
        &[0xef, 0xbe, 0xad, 0xde],
        0xdead_beef,
    );
    packs(
        rt,
        &integer(true, Width::Eight, little),
        &[0, 0, 0, 0, 0, 0, 0, 0x80],
        i128::from(i64::MIN),
    );
    packs(
        rt,
        &integer(false, Width::Eight, little),
        &[0xff; 8],
        i128::from(u64::MAX),
    );
}

#[test]
fn packed_high_byte_first(rt: HostRuntime) {
    let rt = &rt;
    let big = Order::Big;
    packs(rt, &integer(true, Width::Two, big), &[0xff, 0xfe], -2);
    packs(rt, &integer(false, Width::Two, big), &[0xab, 0xcd], 0xabcd);
    packs(
        rt,
        &integer(true, Width::Four, big),
        &[0xde, 0xad, 0xbe, 0xef],
        -559_038_737,
    );
    packs(
        rt,
        &integer(true, Width::Eight, big),
        &[0xc0, 0, 0, 0, 0, 0, 0, 1],
        -4_611_686_018_427_387_903,
    );
    packs(
        rt,
        &integer(false, Width::Eight, big),
        &[0x80, 0, 0, 0, 0, 0, 0, 5],
        0x8000_0000_0000_0005,
    );
}

/// What does not fit wraps as Python's `value % 2**16`, read back with the sign.
#[test]
fn wraps(rt: HostRuntime) {
    let scalar = &integer(true, Width::Two, Order::Big);
    for (value, wrapped) in [(40_000, -25_536), (-32_769, 32_767), (i128::MIN + 5, 5)] {
        let mut bytes = [0; 2];
        num_write(*scalar, value, &mut bytes);
        assert!(rt; num_read(*scalar, &bytes) == wrapped, "for {value}");
    }
}

#[test]
fn bools(rt: HostRuntime) {
    let mut stored = [0];
    num_write(Scalar::Bool, 256, &mut stored);
    assert!(rt; num_read(Scalar::Bool, &stored) == 1);
    assert!(rt; num_read(Scalar::Bool, &[7]) == 1);
}
