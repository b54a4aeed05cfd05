//! Numbers as bytes, in either byte order.
ghost use Rattle.std.specs.Prelude.{◌≡◌, ◌≤◌, length};
ghost use Rattle.elem_descr.specs.Clauses.{number, IsNumber, size, decode, encode, wrap, integer, number_in, bytes_of, low_bits, IsValueOf, is_value, WrapsTo};

use crate::scalar::{Order, Scalar};
use byteorder::{BigEndian, ByteOrder, LittleEndian};

/// The integer in the first bytes, in two's complement if it is signed.
fn integer_read(signed: bool, order: Order, size: usize, bytes: &[u8]) -> i128
    requires some { 1 ≤ size }
    requires few { size ≤ 8 }
    requires room { size ≤ length bytes.now }
    ensures { result ≡ integer signed size (number_in order size bytes.now) }
{
    match (order, signed) {
        (Order::Little, false) => i128::from(LittleEndian::read_uint(bytes, size)),
        (Order::Little, true) => i128::from(LittleEndian::read_int(bytes, size)),
        (Order::Big, false) => i128::from(BigEndian::read_uint(bytes, size)),
        (Order::Big, true) => i128::from(BigEndian::read_int(bytes, size)),
    }
}

/// The number that the bytes of an item mean. A byte of a bool that is not 0 reads as 1.
pub fn num_read(scalar: Scalar, bytes: &[u8]) -> i128
    requires number { IsNumber scalar }
    requires whole { length bytes.now ≡ size scalar }
    ensures { number result ≡ decode scalar bytes.now }
{
    match scalar {
        Scalar::Bool => i128::from(bytes[0] != 0),
        Scalar::Byte { signed } => integer_read(signed, Order::Little, 1, bytes),
        Scalar::Int {
            signed,
            width,
            order,
        } => integer_read(signed, order, width.bytes(), bytes),
        Scalar::Bytes(_) => unreachable!(),
    }
}

/// Writes the lowest bytes of a value.
fn integer_write(order: Order, size: usize, value: i128, bytes: &mut [u8])
    requires some { 1 ≤ size }
    requires few { size ≤ 8 }
    requires whole { length bytes.old ≡ size }
    ensures { bytes.new ≡ bytes_of order size (low_bits size value) }
{
    match order {
        Order::Little => LittleEndian::write_int128(bytes, value, size),
        Order::Big => BigEndian::write_int128(bytes, value, size),
    }
}

#[tactic(auto, using(crate::specs::NumberLaws::encode_wrap))]
fn wrapped_write(scalar: Scalar, value: i128, bytes: &mut [u8])
    requires number { IsNumber scalar }
    requires whole { length bytes.old ≡ size scalar }
    ensures { bytes.new ≡ encode scalar (number (wrap scalar value)) }
{
    match scalar {
        Scalar::Bool => bytes[0] = u8::from(value != 0),
        Scalar::Byte { .. } => integer_write(Order::Little, 1, value, bytes),
        Scalar::Int { width, order, .. } => integer_write(order, width.bytes(), value, bytes),
        Scalar::Bytes(_) => unreachable!(),
    }
}

/// Writes a number as the bytes of an item, wrapped to the values of the scalar.
pub fn num_write(scalar: Scalar, value: i128, bytes: &mut [u8])
    requires number { IsNumber scalar }
    requires whole { length bytes.old ≡ size scalar }
    ensures encoded { bytes.new ≡ encode scalar (number (wrap scalar value)) }
    ensures reads_back { decode scalar bytes.new ≡ number (wrap scalar value) }

    ensures in_range { IsValueOf scalar (wrap scalar value) }
    ensures wraps { WrapsTo scalar value (wrap scalar value) }
    ensures in_range_stays { IsValueOf scalar value → wrap scalar value ≡ value }
{
    wrapped_write(scalar, value, bytes);
}

/// Whether a number is a value of the scalar: writing it and reading it back gives the same number.
#[tactic(auto, using(crate::specs::NumberLaws::number_size))]
pub fn is_value(scalar: &Scalar, value: i128) -> bool
    requires { IsNumber scalar.now }
    ensures { result ≡ is_value scalar.now value }
{
    let mut room = [0; 8];
    let bytes = &mut room[..scalar.size()];
    num_write(*scalar, value, bytes);
    num_read(*scalar, bytes) == value
}
