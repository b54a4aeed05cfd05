//! Machine numbers: what they mean, how they are stored, and how one type is converted to another.
ghost use Rattle.std.specs.Prelude.{◌≡◌, ◌≤◌, ◌⊎◌, ◌+◌, ◌++◌, ℕ, ℤ, int_lt, pos, Bool, true, false, length, if◌then◌else◌, IsTrue, refl};
ghost use Rattle.elem_descr.specs.declared.scalar.Order.{Order};
ghost use Rattle.elem_descr.specs.declared.scalar.Order.TheVariants.{Little};
ghost use Rattle.elem_descr.specs.declared.scalar.Scalar.{Scalar};
ghost use Rattle.elem_descr.specs.declared.scalar.Width.TheVariants.{Two, Four, Eight};
ghost use Rattle.elem_descr.specs.declared.scalar.Scalar.TheVariants.{Bool as BoolScalar, Byte, Int};
ghost use Rattle.elem_descr.specs.Values.{number};
ghost use Rattle.elem_descr.specs.Encoding.{IsNumber, size, decode, encode, wrap, integer};
ghost use Rattle.machine_numbers.specs.Kinds.{is_bool, little};
ghost use Rattle.machine_numbers.specs.Bits.{AreBits};
ghost use Rattle.machine_numbers.specs.NumberLaws.{AreNumbers, of_bool, of_byte, of_int};

use crate::byte_orders::{Ordered, array};
use raw_block::BlockBuilder;

/// A number that the processor computes with: a bool, or an integer of 1, 2, 4 or 8 bytes.
pub trait Number: Copy {
    ghost value: { Self → ℤ };

    // The scalar with these values in a byte order. One byte has no byte order.
    ghost scalar: { Order → Scalar };

    /// The size of a number in bytes.
    const WIDTH: usize;

    ghost WIDTH: { ℕ };

    /// Whether the type is signed.
    const SIGNED: bool;

    ghost SIGNED: { Bool };

    fn read<O: Ordered>(bytes: &[u8]) -> Self
        requires { length bytes.now ≡ WIDTH }
        ensures { decode (scalar O.order) bytes.now ≡ number (value result) };

    /// Writes a number over its bytes. Reading them back gives the number.
    fn write<O: Ordered>(self, bytes: &mut [u8])
        requires { length bytes.old ≡ WIDTH }
        ensures bytes { bytes.new ≡ encode (scalar O.order) (number (value self)) }
        ensures value { decode (scalar O.order) bytes.new ≡ number (value self) };

    /// Appends a number to a block, in a single store. Reading its bytes gives the number.
    #[inline(always)]
    fn push<O: Ordered>(self, block: &mut BlockBuilder)
        requires { WIDTH ≤ block.old.1 }
        ensures bytes { block.new.0 ≡ block.old.0 ++ encode (scalar O.order) (number (value self)) }
        ensures value { decode (scalar O.order) (encode (scalar O.order) (number (value self)))
            ≡ number (value self) }
        ensures left { WIDTH + block.new.1 ≡ block.old.1 }
    {
        let mut item = [0; 8];
        self.write::<O>(&mut item[..Self::WIDTH]);
        push_item(block, &item[..Self::WIDTH]);
    }

    /// The lowest 64 bits. The bits above the number's own are copies of its sign.
    fn bits(self) -> u64
        ensures lowest { AreBits result (value self) }
        ensures exact { value self ≡ integer SIGNED 8 result };

    /// The number with the lowest of these bits; for a bool, whether any bit is set.
    fn of_bits(bits: u64) -> Self
        ensures { (order : Order) (z : ℤ) → AreBits bits z → value result ≡ wrap (scalar order) z };

    /// Whether it is less than another number.
    #[inline(always)]
    fn is_less(self, other: Self) -> bool
        ensures { result ≡ int_lt (value self) (value other) }
    {
        let (left, right) = (self.bits(), other.bits());
        if Self::SIGNED {
            return left.cast_signed() < right.cast_signed();
        }
        left < right
    }

    /// Whether the numbers are bools.
    #[inline(always)]
    fn are_bools() -> bool
        ensures { IsTrue result → (order : Order) → is_bool (scalar order) ≡ true }
    {
        false
    }

    ghost laws: { AreNumbers value scalar WIDTH };

    ghost is_number: { (order : Order) → IsNumber (scalar order) } = { laws.is_number };

    ghost has_width: { (order : Order) → size (scalar order) ≡ WIDTH } = { laws.has_width };

    ghost is_small: { (1 ≤ WIDTH) × (WIDTH ≤ 8) } = { laws.is_small };

    ghost is_little: { (order : Order) → little (scalar order) ≡ scalar Little } = { laws.is_little };

    ghost is_truth: { (order : Order) (x : Self) → is_bool (scalar order) ≡ true
        → (value x ≡ pos 0) ⊎ (value x ≡ pos 1) } = { laws.is_truth };
}

/// Appends an item of 1, 2, 4 or 8 bytes in a single store.
#[inline(always)]
fn push_item(block: &mut BlockBuilder, item: &[u8])
    requires { length item.now ≤ block.old.1 }
    ensures bytes { block.new.0 ≡ block.old.0 ++ item.now }
    ensures left { length item.now + block.new.1 ≡ block.old.1 }
{
    match item.len() {
        1 => block.push_array::<1>(array::<1>(item)),
        2 => block.push_array::<2>(array::<2>(item)),
        4 => block.push_array::<4>(array::<4>(item)),
        8 => block.push_array::<8>(array::<8>(item)),
        _ => block.push_bytes(item),
    }
}

impl Number for bool {
    ghost value = { λ b. if b then pos 1 else pos 0 };

    ghost scalar = { λ order. BoolScalar };

    const WIDTH: usize = 1;

    ghost WIDTH = { 1 };

    const SIGNED: bool = false;

    ghost SIGNED = { false };

    ghost laws = { of_bool };

    fn read<O: Ordered>(bytes: &[u8]) -> bool {
        bytes[0] != 0
    }

    fn write<O: Ordered>(self, bytes: &mut [u8]) {
        bytes[0] = u8::from(self);
    }

    fn bits(self) -> u64 {
        u64::from(self)
    }

    fn of_bits(bits: u64) -> bool {
        bits != 0
    }

    fn are_bools() -> bool {
        true
    }
}

impl Number for u8 {
    ghost value = { λ n. pos n };

    ghost scalar = { λ order. Byte false };

    const WIDTH: usize = 1;

    ghost WIDTH = { 1 };

    const SIGNED: bool = false;

    ghost SIGNED = { false };

    ghost laws = { of_byte false };

    fn read<O: Ordered>(bytes: &[u8]) -> u8 {
        bytes[0]
    }

    fn write<O: Ordered>(self, bytes: &mut [u8]) {
        bytes[0] = self;
    }

    fn bits(self) -> u64 {
        u64::from(self)
    }

    fn of_bits(bits: u64) -> u8 {
        (bits % 256) as u8
    }
}

impl Number for i8 {
    ghost value = { λ z. z };

    ghost scalar = { λ order. Byte true };

    const WIDTH: usize = 1;

    ghost WIDTH = { 1 };

    const SIGNED: bool = true;

    ghost SIGNED = { true };

    ghost laws = { of_byte true };

    fn read<O: Ordered>(bytes: &[u8]) -> i8 {
        bytes[0].cast_signed()
    }

    fn write<O: Ordered>(self, bytes: &mut [u8]) {
        bytes[0] = self.cast_unsigned();
    }

    fn bits(self) -> u64 {
        i64::from(self).cast_unsigned()
    }

    fn of_bits(bits: u64) -> i8 {
        ((bits % 256) as u8).cast_signed()
    }
}

impl Number for u16 {
    ghost value = { λ n. pos n };

    ghost scalar = { λ order. Int false Two order };

    const WIDTH: usize = 2;

    ghost WIDTH = { 2 };

    const SIGNED: bool = false;

    ghost SIGNED = { false };

    ghost laws = { of_int false Two };

    fn read<O: Ordered>(bytes: &[u8]) -> u16 {
        O::read_two(bytes)
    }

    fn write<O: Ordered>(self, bytes: &mut [u8]) {
        O::write_two(self, bytes);
    }

    fn bits(self) -> u64 {
        u64::from(self)
    }

    fn of_bits(bits: u64) -> u16 {
        (bits % 65_536) as u16
    }
}

impl Number for i16 {
    ghost value = { λ z. z };

    ghost scalar = { λ order. Int true Two order };

    const WIDTH: usize = 2;

    ghost WIDTH = { 2 };

    const SIGNED: bool = true;

    ghost SIGNED = { true };

    ghost laws = { of_int true Two };

    fn read<O: Ordered>(bytes: &[u8]) -> i16 {
        O::read_two(bytes).cast_signed()
    }

    fn write<O: Ordered>(self, bytes: &mut [u8]) {
        O::write_two(self.cast_unsigned(), bytes);
    }

    fn bits(self) -> u64 {
        i64::from(self).cast_unsigned()
    }

    fn of_bits(bits: u64) -> i16 {
        ((bits % 65_536) as u16).cast_signed()
    }
}

impl Number for u32 {
    ghost value = { λ n. pos n };

    ghost scalar = { λ order. Int false Four order };

    const WIDTH: usize = 4;

    ghost WIDTH = { 4 };

    const SIGNED: bool = false;

    ghost SIGNED = { false };

    ghost laws = { of_int false Four };

    fn read<O: Ordered>(bytes: &[u8]) -> u32 {
        O::read_four(bytes)
    }

    fn write<O: Ordered>(self, bytes: &mut [u8]) {
        O::write_four(self, bytes);
    }

    fn bits(self) -> u64 {
        u64::from(self)
    }

    fn of_bits(bits: u64) -> u32 {
        (bits % 4_294_967_296) as u32
    }
}

impl Number for i32 {
    ghost value = { λ z. z };

    ghost scalar = { λ order. Int true Four order };

    const WIDTH: usize = 4;

    ghost WIDTH = { 4 };

    const SIGNED: bool = true;

    ghost SIGNED = { true };

    ghost laws = { of_int true Four };

    fn read<O: Ordered>(bytes: &[u8]) -> i32 {
        O::read_four(bytes).cast_signed()
    }

    fn write<O: Ordered>(self, bytes: &mut [u8]) {
        O::write_four(self.cast_unsigned(), bytes);
    }

    fn bits(self) -> u64 {
        i64::from(self).cast_unsigned()
    }

    fn of_bits(bits: u64) -> i32 {
        ((bits % 4_294_967_296) as u32).cast_signed()
    }
}

impl Number for u64 {
    ghost value = { λ n. pos n };

    ghost scalar = { λ order. Int false Eight order };

    const WIDTH: usize = 8;

    ghost WIDTH = { 8 };

    const SIGNED: bool = false;

    ghost SIGNED = { false };

    ghost laws = { of_int false Eight };

    fn read<O: Ordered>(bytes: &[u8]) -> u64 {
        O::read_eight(bytes)
    }

    fn write<O: Ordered>(self, bytes: &mut [u8]) {
        O::write_eight(self, bytes);
    }

    fn bits(self) -> u64 {
        self
    }

    fn of_bits(bits: u64) -> u64 {
        bits
    }
}

impl Number for i64 {
    ghost value = { λ z. z };

    ghost scalar = { λ order. Int true Eight order };

    const WIDTH: usize = 8;

    ghost WIDTH = { 8 };

    const SIGNED: bool = true;

    ghost SIGNED = { true };

    ghost laws = { of_int true Eight };

    fn read<O: Ordered>(bytes: &[u8]) -> i64 {
        O::read_eight(bytes).cast_signed()
    }

    fn write<O: Ordered>(self, bytes: &mut [u8]) {
        O::write_eight(self.cast_unsigned(), bytes);
    }

    fn bits(self) -> u64 {
        self.cast_unsigned()
    }

    fn of_bits(bits: u64) -> i64 {
        bits.cast_signed()
    }
}
