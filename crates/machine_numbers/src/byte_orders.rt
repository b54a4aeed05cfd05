//! The two byte orders of an integer.
ghost use Rattle.std.specs.Prelude.{◌≡◌, length};
ghost use Rattle.elem_descr.specs.declared.scalar.Order.{Order};
ghost use Rattle.elem_descr.specs.declared.scalar.Order.TheVariants.{Little, Big};
ghost use Rattle.elem_descr.specs.Encoding.{number_in, bytes_of};

use byteorder::{BigEndian, ByteOrder, LittleEndian};

/// A byte order of integers: how they are read and written.
pub trait Ordered {
    ghost order: { Order };

    fn read_two(bytes: &[u8]) -> u16
        requires { length bytes.now ≡ 2 }
        ensures { result ≡ number_in order 2 bytes.now };

    fn read_four(bytes: &[u8]) -> u32
        requires { length bytes.now ≡ 4 }
        ensures { result ≡ number_in order 4 bytes.now };

    fn read_eight(bytes: &[u8]) -> u64
        requires { length bytes.now ≡ 8 }
        ensures { result ≡ number_in order 8 bytes.now };

    fn write_two(bits: u16, bytes: &mut [u8])
        requires { length bytes.old ≡ 2 }
        ensures { bytes.new ≡ bytes_of order 2 bits };

    fn write_four(bits: u32, bytes: &mut [u8])
        requires { length bytes.old ≡ 4 }
        ensures { bytes.new ≡ bytes_of order 4 bits };

    fn write_eight(bits: u64, bytes: &mut [u8])
        requires { length bytes.old ≡ 8 }
        ensures { bytes.new ≡ bytes_of order 8 bits };
}

/// The bytes of a slice, in a single load: read one by one, they keep loops from using vector
/// instructions.
#[inline(always)]
pub(crate) fn array<const N: usize>(bytes: &[u8]) -> [u8; N]
    requires { length bytes.now ≡ N }
    ensures { result ≡ bytes.now }
{
    match bytes.as_array::<N>() {
        Some(array) => *array,
        None => unreachable!(),
    }
}

/// Lowest byte first.
pub struct LowFirst;

/// Highest byte first.
pub struct HighFirst;

#[tactic(auto, using(crate::proofs::ByteLaws::over_all))]
impl Ordered for LowFirst {
    ghost order = { Little };

    fn read_two(bytes: &[u8]) -> u16 {
        u16::from_le_bytes(array::<2>(bytes))
    }

    fn read_four(bytes: &[u8]) -> u32 {
        u32::from_le_bytes(array::<4>(bytes))
    }

    fn read_eight(bytes: &[u8]) -> u64 {
        u64::from_le_bytes(array::<8>(bytes))
    }

    fn write_two(bits: u16, bytes: &mut [u8]) {
        LittleEndian::write_u16(bytes, bits);
    }

    fn write_four(bits: u32, bytes: &mut [u8]) {
        LittleEndian::write_u32(bytes, bits);
    }

    fn write_eight(bits: u64, bytes: &mut [u8]) {
        LittleEndian::write_u64(bytes, bits);
    }
}

#[tactic(auto, using(crate::proofs::ByteLaws::over_all))]
impl Ordered for HighFirst {
    ghost order = { Big };

    fn read_two(bytes: &[u8]) -> u16 {
        u16::from_be_bytes(array::<2>(bytes))
    }

    fn read_four(bytes: &[u8]) -> u32 {
        u32::from_be_bytes(array::<4>(bytes))
    }

    fn read_eight(bytes: &[u8]) -> u64 {
        u64::from_be_bytes(array::<8>(bytes))
    }

    fn write_two(bits: u16, bytes: &mut [u8]) {
        BigEndian::write_u16(bytes, bits);
    }

    fn write_four(bits: u32, bytes: &mut [u8]) {
        BigEndian::write_u32(bytes, bits);
    }

    fn write_eight(bits: u64, bytes: &mut [u8]) {
        BigEndian::write_u64(bytes, bits);
    }
}
