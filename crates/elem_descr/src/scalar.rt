//! Scalars: the types of single values, and their sizes.
ghost use Rattle.std.specs.Prelude.{◌≡◌, ◌≤◌, SomeIff};
ghost use Rattle.elem_descr.specs.Encoding.{size, width_size};

use std::marker::Model;

/// The maximum number of bytes of an item.
pub const MAX_ITEM_SIZE: usize = 65_536;

/// The byte order of an integer of two or more bytes.
#[derive(Clone, Copy, Debug, PartialEq, Eq)]
pub enum Order {
    Little,
    Big,
}

/// The size in bytes of an integer that has a byte order.
#[derive(Clone, Copy, Debug, PartialEq, Eq)]
pub enum Width {
    Two,
    Four,
    Eight,
}

impl Width {
    pub fn bytes(self) -> usize
        ensures value { result ≡ width_size self }
        ensures within { (2 ≤ result) × (result ≤ 8) }
    {
        match self {
            Width::Two => 2,
            Width::Four => 4,
            Width::Eight => 8,
        }
    }
}

/// The length of a byte string's items: 1 to 65,536 bytes.
#[derive(Clone, Copy, Debug, PartialEq, Eq)]
pub struct BytesLen {
    bytes: usize,
}

impl Model for BytesLen {
    ghost use Rattle.std.specs.Prelude.{ℕ, ◌≤◌};

    ghost Value = { ℕ };

    ghost view = { λ len. len.bytes };

    ghost invariant = { λ len. (1 ≤ len.bytes) × (len.bytes ≤ 65536) };

    ghost inverse = { λ bytes. record { bytes = bytes } };
}

impl BytesLen {
    pub fn try_new(bytes: usize) -> Option<BytesLen>
        ensures { SomeIff result ((1 ≤ bytes) × (bytes ≤ 65536)) bytes }
    {
        if bytes < 1 || bytes > MAX_ITEM_SIZE {
            return None;
        }
        Some(BytesLen { bytes })
    }

    pub fn get(self) -> usize
        ensures value { result ≡ self }
        ensures not_empty { 1 ≤ result }
        ensures within { result ≤ 65536 }
    {
        self.bytes
    }
}

/// An element type other than a record: a bool of one byte, an integer in two's complement, or a
/// byte string of a fixed length. Bools, integers of one byte and byte strings have no byte order.
#[derive(Clone, Copy, Debug, PartialEq, Eq)]
pub enum Scalar {
    Bool,
    Byte {
        signed: bool,
    },
    Int {
        signed: bool,
        width: Width,
        order: Order,
    },
    Bytes(BytesLen),
}

impl Scalar {
    /// The number of bytes of an item.
    pub fn size(&self) -> usize
        ensures value { result ≡ size self.now }
        ensures not_empty { 1 ≤ result }
        ensures within { result ≤ 65536 }
    {
        match self {
            Scalar::Bool | Scalar::Byte { .. } => 1,
            Scalar::Int { width, .. } => width.bytes(),
            Scalar::Bytes(len) => len.get(),
        }
    }
}
