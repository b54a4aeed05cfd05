//! Numbers that only speed depends on.

/// The room for a text: what is held of a longer one before it is sent.
pub const ROOM: usize = 262_144;

/// The most room where stride 0 repeats items of more than `SHORT_ITEM` bytes.
pub const LONG_ROOM: usize = 16_777_216;

/// Items of at most this many bytes are short.
pub const SHORT_ITEM: usize = 64;
