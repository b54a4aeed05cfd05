//! Numbers that only speed depends on.

/// Operands with fewer items than this are combined in the order of their axes.
pub(crate) const FEW_ITEMS: usize = 4096;

/// Items that are at most this many bytes apart, or at one place, are as near as adjacent ones.
pub(crate) const ADJACENT: usize = 8;

/// The size of a band, so that it stays in the first-level cache.
pub(crate) const BAND: usize = 8192;

/// The fewest items of a band.
pub(crate) const FEWEST_IN_BAND: usize = 32;

/// Fewer items than this are cast as a whole: the cast items stay in the cache. A million items, or
/// 300,000, take 1.7 or 1.3 times as long as a whole as in chunks (`<i2` and `<i8` in a sum).
pub(crate) const MANY_ITEMS: usize = 262_144;

/// How many items of each operand are cast at a time.
pub(crate) const CHUNK: usize = 16_384;

/// Fewer pairs than this are divided one by one.
pub(crate) const FEW_PAIRS: usize = 4;

/// Fewer pairs of bytes than this are not worth a table of reciprocals. In 100,000 pairs, each takes
/// 0.6 ns by the table and 3.0 ns without it.
pub(crate) const MANY_BYTES: usize = 2048;

/// Byte strings of one length, up to this many bytes, are compared by two words without a look at
/// their trailing NULs.
pub(crate) const TWO_WORDS: usize = 16;
