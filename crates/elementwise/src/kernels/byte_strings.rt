//! Byte strings: without the trailing NULs that all of them have, and by words of eight bytes.
ghost use Rattle.std.specs.Prelude.{drop, length, take, ◌+◌, ◌≡◌, ◌≤◌};
ghost use Rattle.elementwise.specs.Clauses.{big_number, item_at, without_nuls, IsWordLen};

use machine_numbers::{HighFirst, LowFirst, Ordered};

/// A byte string without its trailing NULs, of which whole words go first.
pub(crate) fn without_nuls(item: &[u8]) -> &[u8]
    ensures { result.now ≡ without_nuls item.now }
{
    let mut len = item.len();
    while len >= 8 && LowFirst::read_eight(&item[len - 8..len]) == 0 {
        len -= 8;
    }
    let item = &item[..len];
    let nuls = item.iter().rev().take_while(|b| **b == 0).count();
    &item[..item.len() - nuls]
}

/// How many whole words, in bytes, two byte strings have in common at the front.
pub(crate) fn shared_words(left: &[u8], right: &[u8]) -> usize
    ensures left { result ≤ length left.now }
    ensures right { result ≤ length right.now }
    ensures same { take result left.now ≡ take result right.now }
    ensures stops { result + 8 ≤ length left.now → result + 8 ≤ length right.now
        → take 8 (drop result left.now) ≡ take 8 (drop result right.now) → ⊥ }
{
    let words = left.len().min(right.len()) / 8;
    for word in 0..words {
        let at = 8 * word;
        let first = LowFirst::read_eight(&left[at..at + 8]);
        let second = LowFirst::read_eight(&right[at..at + 8]);
        if first != second {
            return at;
        }
    }
    8 * words
}

/// A word of a byte string as a number, highest byte first.
#[inline(always)]
pub(crate) fn word_at<const LEN: usize>(bytes: &[u8], at: usize) -> u64
    requires len { IsWordLen LEN }
    requires within { at + LEN ≤ length bytes.now }
    ensures { result ≡ big_number LEN (item_at at LEN bytes.now) }
{
    let word = &bytes[at..at + LEN];
    match LEN {
        2 => u64::from(HighFirst::read_two(word)),
        4 => u64::from(HighFirst::read_four(word)),
        _ => HighFirst::read_eight(word),
    }
}
