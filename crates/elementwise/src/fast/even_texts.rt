//! Comparisons of byte strings of one length, by words.
ghost use Rattle.std.specs.Prelude.{length, ◌*◌, ◌+◌, ◌^◌, ◌≡◌, ◌≤◌};
ghost use Rattle.elementwise.specs.Clauses.{AreAllMade, pairs_of, text_pair, IsWordLen};

use crate::kernels::bits::note_slice;
use crate::kernels::byte_strings::{shared_words, word_at};
use crate::kernels::comparing::compare;
use crate::kernels::texts::{Deciding, Trimmed, push_decided};
use crate::loops::row_pairs::Operands;
use elem_descr::Comparison;
use machine_numbers::HighFirst;
use raw_block::BlockBuilder;

/// Those of one length, by words of this length at both ends, if together they cover the string. If
/// the first words are equal, so are the bytes that the last words share with them. No branch
/// depends on the bytes.
struct Ends<const LEN: usize>;

/// Those of one length, by the first words that differ, or else the last eight bytes.
struct Longer;

/// Two words as one number: the second decides only if the first words are equal.
#[inline(always)]
fn two_words(first: u64, last: u64) -> u128
    ensures { result ≡ first * 2 ^ 64 + last }
{
    u128::from(first) * (1 << 64) + u128::from(last)
}

impl<const LEN: usize> Deciding for Ends<LEN> {
    ghost Fits = { λ n m. (n ≡ m) × IsWordLen LEN × (LEN ≤ n) × (n ≤ 2 * LEN) };

    #[inline(always)]
    fn order(left: &[u8], right: &[u8]) -> (bool, bool) {
        let end = left.len() - LEN;
        let first = two_words(word_at::<LEN>(left, 0), word_at::<LEN>(left, end));
        let second = two_words(word_at::<LEN>(right, 0), word_at::<LEN>(right, end));
        (first < second, second < first)
    }
}

impl Deciding for Longer {
    ghost Fits = { λ n m. (n ≡ m) × (8 ≤ n) };

    #[inline(always)]
    fn order(left: &[u8], right: &[u8]) -> (bool, bool) {
        let at = shared_words(left, right).min(left.len() - 8);
        let first = word_at::<8>(left, at);
        let second = word_at::<8>(right, at);
        (first < second, second < first)
    }
}

/// Appends the result of a comparison for each pair of byte strings: by words, if all have one
/// length.
pub(crate) fn push_texts(
    comparison: Comparison,
    block: BlockBuilder,
    operands: Operands<'_, '_>,
) -> BlockBuilder
    requires { pairs_of operands ≤ block.1 }
    ensures { AreAllMade (text_pair comparison) 1 operands.entry block result }
{
    let width = operands.left.descr.size();
    if operands.right.descr.size() != width {
        return push_decided::<Trimmed>(comparison, block, operands);
    }
    note_slice(operands.left.block.bytes());
    note_slice(operands.right.block.bytes());
    match width {
        1 => compare::<u8, u8, HighFirst>(comparison, block, operands),
        2 => compare::<u16, u16, HighFirst>(comparison, block, operands),
        3 => push_decided::<Ends<2>>(comparison, block, operands),
        4 => compare::<u32, u32, HighFirst>(comparison, block, operands),
        5..=7 => push_decided::<Ends<4>>(comparison, block, operands),
        8 => compare::<u64, u64, HighFirst>(comparison, block, operands),
        9..=16 => push_decided::<Ends<8>>(comparison, block, operands),
        _ => push_decided::<Longer>(comparison, block, operands),
    }
}
