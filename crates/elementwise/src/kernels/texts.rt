//! Comparisons of byte strings, pair by pair.
ghost use Rattle.std.proofs.Common.{arith};
ghost use Rattle.std.specs.Prelude.{length, ℕ, ◌≡◌, ◌≤◌};
ghost use Rattle.elementwise.specs.Clauses.{item_size, AreAllMade, pairs_of, text_pair, text_said, AreInOrder};

use crate::kernels::byte_strings::{shared_words, without_nuls, word_at};
use crate::kernels::comparing::is_said;
use crate::loops::row_pairs::{Operands, Pairs, Pass};
use elem_descr::Comparison;
use machine_numbers::{LowFirst, Number};
use raw_block::BlockBuilder;
use std::marker::PhantomData;

/// How two byte strings are compared.
pub(crate) trait Deciding {
    // The lengths that it accepts.
    ghost Fits: { ℕ → ℕ → Type 0 };

    /// Whether the first byte string is less than the second, and whether it is greater.
    fn order(left: &[u8], right: &[u8]) -> (bool, bool)
        requires { Fits (length left.now) (length right.now) }
        ensures { AreInOrder result left.now right.now };
}

/// Those of any length, without the NULs at their ends.
pub(crate) struct Trimmed;

impl Deciding for Trimmed {
    ghost Fits = { λ _ _. Unit {0} };

    fn order(left: &[u8], right: &[u8]) -> (bool, bool) {
        let left = without_nuls(left);
        let right = without_nuls(right);
        let at = shared_words(left, right);
        if at + 8 <= left.len() && at + 8 <= right.len() {
            let first = word_at::<8>(left, at);
            let second = word_at::<8>(right, at);
            return (first < second, second < first);
        }
        let order = left[at..].cmp(&right[at..]);
        (order.is_lt(), order.is_gt())
    }
}

/// A comparison of byte strings. It is `HOLDS` if the first is less than the second and
/// `BELOW` is true, or if it is greater and `ABOVE` is true; otherwise the other bool.
#[derive_where(Clone, Copy)]
struct Texts<const BELOW: bool, const ABOVE: bool, const HOLDS: bool, D>(PhantomData<D>);

impl<const BELOW: bool, const ABOVE: bool, const HOLDS: bool, D: Deciding> Pass
    for Texts<BELOW, ABOVE, HOLDS, D> {
    ghost makes = { λ _. text_said BELOW ABOVE HOLDS };

    ghost Reads = { λ _. D.Fits };

    ghost width = { λ _. 1 };

    ghost not_empty = { λ _. Prim.omega arith };

    fn push_row(&self, block: BlockBuilder, pairs: Pairs<'_, '_>) -> BlockBuilder {
        let mut block = block;
        for k in 0..pairs.left.run.count {
            let (below, above) = D::order(pairs.left.item(k), pairs.right.item(k));
            let holds = is_said::<BELOW, ABOVE, HOLDS>(below, above);
            holds.push::<LowFirst>(&mut block);
        }
        block
    }
}

/// Appends the result of a comparison for each pair of byte strings, as `D` decides it.
pub(crate) fn push_decided<D: Deciding>(
    comparison: Comparison,
    block: BlockBuilder,
    operands: Operands<'_, '_>,
) -> BlockBuilder
    requires fits { D.Fits (item_size operands.left.descr.now)
        (item_size operands.right.descr.now) }
    requires room { pairs_of operands ≤ block.1 }
    ensures { AreAllMade (text_pair comparison) 1 operands.entry block result }
{
    let by = PhantomData;
    match comparison {
        Comparison::Equal => operands.push_all(&Texts::<true, true, false, D>(by), block),
        Comparison::NotEqual => operands.push_all(&Texts::<true, true, true, D>(by), block),
        Comparison::Less => operands.push_all(&Texts::<true, false, true, D>(by), block),
        Comparison::LessOrEqual => operands.push_all(&Texts::<false, true, false, D>(by), block),
        Comparison::Greater => operands.push_all(&Texts::<false, true, true, D>(by), block),
        Comparison::GreaterOrEqual => operands.push_all(&Texts::<true, false, false, D>(by), block),
    }
}
