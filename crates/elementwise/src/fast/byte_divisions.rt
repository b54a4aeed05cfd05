//! Divisions of pairs of unsigned numbers of one byte, by a table of reciprocals.
ghost use Rattle.std.specs.Prelude.{false, get_or, ℕ, ◌*◌, ◌+◌, ◌-◌, ◌/◌, ◌<◌, ◌^◌, ◌≡◌, ◌≤◌};
ghost use Rattle.elementwise.specs.Clauses.{binary, floor_quotient, Little, integer, low_bits, division_op, number_pair, pair_count, AreMade};

use crate::kernels::bits::{self, note_slice};
use crate::loops::row_pairs::Pairs;
use machine_numbers::{LowFirst, Number, Ordered};
use raw_block::BlockBuilder;

/// The reciprocals of the divisors of one byte: 2^16 divided by each, rounded up. That of 0 is 0.
#[derive(Drop)]
struct Reciprocals {
    each: [u64; 256],
    ghost none: { get_or each 0 0 ≡ 0 },
    ghost are: { (by : ℕ) → 1 ≤ by → by < 256 → get_or each by 0 ≡ (2 ^ 16 - 1) / by + 1 },
}

impl Reciprocals {
    fn new() -> Reciprocals {
        let mut each = [0; 256];
        for by in 1..256 {
            each[by] = u64::from(u16::MAX / by as u16) + 1;
        }
        Reciprocals { each }
    }

    /// The quotient of two bytes, by a multiplication. Division by 0 gives 0.
    #[inline(always)]
    fn quotient(&self, left: u64, right: u64) -> u64
        requires left { left < 256 }
        requires right { right < 256 }
        ensures { result
            ≡ low_bits 8 (floor_quotient (integer false 8 left) (integer false 8 right)) }
    {
        (left * self.each[right as usize]) >> 16
    }
}

/// Appends the quotients or remainders of pairs of unsigned numbers of one byte.
pub(crate) fn push_divided_bytes<const LEAVES: bool, N: Number, O: Ordered>(
    block: BlockBuilder,
    pairs: Pairs<'_, '_>,
) -> BlockBuilder
    requires byte { N.WIDTH ≡ 1 }
    requires unsigned { N.SIGNED ≡ false }
    requires left { pairs.left.width ≡ N.WIDTH }
    requires right { pairs.right.width ≡ N.WIDTH }
    requires room { pair_count pairs * N.WIDTH ≤ block.1 }
    ensures { AreMade
        (number_pair (N.scalar O.order) (N.scalar O.order) (N.scalar Little)
        (binary (division_op LEAVES) (N.scalar Little))) N.WIDTH pairs.entry block result }
{
    note_slice(pairs.left.bytes);
    note_slice(pairs.right.bytes);
    let reciprocals = Reciprocals::new();
    let mut block = block;
    for k in 0..pairs.left.run.count {
        let left = pairs.left.number::<N, O>(k).bits();
        let right = pairs.right.number::<N, O>(k).bits();
        let bits = bits::division(LEAVES, left, right, reciprocals.quotient(left, right));
        N::of_bits(bits).push::<LowFirst>(&mut block);
    }
    block
}
