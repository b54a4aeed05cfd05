//! Loops over pairs of numbers, which append the results of a kernel.
ghost use Rattle.std.specs.Prelude.{◌≡◌, ◌+◌, ◌*◌, ◌≤◌, ◌/◌, ℕ, ℤ, List};
ghost use Rattle.elementwise.specs.Words.{item_size, joined};
ghost use Rattle.elementwise.specs.inside.PairPasses.{number_pair};
ghost use Rattle.elementwise.specs.inside.Operands.{pairs_of, AreAllMade};
ghost use Rattle.elementwise.specs.inside.Sides.{pair_count, made_of, AreMade, AreMadeTo};

use crate::loops::row_pairs::{Operands, Pairs, Pass};
use machine_numbers::{Number, Ordered};
use raw_block::BlockBuilder;
use std::marker::PhantomData;

/// A function of two numbers.
pub(crate) trait Kernel<A: Number, B: Number, T: Number> {
    ghost makes: { ℤ → ℤ → ℤ };

    fn make(left: A, right: B) -> T
        ensures { T.value result ≡ makes (A.value left) (B.value right) };
}

/// A kernel over numbers that are read in one byte order and written in another.
#[derive_where(Clone, Copy)]
pub(crate) struct Numbers<K, A, B, T, O, Q>(pub(crate) PhantomData<(K, A, B, T, O, Q)>);

impl<K: Kernel<A, B, T>, A: Number, B: Number, T: Number, O: Ordered, Q: Ordered> Numbers<
    K,
    A,
    B,
    T,
    O,
    Q,
> {
    /// Appends the results for the pairs, starting with one of them. The block is passed in and
    /// returned, so that its length stays in a register.
    #[inline(always)]
    fn push_from(self, block: BlockBuilder, pairs: Pairs<'_, '_>, from: usize) -> BlockBuilder
        requires left { pairs.left.width ≡ A.WIDTH }
        requires right { pairs.right.width ≡ B.WIDTH }
        requires from { from ≤ pair_count pairs }
        requires room { pair_count pairs * T.WIDTH ≤ from * T.WIDTH + block.1 }
        ensures { (old : List ℕ × ℕ)
            → AreMadeTo from
            (number_pair (A.scalar O.order) (B.scalar O.order) (T.scalar Q.order) K.makes) T.WIDTH
            pairs.entry old block
            → AreMade
            (number_pair (A.scalar O.order) (B.scalar O.order) (T.scalar Q.order) K.makes) T.WIDTH
            pairs.entry old result }
    {
        let mut block = block;
        for k in from..pairs.left.run.count {
            let left = pairs.left.number::<A, O>(k);
            let right = pairs.right.number::<B, O>(k);
            K::make(left, right).push::<Q>(&mut block);
        }
        block
    }

    /// The results for sixteen pairs, a byte each, starting with one of them.
    #[inline(always)]
    fn sixteen(self, pairs: Pairs<'_, '_>, from: usize) -> [u8; 16]
        requires left { pairs.left.width ≡ A.WIDTH }
        requires right { pairs.right.width ≡ B.WIDTH }
        requires byte { T.WIDTH ≡ 1 }
        requires from { from + 16 ≤ pair_count pairs }
        ensures { result
            ≡ joined (λ j. made_of
            (number_pair (A.scalar O.order) (B.scalar O.order) (T.scalar Q.order) K.makes)
            pairs.entry (from + j)) 16 }
    {
        let mut made = [0; 16];
        for j in 0..16 {
            let left = pairs.left.number::<A, O>(from + j);
            let right = pairs.right.number::<B, O>(from + j);
            let mut item = [0; 1];
            K::make(left, right).write::<Q>(&mut item);
            made[j] = item[0];
        }
        made
    }

    /// Appends the result for each pair. Results of one byte are made in groups of sixteen: each
    /// group fills a vector, however wide the numbers are.
    #[inline(always)]
    fn push_each(self, block: BlockBuilder, pairs: Pairs<'_, '_>) -> BlockBuilder
        requires left { pairs.left.width ≡ A.WIDTH }
        requires right { pairs.right.width ≡ B.WIDTH }
        requires room { pair_count pairs * T.WIDTH ≤ block.1 }
        ensures { AreMade
            (number_pair (A.scalar O.order) (B.scalar O.order) (T.scalar Q.order) K.makes) T.WIDTH
            pairs.entry block result }
    {
        if T::WIDTH > 1 || A::WIDTH == 1 {
            return self.push_from(block, pairs, 0);
        }
        let mut block = block;
        let groups = pairs.left.run.count / 16;
        for group in 0..groups {
            block.push_array::<16>(self.sixteen(pairs, 16 * group));
        }
        self.push_from(block, pairs, 16 * groups)
    }
}

impl<K: Kernel<A, B, T>, A: Number, B: Number, T: Number, O: Ordered, Q: Ordered> Pass
    for Numbers<K, A, B, T, O, Q> {
    ghost makes = { λ _. number_pair (A.scalar O.order) (B.scalar O.order)
        (T.scalar Q.order) K.makes };

    ghost Reads = { λ _ width width'. (width ≡ A.WIDTH) × (width' ≡ B.WIDTH) };

    ghost width = { λ _. T.WIDTH };

    ghost not_empty = { λ _. T.is_small.0 };

    // There is a loop of its own if each side is adjacent items or a single item.
    #[inline(always)]
    fn push_row(&self, block: BlockBuilder, pairs: Pairs<'_, '_>) -> BlockBuilder {
        let near = A::WIDTH as isize;
        let close = B::WIDTH as isize;
        match (pairs.left.run.step, pairs.right.run.step) {
            (a, b) if a == near && b == close => {
                self.push_each(block, pairs.with_steps(near, close))
            }
            (a, 0) if a == near => self.push_each(block, pairs.with_steps(near, 0)),
            (0, b) if b == close => self.push_each(block, pairs.with_steps(0, close)),
            _ => self.push_from(block, pairs, 0),
        }
    }
}

/// Appends the results of a kernel for each pair of items of operands.
pub(crate) fn append<K: Kernel<A, B, T>, A: Number, B: Number, T: Number, O: Ordered, Q: Ordered>(
    block: BlockBuilder,
    operands: Operands<'_, '_>,
) -> BlockBuilder
    requires left { item_size operands.left.descr.now ≡ A.WIDTH }
    requires right { item_size operands.right.descr.now ≡ B.WIDTH }
    requires room { pairs_of operands * T.WIDTH ≤ block.1 }
    ensures { AreAllMade
        (number_pair (A.scalar O.order) (B.scalar O.order) (T.scalar Q.order) K.makes) T.WIDTH
        operands.entry block result }
{
    operands.push_all(&Numbers::<K, A, B, T, O, Q>(PhantomData), block)
}
