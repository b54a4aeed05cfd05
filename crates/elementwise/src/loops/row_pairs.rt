//! Two arrays that are broadcast together, two operands of one shape, and pairs of their runs: how the
//! items of operands are combined row by row.
ghost use Rattle.elementwise.specs.Results.{pairwise};
ghost use Rattle.std.specs.Prelude.{IfSome, IsTrue, List, ℕ, ◌*◌, ◌≡◌, ◌≤◌};
ghost use Rattle.elementwise.specs.Words.{can_stretch, item_size, offsets, run_offsets, concat};
ghost use Rattle.elementwise.specs.inside.PairPasses.{pair_from};
ghost use Rattle.elementwise.specs.inside.Added.{AreAdded};

use arrays::Items;
use machine_numbers::Side;
use raw_block::BlockBuilder;
use shape_strides::{RunPair, RunPairs, Shape};

/// Two runs with the same number of items.
#[derive(Clone, Copy, Drop)]
pub(crate) struct Pairs<'a, 'b> {
    pub(crate) left: Side<'a>,
    pub(crate) right: Side<'b>,
    pub(crate) ghost even: { left.run.count ≡ right.run.count },
}

impl<'a, 'b> Pairs<'a, 'b> {
    ghost use Rattle.machine_numbers.specs.Sides.{AreSame};

    /// The same runs, with steps that the compiler knows.
    #[inline(always)]
    pub(crate) fn with_steps(self, left: isize, right: isize) -> Pairs<'a, 'b>
        requires left { self.left.run.step ≡ left }
        requires right { self.right.run.step ≡ right }
        ensures left { AreSame result.left self.entry.left }
        ensures right { AreSame result.right self.entry.right }
    {
        Pairs {
            left: self.left.with_step(left),
            right: self.right.with_step(right),
        }
    }
}

/// Two arrays, and a shape to which both stretch.
#[derive(Clone, Copy, Drop)]
pub(crate) struct Broadcast<'a> {
    pub(crate) left: Items<'a>,
    pub(crate) right: Items<'a>,
    pub(crate) shape: &'a Shape,
    pub(crate) ghost first: { IsTrue (can_stretch left.layout.now.shape shape.now) },
    pub(crate) ghost second: { IsTrue (can_stretch right.layout.now.shape shape.now) },
}

/// Two operands of one shape.
#[derive(Clone, Copy, Drop)]
pub(crate) struct Operands<'a, 'b> {
    pub(crate) left: Items<'a>,
    pub(crate) right: Items<'b>,
    pub(crate) ghost even: { left.layout.now.shape ≡ right.layout.now.shape },
}

/// A function of pairs of items, which appends its results.
pub(crate) trait Pass {
    ghost use Rattle.elementwise.specs.inside.Sides.{pair_count, AreMade};

    // The bytes of the result for the bytes of two items.
    ghost makes: { Self → List ℕ → List ℕ → List ℕ };

    // The sizes of items that it accepts.
    ghost Reads: { Self → ℕ → ℕ → Type 0 };

    // The size of a result.
    ghost width: { Self → ℕ };

    /// Appends the result for each pair of items of two runs.
    fn push_row(&self, block: BlockBuilder, pairs: Pairs<'_, '_>) -> BlockBuilder
        requires reads { Reads self.now pairs.left.width pairs.right.width }
        requires room { pair_count pairs * width self.now ≤ block.1 }
        ensures { AreMade (makes self.now) (width self.now) pairs.entry block result };

    ghost not_empty: { (pass : Self) → 1 ≤ width pass };
}

impl<'a, 'b> Operands<'a, 'b> {
    ghost use Rattle.elementwise.specs.inside.Operands.{pairs_of, AreAllMade, IsRow};

    /// All pairs of items as a single row, if they are one.
    pub(crate) fn as_row(self) -> Option<RunPair>
        ensures first { IfSome result
            (λ row. run_offsets row.first ≡ offsets self.entry.left.layout.now) }
        ensures second { IfSome result
            (λ row. run_offsets row.second ≡ offsets self.entry.right.layout.now) }
        ensures row { IfSome result (IsRow self.entry) }
    {
        let first = self.left.layout.as_one_run()?;
        let second = self.right.layout.as_one_run()?;
        Some(RunPair { first, second })
    }

    /// Appends the result for each pair of items of a row.
    fn push_row<P: Pass>(self, pass: &P, block: BlockBuilder, row: RunPair) -> BlockBuilder
        requires reads { P.Reads pass.now (item_size self.left.descr.now)
            (item_size self.right.descr.now) }
        requires room { row.first.count * P.width pass.now ≤ block.1 }
        requires row { IsRow self row }
        ensures { AreAdded (row.first.count * P.width pass.now)
            (concat (pairwise
            (pair_from (P.makes pass.now) (item_size self.entry.left.descr.now)
            (item_size self.entry.right.descr.now) self.entry.left.block.now
            self.entry.right.block.now) (run_offsets row.first) (run_offsets row.second))) block
            result }
    {
        let _filled = block.filled();
        let pairs = Pairs {
            left: Side {
                bytes: self.left.block.bytes(),
                run: row.first,
                width: self.left.descr.size(),
            },
            right: Side {
                bytes: self.right.block.bytes(),
                run: row.second,
                width: self.right.descr.size(),
            },
        };
        pass.push_row(block, pairs)
    }

    /// Appends the result for each pair of items in C order, row by row. The block is moved into
    /// each row and back. Its frame is large, so it is not inlined.
    #[inline(never)]
    fn push_rows<P: Pass>(self, pass: &P, block: BlockBuilder) -> BlockBuilder
        requires reads { P.Reads pass.now (item_size self.left.descr.now)
            (item_size self.right.descr.now) }
        requires room { pairs_of self * P.width pass.now ≤ block.1 }
        ensures { AreAllMade (P.makes pass.now) (P.width pass.now) self.entry block result }
    {
        let mut block = block;
        for row in RunPairs::new(self.left.layout, self.right.layout) {
            block = self.push_row(pass, block, row);
        }
        block
    }

    /// Appends the result for each pair of items in C order.
    pub(crate) fn push_all<P: Pass>(self, pass: &P, block: BlockBuilder) -> BlockBuilder
        requires reads { P.Reads pass.now (item_size self.left.descr.now)
            (item_size self.right.descr.now) }
        requires room { pairs_of self * P.width pass.now ≤ block.1 }
        ensures { AreAllMade (P.makes pass.now) (P.width pass.now) self.entry block result }
    {
        match self.as_row() {
            Some(row) => self.push_row(pass, block, row),
            None => self.push_rows(pass, block),
        }
    }
}
