//! Pairs of runs: copies or moves the items of the second run to the first.
ghost use Rattle.std.specs.Prelude.{IsTrue, length, neg_ℤ, pos, ◌*◌, ◌+ℤ◌, ◌↔◌, ◌≡◌, ◌≤ℤ◌, ◌≤◌};
ghost use Rattle.overlap_copy.specs.Clauses.{AreAlike, Assigns, CanMoveRun, IsAssigned, IsLine, IsNested, IsTurned, LieApart, RunLies, RunsLie, copied_within, max_bytes, place_in, run_offsets};

use arrays::strided;
use raw_block::RawBlock;
use shape_strides::Run;

/// Copies the items, of `width` bytes, of a run to another run of the same block that has as many,
/// one after the other. Where the two overlap, an item is read as earlier copies left it.
fn copy_one_by_one(block: &mut RawBlock, to: Run, from: Run, width: usize)
    requires { RunsLie to from width block.old block.old }
    ensures copied { block.new
        ≡ copied_within to.offset to.step from.offset from.step width to.count block.old }
    ensures len { length block.new ≡ length block.old }
{
    block.copy_strided_within(strided(to, width).steps, strided(from, width));
}

/// Copies the items, of `width` bytes, of a run to another run of the same block that has as many.
/// The two share no byte.
pub(crate) fn move_apart(block: &mut RawBlock, to: Run, from: Run, width: usize)
    requires lie { RunsLie to from width block.old block.old }
    requires nested { IsNested (run_offsets to) width }
    requires apart { LieApart width (run_offsets to) (run_offsets from) }
    ensures { Assigns (run_offsets to) (run_offsets from) width block.old block.old block.new }
{
    if to.count > 0 && to.is_packed(width) && from.is_packed(width) {
        // For the prover alone: the block is within its limit.
        let _len = block.len();
        block.move_within(to.offset, from.offset, to.count * width);
        return;
    }
    copy_one_by_one(block, to, from, width);
}

/// The step in the opposite direction.
fn opposite(step: isize) -> isize
    requires { pos 0 ≤ℤ (step +ℤ pos max_bytes) }
    ensures { result ≡ neg_ℤ step }
{
    -step
}

/// The items of a run from the last to the first.
pub(crate) fn turned(run: Run) -> Run
    requires { IsLine max_bytes 1 run }
    ensures { IsTurned run result }
{
    Run {
        offset: run.offset_after(run.count - 1),
        count: run.count,
        step: opposite(run.step),
    }
}

/// Whether two runs have the same first item and the same step.
pub(crate) fn is_same_line(run: Run, other: Run) -> bool
    ensures { IsTrue result ↔ (run.offset ≡ other.offset) × (run.step ≡ other.step) }
{
    run.step == other.step && run.offset == other.offset
}

/// Moves the items of a run whose step is not negative to another run with the same step, from the
/// first to the last or from the last to the first, so that none is overwritten before it is read.
fn move_forth(block: &mut RawBlock, to: Run, from: Run, width: usize)
    requires to_limit { IsLine max_bytes 1 to }
    requires from_limit { IsLine max_bytes 1 from }
    requires alike { AreAlike to from width block.old }
    requires rising { pos 0 ≤ℤ to.step }
    ensures moved { IsAssigned to.count (place_in to)
        (place_in from) width block.old block.old block.new }
    ensures len { length block.new ≡ length block.old }
{
    if to.is_packed(width) {
        // For the prover alone: the block is within its limit.
        let _len = block.len();
        block.move_within(to.offset, from.offset, to.count * width);
        return;
    }
    if to.offset <= from.offset {
        copy_one_by_one(block, to, from, width);
        return;
    }
    copy_one_by_one(block, turned(to), turned(from), width);
}

/// Moves the items of a run to another run with the same step, whatever bytes they share.
pub(crate) fn move_run(block: &mut RawBlock, to: Run, from: Run, width: usize)
    requires { CanMoveRun to from width block.old }
    ensures { Assigns (run_offsets to) (run_offsets from) width block.old block.old block.new }
{
    if to.count < 2 {
        block.move_within(to.offset, from.offset, width);
        return;
    }
    if to.step < 0 {
        move_forth(block, turned(to), turned(from), width);
        return;
    }
    move_forth(block, to, from, width);
}

/// Reverses the items of a run in place.
pub(crate) fn turn_run(block: &mut RawBlock, run: Run, back: Run, width: usize)
    requires run { RunLies (length block.old) width run }
    requires back { IsTurned run back }
    requires nested { IsNested (run_offsets run) width }
    ensures { Assigns (run_offsets run) (run_offsets back) width block.old block.old block.new }
{
    let half = Run {
        count: run.count / 2,
        ..back
    };
    block.swap_strided(strided(run, width).steps, strided(half, width));
}
