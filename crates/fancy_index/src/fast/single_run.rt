//! The offsets of the items with given ranks, if the items are a single run.
ghost use Rattle.std.specs.Prelude.{All, [], pos, ℕ, ◌<◌, ◌∷◌, ◌≡◌, ◌≤◌, ◌*ℤ◌};
ghost use Rattle.fancy_index.specs.Clauses.{LieWithin, max_bytes, max_items, run_offsets, led};

use shape_strides::Run;

/// The step between the items of a run; for a single item, any step does.
fn small_step(run: Run) -> i32
    requires { LieWithin (run.count ∷ []) (run.step ∷ []) run.offset max_bytes 1 }
    ensures { (k : ℕ) → k < run.count → result *ℤ pos k ≡ run.step *ℤ pos k }
{
    if run.count < 2 {
        return 0;
    }
    run.step as i32
}

/// Replaces each rank by its offset, if the items are a single run. The offsets are computed with 32
/// bits, so that a vector holds four of them.
pub(crate) fn run_to_offsets(run: Run, ranks: &mut [u32])
    requires few { run.count ≤ max_items }
    requires lies { LieWithin (run.count ∷ []) (run.step ∷ []) run.offset max_bytes 1 }
    requires ranks { All (λ rank. rank < run.count) ranks.old }
    ensures { ranks.new ≡ led (run_offsets run) ranks.old }
{
    let step = small_step(run);
    for rank in ranks.iter_mut() {
        *rank = (step * *rank as i32 + run.offset as i32) as u32;
    }
}
