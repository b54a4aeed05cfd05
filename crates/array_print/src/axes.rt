//! Steps along the axes of an array.
ghost use Rattle.std.specs.Prelude.{IsTrue, get_or, length, pos, slice_index_or, ℕ, ◌*ℤ◌, ◌+ℤ◌, ◌<◌, ◌↔◌, ◌≡◌, ◌≤◌};
ghost use Rattle.array_print.specs.Words.{max_items};
ghost use Rattle.array_print.specs.inside.Parts.{LeadsOn};

/// The first axis from `axis` on whose length is not 1.
pub fn past_ones(lengths: &[usize], axis: usize) -> usize
    requires { axis ≤ length lengths.now }
    ensures from { axis ≤ result }
    ensures within { result ≤ length lengths.now }
    ensures ones { (k : ℕ) → axis ≤ k → k < result → get_or lengths.now k 0 ≡ 1 }
{
    let mut next = axis;
    while next < lengths.len() && lengths[next] == 1 {
        next += 1;
    }
    next
}

/// Whether all steps along an axis lead to the same bytes.
pub fn repeats(strides: &[isize], axis: usize) -> bool
    requires { axis < length strides.now }
    ensures { IsTrue result ↔ (slice_index_or strides.now axis (pos 0) ≡ pos 0) }
{
    strides[axis] == 0
}

/// The offset `steps` steps further along an axis.
pub fn step_along(from: usize, strides: &[isize], axis: usize, steps: usize) -> usize
    requires axis { axis < length strides.now }
    requires steps { steps ≤ max_items }
    requires leads { LeadsOn strides.now axis from steps }
    ensures { pos result ≡ pos from +ℤ slice_index_or strides.now axis (pos 0) *ℤ pos steps }
{
    (from as isize + strides[axis] * steps as isize) as usize
}
