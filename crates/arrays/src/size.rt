//! How many bytes items take.
ghost use Rattle.std.specs.Prelude.{IfErr, IfOk, ◌*◌, ◌<◌, ◌≡◌, ◌≤◌};
ghost use Rattle.arrays.specs.Clauses.{TooLarge, item_size, max_bytes};

use elem_descr::{Descr, Refusal};
use shape_strides::MAX_BYTES;

/// How many bytes `items` items take. More than `MAX_BYTES` are refused.
pub fn bytes_of(items: usize, descr: &Descr) -> Result<usize, Refusal>
    ensures bytes { IfOk result (λ bytes. bytes ≡ items * item_size descr.now) }
    ensures within { IfOk result (λ bytes. bytes ≤ max_bytes) }
    ensures large { IfErr result
        (λ refusal. (refusal ≡ TooLarge) × (max_bytes < items * item_size descr.now)) }
{
    let bytes = items.saturating_mul(descr.size());
    if bytes > MAX_BYTES {
        return Err(Refusal::TooLarge);
    }
    Ok(bytes)
}
