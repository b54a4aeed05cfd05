//! Which casts exist, and which types are stored alike. Also the leaves of element types.
ghost use Rattle.std.specs.Prelude.{IsTrue, length, ◌+◌, ◌<◌, ◌↔◌, ◌≡◌, ◌≤◌};
ghost use Rattle.elementwise.specs.Clauses.{can_cast, can_cast_fields, can_cast_scalar, AreAlike, item_size, leaf_at, leaves_of, listed, size, can_cast_field, list_all};

use elem_descr::{Descr, Field, Leaf, Scalar};
use machine_numbers::is_text;

/// Whether a value of one scalar can be cast to another.
fn can_cast_scalar(from: &Scalar, to: &Scalar) -> bool
    ensures { result ≡ can_cast_scalar from.now to.now }
{
    is_text(from) == is_text(to)
}

/// Whether a scalar can be cast to each of the leaves.
fn can_cast_to_all(from: &Scalar, leaves: &[Leaf]) -> bool
    ensures { result ≡ list_all (λ leaf. can_cast_scalar from.now leaf.scalar) leaves.now }
{
    leaves
        .iter()
        .all(|leaf| can_cast_scalar(from, &leaf.scalar))
}

/// Whether a field can be cast to a field.
#[cycle(can_cast_fields)]
fn can_cast_field(from: &Descr, to: &Descr) -> bool
    ensures { result ≡ can_cast_field from.now to.now }
{
    match (from, to) {
        (Descr::Scalar(from), Descr::Scalar(to)) => can_cast_scalar(from, to),
        (Descr::Record(from), Descr::Record(to)) => can_cast_fields(from.fields(), to.fields()),
        _ => false,
    }
}

/// Whether fields can be cast to fields, one by one.
#[cycle(can_cast_fields)]
fn can_cast_fields(from: &[Field], to: &[Field]) -> bool
    ensures { result ≡ can_cast_fields (listed from.now) (listed to.now) }
{
    if from.len() != to.len() {
        return false;
    }
    for (k, field) in from.iter().enumerate() {
        if !can_cast_field(&field.descr, &to[k].descr) {
            return false;
        }
    }
    true
}

/// Whether items of one element type can be cast to another.
pub fn can_cast(from: &Descr, to: &Descr) -> bool
    ensures { result ≡ can_cast from.now to.now }
{
    match (from, to) {
        (Descr::Scalar(from), Descr::Scalar(to)) => can_cast_scalar(from, to),
        (Descr::Scalar(from), Descr::Record(to)) => can_cast_to_all(from, to.leaves()),
        _ => can_cast_field(from, to),
    }
}

/// The leaf with this number.
pub(crate) fn leaf_of(descr: &Descr, k: usize) -> Leaf
    requires { k < length (leaves_of descr.now) }
    ensures value { result ≡ leaf_at descr.now k }
    ensures within { result.at + size result.scalar ≤ item_size descr.now }
{
    let (scalar, at) = descr.leaf_at(k);
    Leaf { scalar, at }
}

/// Whether items of two element types are stored in the same way.
pub fn are_alike(a: &Descr, b: &Descr) -> bool
    ensures { IsTrue result ↔ AreAlike a.now b.now }
{
    if a.size() != b.size() {
        return false;
    }
    let count = a.leaf_count();
    if count != b.leaf_count() {
        return false;
    }
    for k in 0..count {
        if leaf_of(a, k) != leaf_of(b, k) {
            return false;
        }
    }
    true
}
