//! The kinds of scalars.
ghost use Rattle.std.specs.Prelude.{◌≡◌};
ghost use Rattle.machine_numbers.specs.Kinds.{is_bool, is_text, is_signed, little};

use elem_descr::{Order, Scalar};

/// Whether the values are bools.
pub fn is_bool(scalar: &Scalar) -> bool
    ensures { result ≡ is_bool scalar.now }
{
    matches!(scalar, Scalar::Bool)
}

/// Whether the values are byte strings.
pub fn is_text(scalar: &Scalar) -> bool
    ensures { result ≡ is_text scalar.now }
{
    matches!(scalar, Scalar::Bytes(_))
}

/// Whether the values are signed integers.
pub fn is_signed(scalar: &Scalar) -> bool
    ensures { result ≡ is_signed scalar.now }
{
    match scalar {
        Scalar::Byte { signed } => *signed,
        Scalar::Int { signed, .. } => *signed,
        _ => false,
    }
}

/// The little-endian scalar with the same values.
pub fn little(scalar: &Scalar) -> Scalar
    ensures { result ≡ little scalar.now }
{
    match scalar {
        Scalar::Int { signed, width, .. } => Scalar::Int {
            signed: *signed,
            width: *width,
            order: Order::Little,
        },
        _ => *scalar,
    }
}
