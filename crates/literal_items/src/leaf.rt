//! Literals as the bytes of one leaf.
ghost use Rattle.std.specs.Prelude.{◌≡◌, true, length, take};
ghost use Rattle.literal_items.specs.Clauses.{size, decode, encode, padded, without_nuls, literal_number, passes, is_castable, leaf_value};

use elem_descr::{Scalar, is_value, num_write};
use script_lang::ScalarLiteral;

/// A test of a literal as a value of a scalar: whether it can be one, or whether it is in range.
#[derive(Clone, Copy)]
pub(crate) enum Test {
    Castable,
    InRange,
}

/// The number that a literal means: 1 for `True` and 0 for `False`.
fn literal_number(literal: &ScalarLiteral) -> i128
    ensures { result ≡ literal_number literal.now }
{
    match literal {
        ScalarLiteral::Integer(value) => *value,
        ScalarLiteral::Boolean(value) => i128::from(*value),
        ScalarLiteral::Bytes(_) => 0,
    }
}

/// Whether the literal passes the test of the scalar.
pub(crate) fn passes(test: Test, scalar: &Scalar, literal: &ScalarLiteral) -> bool
    ensures { result ≡ passes test scalar.now literal.now }
{
    let is_text = matches!(literal, ScalarLiteral::Bytes(_));
    match (test, scalar) {
        (Test::Castable, Scalar::Bytes(_)) => is_text,
        (Test::Castable, _) => !is_text,
        (Test::InRange, Scalar::Bool | Scalar::Bytes(_)) => true,
        (Test::InRange, _) => is_value(scalar, literal_number(literal)),
    }
}

/// Writes bytes as an item. Bytes that do not fit are cut off, and NULs fill the rest of the item.
fn write_bytes(bytes: &[u8], item: &mut [u8])
    ensures encoded { item.new
        ≡ padded (length item.old) (without_nuls (take (length item.old) bytes.now)) }
    ensures reads_back { without_nuls item.new ≡ without_nuls (take (length item.old) bytes.now) }
{
    let kept = bytes.len().min(item.len());
    item.fill(0);
    item[..kept].copy_from_slice(&bytes[..kept]);
}

/// Writes a literal as a value of the scalar. A number that is out of range wraps.
pub(crate) fn write_leaf(scalar: &Scalar, literal: &ScalarLiteral, item: &mut [u8])
    requires castable { is_castable scalar.now literal.now ≡ true }
    requires whole { length item.old ≡ size scalar.now }
    ensures encoded { item.new ≡ encode scalar.now (leaf_value scalar.now literal.now) }
    ensures reads_back { decode scalar.now item.new ≡ leaf_value scalar.now literal.now }
{
    match literal {
        ScalarLiteral::Bytes(text) => write_bytes(text.as_slice(), item),
        _ => num_write(*scalar, literal_number(literal), item),
    }
}
