//! The types of results, as NumPy 2 promotes the types of operands.
ghost use Rattle.std.specs.Prelude.{◌≡◌, ◌≤◌, ◌&&◌, ◌||◌};
ghost use Rattle.elementwise.specs.Clauses.{Little, Eight, Int, Answers, is_bool, is_text, is_signed, little, rank_of_kind, same_kind, integer_type, mixed_type, common_type, promote, compared_type, literal_type, promote_one, serves_bools, scalar_of};

use elem_descr::{BinOp, Descr, Order, Refusal, Scalar, UnOp, Width};
use machine_numbers::{is_bool, is_signed, is_text, little};

/// The rank of a kind of numbers.
fn rank_of_kind(scalar: &Scalar) -> usize
    ensures { result ≡ rank_of_kind scalar.now }
{
    if is_bool(scalar) {
        return 0;
    }
    if is_signed(scalar) { 2 } else { 1 }
}

/// Whether a result of one type may be written to items of another: its kind must not come after
/// theirs in the order bool, unsigned, signed, whatever the widths. If it does, or for byte strings
/// on either side, the refusal is `NotSameKind`.
#[tactic(auto, unfolding(crate::specs::Promotion::same_kind))]
pub fn same_kind(from: Scalar, to: Scalar) -> Result<(), Refusal>
    ensures { Answers (λ _. tt) result (same_kind from to) }
{
    if is_text(&from) || is_text(&to) || rank_of_kind(&from) > rank_of_kind(&to) {
        return Err(Refusal::NotSameKind);
    }
    Ok(())
}

/// The little-endian integers of `bytes` bytes.
pub(crate) fn integer_type(signed: bool, bytes: usize) -> Scalar
    ensures { result ≡ integer_type signed bytes }
{
    let width = match bytes {
        1 => return Scalar::Byte { signed },
        2 => Width::Two,
        4 => Width::Four,
        _ => Width::Eight,
    };
    Scalar::Int {
        signed,
        width,
        order: Order::Little,
    }
}

/// The smallest signed integers that hold unsigned integers of one width and signed integers of
/// another.
fn mixed_type(unsigned: usize, signed: usize) -> Result<Scalar, Refusal>
    requires { unsigned ≤ 65536 }
    ensures { Answers (λ s. s) result (mixed_type unsigned signed) }
{
    if unsigned * 2 > 8 {
        return Err(Refusal::NeedsFloats);
    }
    Ok(integer_type(true, signed.max(unsigned * 2)))
}

/// The smallest type that holds the numbers of two types, or `NeedsFloats` if there is none.
pub(crate) fn common_type(left: &Scalar, right: &Scalar) -> Result<Scalar, Refusal>
    ensures { Answers (λ s. s) result (common_type left.now right.now) }
{
    if is_bool(left) {
        return Ok(little(right));
    }
    if is_bool(right) {
        return Ok(little(left));
    }
    let first = left.size();
    let second = right.size();
    match (is_signed(left), is_signed(right)) {
        (false, true) => mixed_type(first, second),
        (true, false) => mixed_type(second, first),
        (signed, _) => Ok(integer_type(signed, first.max(second))),
    }
}

/// Whether an operation accepts two bools. True division is refused elsewhere, for all types.
fn serves_bools(op: BinOp) -> bool
    ensures { result ≡ serves_bools op }
{
    match op {
        BinOp::Subtract
        | BinOp::FloorDivide
        | BinOp::Modulo
        | BinOp::ShiftLeft
        | BinOp::ShiftRight => false,
        _ => true,
    }
}

/// The type of the result of an operation on items of two types: for bools and integers the
/// smallest type that holds both, little-endian.
/// Refusals, in this order: `NotForThisKind` for byte strings, and for two bools if the operation
/// is not defined for them; `NeedsFloats` for `Divide`, and for integers that no integer type
/// holds.
#[tactic(auto, unfolding(crate::specs::Promotion::promote))]
pub fn promote(op: BinOp, left: Scalar, right: Scalar) -> Result<Scalar, Refusal>
    ensures { Answers (λ s. s) result (promote op left right) }
{
    if is_text(&left) || is_text(&right) {
        return Err(Refusal::NotForThisKind);
    }
    if is_bool(&left) && is_bool(&right) && !serves_bools(op) {
        return Err(Refusal::NotForThisKind);
    }
    if matches!(op, BinOp::Divide) {
        return Err(Refusal::NeedsFloats);
    }
    common_type(&left, &right)
}

/// The type of the result of a comparison of items of two types, which is bool. `NotForThisKind`
/// for numbers with byte strings.
#[tactic(auto, unfolding(crate::specs::Promotion::compared_type))]
pub fn compared_type(left: Scalar, right: Scalar) -> Result<Scalar, Refusal>
    ensures { Answers (λ s. s) result (compared_type left right) }
{
    if is_text(&left) != is_text(&right) {
        return Err(Refusal::NotForThisKind);
    }
    Ok(Scalar::Bool)
}

/// The type of an integer literal as the other operand of items of a type: theirs, little-endian,
/// or `<i8` for bools.
pub fn literal_type(scalar: Scalar) -> Scalar
    ensures { result ≡ literal_type scalar }
{
    match scalar {
        Scalar::Bool => integer_type(true, 8),
        _ => little(&scalar),
    }
}

/// The type of the result of an operation on items of one type. `NotForThisKind` for byte strings,
/// and for `Negate` of bools.
#[tactic(auto, unfolding(crate::specs::Promotion::promote_one))]
pub fn promote_one(op: UnOp, scalar: Scalar) -> Result<Scalar, Refusal>
    ensures { Answers (λ s. s) result (promote_one op scalar) }
{
    if is_text(&scalar) || matches!(op, UnOp::Negate) && is_bool(&scalar) {
        return Err(Refusal::NotForThisKind);
    }
    Ok(little(&scalar))
}

/// The scalar of an operand. `NotForThisKind` for a record.
pub fn scalar_of(descr: &Descr) -> Result<Scalar, Refusal>
    ensures { Answers (λ s. s) result (scalar_of descr.now) }
{
    match descr {
        Descr::Scalar(scalar) => Ok(*scalar),
        Descr::Record(_) => Err(Refusal::NotForThisKind),
    }
}
