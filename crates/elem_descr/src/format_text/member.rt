//! The members of a format text, and their names.
ghost use Rattle.std.specs.Prelude.{◌≡◌, ◌≤◌, not, length, IsTrue, IfOk, if◌then◌else◌};
ghost use Rattle.elem_descr.specs.Clauses.{prefix_len, Answers, is_legal_name, is_empty, count_of, text_member, is_colon, is_named, lettered_before, member_at, held_member, held_at, name_at};

use crate::digits::{count, digits_len};
use crate::format_text::mark::Mark;
use crate::name::is_legal_name;
use crate::refusal::Refusal;
use crate::scalar::{BytesLen, Scalar};

/// A member of a format text, without its name.
#[derive(Clone, Copy, Debug, PartialEq, Eq)]
pub enum Member {
    /// A value of this scalar, or `None` for a byte string that is larger than any item.
    Value(Option<Scalar>),
    /// Padding, by its number of bytes; all numbers above 65,536 count as 65,537.
    Pad(usize),
    /// The beginning of a record, before its brace.
    Opened,
}

/// The letters and marks of PEP 3118 and of Python's `struct` that are unsupported.
const UNSUPPORTED: &[u8] = b"cnNPpefdgOZuwt&X(";

fn name_len(text: &[u8]) -> usize
    ensures value { result ≡ prefix_len (λ b. not (is_colon b)) text.now }
    ensures within { result ≤ length text.now }
{
    text.iter().take_while(|b| **b != b':').count()
}

/// Whether the text begins with a colon, as the name of a member does.
pub fn is_named(text: &[u8]) -> bool
    ensures { result ≡ is_named text.now }
{
    matches!(text, [b':', ..])
}

fn text_member(digits: &[u8]) -> Result<Member, Refusal>
    ensures { result ≡ held_member (text_member (count_of digits.now)) }
{
    match count(digits) {
        0 => Err(Refusal::DescriptorLeftOut),
        count => Ok(Member::Value(BytesLen::try_new(count).map(Scalar::Bytes))),
    }
}

/// A member without a count. With one, it is unsupported.
fn uncounted(member: Member, digits: &[u8]) -> Result<Member, Refusal>
    ensures { result ≡ (if is_empty digits.now then Ok member else Err Refusal.DescriptorLeftOut) }
{
    if digits.is_empty() {
        return Ok(member);
    }
    Err(Refusal::DescriptorLeftOut)
}

/// The member that a count and a letter mean, if `rest` follows them. A record, a bool or an integer
/// with a count is unsupported.
fn lettered_before(mark: Mark, digits: &[u8], letter: u8, rest: &[u8]) -> Result<Member, Refusal>
    ensures { result ≡ held_member (lettered_before mark digits.now letter rest.now) }
{
    if letter == b'T' && matches!(rest, [b'{', ..]) {
        return uncounted(Member::Opened, digits);
    }
    if let Some(scalar) = mark.number(letter) {
        let _size = scalar.size();
        return uncounted(Member::Value(Some(scalar)), digits);
    }
    match letter {
        b's' => text_member(digits),
        b'x' => Ok(Member::Pad(count(digits))),
        _ if UNSUPPORTED.contains(&letter) => Err(Refusal::DescriptorLeftOut),
        _ => Err(Refusal::BadDescriptor),
    }
}

/// The member at the front, and what follows it.
pub fn member_at(mark: Mark, text: &[u8]) -> Result<(Member, &[u8]), Refusal>
    ensures answers { Answers (λ m. (m.0, m.1.now)) result (held_at (member_at mark text.now)) }
    ensures brace { IfOk result (λ m. m.0 ≡ Member.Opened → 1 ≤ length m.1.now) }
{
    let (digits, rest) = text.split_at(digits_len(text));
    let [letter, rest @ ..] = rest else {
        return Err(Refusal::BadDescriptor);
    };
    match lettered_before(mark, digits, *letter, rest) {
        Ok(member) => Ok((member, rest)),
        Err(refusal) => Err(refusal),
    }
}

/// The name before the next colon, and what follows the colon.
pub fn name_at(text: &[u8]) -> Result<(&[u8], &[u8]), Refusal>
    ensures answers { Answers (λ m. (m.0.now, m.1.now)) result (name_at text.now) }
    ensures legal { IfOk result (λ m. IsTrue (is_legal_name m.0.now)) }
{
    let (name, rest) = text.split_at(name_len(text));
    if rest.is_empty() {
        return Err(Refusal::BadDescriptor);
    }
    if !is_legal_name(name) {
        return Err(Refusal::DescriptorLeftOut);
    }
    Ok((name, &rest[1..]))
}
