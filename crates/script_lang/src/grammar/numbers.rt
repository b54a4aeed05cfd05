//! Numbers without a sign, integers, and the lists of numbers between parentheses.
ghost use Rattle.std.specs.Prelude.{IfSome, List, Option, Some, length, true, ℕ, ◌<◌, ◌^◌, ◌≡◌, ◌≤◌};
ghost use Rattle.script_lang.specs.Clauses.{value_of, numbers_at, Shortens, Takes, Scans, integer_at, is_ascii_digit, length_at, number_at, optional_integer_at, list_all};

use crate::grammar::tokens::{Class, byte, front, is_parted, symbol, unspaced};
use crate::short_list::ShortList;
use elem_descr::Refusal;
use std::alloc::Global;
use std::default::MadeWith;

/// The maximum number of digits of a number.
const MAX_DIGITS: usize = 30;

fn value_of(digits: &[u8]) -> u128
    requires few { length digits.now ≤ 30 }
    requires digits { list_all is_ascii_digit digits.now ≡ true }
    ensures value { result ≡ value_of digits.now }
    ensures small { result < 2 ^ 100 }
{
    let mut n = 0u128;
    for d in digits {
        n = n * 10 + u128::from(*d - b'0');
    }
    n
}

/// The number at the front, and what follows it.
#[tactic(auto, unfolding(crate::specs::Tokens::number_at), using(crate::proofs::Spelling::passing_front))]
fn number(bytes: &[u8]) -> Option<(u128, &[u8])>
    ensures found { Scans (λ n. (n.0, n.1.now)) result (number_at bytes.now) }
    ensures small { IfSome result (λ n. n.0 < 2 ^ 100) }
{
    let (digits, rest) = front(Class::Digit, bytes)?;
    if digits.len() > MAX_DIGITS || !is_parted(rest) {
        return None;
    }
    Some((value_of(digits), rest))
}

/// The next integer, with any blanks before it, and what follows it.
#[tactic(auto, unfolding(crate::specs::Tokens::integer_at, crate::specs::Tokens::length_at))]
pub fn integer(bytes: &[u8]) -> Option<(i128, &[u8])>
    ensures { Scans (λ n. (n.0, n.1.now)) result (integer_at bytes.now) }
{
    let bytes = unspaced(bytes);
    if let Some(rest) = byte(b'-', bytes) {
        let (n, rest) = number(rest)?;
        return Some((-(n as i128), rest));
    }
    if let Some(rest) = byte(b'+', bytes) {
        let (n, rest) = number(rest)?;
        return Some((n as i128, rest));
    }
    let (n, rest) = number(bytes)?;
    Some((n as i128, rest))
}

/// The next integer, if any, and what follows it.
#[tactic(auto, unfolding(crate::specs::Indexes::optional_integer_at))]
pub fn optional_integer(bytes: &[u8]) -> (Option<i128>, &[u8])
    ensures { Some (result.0, result.1.now) ≡ optional_integer_at bytes.now }
{
    match integer(bytes) {
        Some((n, rest)) => (Some(n), rest),
        None => (None, bytes),
    }
}

/// A number of a shape.
pub trait Entry: Sized + MadeWith<Global> + Drop {
    ghost entry_at: { List ℕ → Option (Self × List ℕ) };

    /// The next one, with any blanks before it, and what follows it.
    fn next(bytes: &[u8]) -> Option<(Self, &[u8])>
        ensures { Scans (λ n. (n.0, n.1.now)) result (entry_at bytes.now) };
}

/// A number without a sign.
impl Entry for u128 {
    ghost entry_at = { length_at };

    #[tactic(auto, unfolding(crate::specs::Tokens::length_at))]
    fn next(bytes: &[u8]) -> Option<(u128, &[u8])> {
        number(unspaced(bytes))
    }
}

impl Entry for i128 {
    ghost entry_at = { integer_at };

    fn next(bytes: &[u8]) -> Option<(i128, &[u8])> {
        integer(bytes)
    }
}

/// The next numbers between parentheses, and what follows them.
#[tactic(auto, unfolding(crate::specs::Indexes::numbers_at))]
pub fn shape<T: Entry>(alloc: Global, bytes: &[u8]) -> Result<(ShortList<T, 8>, &[u8]), Refusal>
    requires { Shortens T.entry_at }
    ensures { Takes (λ _. true) result (numbers_at T.entry_at bytes.now) }
{
    let mut numbers = ShortList::new(alloc);
    let mut rest = symbol(b'(', bytes).ok_or(Refusal::Syntax)?;
    loop {
        if let Some(end) = symbol(b')', rest) {
            return Ok((numbers, end));
        }
        let Some((entry, after)) = T::next(rest) else {
            return Err(Refusal::Syntax);
        };
        numbers.push(entry)?;
        if let Some(end) = symbol(b')', after) {
            return Ok((numbers, end));
        }
        let Some(next) = symbol(b',', after) else {
            return Err(Refusal::Syntax);
        };
        rest = next;
    }
}
