//! The keywords of the language, and the names of arrays, which keywords cannot be.
ghost use Rattle.std.specs.Prelude.{IfSome, length, map, ◌≡◌, ◌≤◌};
ghost use Rattle.script_lang.specs.Clauses.{Scans, name_at, names_unless_verb, beside, is_constant, is_name_start, order_of, starts_with, verb_of};

use crate::grammar::tokens::{is_name_start, unspaced, word};
use crate::verb::{FOUR_LETTERS, MORE_LETTERS, THREE_LETTERS, TWO_LETTERS, Verb};
use elem_descr::{LONGEST_NAME, MemoryOrder, Name};
use std::alloc::Global;

/// Whether the first byte may start a name.
fn starts_name(bytes: &[u8]) -> bool
    ensures { result ≡ starts_with is_name_start bytes.now }
{
    matches!(bytes, [first, ..] if is_name_start(*first))
}

/// Whether the word could be a name, unless it is a verb.
pub fn names_unless_verb(word: &[u8]) -> bool
    ensures { result ≡ names_unless_verb word.now }
{
    starts_name(word) && word.len() <= LONGEST_NAME && !is_constant(word)
}

/// The next name, with any blanks before it, and what follows it.
#[tactic(auto, unfolding(crate::specs::Tokens::name_at, crate::specs::Tokens::word_at), using(crate::proofs::Spelling::unspaced_twice, crate::proofs::Spelling::no_name_start))]
#[inline(always)]
pub fn name(bytes: &[u8]) -> Option<(&[u8], &[u8])>
    ensures found { Scans (λ w. (w.0.now, w.1.now)) result (name_at bytes.now) }
    ensures short { IfSome result (λ w. length w.0.now ≤ 32) }
{
    let bytes = unspaced(bytes);
    if !starts_name(bytes) {
        return None;
    }
    let (name, rest) = word(bytes)?;
    if !names_unless_verb(name) || verb(name).is_some() {
        return None;
    }
    Some((name, rest))
}

/// A copy of the next name, with any blanks before it, and what follows it.
pub fn owned_name(alloc: Global, bytes: &[u8]) -> Option<(Name, &[u8])>
    ensures { Scans (λ r. (r.0, r.1.now)) result (name_at bytes.now) }
{
    let (name, rest) = name(bytes)?;
    Some((Name::from_slice(alloc, name), rest))
}

/// The verb of the word in a table.
#[tactic(auto, unfolding(crate::specs::Verbs::beside))]
fn lookup(mut table: &[(&[u8], Verb)], word: &[u8]) -> Option<Verb>
    ensures { result ≡ beside (map (λ row. (row.0.now, row.1)) table.entry.now) word.now }
{
    while let [row, rest @ ..] = table {
        if row.0 == word {
            return Some(row.1);
        }
        table = rest;
    }
    None
}

/// The verb with this spelling of two letters or more, if there is one.
#[inline(never)]
fn long_verb(word: &[u8]) -> Option<Verb>
    requires { 2 ≤ length word.now }
    ensures { result ≡ verb_of word.now }
{
    match word.len() {
        2 => lookup(&TWO_LETTERS, word),
        3 => lookup(&THREE_LETTERS, word),
        4 => lookup(&FOUR_LETTERS, word),
        _ => lookup(&MORE_LETTERS, word),
    }
}

/// The verb with this spelling, if there is one.
#[tactic(auto, using(crate::proofs::VerbLaws::no_short_verb))]
pub fn verb(word: &[u8]) -> Option<Verb>
    ensures { result ≡ verb_of word.now }
{
    if word.len() < 2 {
        return None;
    }
    long_verb(word)
}

/// Whether the word is a keyword of literals or index lists.
#[tactic(auto, unfolding(crate::specs::Verbs::is_constant))]
pub fn is_constant(word: &[u8]) -> bool
    ensures { result ≡ is_constant word.now }
{
    matches!(word, b"True" | b"False" | b"None")
}

/// The order of items that the word after `copy` names.
#[tactic(auto, unfolding(crate::specs::Verbs::order_of))]
pub fn order(word: &[u8]) -> Option<MemoryOrder>
    ensures { result ≡ order_of word.now }
{
    match word {
        b"C" => Some(MemoryOrder::C),
        b"F" => Some(MemoryOrder::Fortran),
        _ => None,
    }
}
