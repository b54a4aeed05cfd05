//! The header of a file.
ghost use Rattle.std.specs.Prelude.{◌≡◌, List, ℕ, length, MatchResult, Ok, Err};
ghost use Rattle.npy_format.specs.Clauses.{Answers, Gives, shape_of, tokens, Literal, Pair, dictionary_of, value_under, header_of, header, HeaderAnyTurns, string_at, is_string_token, truth_at, BeginsWith, Stands, HasPairs, shape_under};

use crate::grammar::{
    MAX_VALUE_DEPTH, behind_entry, integer, skip_comma, skip_entries, skip_key, string, symbol,
};
use crate::record_list::descr;
use crate::token::{Token, next_token};
use elem_descr::{Descr, Refusal, capped_value};
use shape_strides::{MAX_AXES, MAX_ITEMS, Shape};
use std::alloc::Global;

/// What a header says about the array in a file.
#[derive(Drop)]
pub struct Header {
    pub descr: Descr,
    /// Whether the items are in Fortran order.
    pub fortran: bool,
    pub shape: Shape,
}

/// The pairs of the dictionary that the text is, with nothing after it.
fn dictionary(text: &[u8]) -> Result<&[u8], Refusal>
    ensures { BeginsWith HasPairs result (dictionary_of (tokens text.now)) }
{
    let Some(pairs) = symbol(b'{', text) else {
        return Err(Refusal::BadHeader);
    };
    let rest = skip_entries(MAX_VALUE_DEPTH, b'}', pairs)?;
    if next_token(rest).is_some() {
        return Err(Refusal::BadHeader);
    }
    Ok(pairs)
}

/// The number of the pairs.
fn pair_count(pairs: &[u8]) -> Result<usize, Refusal>
    ensures { (found : List Pair) → HasPairs (tokens pairs.now) found → result ≡ Ok (length found) }
{
    let mut count = 0;
    let mut rest = pairs;
    while symbol(b'}', rest).is_none() {
        rest = behind_entry(b'}', rest)?;
        count += 1;
    }
    Ok(count)
}

/// Whether this string comes next.
fn is_string(bytes: &[u8], text: &[u8]) -> bool
    ensures { result ≡ is_string_token bytes.now (string_at (tokens text.now)) }
{
    match string(text) {
        Some((found, _)) => bytes == found,
        None => false,
    }
}

/// The text from the value of a key on.
fn value_under<'a>(key: &[u8], pairs: &'a [u8]) -> Result<&'a [u8], Refusal>
    ensures { (found : List Pair) → HasPairs (tokens pairs.now) found →
        BeginsWith Stands result (value_under key.now found) }
{
    let mut rest = pairs;
    while symbol(b'}', rest).is_none() {
        if is_string(key, rest) {
            return skip_key(MAX_VALUE_DEPTH, rest);
        }
        rest = behind_entry(b'}', rest)?;
    }
    Err(Refusal::BadHeader)
}

fn truth(text: &[u8]) -> Result<bool, Refusal>
    ensures { result ≡ truth_at (tokens text.now) }
{
    match next_token(text) {
        Some((Token::Truth(truth), _)) => Ok(truth),
        _ => Err(Refusal::BadHeader),
    }
}

/// The lengths that the value, a tuple of integers, gives a shape: all of them, or one more than a
/// shape may have.
fn lengths(alloc: Global, text: &[u8]) -> Result<Vec<usize>, Refusal>
    ensures { (value : Literal) → Stands (tokens text.now) value →
        Gives (λ axes. shape_of axes.items) result (shape_under value) }
{
    let Some(inside) = symbol(b'(', text) else {
        return Err(Refusal::BadHeader);
    };
    let mut axes = Vec::new(alloc);
    let mut rest = inside;
    while let Some((digits, after)) = integer(rest) {
        if axes.len() <= MAX_AXES {
            axes.push(capped_value(digits, MAX_ITEMS))?;
        }
        rest = skip_comma(after);
    }
    if symbol(b')', rest).is_none() {
        return Err(Refusal::BadHeader);
    }
    Ok(axes)
}

/// What the pairs of a header say.
#[tactic(auto, unfolding(crate::specs::Headers::header_of))]
fn header_of(alloc: Global, pairs: &[u8]) -> Result<Header, Refusal>
    ensures { (found : List Pair) →
        HasPairs (tokens pairs.now) found → Gives (λ header. header) result (header_of found) }
{
    if pair_count(pairs)? != 3 {
        return Err(Refusal::BadHeader);
    }
    let element = value_under(b"descr", pairs)?;
    let order = value_under(b"fortran_order", pairs)?;
    let fortran = truth(order)?;
    let tuple = value_under(b"shape", pairs)?;
    let axes = lengths(alloc, tuple)?;
    let descr = descr(alloc, element)?;
    let shape = Shape::try_new(alloc, axes.as_slice())?;
    Ok(Header {
        descr,
        fortran,
        shape,
    })
}

/// Reads the header of a file: one dictionary with the keys `descr`, `fortran_order` and `shape`.
/// It takes memory only for what the header says.
///
/// A text that is not such a dictionary is `BadHeader`, whatever else is wrong with it. Then the
/// element type is checked, from the left (`BadDescriptor`, `DescriptorLeftOut`, `TooLarge`), and
/// then the shape (`TooManyAxes`, `TooLarge`).
#[tactic(auto, using(crate::proofs::SkipLaws::header_any_turns))]
pub fn header_read(alloc: Global, text: &[u8]) -> Result<Header, Refusal>
    ensures gives { Gives (λ header. header) result (header text.now) }
    ensures turns { HeaderAnyTurns }
{
    let pairs = dictionary(text)?;
    header_of(alloc, pairs)
}
