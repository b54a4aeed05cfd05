//! Parses the literals in the text of a header.
ghost use Rattle.std.specs.Prelude.{◌≡◌, length, nat_eq, option_copied};
ghost use Rattle.npy_format.specs.Words.{option_map, value_of};
ghost use Rattle.npy_format.specs.Tokens.{tokens};
ghost use Rattle.npy_format.specs.Literals.{symbol_token_at, tuple_in, bracketed, literal_in};
ghost use Rattle.npy_format.specs.inside.Entries.{Follows, behind, behind_one, behind_all, behind_next, behind_key, behind_comma};
ghost use Rattle.npy_format.specs.inside.Scanned.{string_at, integer_at};

use crate::token::{Token, next_token};
use elem_descr::Refusal;

/// How deep brackets may be nested in a value of a header.
pub const MAX_VALUE_DEPTH: usize = 15;

/// What follows this symbol, which must come next.
pub fn symbol(expected: u8, text: &[u8]) -> Option<&[u8]>
    ensures { option_map tokens (option_copied result)
        ≡ symbol_token_at expected (tokens text.now) }
{
    let (first, rest) = next_token(text)?;
    match first {
        Token::Symbol(byte) if byte == expected => Some(rest),
        _ => None,
    }
}

/// The string that comes next, and what follows it.
pub fn string(text: &[u8]) -> Option<(&[u8], &[u8])>
    ensures { option_map (λ found. (found.0.now, tokens found.1.now)) result
        ≡ string_at (tokens text.now) }
{
    let (first, rest) = next_token(text)?;
    match first {
        Token::Text(bytes) => Some((bytes, rest)),
        _ => None,
    }
}

/// The digits of the integer that comes next, and what follows it.
pub fn integer(text: &[u8]) -> Option<(&[u8], &[u8])>
    ensures { option_map (λ found. (value_of found.0.now, tokens found.1.now)) result
        ≡ integer_at (tokens text.now) }
{
    let (first, rest) = next_token(text)?;
    match first {
        Token::Integer(digits) => Some((digits, rest)),
        _ => None,
    }
}

/// What follows a comma, if one comes next.
pub fn skip_comma(text: &[u8]) -> &[u8]
    ensures { tokens result.now ≡ behind_comma (tokens text.now) }
{
    symbol(b',', text).unwrap_or(text)
}

/// What follows an entry: a pair, if a brace closes the entries, and otherwise a value.
#[cycle(nesting)]
fn skip_entry(depth: usize, closing: u8, text: &[u8]) -> Result<&[u8], Refusal>
    ensures { Follows result (behind_one depth (nat_eq closing 125) (tokens text.now)) }
{
    if closing == b'}' {
        let value = skip_key(depth, text)?;
        return skip_literal(depth, value);
    }
    skip_literal(depth, text)
}

/// What follows entries separated by commas and the symbol that closes them.
#[cycle(nesting)]
pub fn skip_entries(depth: usize, closing: u8, text: &[u8]) -> Result<&[u8], Refusal>
    ensures { Follows result (behind_all depth (nat_eq closing 125) closing (tokens text.now)) }
{
    let mut rest = text;
    loop {
        if let Some(end) = symbol(closing, rest) {
            return Ok(end);
        }
        let after = skip_entry(depth, closing, rest)?;
        if let Some(end) = symbol(closing, after) {
            return Ok(end);
        }
        let Some(next) = symbol(b',', after) else {
            return Err(Refusal::BadHeader);
        };
        rest = next;
    }
}

/// What follows the tuple after its bracket.
#[cycle(nesting)]
fn skip_tuple(depth: usize, text: &[u8]) -> Result<&[u8], Refusal>
    ensures { Follows result (behind (tuple_in (literal_in depth) (tokens text.now))) }
{
    if let Some(end) = symbol(b')', text) {
        return Ok(end);
    }
    let after = skip_literal(depth, text)?;
    let Some(next) = symbol(b',', after) else {
        return Err(Refusal::BadHeader);
    };
    skip_entries(depth, b')', next)
}

/// What follows a key and its colon.
#[cycle(nesting)]
pub fn skip_key(depth: usize, text: &[u8]) -> Result<&[u8], Refusal>
    ensures { Follows result (behind_key (literal_in depth) (tokens text.now)) }
{
    let after = skip_literal(depth, text)?;
    let Some(value) = symbol(b':', after) else {
        return Err(Refusal::BadHeader);
    };
    Ok(value)
}

/// What follows the tuple, the list or the dictionary that this symbol opens.
#[cycle(nesting)]
fn skip_bracketed(depth: usize, opening: u8, text: &[u8]) -> Result<&[u8], Refusal>
    ensures { Follows result (behind (bracketed (literal_in depth) opening (tokens text.now))) }
{
    match opening {
        b'(' => skip_tuple(depth, text),
        b'[' => skip_entries(depth, b']', text),
        b'{' => skip_entries(depth, b'}', text),
        _ => Err(Refusal::BadHeader),
    }
}

/// What follows the next literal, in which brackets may be nested to this depth.
#[cycle(nesting)]
fn skip_literal(depth: usize, text: &[u8]) -> Result<&[u8], Refusal>
    ensures { Follows result (behind (literal_in depth (tokens text.now))) }
{
    let Some((first, rest)) = next_token(text) else {
        return Err(Refusal::BadHeader);
    };
    match first {
        Token::Symbol(opening) if depth > 0 => skip_bracketed(depth - 1, opening, rest),
        Token::Symbol(_) => Err(Refusal::BadHeader),
        Token::Stray => Err(Refusal::BadHeader),
        Token::Text(_) | Token::Integer(_) | Token::Truth(_) | Token::Nothing => Ok(rest),
    }
}

/// What follows one of the entries that this symbol closes, and the comma after it.
pub fn behind_entry(closing: u8, text: &[u8]) -> Result<&[u8], Refusal>
    ensures { Follows result (behind_next (nat_eq closing 125) (tokens text.now)) }
{
    let after = skip_entry(MAX_VALUE_DEPTH, closing, text)?;
    Ok(skip_comma(after))
}
