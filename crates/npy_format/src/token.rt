//! The tokens of a header.
ghost use Rattle.std.specs.Prelude.{◌≡◌, ◌≤◌, ◌∷◌, [], length, MatchOption};
ghost use Rattle.npy_format.specs.Clauses.{is_ascii_alphabetic, prefix_len, is_space, unspaced_text, is_plain_byte, text_token, is_integer, behind_long, integer_token, word, word_token, token_from, tokens, token_of};

use elem_descr::digits_len;

/// A token of Python.
#[derive(Clone, Copy)]
pub enum Token<'a> {
    /// The bytes of a string.
    Text(&'a [u8]),
    /// The digits of an unsigned integer.
    Integer(&'a [u8]),
    Truth(bool),
    Nothing,
    /// Any byte that begins no other token.
    Symbol(u8),
    /// What is not part of any literal.
    Stray,
}

fn is_space(byte: u8) -> bool
    ensures { result ≡ is_space byte }
{
    matches!(byte, b' ' | b'\t' | b'\n' | b'\r')
}

fn is_plain(quote: u8, byte: u8) -> bool
    ensures { result ≡ is_plain_byte quote byte }
{
    matches!(byte, b' '..=b'~') && byte != quote && byte != b'\\'
}

fn plain_len(quote: u8, bytes: &[u8]) -> usize
    ensures value { result ≡ prefix_len (is_plain_byte quote) bytes.now }
    ensures within { result ≤ length bytes.now }
{
    bytes
        .iter()
        .take_while(|byte| is_plain(quote, **byte))
        .count()
}

fn letters_len(bytes: &[u8]) -> usize
    ensures value { result ≡ prefix_len is_ascii_alphabetic bytes.now }
    ensures within { result ≤ length bytes.now }
{
    bytes
        .iter()
        .take_while(|byte| byte.is_ascii_alphabetic())
        .count()
}

fn spaces_len(bytes: &[u8]) -> usize
    ensures value { result ≡ prefix_len is_space bytes.now }
    ensures within { result ≤ length bytes.now }
{
    bytes.iter().take_while(|byte| is_space(**byte)).count()
}

/// What follows the spaces at the front.
fn unspaced(bytes: &[u8]) -> &[u8]
    ensures { result.now ≡ unspaced_text bytes.now }
{
    bytes.split_at(spaces_len(bytes)).1
}

/// The string whose opening quote comes just before these bytes, and what follows it.
fn text_token(quote: u8, bytes: &[u8]) -> (Token<'_>, &[u8])
    ensures { (token_of result.0, result.1.now) ≡ text_token quote bytes.now }
{
    let (plain, rest) = bytes.split_at(plain_len(quote, bytes));
    match rest {
        [end, rest @ ..] if *end == quote => (Token::Text(plain), rest),
        [_, rest @ ..] => (Token::Stray, rest),
        [] => (Token::Stray, rest),
    }
}

fn is_integer(digits: &[u8]) -> bool
    ensures { result ≡ is_integer digits.now }
{
    match digits {
        [] => false,
        [first, rest @ ..] => *first != b'0' || rest.is_empty(),
    }
}

/// What follows an `L`, if there is one.
fn behind_long(bytes: &[u8]) -> &[u8]
    ensures { result.now ≡ behind_long bytes.now }
{
    match bytes {
        [b'L', rest @ ..] => rest,
        _ => bytes,
    }
}

/// The token that letters are.
fn word(letters: &[u8]) -> Token<'_>
    ensures { token_of result ≡ word letters.now }
{
    match letters {
        b"True" => Token::Truth(true),
        b"False" => Token::Truth(false),
        b"None" => Token::Nothing,
        _ => Token::Stray,
    }
}

/// The word at the front, and what follows it.
fn word_token(bytes: &[u8]) -> (Token<'_>, &[u8])
    ensures { (token_of result.0, result.1.now) ≡ word_token bytes.now }
{
    let (letters, rest) = bytes.split_at(letters_len(bytes));
    (word(letters), rest)
}

/// The integer at the front, and what follows it.
fn integer_token(bytes: &[u8]) -> (Token<'_>, &[u8])
    ensures { (token_of result.0, result.1.now) ≡ integer_token bytes.now }
{
    let (digits, rest) = bytes.split_at(digits_len(bytes));
    if !is_integer(digits) {
        return (Token::Stray, behind_long(rest));
    }
    (Token::Integer(digits), behind_long(rest))
}

/// The token that a text begins with, whose first byte is not a space, and what follows the token.
fn token_from<'a>(first: u8, rest: &'a [u8], text: &'a [u8]) -> (Token<'a>, &'a [u8])
    requires { text.now ≡ first ∷ rest.now }
    ensures { (token_of result.0, result.1.now) ≡ token_from first rest.now }
{
    if first == b'\'' || first == b'"' {
        return text_token(first, rest);
    }
    if first.is_ascii_digit() {
        return integer_token(text);
    }
    if first.is_ascii_alphabetic() {
        return word_token(text);
    }
    (Token::Symbol(first), rest)
}

/// The first token of a text, and what follows it.
pub fn next_token(text: &[u8]) -> Option<(Token<'_>, &[u8])>
    ensures { MatchOption result (tokens text.now ≡ [])
        (λ next. tokens text.now ≡ token_of next.0 ∷ tokens next.1.now) }
{
    let text = unspaced(text);
    let [first, rest @ ..] = text else {
        return None;
    };
    Some(token_from(*first, rest, text))
}
