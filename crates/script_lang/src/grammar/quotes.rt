//! Texts between quotation marks.
ghost use Rattle.std.specs.Prelude.{◌≡◌, ◌≤◌, length, IfSome};
ghost use Rattle.script_lang.specs.Clauses.{is_file_name, quoted_at, file_name_at, Scans};

use crate::grammar::tokens::{Class, are_in, byte, front_len, is_name_byte, symbol};
use crate::text::MAX_FILE_NAME_LEN;

/// The bytes between the next two quotation marks, and what follows them.
#[tactic(auto, unfolding(crate::specs::Tokens::quoted_at))]
pub fn quoted(bytes: &[u8]) -> Option<(&[u8], &[u8])>
    ensures { Scans (λ w. (w.0.now, w.1.now)) result (quoted_at bytes.now) }
{
    let inside = symbol(b'"', bytes)?;
    let (text, rest) = inside.split_at(front_len(Class::Unquoted, inside));
    let rest = byte(b'"', rest)?;
    Some((text, rest))
}

fn is_file_name(bytes: &[u8]) -> bool
    ensures { result ≡ is_file_name bytes.now }
{
    matches!(bytes, [first, ..] if is_name_byte(*first))
        && bytes.len() <= MAX_FILE_NAME_LEN
        && are_in(Class::File, bytes)
}

/// The name of a file between the next two quotation marks, and what follows them.
#[tactic(auto, unfolding(crate::specs::Tokens::file_name_at))]
pub fn file_name(bytes: &[u8]) -> Option<(&[u8], &[u8])>
    ensures found { Scans (λ w. (w.0.now, w.1.now)) result (file_name_at bytes.now) }
    ensures short { IfSome result (λ w. length w.0.now ≤ 64) }
{
    let (name, rest) = quoted(bytes)?;
    if !is_file_name(name) {
        return None;
    }
    Some((name, rest))
}
