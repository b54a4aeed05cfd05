//! The text of a descriptor.
ghost use Rattle.std.specs.Prelude.{◌≡◌, ◌≤◌, ◌<◌, ◌+◌, ◌^◌, length, IfSome, false};
ghost use Rattle.script_lang.specs.Clauses.{depth_behind, named_behind, record_len, descriptor_at, Scans};

use crate::grammar::tokens::{Class, front, front_len, is_parted};

fn depth_behind(is_named: bool, byte: u8, depth: usize) -> usize
    requires { depth < 2 ^ 63 }
    ensures value { result ≡ depth_behind is_named byte depth }
    ensures small { result ≤ depth + 1 }
{
    if is_named {
        return depth;
    }
    match byte {
        b'{' => depth + 1,
        b'}' => depth.saturating_sub(1),
        _ => depth,
    }
}

fn named_behind(is_named: bool, byte: u8) -> bool
    ensures { result ≡ named_behind is_named byte }
{
    if byte == b':' { !is_named } else { is_named }
}

/// The number of bytes up to and including the brace that closes the one before them.
fn record_len(bytes: &[u8]) -> Option<usize>
    ensures found { Scans (λ n. n) result (record_len false 1 bytes.now) }
    ensures within { IfSome result (λ n. n ≤ length bytes.now) }
{
    let mut depth = 1;
    let mut is_named = false;
    for (i, b) in bytes.iter().enumerate() {
        depth = depth_behind(is_named, *b, depth);
        if depth == 0 {
            return Some(i + 1);
        }
        is_named = named_behind(is_named, *b);
    }
    None
}

/// The next descriptor, after at least one blank, and what follows it.
#[tactic(auto, unfolding(crate::specs::Descriptors::descriptor_at, crate::specs::Descriptors::record_mark_at, crate::specs::Descriptors::record_text_at), using(crate::proofs::Spelling::record_mark_shorter))]
pub fn descr(bytes: &[u8]) -> Option<(&[u8], &[u8])>
    ensures { Scans (λ w. (w.0.now, w.1.now)) result (descriptor_at bytes.now) }
{
    let (_, text) = front(Class::Blank, bytes)?;
    let (_, unmarked) = text.split_at(front_len(Class::Mark, text));
    if let [b'T', b'{', inside @ ..] = unmarked {
        let len = record_len(inside)?;
        let (_, rest) = inside.split_at(len);
        if !is_parted(rest) {
            return None;
        }
        let (text, _) = text.split_at(text.len() - inside.len() + len);
        return Some((text, rest));
    }
    front(Class::Filled, text)
}
