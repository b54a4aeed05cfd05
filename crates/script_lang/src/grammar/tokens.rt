//! Classes of bytes; blanks, symbols and words.
ghost use Rattle.std.specs.Prelude.{Some, length, nat_eq, true, ◌≡◌, ◌≤◌};
ghost use Rattle.script_lang.specs.Clauses.{is_allowed, Scans, is_at_end, byte_at, bytes_mark_at, flag_at, front_at, is_blank, is_name_byte, is_name_start, is_parted, keyword_at, symbol_at, unspaced, word_at, is_in, list_all, prefix_len, bytes_eq};

#[derive(Clone, Copy)]
pub enum Class {
    Blank,
    /// Not a blank.
    Filled,
    Digit,
    /// A letter, a digit or an underscore.
    Name,
    /// `<`, `>`, `!`, `=`, `@` or `^`
    Mark,
    /// Not a quotation mark.
    Unquoted,
    /// A byte of the name of a file.
    File,
}

fn is_blank(byte: u8) -> bool
    ensures { result ≡ is_blank byte }
{
    byte == b' ' || byte == b'\t'
}

/// Whether a name may start with the byte.
pub fn is_name_start(byte: u8) -> bool
    ensures { result ≡ is_name_start byte }
{
    byte.is_ascii_alphabetic() || byte == b'_'
}

pub fn is_name_byte(byte: u8) -> bool
    ensures { result ≡ is_name_byte byte }
{
    is_name_start(byte) || byte.is_ascii_digit()
}

fn is_in(class: Class, byte: u8) -> bool
    ensures { result ≡ is_in class byte }
{
    match class {
        Class::Blank => is_blank(byte),
        Class::Filled => !is_blank(byte),
        Class::Digit => byte.is_ascii_digit(),
        Class::Name => is_name_byte(byte),
        Class::Mark => matches!(byte, b'<' | b'>' | b'!' | b'=' | b'@' | b'^'),
        Class::Unquoted => byte != b'"',
        Class::File => is_name_byte(byte) || matches!(byte, b'.' | b'-'),
    }
}

/// How many bytes of the class come first.
pub fn front_len(class: Class, bytes: &[u8]) -> usize
    ensures value { result ≡ prefix_len (is_in class) bytes.now }
    ensures within { result ≤ length bytes.now }
{
    bytes.iter().take_while(|b| is_in(class, **b)).count()
}

/// How many blanks come first.
pub fn blanks_len(bytes: &[u8]) -> usize
    ensures value { result ≡ prefix_len is_blank bytes.now }
    ensures within { result ≤ length bytes.now }
{
    bytes.iter().take_while(|b| is_blank(**b)).count()
}

/// Whether each byte is one of the class.
pub fn are_in(class: Class, bytes: &[u8]) -> bool
    ensures { result ≡ list_all (is_in class) bytes.now }
{
    bytes.iter().all(|b| is_in(class, *b))
}

/// Whether the byte is a tab, which few lines have.
#[cold]
#[inline(never)]
fn is_tab(byte: u8) -> bool
    ensures { result ≡ nat_eq byte 9 }
{
    byte == b'\t'
}

/// Whether each byte is a tab, or 32 to 126.
pub fn are_allowed(bytes: &[u8]) -> bool
    ensures { result ≡ list_all is_allowed bytes.now }
{
    bytes
        .iter()
        .all(|b| matches!(*b, b' '..=b'~') || is_tab(*b))
}

/// The longest prefix of bytes of the class, if it is not empty, and the rest.
pub fn front(class: Class, bytes: &[u8]) -> Option<(&[u8], &[u8])>
    ensures { Scans (λ w. (w.0.now, w.1.now)) result (front_at (is_in class) bytes.now) }
{
    let len = front_len(class, bytes);
    if len == 0 {
        return None;
    }
    Some(bytes.split_at(len))
}

/// The bytes after the blanks at the front.
pub fn unspaced(bytes: &[u8]) -> &[u8]
    ensures { result.now ≡ unspaced bytes.now }
{
    bytes.split_at(blanks_len(bytes)).1
}

/// The bytes after this byte, which must be at the front.
pub fn byte(expected: u8, bytes: &[u8]) -> Option<&[u8]>
    ensures { Scans (λ rest. rest.now) result (byte_at expected bytes.now) }
{
    match bytes {
        [first, rest @ ..] if *first == expected => Some(rest),
        _ => None,
    }
}

/// The bytes after this byte, which must come next, with any blanks before it.
pub fn symbol(expected: u8, bytes: &[u8]) -> Option<&[u8]>
    ensures { Scans (λ rest. rest.now) result (symbol_at expected bytes.now) }
{
    byte(expected, unspaced(bytes))
}

/// The bytes after `b'`, which must be at the front.
#[tactic(auto, unfolding(crate::specs::Tokens::bytes_mark_at))]
pub fn bytes_mark(bytes: &[u8]) -> Option<&[u8]>
    ensures { Scans (λ rest. rest.now) result (bytes_mark_at bytes.now) }
{
    let rest = byte(b'b', bytes)?;
    byte(b'\'', rest)
}

/// Whether the bytes begin with neither a word nor a number. A bytes literal is not a word.
#[tactic(auto, unfolding(crate::specs::Tokens::is_parted))]
pub fn is_parted(bytes: &[u8]) -> bool
    ensures { result ≡ is_parted bytes.now }
{
    match bytes {
        [first, ..] if is_name_byte(*first) || matches!(first, b'+' | b'-') => {
            bytes_mark(bytes).is_some()
        }
        _ => true,
    }
}

/// The next word, with any blanks before it, and what follows it.
#[tactic(auto, unfolding(crate::specs::Tokens::word_at))]
pub fn word(bytes: &[u8]) -> Option<(&[u8], &[u8])>
    ensures { Scans (λ w. (w.0.now, w.1.now)) result (word_at bytes.now) }
{
    let (word, rest) = front(Class::Name, unspaced(bytes))?;
    if !is_parted(rest) {
        return None;
    }
    Some((word, rest))
}

/// What follows this word, which must come next.
#[tactic(auto, unfolding(crate::specs::Tokens::keyword_at))]
pub fn keyword<'a>(keyword: &[u8], bytes: &'a [u8]) -> Option<&'a [u8]>
    ensures { Scans (λ rest. rest.now) result (keyword_at keyword.now bytes.now) }
{
    let (word, rest) = word(bytes)?;
    (word == keyword).then_some(rest)
}

/// Whether this word comes next, and if so, what follows it.
#[tactic(auto, unfolding(crate::specs::Tokens::flag_at))]
pub fn flag<'a>(word: &[u8], bytes: &'a [u8]) -> (bool, &'a [u8])
    ensures { Some (result.0, result.1.now) ≡ flag_at word.now bytes.now }
{
    match keyword(word, bytes) {
        Some(rest) => (true, rest),
        None => (false, bytes),
    }
}

/// Whether only blanks remain.
pub fn is_at_end(bytes: &[u8]) -> bool
    ensures { result ≡ is_at_end bytes.now }
{
    unspaced(bytes).is_empty()
}
