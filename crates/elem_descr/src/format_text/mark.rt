//! The marks of a format text, and the numbers that its letters mean.
ghost use Rattle.std.specs.Prelude.{◌≡◌, ◌≤◌};
ghost use Rattle.elem_descr.specs.Clauses.{number_letter, long_under, is_aligning, aligned_to, own_alignment, after, marked};

use crate::scalar::{Order, Scalar, Width};

/// What a mark sets: the byte order, native sizes, and native alignment.
#[derive(Clone, Copy, Debug, PartialEq, Eq)]
pub enum Mark {
    /// `@`: little-endian with native sizes and native alignment.
    Aligned,
    /// `^`: little-endian with native sizes, not aligned.
    Native,
    /// `<` and `=`: little-endian with standard sizes.
    Little,
    /// `>` and `!`: big-endian with standard sizes.
    Big,
}

impl Mark {
    /// The current mark after a byte that is a mark or a blank.
    fn after(self, byte: u8) -> Option<Mark>
        ensures { result ≡ after self byte }
    {
        match byte {
            b' ' => Some(self),
            b'@' => Some(Mark::Aligned),
            b'^' => Some(Mark::Native),
            b'<' | b'=' => Some(Mark::Little),
            b'>' | b'!' => Some(Mark::Big),
            _ => None,
        }
    }

    /// The width of `l` and `L`.
    fn long(self) -> Width
        ensures { result ≡ long_under self }
    {
        match self {
            Mark::Aligned | Mark::Native => Width::Eight,
            Mark::Little | Mark::Big => Width::Four,
        }
    }

    /// The bool or the integer that a letter means.
    pub fn number(self, letter: u8) -> Option<Scalar>
        ensures { result ≡ number_letter self letter }
    {
        let (signed, width) = match letter {
            b'?' => return Some(Scalar::Bool),
            b'b' => return Some(Scalar::Byte { signed: true }),
            b'B' => return Some(Scalar::Byte { signed: false }),
            b'h' => (true, Width::Two),
            b'H' => (false, Width::Two),
            b'i' => (true, Width::Four),
            b'I' => (false, Width::Four),
            b'l' => (true, self.long()),
            b'L' => (false, self.long()),
            b'q' => (true, Width::Eight),
            b'Q' => (false, Width::Eight),
            _ => return None,
        };
        let order = match self {
            Mark::Big => Order::Big,
            _ => Order::Little,
        };
        Some(Scalar::Int {
            signed,
            width,
            order,
        })
    }

    pub fn is_aligning(self) -> bool
        ensures { result ≡ is_aligning self }
    {
        matches!(self, Mark::Aligned)
    }

    /// The alignment of a member's offset: its own if the mark aligns, and otherwise 1.
    pub fn aligned(self, own: usize) -> usize
        requires { (1 ≤ own) × (own ≤ 8) }
        ensures value { result ≡ aligned_to self own }
        ensures not_zero { 1 ≤ result }
        ensures within { result ≤ 8 }
    {
        if self.is_aligning() { own } else { 1 }
    }
}

/// The alignment of a bool or an integer is its size, and that of a byte string is 1.
pub fn own_alignment(scalar: &Scalar) -> usize
    ensures value { result ≡ own_alignment scalar.now }
    ensures not_zero { 1 ≤ result }
    ensures within { result ≤ 8 }
{
    match scalar {
        Scalar::Bool | Scalar::Byte { .. } | Scalar::Bytes(_) => 1,
        Scalar::Int { width, .. } => width.bytes(),
    }
}

/// The current mark after the blanks and marks at the front, and what follows them.
#[tactic(auto, using(crate::proofs::Marks::marked_more, crate::proofs::Marks::marked_stops))]
pub fn marked(mark: Mark, text: &[u8]) -> (Mark, &[u8])
    ensures { (result.0, result.1.now) ≡ marked mark text.now }
{
    let mut mark = mark;
    for (i, byte) in text.iter().enumerate() {
        let Some(next) = mark.after(*byte) else {
            return (mark, &text[i..]);
        };
        mark = next;
    }
    (mark, &[])
}
