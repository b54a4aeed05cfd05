//! A text that is sent while it is made. Of a long one, no more than its room is held.
ghost use Rattle.std.specs.Prelude.{IfSome, List, OnErr, OnOk, [], drop, length, ℕ, ◌∷◌, ◌++◌, ◌<◌, ◌≡◌, ◌≤◌};
ghost use Rattle.array_print.specs.Clauses.{Appends, Memory, WriteOut};
ghost use Rattle.array_print.specs.inside.Pushed.{IsUnsent, Pushes};

use std::alloc::AllocError;
use std::io::Write;
use std::mem::replace;
use thiserror::Error;

/// A write failed or took nothing.
#[derive(Clone, Copy, Debug, PartialEq, Eq, Error)]
#[error("write fault")]
pub struct WriteFault;

/// Why an array is not printed.
#[derive(Clone, Copy, Debug, PartialEq, Eq)]
pub enum PrintFault {
    /// Memory ran out before the first byte.
    Memory,
    /// A write failed or took nothing.
    Write,
}

impl From<AllocError> for PrintFault {
    ghost from_gives = { λ _ fault. fault ≡ Memory };

    fn from(_error: AllocError) -> PrintFault {
        PrintFault::Memory
    }
}

impl From<WriteFault> for PrintFault {
    ghost from_gives = { λ _ fault. fault ≡ WriteOut };

    fn from(_fault: WriteFault) -> PrintFault {
        PrintFault::Write
    }
}

/// Writes all of the bytes. After a fault, a prefix was written, but not all of them.
#[inline(never)]
pub fn send<W: Write>(writer: &mut W, bytes: &[u8]) -> Result<(), WriteFault>
    ensures ok { OnOk result (Appends (W.contents writer.old) (W.contents writer.new) bytes.now) }
    ensures err { OnErr result ((gone missing : List ℕ) × (bytes.now ≡ gone ++ missing)
        × (0 < length missing) × Appends (W.contents writer.old) (W.contents writer.new) gone) }
{
    let mut rest = bytes;
    while !rest.is_empty() {
        match writer.write(rest) {
            Ok(0) | Err(_) => return Err(WriteFault),
            Ok(n) => rest = &rest[n..],
        }
    }
    Ok(())
}

/// A text that is made. What there is no room for is sent.
#[derive(Drop)]
pub struct Room {
    pub text: Vec<u8>,
    /// How often text was sent, up to `u64::MAX`.
    pub sent: u64,
    /// Room for a text that is repeated.
    pub kept: Vec<u8>,
}

/// Sends the text that is held, and appends bytes. If they are more than its room, they are sent too.
#[inline(never)]
fn push_after<W: Write>(writer: &mut W, out: &mut Room, bytes: &[u8]) -> Result<(), WriteFault>
    ensures { Pushes bytes.now result (W.contents writer.old) (W.contents writer.new) out.old out.new }
{
    out.sent = out.sent.saturating_add(1);
    send(writer, out.text.as_slice())?;
    out.text.clear();
    if out.text.capacity() < bytes.len() {
        return send(writer, bytes);
    }
    out.text.extend_from_slice(bytes).unwrap();
    Ok(())
}

/// Appends bytes to the text that is held. If there is no room for them, it is sent first. No memory
/// is asked for.
#[inline(always)]
pub fn push<W: Write>(writer: &mut W, out: &mut Room, bytes: &[u8]) -> Result<(), WriteFault>
    ensures { Pushes bytes.now result (W.contents writer.old) (W.contents writer.new) out.old out.new }
{
    if out.text.capacity() - out.text.len() >= bytes.len() {
        out.text.extend_from_slice(bytes).unwrap();
        return Ok(());
    }
    push_after(writer, out, bytes)
}

/// Appends a byte.
#[inline(always)]
pub fn push_byte<W: Write>(writer: &mut W, out: &mut Room, byte: u8) -> Result<(), WriteFault>
    ensures { Pushes (byte ∷ []) result (W.contents writer.old) (W.contents writer.new)
        out.old out.new }
{
    if out.text.len() < out.text.capacity() {
        out.text.push(byte).unwrap();
        return Ok(());
    }
    push_after(writer, out, &[byte])
}

impl Room {
    /// The text from `from` on, if nothing was sent since text was sent `sent` times, and there is
    /// room to keep it.
    pub fn keep(&mut self, from: usize, sent: u64) -> Option<Vec<u8>>
        requires { IsUnsent sent self.old.sent → from ≤ length self.old.text.items }
        ensures kept { IfSome result (λ kept. IsUnsent sent self.old.sent
            × (kept.items ≡ drop from self.old.text.items)) }
        ensures text { self.new.text ≡ self.old.text }
        ensures sent { self.new.sent ≡ self.old.sent }
    {
        let unsent = sent < u64::MAX && self.sent == sent;
        if !unsent || self.kept.capacity() < self.text.len() - from {
            return None;
        }
        let empty = Vec::new(*self.kept.allocator());
        let mut kept = replace(&mut self.kept, empty);
        kept.clear();
        kept.extend_from_slice(&self.text.as_slice()[from..])
            .unwrap();
        Some(kept)
    }

    /// Takes back room in which a text was kept.
    pub fn give_back(&mut self, kept: Option<Vec<u8>>)
        ensures text { self.new.text ≡ self.old.text }
        ensures sent { self.new.sent ≡ self.old.sent }
    {
        if let Some(kept) = kept {
            self.kept = kept;
        }
    }
}
