//! The text of a reply.
ghost use Rattle.std.specs.Prelude.{◌≡◌, ◌≤◌, ◌+◌, ◌++◌, ◌∷◌, [], List, ℕ, length, All, IfOk, OnOk, OnErr, IsErrOf, ◌<◌};
ghost use Rattle.bench_engine.specs.Words.{Appends, Sends, SendsPart, array_text, item_size, items_from, offsets};

use array_print::{PrintFault, WriteFault, print_by_bands, send};
use elem_descr::Descr;
use shape_strides::Layout;
use std::alloc::{AllocError, Global};
use std::fmt;
use std::io::Write;
use std::marker::Model;

/// The greatest length of a short reply, for which there is always room.
const SHORT: usize = 64;

/// The text of a reply. It always has room for a short one, so every refusal can be reported.
#[derive(Drop)]
pub struct ReplyText {
    bytes: Vec<u8>,
}

impl Model for ReplyText {
    ghost use Rattle.std.specs.Prelude.{List, ℕ, ◌≤◌, vec_capacity};

    ghost Value = { List ℕ };

    ghost view = { λ r. r.bytes.items };

    ghost invariant = { λ r. 64 ≤ vec_capacity r.bytes };
}

/// Appends what is written, or fails for lack of memory.
impl fmt::Write for ReplyText {
    ghost write_str_gives = { λ before more after. after ≡ before ++ more };

    fn write_str(&mut self, more: &str) -> fmt::Result {
        Ok(self.push(more.as_bytes())?)
    }
}

impl ReplyText {
    /// An empty text.
    pub fn new(alloc: Global) -> Result<ReplyText, AllocError>
        ensures { IfOk result (λ reply. reply ≡ []) }
    {
        Ok(ReplyText {
            bytes: Vec::with_capacity(alloc, SHORT)?,
        })
    }

    pub fn as_slice(&self) -> &[u8]
        ensures { result.now ≡ self.now }
    {
        self.bytes.as_slice()
    }

    pub fn allocator(&self) -> Global {
        *self.bytes.allocator()
    }

    /// Replaces the text by a short one, given in two parts. It cannot fail for lack of memory.
    pub fn set(&mut self, head: &[u8], tail: &[u8])
        requires { length head.now + length tail.now ≤ 64 }
        ensures { self.new ≡ head.now ++ tail.now }
    {
        self.bytes.clear();
        self.bytes.extend_from_slice(head).unwrap();
        self.bytes.extend_from_slice(tail).unwrap();
    }

    /// Appends to the text.
    pub fn push(&mut self, more: &[u8]) -> Result<(), AllocError>
        ensures { OnOk result (self.new ≡ self.old ++ more.now) }
    {
        self.bytes.extend_from_slice(more)
    }

    /// Puts bytes in front of the text.
    fn put_in_front(&mut self, mut front: Vec<u8>) -> Result<(), AllocError>
        ensures { OnOk result (self.new ≡ front.items ++ self.old) }
    {
        if front.is_empty() {
            return Ok(());
        }
        front.extend_from_slice(self.bytes.as_slice())?;
        front.reserve(SHORT)?;
        self.bytes = front;
        Ok(())
    }

    /// Replaces the text by that of an array whose items are at the layout's offsets in a block.
    pub fn print(&mut self, block: &[u8], layout: &Layout, descr: &Descr) -> Result<(), AllocError>
        requires inside { All (λ offset. offset + item_size descr.now ≤ length block.now)
            (offsets layout.now) }
        ensures { OnOk result (self.new ≡ array_text descr.now layout.now.shape
            (items_from descr.now block.now (offsets layout.now))) }
    {
        let mut sent = Vec::new(self.allocator());
        match self.send_printed(&mut sent, block, layout, descr) {
            Ok(()) => self.put_in_front(sent),
            Err(_) => Err(AllocError),
        }
    }

    /// Prints an array, and sends the text while it is made. The end of the text is left to be
    /// sent.
    pub fn send_printed<W: Write>(
        &mut self,
        writer: &mut W,
        block: &[u8],
        layout: &Layout,
        descr: &Descr,
    ) -> Result<(), PrintFault>
        requires inside { All (λ offset. offset + item_size descr.now ≤ length block.now)
            (offsets layout.now) }
        ensures ok { OnOk result (Sends (W.contents writer.old) (W.contents writer.new) self.new
            (array_text descr.now layout.now.shape
            (items_from descr.now block.now (offsets layout.now)))) }
        ensures write { IsErrOf result PrintFault.Write →
            SendsPart (W.contents writer.old) (W.contents writer.new)
            (array_text descr.now layout.now.shape
            (items_from descr.now block.now (offsets layout.now))) }
        ensures memory { IsErrOf result PrintFault.Memory → writer.new ≡ writer.old }
    {
        self.bytes.clear();
        print_by_bands(writer, &mut self.bytes, block, layout, descr)
    }

    /// Sends the text and a newline, in one piece if there is room for the newline.
    pub fn send_line<W: Write>(&mut self, writer: &mut W) -> Result<(), WriteFault>
        ensures ok { OnOk result
            (Appends (W.contents writer.old) (W.contents writer.new) (self.old ++ 10 ∷ [])) }
        ensures err { OnErr result ((gone missing : List ℕ) × (self.old ++ 10 ∷ [] ≡ gone ++ missing)
            × (0 < length missing) × Appends (W.contents writer.old) (W.contents writer.new) gone) }
    {
        if self.bytes.len() < self.bytes.capacity() {
            self.bytes.push(b'\n').unwrap();
            return send(writer, self.bytes.as_slice());
        }
        send(writer, self.bytes.as_slice())?;
        send(writer, b"\n")
    }
}
