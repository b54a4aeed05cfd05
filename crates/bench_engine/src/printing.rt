//! Replies in a run: that of `print X` is sent while it is made.
ghost use Rattle.std.specs.Prelude.{◌≡◌, IfOk, OnErr};
ghost use Rattle.bench_engine.specs.Clauses.{Sends, SendsPart, Reply, MayPrint, SendsAnswer, world, meaning_of_read};

use crate::engine::{read_line, respond};
use crate::line::Line;
use crate::reply_text::ReplyText;
use array_print::{PrintFault, WriteFault};
use elem_descr::{Name, Refusal};
use name_store::Bench;
use npy_files::NpyStore;
use script_lang::{Command, Question, word};
use std::io::Write;

/// Prints the array of a name, or refuses to, and sends the reply except for its end. Returns
/// whether it was accepted. A refusal comes before the first byte.
pub fn print<W: Write>(
    bench: &Bench,
    name: &Name,
    writer: &mut W,
    out: &mut ReplyText,
) -> Result<bool, WriteFault>
    ensures ok { IfOk result (λ accepted. (reply : Reply)
        × MayPrint bench.now.state name.now reply × (reply.accepted ≡ accepted)
        × Sends (W.contents writer.old) (W.contents writer.new) out.new reply.text) }
    ensures err { OnErr result ((reply : Reply) × MayPrint bench.now.state name.now reply
        × SendsPart (W.contents writer.old) (W.contents writer.new) reply.text) }
{
    let Some(array) = bench.get(name) else {
        out.set(word(Refusal::UnknownName), b"");
        return Ok(false);
    };
    let block = array.block.bytes();
    match out.send_printed(writer, block, array.layout, array.descr) {
        Ok(()) => Ok(true),
        Err(PrintFault::Write) => Err(WriteFault),
        Err(PrintFault::Memory) => {
            out.set(word(Refusal::OutOfMemory), b"");
            Ok(false)
        }
    }
}

/// Answers a line, and sends the reply except for its end. Returns whether its command was
/// accepted, or `None` if the line asks for nothing.
pub fn send_answer<W: Write, N: NpyStore>(
    bench: &mut Bench,
    writer: &mut W,
    store: &mut N,
    line: Line<'_>,
    out: &mut ReplyText,
) -> Result<Option<bool>, WriteFault>
    ensures { SendsAnswer (world bench.old.state (N.shelf store.old))
        (world bench.new.state (N.shelf store.new)) (meaning_of_read line.entry)
        (W.contents writer.old) (W.contents writer.new) out.new result }
{
    match read_line(out.allocator(), line) {
        Ok(Some(Command::Ask(Question::Print { name }))) => {
            let accepted = print(bench, &name, writer, out)?;
            Ok(Some(accepted))
        }
        read => Ok(respond(bench, store, read, out)),
    }
}
