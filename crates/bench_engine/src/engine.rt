//! Carries out one line, and makes its reply.
ghost use Rattle.std.specs.Prelude.{◌≡◌, List, false, IsTrue, OnErr, OnOk};
ghost use Rattle.bench_engine.specs.Clauses.{Carried, KeepsForUndo, Reply, Tells, world, meaning_of, Meaning, AnswersMeaning, MayAnswer, ReadsAs, meaning_of_read};

use crate::ask::reply;
use crate::create::make;
use crate::files::{load, save};
use crate::line::{Line, MAX_LINE_LEN};
use crate::operate::compute;
use crate::reply_text::ReplyText;
use crate::view::view;
use crate::write::{Selection, set};
use elem_descr::{Name, Refusal};
use name_store::Bench;
use npy_files::NpyStore;
use script_lang::{Command, Value, parse, word};
use std::alloc::Global;

/// Carries out a command, and makes its reply. After a refusal, only the text of the reply has
/// changed, except that a store may have failed during a `save`.
fn perform<N: NpyStore>(
    bench: &mut Bench,
    store: &mut N,
    command: &Command,
    out: &mut ReplyText,
) -> Result<(), Refusal>
    ensures answers { Carried (MayAnswer (world bench.old.state (N.shelf store.old)) command.now
        (world bench.new.state (N.shelf store.new)))
        out.new result }
    ensures patches { OnOk result (KeepsForUndo command.now bench.old bench.new) }
    ensures kept { OnErr result (bench.new.patches ≡ bench.old.patches) }
{
    match command {
        Command::Bind { name, value } => match value {
            Value::Make { descr, items } => make(bench, name, descr, items, out),
            Value::View { source, how } => view(bench, name, source, how, out),
            Value::Compute(computation) => compute(bench, name, computation, out),
            Value::Load { file } => load(bench, store, name, file, out),
        },
        Command::Set { name, index, value } => {
            set(bench, Selection { name, index }, None, value, out)
        }
        Command::Update {
            name,
            index,
            operation,
            value,
        } => {
            let selection = Selection { name, index };
            set(bench, selection, Some(*operation), value, out)
        }
        Command::Delete { name } => {
            bench.unbind(name)?;
            out.set(b"ok del ", name.as_slice());
            Ok(())
        }
        Command::Ask(question) => reply(bench, question, out),
        Command::Save { name, file } => save(bench, store, name, file, out),
        Command::Undo => {
            bench.undo()?;
            out.set(b"ok undo", b"");
            Ok(())
        }
    }
}

/// Carries out a command, makes its reply, and returns whether it was accepted. A refused command
/// changes nothing, except that a store may have failed during a `save`. The reply is never `out of
/// memory` for an unknown name, for `del` at depth 0, or for `undo`. For `undo`, only `set` and `upd`
/// keep old items: those that they replace.
pub fn execute<N: NpyStore>(
    bench: &mut Bench,
    store: &mut N,
    command: &Command,
    out: &mut ReplyText,
) -> bool
    ensures answers { (reply : Reply) × (out.new ≡ reply.text) × (reply.accepted ≡ result)
        × MayAnswer (world bench.old.state (N.shelf store.old)) command.now
        (world bench.new.state (N.shelf store.new)) reply }
    ensures patches { IsTrue result → KeepsForUndo command.now bench.old bench.new }
    ensures kept { result ≡ false → bench.new.patches ≡ bench.old.patches }
{
    match perform(bench, store, command, out) {
        Ok(()) => true,
        Err(refusal) => {
            out.set(word(refusal), b"");
            false
        }
    }
}

/// The command that a line asks for.
pub fn read_line(alloc: Global, line: Line<'_>) -> Result<Option<Command>, Refusal>
    ensures { ReadsAs result (meaning_of_read line.entry) }
{
    let Line::Held(bytes) = line else {
        return Err(Refusal::LineTooLong);
    };
    if bytes.len() > MAX_LINE_LEN {
        return Err(Refusal::LineTooLong);
    }
    parse(alloc, bytes)
}

/// Carries out what a line asks for, and makes the reply. Returns whether the command was accepted,
/// or `None` if the line asks for nothing.
pub fn respond<N: NpyStore>(
    bench: &mut Bench,
    store: &mut N,
    read: Result<Option<Command>, Refusal>,
    out: &mut ReplyText,
) -> Option<bool>
    ensures { (meaning : Meaning) → ReadsAs read meaning → (replies : List Reply)
        × Tells replies result out.new
        × AnswersMeaning (world bench.old.state (N.shelf store.old)) meaning
        (world bench.new.state (N.shelf store.new)) replies }
{
    match read {
        Ok(None) => {
            out.set(b"", b"");
            None
        }
        Ok(Some(command)) => {
            let accepted = execute(bench, store, &command, out);
            drop(command);
            Some(accepted)
        }
        Err(refusal) => {
            out.set(word(refusal), b"");
            Some(false)
        }
    }
}

/// Answers a line, given without its newline. Returns whether its command was accepted, or `None`
/// if the line asks for nothing. `out` is then the reply, without a newline. A refused command
/// changes nothing, even if memory ran out, except that a store may have failed during a `save`.
pub fn answer<N: NpyStore>(
    bench: &mut Bench,
    store: &mut N,
    line: &[u8],
    out: &mut ReplyText,
) -> Option<bool>
    ensures { (replies : List Reply) × Tells replies result out.new
        × AnswersMeaning (world bench.old.state (N.shelf store.old)) (meaning_of line.now)
        (world bench.new.state (N.shelf store.new)) replies }
{
    let read = read_line(out.allocator(), Line::Held(line));
    respond(bench, store, read, out)
}
