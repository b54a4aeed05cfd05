//! The grammar of a line.
ghost use Rattle.std.specs.Prelude.{◌≤◌, length};
ghost use Rattle.script_lang.specs.Clauses.{value_at, bind_at, verb_command_at, line_of, EachListAnyTurns, Takes, Says, value_room, parts_take_memory};

mod computations;
mod creations;
mod descriptors;
mod indexes;
mod literals;
mod names;
mod numbers;
mod quotes;
mod statements;
mod tokens;
mod views;

use crate::command::{Command, Value};
use crate::grammar::computations::compute;
use crate::grammar::creations::make;
use crate::grammar::names::{names_unless_verb, owned_name, verb};
use crate::grammar::quotes::file_name;
use crate::grammar::statements::{question, set, update};
use crate::grammar::tokens::{are_allowed, is_at_end, symbol, unspaced, word};
use crate::grammar::views::{plain_view, view};
use crate::text::FileName;
use crate::verb::Verb;
use elem_descr::{Name, Refusal};
use std::alloc::Global;

/// What follows `X =`. A word that is not a verb is the name of an array.
#[tactic(auto, unfolding(crate::specs::Commands::value_at))]
fn value(alloc: Global, bytes: &[u8]) -> Result<(Value, &[u8]), Refusal>
    ensures { Takes value_room result (value_at bytes.now) }
{
    let (word, rest) = word(bytes).ok_or(Refusal::Syntax)?;
    match verb(word) {
        None => plain_view(alloc, word, rest),
        Some(Verb::Make(verb)) => make(alloc, verb, rest),
        Some(Verb::View(verb)) => view(alloc, verb, rest),
        Some(Verb::Compute(verb)) => compute(alloc, verb, rest),
        Some(Verb::Load) => {
            let (file, rest) = file_name(rest).ok_or(Refusal::Syntax)?;
            let file = FileName::from_slice(alloc, file);
            Ok((Value::Load { file }, rest))
        }
        Some(_) => Err(Refusal::Syntax),
    }
}

/// `X = ..`, given the word `X` and what follows it.
#[tactic(auto, unfolding(crate::specs::Commands::bind_at), using(crate::proofs::Commands::bind_room))]
fn bind<'a>(alloc: Global, word: &[u8], bytes: &'a [u8]) -> Result<(Command, &'a [u8]), Refusal>
    ensures { Takes parts_take_memory result (bind_at word.now bytes.now) }
{
    if !names_unless_verb(word) {
        return Err(Refusal::Syntax);
    }
    let rest = symbol(b'=', bytes).ok_or(Refusal::Syntax)?;
    // With `?` or `map` a large value would be moved once more.
    match value(alloc, rest) {
        Ok((value, rest)) => {
            let name = Name::from_slice(alloc, word);
            Ok((Command::Bind { name, value }, rest))
        }
        Err(refusal) => Err(refusal),
    }
}

/// The command that the verb begins.
fn verb_command(alloc: Global, verb: Verb, bytes: &[u8]) -> Result<(Command, &[u8]), Refusal>
    ensures { Takes parts_take_memory result (verb_command_at verb bytes.now) }
{
    match verb {
        Verb::Set => set(alloc, bytes),
        Verb::Update => update(alloc, bytes),
        Verb::Delete => {
            let (name, rest) = owned_name(alloc, bytes).ok_or(Refusal::Syntax)?;
            Ok((Command::Delete { name }, rest))
        }
        Verb::Undo => Ok((Command::Undo, bytes)),
        Verb::Save => {
            let (name, rest) = owned_name(alloc, bytes).ok_or(Refusal::Syntax)?;
            let (file, rest) = file_name(rest).ok_or(Refusal::Syntax)?;
            let file = FileName::from_slice(alloc, file);
            Ok((Command::Save { name, file }, rest))
        }
        Verb::Ask(verb) => {
            let (question, rest) = question(alloc, verb, bytes).ok_or(Refusal::Syntax)?;
            Ok((Command::Ask(question), rest))
        }
        _ => Err(Refusal::Syntax),
    }
}

/// What a line asks for: a command, or nothing for a blank line or a comment. Any other line with a
/// byte that is neither a tab nor 32 to 126 is refused (E02), without taking memory. Then a line
/// that does not follow the grammar is refused as `Syntax` (E03). Memory may run out (E40) only for
/// a command of which `parts_take_memory` is true, or on a line that does not follow the grammar.
#[tactic(auto, unfolding(crate::specs::Commands::form_at, crate::specs::Commands::command_at, crate::specs::Lines::line_of), using(crate::proofs::Commands::whole_line_room, crate::proofs::Turns::each_list_any_turns))]
pub fn parse(alloc: Global, line: &[u8]) -> Result<Option<Command>, Refusal>
    requires { length line.now ≤ 65536 }
    ensures command { Says result (line_of line.now) }
    ensures turns { EachListAnyTurns }
{
    let text = unspaced(line);
    if let [] | [b'#', ..] = text {
        return Ok(None);
    }
    if !are_allowed(line) {
        return Err(Refusal::ByteNotAllowed);
    }
    let (word, rest) = word(text).ok_or(Refusal::Syntax)?;
    let first = match verb(word) {
        Some(verb) => verb_command(alloc, verb, rest),
        None => bind(alloc, word, rest),
    };
    // A command is passed on as it is, because it is the largest value of a line.
    match first {
        Ok((command, rest)) => {
            if is_at_end(rest) {
                return Ok(Some(command));
            }
            drop(command);
            Err(Refusal::Syntax)
        }
        Err(refusal) => Err(refusal),
    }
}
