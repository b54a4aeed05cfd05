//! The commands that bind no name.
ghost use Rattle.std.specs.Prelude.{◌≡◌};
ghost use Rattle.script_lang.specs.Clauses.{question_at, set_at, update_at, Takes, Scans, parts_take_memory};

use crate::command::{Command, Question};
use crate::grammar::indexes::{argument, bracket};
use crate::grammar::names::{name, owned_name, verb};
use crate::grammar::tokens::{symbol, word};
use crate::verb::{AskVerb, ComputeVerb, Verb};
use elem_descr::{Name, Refusal};
use std::alloc::Global;

/// `X[ix] = Z`, after `set`.
#[tactic(auto, unfolding(crate::specs::Commands::set_at), using(crate::proofs::Commands::set_index_room, crate::proofs::Commands::set_value_room))]
pub fn set(alloc: Global, bytes: &[u8]) -> Result<(Command, &[u8]), Refusal>
    ensures { Takes parts_take_memory result (set_at bytes.now) }
{
    let (name, rest) = name(bytes).ok_or(Refusal::Syntax)?;
    let (index, rest) = match bracket(alloc, rest) {
        Ok(found) => found,
        Err(refusal) => return Err(refusal),
    };
    let rest = symbol(b'=', rest).ok_or(Refusal::Syntax)?;
    let (value, rest) = match argument(alloc, rest) {
        Ok(found) => found,
        Err(refusal) => return Err(refusal),
    };
    let name = Name::from_slice(alloc, name);
    Ok((Command::Set { name, index, value }, rest))
}

/// `X[ix] OP Z`, after `upd`.
#[tactic(auto, unfolding(crate::specs::Commands::update_at, crate::specs::Verbs::operation_of), using(crate::proofs::Commands::update_index_room, crate::proofs::Commands::update_value_room))]
pub fn update(alloc: Global, bytes: &[u8]) -> Result<(Command, &[u8]), Refusal>
    ensures { Takes parts_take_memory result (update_at bytes.now) }
{
    let (name, rest) = name(bytes).ok_or(Refusal::Syntax)?;
    let (index, rest) = match bracket(alloc, rest) {
        Ok(found) => found,
        Err(refusal) => return Err(refusal),
    };
    let (word, rest) = word(rest).ok_or(Refusal::Syntax)?;
    let Some(Verb::Compute(ComputeVerb::Combine(operation))) = verb(word) else {
        return Err(Refusal::Syntax);
    };
    let (value, rest) = match argument(alloc, rest) {
        Ok(found) => found,
        Err(refusal) => return Err(refusal),
    };
    let name = Name::from_slice(alloc, name);
    let update = Command::Update {
        name,
        index,
        operation,
        value,
    };
    Ok((update, rest))
}

/// What the verb asks for.
pub fn question(alloc: Global, verb: AskVerb, bytes: &[u8]) -> Option<(Question, &[u8])>
    ensures { Scans (λ r. (r.0, r.1.now)) result (question_at verb bytes.now) }
{
    match verb {
        AskVerb::Print => {
            let (name, rest) = owned_name(alloc, bytes)?;
            Some((Question::Print { name }, rest))
        }
        AskVerb::Info => {
            let (name, rest) = owned_name(alloc, bytes)?;
            Some((Question::Info { name }, rest))
        }
        AskVerb::Format => {
            let (name, rest) = owned_name(alloc, bytes)?;
            Some((Question::Format { name }, rest))
        }
        AskVerb::Names => Some((Question::Names, bytes)),
        AskVerb::Shares => {
            let (left, rest) = owned_name(alloc, bytes)?;
            let (right, rest) = owned_name(alloc, rest)?;
            Some((Question::Shares { left, right }, rest))
        }
    }
}
