//! What was read, compared with the texts of the tables.
use elem_descr::{IndexItem, MemoryOrder, Name, Refusal};
use script_lang::{
    Argument, Command, Computation, Index, Integers, Lengths, Literal, NewItems, Operand, Question,
    ScalarLiteral, Text, Value, Viewing,
};
use std::alloc::{AllocError, Global};
use std::fmt::Debug;

/// What is left of a text that is expected word by word; nothing once there was another word, or no
/// memory for a number.
#[derive(Drop)]
pub struct Expected<'a> {
    alloc: Global,
    left: Option<&'a [u8]>,
}

fn behind<'a>(left: Option<&'a [u8]>, text: &[u8]) -> Option<&'a [u8]> {
    left?.strip_prefix(text)
}

fn put(out: &mut Expected<'_>, text: &[u8]) {
    out.left = behind(out.left, text);
}

fn put_written(out: &mut Expected<'_>, text: Result<String, AllocError>) {
    match text {
        Ok(text) => put(out, text.as_bytes()),
        Err(_) => out.left = None,
    }
}

fn put_word(out: &mut Expected<'_>, text: &[u8]) {
    put(out, b" ");
    put(out, text)
}

/// The word of a command and the name that it binds or changes.
fn put_head(out: &mut Expected<'_>, verb: &[u8], name: &Name) {
    put(out, verb);
    put_word(out, name.as_slice())
}

/// The word of a command and two names.
fn put_names(out: &mut Expected<'_>, verb: &[u8], name: &Name, source: &Name) {
    put_head(out, verb, name);
    put_word(out, source.as_slice())
}

fn put_integer(out: &mut Expected<'_>, n: i128) {
    let text = format!(in out.alloc; "{n}");
    put_written(out, text)
}

fn put_part(out: &mut Expected<'_>, part: Option<i128>) {
    match part {
        Some(n) => put_integer(out, n),
        None => put(out, b"_"),
    }
}

fn put_bytes(out: &mut Expected<'_>, bytes: &[u8]) {
    put(out, b"{");
    for b in bytes {
        put_integer(out, i128::from(*b));
        put(out, b" ");
    }
    put(out, b"}")
}

fn put_scalar(out: &mut Expected<'_>, scalar: &ScalarLiteral) {
    match scalar {
        ScalarLiteral::Integer(n) => put_integer(out, *n),
        ScalarLiteral::Boolean(true) => put(out, b"True"),
        ScalarLiteral::Boolean(false) => put(out, b"False"),
        ScalarLiteral::Bytes(text) => put_bytes(out, text.as_slice()),
    }
}

fn put_unspaced(out: &mut Expected<'_>, literal: &Literal) {
    match literal {
        Literal::Scalar(scalar) => put_scalar(out, scalar),
        Literal::Record(values) => {
            put(out, b"<");
            for value in values.as_slice() {
                put_unspaced(out, value);
                put(out, b",");
            }
            put(out, b">")
        }
    }
}

fn put_literal(out: &mut Expected<'_>, literal: &Literal) {
    put(out, b" ");
    put_unspaced(out, literal)
}

fn put_item(out: &mut Expected<'_>, item: &IndexItem<Name>) {
    match item {
        IndexItem::Integer(n) => put_integer(out, *n),
        IndexItem::Slice { start, stop, step } => {
            put_part(out, *start);
            put(out, b":");
            put_part(out, *stop);
            put(out, b":");
            put_part(out, *step)
        }
        IndexItem::Ellipsis => put(out, b"..."),
        IndexItem::NewAxis => put(out, b"None"),
        IndexItem::Array(name) => put(out, name.as_slice()),
    }
}

fn put_index(out: &mut Expected<'_>, index: &Index) {
    put(out, b"[");
    for item in index.as_slice() {
        put_item(out, item);
        put(out, b",");
    }
    put(out, b"]")
}

fn put_operand(out: &mut Expected<'_>, operand: &Operand) {
    put_word(out, operand.name.as_slice());
    if let Some(index) = &operand.index {
        put_index(out, index)
    }
}

fn put_argument(out: &mut Expected<'_>, argument: &Argument) {
    match argument {
        Argument::Operand(operand) => put_operand(out, operand),
        Argument::Literal(literal) => put_literal(out, literal),
    }
}

fn put_lengths(out: &mut Expected<'_>, lengths: &[u128]) {
    put(out, b" (");
    for length in lengths {
        let text = format!(in out.alloc; "{length},");
        put_written(out, text);
    }
    put(out, b")")
}

fn put_integers(out: &mut Expected<'_>, integers: &[i128]) {
    put(out, b" (");
    for integer in integers {
        put_integer(out, *integer);
        put(out, b",");
    }
    put(out, b")")
}

/// The word of a value, the name, the descriptor and the shape.
fn put_made(out: &mut Expected<'_>, verb: &[u8], name: &Name, descr: &Text, shape: &Lengths) {
    put_head(out, verb, name);
    put_word(out, descr.as_slice());
    put_lengths(out, shape.as_slice())
}

fn put_new_array(out: &mut Expected<'_>, name: &Name, descr: &Text, items: &NewItems) {
    match items {
        NewItems::Zeros { shape } => put_made(out, b"zeros", name, descr, shape),
        NewItems::Full { shape, value } => {
            put_made(out, b"full", name, descr, shape);
            put_literal(out, value)
        }
        NewItems::Arange { start, stop, step } => {
            put_head(out, b"arange", name);
            put_word(out, descr.as_slice());
            put_integers(out, &[*start, *stop, *step])
        }
        NewItems::Array { shape, values } => {
            put_made(out, b"array", name, descr, shape);
            for value in values.as_slice() {
                put_literal(out, value);
            }
        }
    }
}

fn put_axes(out: &mut Expected<'_>, axes: &Option<Integers>) {
    if let Some(axes) = axes {
        put_integers(out, axes.as_slice())
    }
}

fn put_view(out: &mut Expected<'_>, name: &Name, source: &Name, how: &Viewing) {
    match how {
        Viewing::Whole => put_names(out, b"view", name, source),
        Viewing::Indexed(index) => {
            put_names(out, b"view", name, source);
            put_index(out, index)
        }
        Viewing::Field(field) => {
            put_names(out, b"field", name, source);
            put_word(out, field.as_slice())
        }
        Viewing::Transposed(axes) => {
            put_names(out, b"transpose", name, source);
            put_axes(out, axes)
        }
        Viewing::Reshaped(shape) => {
            put_names(out, b"reshape", name, source);
            put_integers(out, shape.as_slice())
        }
        Viewing::Broadcast(shape) => {
            put_names(out, b"broadcast", name, source);
            put_lengths(out, shape.as_slice())
        }
    }
}

fn put_copy(out: &mut Expected<'_>, name: &Name, source: &Name, order: MemoryOrder) {
    put_names(out, b"copy", name, source);
    match order {
        MemoryOrder::C => put(out, b" C"),
        MemoryOrder::Fortran => put(out, b" F"),
    }
}

/// The word as Rust names it, and the name.
fn put_operation<T: Debug>(out: &mut Expected<'_>, operation: &T, name: &Name) {
    let word = format!(in out.alloc; "{operation:?}");
    put_written(out, word);
    put_word(out, name.as_slice())
}

fn put_reduction(out: &mut Expected<'_>, source: &Name, axis: Option<i128>, keep: bool) {
    put_word(out, source.as_slice());
    put(out, b" ");
    put_part(out, axis);
    if keep {
        put(out, b" keep")
    }
}

fn put_computation(out: &mut Expected<'_>, name: &Name, computation: &Computation) {
    match computation {
        Computation::Duplicate { source, order } => put_copy(out, name, source, *order),
        Computation::Cast { source, descr } => {
            put_names(out, b"cast", name, source);
            put_word(out, descr.as_slice())
        }
        Computation::Combine {
            operation,
            left,
            right,
        } => {
            put_operation(out, operation, name);
            put_operand(out, left);
            put_argument(out, right)
        }
        Computation::Transform { operation, operand } => {
            put_operation(out, operation, name);
            put_operand(out, operand)
        }
        Computation::Reduce {
            reduction,
            source,
            axis,
            keep,
        } => {
            put_operation(out, reduction, name);
            put_reduction(out, source, *axis, *keep)
        }
    }
}

fn put_value(out: &mut Expected<'_>, name: &Name, value: &Value) {
    match value {
        Value::Make { descr, items } => put_new_array(out, name, descr, items),
        Value::View { source, how } => put_view(out, name, source, how),
        Value::Compute(computation) => put_computation(out, name, computation),
        Value::Load { file } => {
            put_head(out, b"load", name);
            put_word(out, file.as_slice())
        }
    }
}

fn put_question(out: &mut Expected<'_>, question: &Question) {
    match question {
        Question::Print { name } => put_head(out, b"print", name),
        Question::Info { name } => put_head(out, b"info", name),
        Question::Format { name } => put_head(out, b"format", name),
        Question::Names => put(out, b"names"),
        Question::Shares { left, right } => put_names(out, b"shares", left, right),
    }
}

fn put_command(out: &mut Expected<'_>, command: &Command) {
    match command {
        Command::Bind { name, value } => put_value(out, name, value),
        Command::Set { name, index, value } => {
            put_head(out, b"set", name);
            put_index(out, index);
            put_argument(out, value)
        }
        Command::Update {
            name,
            index,
            operation,
            value,
        } => {
            put(out, b"upd ");
            put_operation(out, operation, name);
            put_index(out, index);
            put_argument(out, value)
        }
        Command::Delete { name } => put_head(out, b"del", name),
        Command::Undo => put(out, b"undo"),
        Command::Save { name, file } => {
            put_head(out, b"save", name);
            put_word(out, file.as_slice())
        }
        Command::Ask(question) => put_question(out, question),
    }
}

/// The command, `-` for none, or the code of the refusal.
fn put_parsed(out: &mut Expected<'_>, parsed: &Result<Option<Command>, Refusal>) {
    match parsed {
        Ok(Some(command)) => put_command(out, command),
        Ok(None) => put(out, b"-"),
        Err(Refusal::ByteNotAllowed) => put(out, b"E02"),
        Err(Refusal::Syntax) => put(out, b"E03"),
        Err(_) => put(out, b"E40"),
    }
}

/// Whether this text says what a line asks for, and no more.
pub fn says(alloc: Global, text: &[u8], parsed: &Result<Option<Command>, Refusal>) -> bool {
    let mut out = Expected {
        alloc,
        left: Some(text),
    };
    put_parsed(&mut out, parsed);
    matches!(out.left, Some([]))
}
