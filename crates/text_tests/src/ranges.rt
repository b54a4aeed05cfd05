//! Items as NumPy's `numpy.arange` makes them, where it takes the same.
use crate::check::check;
use crate::literals::{Made, is_as_told};
use crate::made::command_of;
use elem_descr::Refusal::{LiteralOutOfRange, TooLarge, ZeroStep};
use elem_descr::{Refusal, Scalar, typestr_read};
use literal_items::{range_block, range_len};
use script_lang::{Command, NewItems, Value};
use std::alloc::Global;
use std::process::Abort;

/// The arguments of `arange`, and the expected result.
const LINES: &[(&str, Made)] = &[
    ("|i1 0 201 100", Err(LiteralOutOfRange)),
    ("|i1 0 200 100", Ok(&[0, 100])),
    ("<i2 0 5 1", Ok(&[0, 0, 1, 0, 2, 0, 3, 0, 4, 0])),
    (">i2 5 0 -2", Ok(&[0, 5, 0, 3, 0, 1])),
    ("<i4 3 3 1", Ok(&[])),
    ("<i4 3 9 -1", Ok(&[])),
    ("|u1 250 257 5", Ok(&[250, 255])),
    ("|i1 1 -7 -999999999999999999999999999999", Ok(&[1])),
    ("<i8 0 999999999999999999999999999999 1", Err(TooLarge)),
    ("|u1 0 16777217 1", Err(TooLarge)),
    ("|u1 0 16777216 1", Err(LiteralOutOfRange)),
    ("<i4 0 5 0", Err(ZeroStep)),
    ("<i4 5 5 0", Err(ZeroStep)),
];

/// The numbers of a range as items.
fn range(
    alloc: Global,
    scalar: &Scalar,
    start: &i128,
    stop: &i128,
    step: &i128,
) -> Result<Vec<u8>, Refusal> {
    if matches!(scalar, Scalar::Bytes(_)) {
        return Err(Refusal::NotForThisKind);
    }
    let block = range_block(alloc, scalar, start, stop, step)?;
    let mut bytes = Vec::new(alloc);
    bytes.extend_from_slice(block.bytes())?;
    Ok(bytes)
}

fn range_of(alloc: Global, command: &Command) -> Result<Vec<u8>, Refusal> {
    let Command::Bind {
        value: Value::Make {
            descr,
            items: NewItems::Arange { start, stop, step },
        },
        ..
    } = command
    else {
        return Err(Refusal::Syntax);
    };
    let scalar = typestr_read(descr.as_slice())?;
    range(alloc, &scalar, start, stop, step)
}

/// What a row of the table makes.
fn made(rt: &impl Abort, alloc: Global, text: &str) -> Result<Vec<u8>, Refusal> {
    let command = command_of(rt, alloc, "arange", text)?;
    let made = range_of(alloc, &command);
    drop(command);
    made
}

#[test]
fn ranges_as_bytes(rt: HostRuntime) {
    for (line, told) in LINES {
        let made = made(&rt, rt.alloc(), line);
        check(&rt, is_as_told(&made, told), line);
    }
}

/// Ranges whose length overflows an `i128`.
#[test]
fn the_longest_step(rt: HostRuntime) {
    let (least, greatest) = (i128::MIN, i128::MAX);
    assert!(rt; range_len(&least, &greatest, &greatest) == Ok(3));
    assert!(rt; range_len(&greatest, &least, &least) == Ok(2));
}
