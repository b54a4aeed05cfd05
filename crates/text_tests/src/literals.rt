//! Items as NumPy's `numpy.array` makes them from literals that NumPy accepts too.
use crate::check::check;
use crate::made::command_of;
use elem_descr::Refusal::{LiteralOutOfRange, NoSuchCast};
use elem_descr::{Descr, Refusal, descr_read};
use literal_items::{can_be_item, write_item, write_items};
use script_lang::{Command, Literal, NewItems, Value};
use std::alloc::{AllocError, Global};
use std::process::Abort;

/// The bytes that a command makes, or why it is refused.
pub type Made = Result<&'static [u8], Refusal>;

/// Behind `a = array`, and what is made.
const LINES: &[(&str, Made)] = &[
    ("|S3 (1) b'abcd'", Ok(&[97, 98, 99])),
    ("|S4 (1) b'a\\x00b\\x00c'", Ok(&[97, 0, 98, 0])),
    ("|S3 (1) b'a'", Ok(&[97, 0, 0])),
    ("|S2 (1) b''", Ok(&[0, 0])),
    (
        "T{<b:x:3x<i:y:} (1) (5,-1)",
        Ok(&[5, 0, 0, 0, 255, 255, 255, 255]),
    ),
    ("T{<b:x:3x<i:y:} (1) 7", Ok(&[7, 0, 0, 0, 7, 0, 0, 0])),
    ("T{>h:x:2x?:y:3x} (1) -2", Ok(&[255, 254, 0, 0, 1, 0, 0, 0])),
    ("T{<B:x:2s:t:} (1) (255,b'xyz')", Ok(&[255, 120, 121])),
    ("|u1 (1) 255", Ok(&[255])),
    ("|u1 (1) 300", Err(LiteralOutOfRange)),
    ("|u1 (1) -1", Err(LiteralOutOfRange)),
    ("|i1 (1) -128", Ok(&[128])),
    ("|i1 (1) 128", Err(LiteralOutOfRange)),
    (">u2 (1) 258", Ok(&[1, 2])),
    (
        "<u8 (1) 18446744073709551615",
        Ok(&[255, 255, 255, 255, 255, 255, 255, 255]),
    ),
    ("<u8 (1) 18446744073709551616", Err(LiteralOutOfRange)),
    (
        "<i8 (1) -9223372036854775808",
        Ok(&[0, 0, 0, 0, 0, 0, 0, 128]),
    ),
    ("<i8 (1) 9223372036854775808", Err(LiteralOutOfRange)),
    ("? (1) 7", Ok(&[1])),
    ("? (1) -999999999999999999999999999999", Ok(&[1])),
    ("? (1) 0", Ok(&[0])),
    ("? (1) True", Ok(&[1])),
    ("<i4 (1) True", Ok(&[1, 0, 0, 0])),
    ("|i1 (1) False", Ok(&[0])),
    ("<i4 (1) b'a'", Err(NoSuchCast)),
    ("? (1) b'a'", Err(NoSuchCast)),
    ("|S2 (1) 1", Err(NoSuchCast)),
    ("|S2 (1) True", Err(NoSuchCast)),
    ("<i4 (1) (5,-1)", Err(NoSuchCast)),
    ("T{<b:x:3x<i:y:} (1) (5,6,7)", Err(NoSuchCast)),
    ("T{b:x:b:y:b:z:} (1) (5,6)", Err(NoSuchCast)),
    ("T{<B:x:2s:t:} (1) (300,1)", Err(NoSuchCast)),
    ("T{<B:x:2s:t:} (1) (300,b'a')", Err(LiteralOutOfRange)),
    ("T{<B:x:2s:t:} (1) 7", Err(NoSuchCast)),
    (
        "T{<b:x:3xT{<i:y:}:s:} (1) (1,(2))",
        Ok(&[1, 0, 0, 0, 2, 0, 0, 0]),
    ),
    ("T{<b:x:3xT{<i:y:}:s:} (1) 5", Ok(&[5, 0, 0, 0, 5, 0, 0, 0])),
    (
        "T{T{T{>h:z:}:y:2s:t:}:x:B:w:} (1) (((258),b'a'),7)",
        Ok(&[1, 2, 97, 0, 7]),
    ),
    ("T{<b:x:3xT{<i:y:}:s:} (1) (1,2)", Err(NoSuchCast)),
    ("T{<b:x:3xT{<i:y:}:s:} (1) ((1),(2))", Err(NoSuchCast)),
    ("T{<b:x:3xT{<i:y:}:s:} (1) (1,(2,3))", Err(NoSuchCast)),
    ("T{<b:x:T{<B:y:}:s:} (1) (1,(300))", Err(LiteralOutOfRange)),
    ("T{T{<B:y:}:s:2s:t:} (1) ((300),1)", Err(NoSuchCast)),
    ("|u1 (1) ((1))", Err(NoSuchCast)),
    ("|u1 (3) 3 True 255", Ok(&[3, 1, 255])),
    (">i2 (2) -2 515", Ok(&[255, 254, 2, 3])),
    ("T{<b:x:x} (2) 1 -1", Ok(&[1, 0, 255, 0])),
    ("T{T{b:y:}:s:b:x:} (2) 7 ((1),2)", Ok(&[7, 7, 1, 2])),
    ("|u1 (2) 3 -1", Err(LiteralOutOfRange)),
    ("|u1 (2) 300 b'a'", Err(NoSuchCast)),
];

/// Bytes or a refusal, as a row has them.
pub fn is_as_told(made: &Result<Vec<u8>, Refusal>, told: &Made) -> bool {
    match (made, told) {
        (Ok(bytes), Ok(told)) => bytes.as_slice() == *told,
        (Err(refusal), Err(told)) => refusal == told,
        _ => false,
    }
}

/// One literal is the same as an item and as items.
fn is_alone(
    rt: &impl Abort,
    alloc: Global,
    descr: &Descr,
    literal: &Literal,
    written: Result<(), Refusal>,
    block: &[u8],
) -> Result<(), AllocError> {
    assert!(rt; can_be_item(descr, literal) == (written != Err(Refusal::NoSuchCast)));
    let mut item = vec![in alloc; 0x55; descr.size()]?;
    assert!(rt; write_item(descr, literal, item.as_mut_slice()) == written);
    assert!(rt; written.is_err() || item.as_slice() == block);
    Ok(())
}

/// The literals as items over bytes that are not zero.
fn items(
    rt: &impl Abort,
    alloc: Global,
    descr: &Descr,
    literals: &[Literal],
) -> Result<Vec<u8>, Refusal> {
    assert!(rt; literals.len() <= 8);
    let mut block = vec![in alloc; 0xaa; literals.len() * descr.size()]?;
    let written = write_items(descr, literals, block.as_mut_slice());
    if let [literal] = literals {
        is_alone(rt, alloc, descr, literal, written, block.as_slice())?;
    }
    written?;
    Ok(block)
}

fn items_of(rt: &impl Abort, alloc: Global, command: &Command) -> Result<Vec<u8>, Refusal> {
    let Command::Bind {
        value: Value::Make {
            descr,
            items: NewItems::Array { values, .. },
        },
        ..
    } = command
    else {
        return Err(Refusal::Syntax);
    };
    let descr = descr_read(alloc, descr.as_slice())?;
    items(rt, alloc, &descr, values.as_slice())
}

/// What a row of the table makes.
fn made(rt: &impl Abort, alloc: Global, text: &str) -> Result<Vec<u8>, Refusal> {
    let command = command_of(rt, alloc, "array", text)?;
    let made = items_of(rt, alloc, &command);
    drop(command);
    made
}

#[test]
fn literals_as_bytes(rt: HostRuntime) {
    for (line, told) in LINES {
        let made = made(&rt, rt.alloc(), line);
        check(&rt, is_as_told(&made, told), line);
    }
}
