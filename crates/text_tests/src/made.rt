//! Arrays and commands for tests.
use crate::check::check;
use elem_descr::{Descr, Refusal, descr_read};
use raw_block::RawBlock;
use script_lang::{Command, parse};
use shape_strides::{Layout, Shape, Strides};
use std::alloc::Global;
use std::process::Abort;

/// The lengths of the axes, the bytes that they step over, and the first offset.
pub type Numbers = (&'static [usize], &'static [isize], usize);

/// Items of a block.
#[derive(Drop)]
pub struct Array {
    pub descr: Descr,
    pub layout: Layout,
    pub block: RawBlock,
}

fn layout_of(rt: &impl Abort, alloc: Global, numbers: Numbers) -> Result<Layout, Refusal> {
    let (lengths, steps, offset) = numbers;
    let shape = Shape::try_new(alloc, lengths)?;
    let strides = Strides::from_slice(alloc, steps)?;
    let count = strides.as_slice().len();
    check(rt, count == shape.as_slice().len(), "a stride an axis");
    Ok(Layout::new(shape, strides, offset).expect(rt, "no layout"))
}

/// The items of a block of these bytes, with a descriptor as a script gives it.
pub fn array_of(
    rt: &impl Abort,
    alloc: Global,
    descr: &str,
    numbers: Numbers,
    bytes: &[u8],
) -> Result<Array, Refusal> {
    let block = RawBlock::try_copied(alloc, bytes)?;
    let layout = layout_of(rt, alloc, numbers)?;
    let descr = descr_read(alloc, descr.as_bytes())?;
    Ok(Array {
        descr,
        layout,
        block,
    })
}

fn c_order(
    rt: &impl Abort,
    alloc: Global,
    descr: &Descr,
    lengths: &[usize],
) -> Result<Layout, Refusal> {
    let shape = Shape::try_new(alloc, lengths)?;
    check(rt, shape.items() <= 16, "few items");
    Ok(Layout::c_order(alloc, &shape, descr.size())?)
}

/// The items of such a block, one after another in C order.
pub fn c_order_of(
    rt: &impl Abort,
    alloc: Global,
    descr: &str,
    lengths: &[usize],
    bytes: &[u8],
) -> Result<Array, Refusal> {
    let block = RawBlock::try_copied(alloc, bytes)?;
    let descr = descr_read(alloc, descr.as_bytes())?;
    let layout = c_order(rt, alloc, &descr, lengths)?;
    Ok(Array {
        descr,
        layout,
        block,
    })
}

/// What a line asks for that makes `a` by this word and what follows it.
pub fn command_of(
    rt: &impl Abort,
    alloc: Global,
    word: &str,
    rest: &str,
) -> Result<Command, Refusal> {
    let line = format!(in alloc; "a = {word} {rest}")?;
    let bytes = line.as_bytes();
    check(rt, bytes.len() <= 65536, "a short line");
    parse(alloc, bytes)?.ok_or(Refusal::Syntax)
}
