//! `print X`, `info X`, `format X`, `names`, `shares X Y`: questions, which change nothing.
ghost use Rattle.std.specs.Prelude.{◌≡◌, OnOk};
ghost use Rattle.bench_engine.specs.Clauses.{list_all, is_bound, offsets, bound_in_question, question_outcome, CarriesOut, info_text, order_text, yes_or_no, names_text};

use crate::index_list::named_array;
use crate::replies::set_array_words;
use crate::reply_text::ReplyText;
use elem_descr::{Descr, Name, Refusal, format_write};
use name_store::Bench;
use script_lang::Question;
use shape_strides::Layout;
use std::alloc::AllocError;

/// The memory orders in which items of `item` bytes are contiguous.
fn order_text(layout: &Layout, item: usize) -> &'static [u8]
    ensures { result.now ≡ order_text item layout.now.shape (offsets layout.now) }
{
    match (layout.is_c(item), layout.is_f(item)) {
        (true, true) => b"CF",
        (true, false) => b"C",
        (false, true) => b"F",
        (false, false) => b"-",
    }
}

/// `yes` or `no`.
fn yes_or_no(is: bool) -> &'static [u8]
    ensures { result.now ≡ yes_or_no is }
{
    if is { b"yes" } else { b"no" }
}

/// Makes the reply of `info`.
fn set_info_text(
    out: &mut ReplyText,
    name: &Name,
    descr: &Descr,
    layout: &Layout,
    writable: bool,
) -> Result<(), AllocError>
    ensures { OnOk result (out.new
        ≡ info_text name.now descr.now layout.now.shape (offsets layout.now) writable) }
{
    set_array_words(out, b"info ", name, descr, &layout.shape)?;
    let alloc = out.allocator();
    let strides = Layout::printed_strides(alloc, layout)?;
    let address = layout.first_address();
    let text = format!(in alloc; " strides {strides} at {address} order ")?;
    out.push(text.as_bytes())?;
    out.push(order_text(layout, descr.size()))?;
    out.push(b" write ")?;
    out.push(yes_or_no(writable))
}

/// Makes `names` the reply, followed by each name in the order in which they were first bound.
fn set_names_text(bench: &Bench, out: &mut ReplyText) -> Result<(), AllocError>
    ensures { OnOk result (out.new ≡ names_text bench.now.state) }
{
    out.set(b"names", b"");
    for k in 0..bench.len() {
        out.push(b" ")?;
        out.push(bench.name_at(k))?;
    }
    Ok(())
}

/// Answers a question.
pub fn reply(bench: &Bench, question: &Question, out: &mut ReplyText) -> Result<(), Refusal>
    ensures { CarriesOut
        (list_all (is_bound bench.now.state) (bound_in_question question.now))
        (λ choice. question_outcome bench.now.state question.now)
        bench.now.state bench.now.state out.new result }
{
    match question {
        Question::Print { name } => {
            let array = named_array(bench, name, None)?;
            Ok(out.print(array.block.bytes(), array.layout, array.descr)?)
        }
        Question::Info { name } => {
            let array = named_array(bench, name, None)?;
            Ok(set_info_text(out, name, array.descr, array.layout, array.writable)?)
        }
        Question::Format { name } => {
            let array = named_array(bench, name, None)?;
            let text = format_write(out.allocator(), array.descr)?;
            out.set(b"format ", b"");
            Ok(out.push(text.as_slice())?)
        }
        Question::Names => Ok(set_names_text(bench, out)?),
        Question::Shares { left, right } => {
            let yes = bench.shares(left, right)?;
            out.set(b"shares ", yes_or_no(yes));
            Ok(())
        }
    }
}
