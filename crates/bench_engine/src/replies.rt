//! Parts of replies that several commands use.
ghost use Rattle.std.specs.Prelude.{codes, ◌≡◌, ◌≤◌, ◌++◌, length, OnOk};
ghost use Rattle.bench_engine.specs.Clauses.{descr_text, array_words, origin_word, bound_text};
ghost use Rattle.bench_engine.specs.Words.{shape_text};

use crate::reply_text::ReplyText;
use elem_descr::{Descr, Name, format_write, typestr_write};
use shape_strides::Shape;
use std::alloc::AllocError;
use std::fmt::Write;

/// Appends a blank and a shape.
fn push_shape(out: &mut ReplyText, shape: &Shape) -> Result<(), AllocError>
    ensures { OnOk result (out.new ≡ out.old ++ (codes " " ++ shape_text shape.now)) }
{
    write!(out, " {shape}").map_err(|_| AllocError)
}

/// Makes `HEAD X DESCR SHAPE` the reply.
pub fn set_array_words(
    out: &mut ReplyText,
    head: &[u8],
    name: &Name,
    descr: &Descr,
    shape: &Shape,
) -> Result<(), AllocError>
    requires { length head.now ≤ 8 }
    ensures { OnOk result (out.new ≡ head.now ++ array_words name.now descr.now shape.now) }
{
    let alloc = out.allocator();
    let descr = match descr {
        Descr::Scalar(scalar) => typestr_write(alloc, *scalar)?,
        Descr::Record(_) => format_write(alloc, descr)?,
    };
    out.set(head, name.as_slice());
    out.push(b" ")?;
    out.push(descr.as_slice())?;
    push_shape(out, shape)
}

/// What a name is bound to: a new array, a view of another, or a copy of its items.
#[derive(Clone, Copy)]
pub enum Origin {
    New,
    View,
    Copy,
}

/// Makes `ok X DESCR SHAPE ORIGIN` the reply.
pub fn set_bound_text(
    out: &mut ReplyText,
    name: &Name,
    descr: &Descr,
    shape: &Shape,
    origin: Origin,
) -> Result<(), AllocError>
    ensures { OnOk result (out.new ≡ bound_text name.now descr.now shape.now origin) }
{
    set_array_words(out, b"ok ", name, descr, shape)?;
    let word: &[u8] = match origin {
        Origin::New => b" new",
        Origin::View => b" view",
        Origin::Copy => b" copy",
    };
    out.push(word)
}
