//! The bench for C: a bench with its files in memory, behind a handle, and a call for each line.
//!
//! `library/bench.c` makes these calls, and first checks what they require: that no pointer is
//! null, and that the handle is open. `library/bench.h` documents the library.
#![tactic(auto)]

ghost use Rattle.std.specs.Prelude.{◌≡◌, ◌≤◌, ◌++◌, IsSome, IfOk, None};
ghost use Rattle.bench_c.specs.Benches.{IsJustOpened};
ghost use Rattle.bench_c.specs.Calls.{Opens, AnswersBehind, PutsBehind, GivesReply, GivesFile, GivesNextName};

mod array_calls;
mod asked;
mod copying;
mod given;
mod handle;
mod open_bench;
mod parts;
mod status;

use copying::{copy_if_any, copy_out};
use handle::Handle;
use open_bench::OpenBench;
use status::Status;
use std::alloc::{AllocError, Global};
use std::mem;

/// The most earlier states that a bench keeps.
const MAX_DEPTH: usize = 64;

/// A bench on the heap that keeps up to `depth` earlier states.
fn opened(alloc: Global, depth: usize) -> Result<Box<OpenBench>, AllocError>
    requires { depth ≤ 64 }
    ensures { IfOk result (λ bench. IsJustOpened depth bench.value) }
{
    Ok(Box::new(alloc, OpenBench::new(alloc, depth)?)?)
}

/// Opens a bench that keeps up to `depth` earlier states, which may be at most 64. What the handle
/// held before is not closed.
#[unsafe(no_mangle)]
pub extern "C" fn bench_c_open(alloc: Global, depth: usize, handle: &mut Handle) -> u8
    ensures { Opens depth handle.new.value result }
{
    *handle = Handle::closed(alloc);
    if depth > MAX_DEPTH {
        return Status::Invalid.code();
    }
    match opened(alloc, depth) {
        Ok(bench) => {
            *handle = Handle::of(bench);
            Status::Done.code()
        }
        Err(_) => Status::NoMemory.code(),
    }
}

/// Answers a line, given without its newline.
#[unsafe(no_mangle)]
pub extern "C" fn bench_c_answer(alloc: Global, handle: &mut Handle, line: &[u8]) -> u8
    requires { IsSome handle.old.value }
    ensures { AnswersBehind handle.old.value line.now handle.new.value result }
{
    let mut bench = mem::replace(handle, Handle::closed(alloc)).into_box();
    let status = bench.answer(line);
    *handle = Handle::of(bench);
    status.code()
}

/// Copies the reply to the last line if there is room for all of it, and sets its length in any
/// case.
#[unsafe(no_mangle)]
pub extern "C" fn bench_c_reply(
    alloc: Global,
    handle: &mut Handle,
    out: &mut [u8],
    len: &mut usize,
) -> u8
    requires { IsSome handle.old.value }
    ensures given { GivesReply handle.old.value out.old out.new len.new result }
    ensures kept { handle.new.value ≡ handle.old.value }
{
    let bench = mem::replace(handle, Handle::closed(alloc)).into_box();
    let status = copy_out(bench.reply.as_slice(), out, len);
    *handle = Handle::of(bench);
    status.code()
}

/// Puts a file where `load` finds it, over the one with this name if there is one. Its bytes are
/// `front`, and after them `items`.
#[unsafe(no_mangle)]
pub extern "C" fn bench_c_put(
    alloc: Global,
    handle: &mut Handle,
    name: &[u8],
    front: &[u8],
    items: &[u8],
) -> u8
    requires { IsSome handle.old.value }
    ensures { PutsBehind handle.old.value name.now
        (front.now ++ items.now) handle.new.value result }
{
    let mut bench = mem::replace(handle, Handle::closed(alloc)).into_box();
    let status = bench.put(alloc, name, front, items);
    *handle = Handle::of(bench);
    status.code()
}

/// Copies the bytes of a file if there is room for all of them, and sets their number in any case.
#[unsafe(no_mangle)]
pub extern "C" fn bench_c_get(
    alloc: Global,
    handle: &mut Handle,
    name: &[u8],
    out: &mut [u8],
    len: &mut usize,
) -> u8
    requires { IsSome handle.old.value }
    ensures given { GivesFile handle.old.value name.now out.old out.new len.new result }
    ensures kept { handle.new.value ≡ handle.old.value }
{
    let bench = mem::replace(handle, Handle::closed(alloc)).into_box();
    let status = copy_if_any(bench.files.bytes_of(name), out, len);
    *handle = Handle::of(bench);
    status.code()
}

/// Copies the first of the files' names that come after this one, in the order of their bytes, if
/// there is room for it, and sets its length in any case. All names come after the empty one.
#[unsafe(no_mangle)]
pub extern "C" fn bench_c_file(
    alloc: Global,
    handle: &mut Handle,
    after: &[u8],
    out: &mut [u8],
    len: &mut usize,
) -> u8
    requires { IsSome handle.old.value }
    ensures given { GivesNextName handle.old.value after.now out.old out.new len.new result }
    ensures kept { handle.new.value ≡ handle.old.value }
{
    let bench = mem::replace(handle, Handle::closed(alloc)).into_box();
    let status = copy_if_any(bench.files.next_name(after), out, len);
    *handle = Handle::of(bench);
    status.code()
}

/// Closes a bench: its names, arrays and files are dropped, and the handle then holds no bench.
#[unsafe(no_mangle)]
pub extern "C" fn bench_c_close(alloc: Global, handle: &mut Handle)
    requires { IsSome handle.old.value }
    ensures { handle.new.value ≡ None }
{
    drop(mem::replace(handle, Handle::closed(alloc)).into_box());
}
