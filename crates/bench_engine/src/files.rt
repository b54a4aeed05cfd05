//! `save X "f"` and `X = load "f"`: write an array to a file, and bind a name to the array in a
//! file.
ghost use Rattle.std.specs.Prelude.{◌≡◌, ◌++◌, codes, decimal, OnOk};
ghost use Rattle.bench_engine.specs.Clauses.{store_refusal, world, bound_loaded, Save, Bind, has_room_for, Load, MayAnswer, Carried, CarriesOut, Counts};
ghost use Rattle.bench_engine.specs.declared.replies.Origin.TheVariants as origin;
ghost use Rattle.bench_engine.specs.Clauses.{bound_text, held, Finds};

use crate::index_list::named_array;
use crate::replies::{Origin, set_bound_text};
use crate::reply_text::ReplyText;
use arrays::Owned;
use elem_descr::{Name, Refusal};
use itoa::Buffer;
use name_store::{Bench, Bound};
use npy_files::{NpyStore, StoreFault, npy_load, npy_parts};
use script_lang::FileName;
use std::alloc::{AllocError, Global};

/// The refusal for a fault of the store.
fn refusal_of(fault: StoreFault) -> Refusal
    ensures { result ≡ store_refusal fault }
{
    match fault {
        StoreFault::Device => Refusal::StoreFault,
        StoreFault::TooLong => Refusal::FileTooLong,
        StoreFault::Memory => Refusal::OutOfMemory,
    }
}

/// Writes a name's array to a file. If the command is refused without the store, the store is not
/// asked.
pub fn save<N: NpyStore>(
    bench: &Bench,
    store: &mut N,
    name: &Name,
    file: &FileName,
    out: &mut ReplyText,
) -> Result<(), Refusal>
    ensures { Carried (MayAnswer (world bench.now.state (N.shelf store.old))
        (Save name.now file.now) (world bench.now.state (N.shelf store.new)))
        out.new result }
{
    let array = named_array(bench, name, None)?;
    let alloc = out.allocator();
    let parts = npy_parts(alloc, array.block, array.layout, array.descr)?;
    let front = parts.front.as_slice();
    match store.write_parts(alloc, file.as_slice(), front, parts.items) {
        Ok(()) => {
            let mut buffer = Buffer::new();
            let len = front.len() + parts.items.len();
            out.set(b"ok save ", buffer.format(len).as_bytes());
            Ok(())
        }
        Err(fault) => Err(refusal_of(fault)),
    }
}

/// The array in a file, and the number of bytes that follow it.
fn find<N: NpyStore>(
    alloc: Global,
    store: &mut N,
    file: &FileName,
) -> Result<(Owned, usize), Refusal>
    ensures { Finds (N.shelf store.old) (N.shelf store.new) file.now result }
{
    match store.read_parts(alloc, file.as_slice()) {
        Ok(Some(parts)) => npy_load(alloc, parts),
        Ok(None) => Err(Refusal::NoSuchFile),
        Err(fault) => Err(refusal_of(fault)),
    }
}

/// Makes `ok X DESCR SHAPE new rest N` the reply.
fn set_loaded_text(
    out: &mut ReplyText,
    name: &Name,
    owned: &Owned,
    rest: usize,
) -> Result<(), AllocError>
    ensures { OnOk result
        (out.new ≡ bound_text name.now owned.now.descr owned.now.layout.shape origin.New
        ++ (codes " rest " ++ decimal rest)) }
{
    set_bound_text(out, name, &owned.descr, &owned.layout.shape, Origin::New)?;
    let alloc = out.allocator();
    let text = format!(in alloc; " rest {rest}")?;
    out.push(text.as_bytes())
}

/// Binds a name to the array in a file. The store is asked only if there is room for the name. The
/// reply is made before the change, which is the last step that may run out of memory.
pub fn load<N: NpyStore>(
    bench: &mut Bench,
    store: &mut N,
    name: &Name,
    file: &FileName,
    out: &mut ReplyText,
) -> Result<(), Refusal>
    ensures answers { Carried (MayAnswer (world bench.old.state (N.shelf store.old))
        (Bind name.now (Load file.now)) (world bench.new.state (N.shelf store.new)))
        out.new result }
    ensures patches { Counts 0 bench.old result bench.new }
{
    if !bench.has_room_for(name) {
        return Err(Refusal::TooManyNames);
    }
    let (owned, rest) = find(out.allocator(), store, file)?;
    set_loaded_text(out, name, &owned, rest)?;
    bench.bind(name, Bound::Fresh(owned))
}
