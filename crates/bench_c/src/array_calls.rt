//! The calls for arrays: what is known about one, its items, and a new one.
ghost use Rattle.std.specs.Prelude.{◌≡◌, IsSome};
ghost use Rattle.bench_c.specs.Clauses.{StaysOpen, GivesAsked, GivesInfo, PutsArray, given_contents, in_form, info_called, items_called, numbers_called, refusal_text, shape_called, type_called};
ghost use Rattle.bench_c.specs.declared.status.Status.TheVariants.{Refused};

use crate::asked::{Form, array_called, items_called, type_called};
use crate::copying::copy_out;
use crate::given::{GivenArray, bind_given};
use crate::handle::Handle;
use crate::open_bench::OpenBench;
use crate::status::Status;
use bench_engine::ReplyText;
use elem_descr::Refusal;
use script_lang::word;
use std::alloc::Global;
use std::mem;

/// What is known about an array: how many items it has, how many bytes an item has, and whether it
/// may be written.
#[repr(C)]
#[derive(Clone, Copy, Drop)]
pub struct Info {
    pub items: usize,
    pub item_size: usize,
    pub writable: bool,
}

/// Makes a refusal the reply.
fn refuse(reply: &mut ReplyText, refusal: Refusal) -> Status
    ensures reply { reply.new ≡ refusal_text refusal }
    ensures status { result ≡ Refused }
{
    reply.set(word(refusal), b"");
    Status::Refused
}

impl OpenBench {
    fn give_shape(&mut self, name: &[u8], out: &mut [usize], len: &mut usize) -> Status
        ensures { GivesAsked (shape_called name.now) out.old out.new len.new
            self.old self.new result }
    {
        *len = 0;
        match array_called(self.reply.allocator(), &self.bench, name) {
            Ok(array) => copy_out(array.layout.shape.as_slice(), out, len),
            Err(refusal) => refuse(&mut self.reply, refusal),
        }
    }

    fn give_type(&mut self, name: &[u8], out: &mut [u8], len: &mut usize) -> Status
        ensures { GivesAsked (type_called name.now) out.old out.new len.new
            self.old self.new result }
    {
        *len = 0;
        match type_called(self.reply.allocator(), &self.bench, name) {
            Ok(text) => copy_out(text.as_slice(), out, len),
            Err(refusal) => refuse(&mut self.reply, refusal),
        }
    }

    fn give_info(&mut self, name: &[u8], info: &mut Info) -> Status
        ensures { GivesInfo (info_called name.now) info.old info.new self.old self.new result }
    {
        match array_called(self.reply.allocator(), &self.bench, name) {
            Ok(array) => {
                *info = Info {
                    items: array.layout.shape.items(),
                    item_size: array.descr.size(),
                    writable: array.writable,
                };
                Status::Done
            }
            Err(refusal) => refuse(&mut self.reply, refusal),
        }
    }

    fn give_items(&mut self, name: &[u8], form: Form, out: &mut [u8], len: &mut usize) -> Status
        ensures { GivesAsked (in_form form name.now) out.old out.new len.new
            self.old self.new result }
    {
        *len = 0;
        match items_called(self.reply.allocator(), &self.bench, name, form) {
            Ok(owned) => copy_out(owned.block.bytes(), out, len),
            Err(refusal) => refuse(&mut self.reply, refusal),
        }
    }

    fn put_array(&mut self, name: &[u8], array: &GivenArray<'_>) -> Status
        ensures { PutsArray name.now
            (given_contents array.now.descr.now array.now.shape.now array.now.items.now)
            self.old self.new result }
    {
        match bind_given(&mut self.bench, name, array, &mut self.reply) {
            Ok(()) => Status::Done,
            Err(refusal) => refuse(&mut self.reply, refusal),
        }
    }
}

/// Copies the lengths of an array's axes if there is room for all of them, and sets their number in
/// any case.
#[unsafe(no_mangle)]
pub extern "C" fn bench_c_shape(
    alloc: Global,
    handle: &mut Handle,
    name: &[u8],
    out: &mut [usize],
    len: &mut usize,
) -> u8
    requires { IsSome handle.old.value }
    ensures { StaysOpen (GivesAsked (shape_called name.now) out.old out.new len.new)
        handle.old.value handle.new.value result }
{
    let mut bench = mem::replace(handle, Handle::closed(alloc)).into_box();
    let status = bench.give_shape(name, out, len);
    *handle = Handle::of(bench);
    status.code()
}

/// Copies an array's element type as a text, as `bench_c_shape` copies lengths.
#[unsafe(no_mangle)]
pub extern "C" fn bench_c_type(
    alloc: Global,
    handle: &mut Handle,
    name: &[u8],
    out: &mut [u8],
    len: &mut usize,
) -> u8
    requires { IsSome handle.old.value }
    ensures { StaysOpen (GivesAsked (type_called name.now) out.old out.new len.new)
        handle.old.value handle.new.value result }
{
    let mut bench = mem::replace(handle, Handle::closed(alloc)).into_box();
    let status = bench.give_type(name, out, len);
    *handle = Handle::of(bench);
    status.code()
}

/// Sets what is known about an array.
#[unsafe(no_mangle)]
pub extern "C" fn bench_c_info(
    alloc: Global,
    handle: &mut Handle,
    name: &[u8],
    info: &mut Info,
) -> u8
    requires { IsSome handle.old.value }
    ensures { StaysOpen (GivesInfo (info_called name.now) info.old info.new)
        handle.old.value handle.new.value result }
{
    let mut bench = mem::replace(handle, Handle::closed(alloc)).into_box();
    let status = bench.give_info(name, info);
    *handle = Handle::of(bench);
    status.code()
}

/// Copies the items of an array of bools or integers in C order, each as an integer of eight bytes,
/// the lowest first, if there is room for all of them, and sets the number of bytes in any case.
#[unsafe(no_mangle)]
pub extern "C" fn bench_c_items(
    alloc: Global,
    handle: &mut Handle,
    name: &[u8],
    out: &mut [u8],
    len: &mut usize,
) -> u8
    requires { IsSome handle.old.value }
    ensures { StaysOpen (GivesAsked (numbers_called name.now) out.old out.new len.new)
        handle.old.value handle.new.value result }
{
    let mut bench = mem::replace(handle, Handle::closed(alloc)).into_box();
    let status = bench.give_items(name, Form::Number, out, len);
    *handle = Handle::of(bench);
    status.code()
}

/// Copies the items of an array in C order, each in the bytes of its own type, as `bench_c_items`
/// does.
#[unsafe(no_mangle)]
pub extern "C" fn bench_c_get_array(
    alloc: Global,
    handle: &mut Handle,
    name: &[u8],
    out: &mut [u8],
    len: &mut usize,
) -> u8
    requires { IsSome handle.old.value }
    ensures { StaysOpen (GivesAsked (items_called name.now) out.old out.new len.new)
        handle.old.value handle.new.value result }
{
    let mut bench = mem::replace(handle, Handle::closed(alloc)).into_box();
    let status = bench.give_items(name, Form::Own, out, len);
    *handle = Handle::of(bench);
    status.code()
}

/// Binds a name to a new array of this type and this shape, whose items have these bytes. The reply
/// is that of a command that makes an array.
#[unsafe(no_mangle)]
pub extern "C" fn bench_c_put_array(
    alloc: Global,
    handle: &mut Handle,
    name: &[u8],
    array: &GivenArray<'_>,
) -> u8
    requires { IsSome handle.old.value }
    ensures { StaysOpen (PutsArray name.now
        (given_contents array.now.descr.now array.now.shape.now array.now.items.now))
        handle.old.value handle.new.value result }
{
    let mut bench = mem::replace(handle, Handle::closed(alloc)).into_box();
    let status = bench.put_array(name, array);
    *handle = Handle::of(bench);
    status.code()
}
