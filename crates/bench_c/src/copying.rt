//! Bytes copied to a caller.
ghost use Rattle.std.specs.Prelude.{◌≡◌};
ghost use Rattle.std.specs.Option.{option_map};
ghost use Rattle.bench_c.specs.Benches.{CopiesOut, CopiesOutIfAny};

use crate::status::Status;

/// Copies bytes or numbers to `out` if they fit, and sets `len` to how many they are in any case.
pub fn copy_out<T: Copy>(given: &[T], out: &mut [T], len: &mut usize) -> Status
    ensures { CopiesOut given.now out.old out.new len.new result }
{
    *len = given.len();
    if given.len() > out.len() {
        return Status::NoRoom;
    }
    let (front, _) = out.split_at_mut(given.len());
    front.copy_from_slice(given);
    Status::Done
}

/// The same if there are such bytes. Otherwise, `len` is set to 0.
pub fn copy_if_any(bytes: Option<&[u8]>, out: &mut [u8], len: &mut usize) -> Status
    ensures { CopiesOutIfAny (option_map (λ b. b.now) bytes.entry) out.old out.new len.new result }
{
    match bytes {
        Some(bytes) => copy_out(bytes, out, len),
        None => {
            *len = 0;
            Status::NoFile
        }
    }
}
