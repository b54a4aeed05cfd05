//! Replaces a file: writes it under a hidden name, then renames it.
ghost use Rattle.std.specs.Prelude.{◌≡◌, ◌≢◌, ◌++◌, IsTrue, OnOk, IsErrOf};
ghost use Rattle.npy_files.specs.Clauses.{get, Failed, Device, Memory, TooLong, SameBut, Leaves, HasCause, ChangesOnly, Replaces, Appends, AlwaysHas};

use crate::store::StoreFault;
use disk::{Disk, DiskFault};

/// Appends two parts to a file, and syncs it to the disk.
fn fill<D: Disk>(
    disk: &mut D,
    file: &mut D::File,
    front: &[u8],
    items: &[u8],
) -> Result<(), DiskFault>
    requires { IsTrue D.honest → (D.state disk.old).IsCurrent file.old }
    ensures filled { IsTrue D.honest →
        OnOk result (Appends (front.now ++ items.now)
        (get (D.state disk.old).files (D.name_of file.old))
        (get (D.state disk.new).files (D.name_of file.old))) }
    ensures synced { IsTrue D.honest → OnOk result ((D.state disk.new).Synced (D.name_of file.old)) }
    ensures others { IsTrue D.honest →
        ChangesOnly D.name_of (D.name_of file.old) (D.state disk.old) (D.state disk.new) }
    ensures cause { HasCause Failed (D.failures disk.old) (D.failures disk.new) result }
{
    disk.append(file, front)?;
    disk.append(file, items)?;
    disk.sync(file)
}

/// Makes a file of two parts that is to replace another, and syncs its bytes to the disk. The file
/// stays open: while it is, no other program takes it for a leftover. If this fails, the file is
/// removed again, unless the disk cannot do that either.
fn stage<D: Disk>(
    disk: &mut D,
    name: &[u8],
    place: &[u8],
    front: &[u8],
    items: &[u8],
) -> Result<D::File, DiskFault>
    ensures staged { IsTrue D.honest →
        OnOk result (get (D.state disk.new).files name.now ≡ Some (front.now ++ items.now)) }
    ensures synced { IsTrue D.honest → OnOk result ((D.state disk.new).Synced name.now) }
    ensures others { IsTrue D.honest →
        ChangesOnly D.name_of name.now (D.state disk.old) (D.state disk.new) }
    ensures cause { HasCause Failed (D.failures disk.old) (D.failures disk.new) result }
{
    let mut file = disk.create(name, place)?;
    match fill(disk, &mut file, front, items) {
        Ok(()) => Ok(file),
        Err(fault) => {
            let _ = disk.remove(name);
            Err(fault)
        }
    }
}

/// Replaces the file with this name by a file of two parts. A crash leaves one or the other.
pub(crate) fn put<D: Disk>(
    disk: &mut D,
    hidden: &[u8],
    name: &[u8],
    front: &[u8],
    items: &[u8],
) -> Result<(), StoreFault>
    requires { name.now ≢ hidden.now }
    ensures replaced { IsTrue D.honest →
        OnOk result (get (D.state disk.new).files name.now ≡ Some (front.now ++ items.now)) }
    ensures lasting { IsTrue D.honest → OnOk result
        (AlwaysHas (D.state disk.new).history name.now (Some (front.now ++ items.now))) }
    ensures others { IsTrue D.honest →
        Replaces hidden.now name.now (Some (front.now ++ items.now))
        (D.state disk.old).files (D.state disk.new).files }
    ensures crash { IsTrue D.honest →
        Leaves (Replaces hidden.now name.now (Some (front.now ++ items.now)))
        (D.state disk.old).history (D.state disk.new).history }
    ensures memory { IsTrue D.honest → IsErrOf result Memory →
        SameBut hidden.now (D.state disk.old).files (D.state disk.new).files }
    ensures cause { HasCause Device (D.failures disk.old) (D.failures disk.new) result }
    ensures long { ¬ IsErrOf result TooLong }
{
    let _file = stage(disk, hidden, name, front, items)?;
    if let Err(fault) = disk.rename(hidden, name) {
        let _ = disk.remove(hidden);
        return Err(StoreFault::from(fault));
    }
    disk.sync_names()?;
    Ok(())
}
