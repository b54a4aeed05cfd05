//! Views of one field of each item.
ghost use Rattle.std.specs.Prelude.{◌≡◌, ℕ, ◌+◌, pos, ◌+ℤ◌, List, IfOk};
ghost use Rattle.view_ops.specs.Clauses.{item_size, field_of, max_bytes, IsIndex, address, Fits, GivesField};

use elem_descr::{Descr, Refusal};
use shape_strides::Layout;
use std::alloc::{AllocError, Global};

/// The view of one field of each item, where the items are those of `descr`: the offsets grow by
/// the offset of the field in an item. A field may be a record. A name that is not a field is
/// refused as `NoSuchField`, and so is any name if the items are not records. A view without items
/// has strides and offset 0.
pub fn field(alloc: Global, layout: &Layout, descr: &Descr, name: &[u8]) -> Result<Layout, Refusal>
    requires { Fits layout.now max_bytes (item_size descr.now) }
    ensures { GivesField layout.now descr.now (field_of descr.now name.now) result }
{
    let Some(k) = descr.leaf_of(name) else {
        return Err(Refusal::NoSuchField);
    };
    let field = descr.field(k);
    let _size = field.descr.size();
    let mut moved = Layout::try_copy(alloc, layout)?;
    if moved.shape.items() == 0 {
        return Ok(moved);
    }
    moved.offset += field.at;
    Ok(moved)
}
