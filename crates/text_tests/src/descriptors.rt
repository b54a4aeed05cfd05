//! Descriptors of scripts: type strings and format texts.
use crate::check::check;
use elem_descr::{Refusal, descr_read, format_write};
use std::alloc::Global;
use std::test::Fail;

/// Each text with the format text of what it means.
const READ: &[(&str, &str)] = &[
    ("<i4", "<i"),
    (">i2", ">h"),
    ("|b1", "<?"),
    ("i8", "<q"),
    ("|S5", "<5s"),
    ("=u4", "<I"),
    ("i", "<i"),
    (">h", ">h"),
    ("<5s", "<5s"),
    ("?", "<?"),
    ("T{b:x:i:y:}", "T{<b:x:3x<i:y:}"),
    ("T{<i:x:>h:y:}", "T{<i:x:>h:y:}"),
];

/// Each text with its refusal.
const REFUSED: &[(&str, Refusal)] = &[
    ("S", Refusal::DescriptorLeftOut),
    ("<S", Refusal::DescriptorLeftOut),
    ("S0", Refusal::DescriptorLeftOut),
    ("<f4", Refusal::DescriptorLeftOut),
    ("<i3", Refusal::BadDescriptor),
    ("|S65537", Refusal::TooLarge),
    ("<f", Refusal::DescriptorLeftOut),
    ("U", Refusal::BadDescriptor),
    ("", Refusal::BadDescriptor),
    ("hi", Refusal::DescriptorLeftOut),
];

/// The format text of what a descriptor of a script means.
fn meaning(alloc: Global, text: &str) -> Result<Vec<u8>, Refusal> {
    let descr = descr_read(alloc, text.as_bytes())?;
    let written = format_write(alloc, &descr)?;
    Ok(written)
}

#[test]
fn descriptors_of_scripts(rt: HostRuntime) -> Result<(), Fail> {
    for (text, written) in READ {
        let found = meaning(rt.alloc(), text)?;
        check(&rt, found.as_slice() == written.as_bytes(), text);
    }
    Ok(())
}

#[test]
fn refused_descriptors(rt: HostRuntime) {
    for (text, refusal) in REFUSED {
        let found = meaning(rt.alloc(), text).err();
        check(&rt, found == Some(*refusal), text);
    }
}
