//! The code and the text of each refusal.
use crate::check::check;
use elem_descr::Refusal;
use std::test::Fail;

const TEXTS: &[(Refusal, &str)] = &[
    (Refusal::LineTooLong, "E01 line too long"),
    (Refusal::ByteNotAllowed, "E02 byte not allowed"),
    (Refusal::Syntax, "E03 syntax"),
    (Refusal::BadDescriptor, "E04 bad descriptor"),
    (Refusal::DescriptorLeftOut, "E05 descriptor left out"),
    (Refusal::UnknownName, "E06 unknown name"),
    (Refusal::TooManyNames, "E07 too many names"),
    (Refusal::TooManyAxes, "E08 too many axes"),
    (Refusal::TooLarge, "E09 too large"),
    (Refusal::TooManyIndices, "E10 too many indices"),
    (Refusal::IndexOutOfRange, "E11 index out of range"),
    (Refusal::ZeroStep, "E12 zero step"),
    (Refusal::MaskLengths, "E13 mask lengths"),
    (Refusal::NotAnIndexType, "E14 not an index type"),
    (Refusal::IndexShapes, "E15 index shapes"),
    (Refusal::ShapesDoNotBroadcast, "E16 shapes do not broadcast"),
    (Refusal::BadAxis, "E17 bad axis"),
    (Refusal::BadReshape, "E18 bad reshape"),
    (Refusal::NoSuchField, "E19 no such field"),
    (Refusal::ReadOnly, "E20 read-only"),
    (Refusal::NeedsFloats, "E21 needs floats"),
    (Refusal::NotForThisKind, "E22 not for this kind"),
    (Refusal::LiteralOutOfRange, "E23 literal out of range"),
    (Refusal::NotSameKind, "E24 not same kind"),
    (Refusal::EmptyReduction, "E25 empty reduction"),
    (Refusal::NothingToUndo, "E26 nothing to undo"),
    (Refusal::StoreFault, "E27 store fault"),
    (Refusal::BadMagic, "E28 bad magic"),
    (Refusal::BadVersion, "E29 bad version"),
    (Refusal::BadHeader, "E30 bad header"),
    (Refusal::Truncated, "E31 truncated"),
    (Refusal::NumberOfValues, "E32 number of values"),
    (Refusal::NoSuchCast, "E33 no such cast"),
    (Refusal::NoSuchFile, "E34 no such file"),
    (Refusal::FileTooLong, "E35 file too long"),
    (Refusal::OutOfMemory, "E40 out of memory"),
];

#[test]
fn texts(rt: HostRuntime) -> Result<(), Fail> {
    for (refusal, text) in TEXTS {
        let shown = format!(in rt.alloc(); "{refusal}")?;
        check(&rt, shown.as_str() == *text, text);
    }
    Ok(())
}
