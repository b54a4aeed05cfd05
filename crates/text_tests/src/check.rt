//! An assertion. A call of it is cheaper to prove than the macro where it stands.
ghost use Rattle.std.specs.Prelude.{IsTrue};

use std::process::Abort;

pub(crate) fn check(rt: &impl Abort, holds: bool, what: &str)
    ensures { IsTrue holds }
{
    assert!(rt; holds, "{what}");
}
