//! Scripts that are read whole and in pieces, and the counts of their commands.
use crate::fakes::in_pieces;
use crate::runs::{DEPTH, check_row, counts};

pub const FIRST_RUN: &[u8] = b"a = zeros <i4 (2,3)\nset a[1,0] = 7\nprint a\n";

pub const FIRST_REPLIES: &[u8] = b"ok a <i4 (2, 3) new\nok set 1\n[[0 0 0]\n [7 0 0]]\n";

/// Scripts and their replies.
const ROWS: [(&[u8], &[u8]); 3] = [
    (FIRST_RUN, FIRST_REPLIES),
    (b"", b""),
    // Carriage returns, blank lines, comments, blanks at both ends, and no newline at the end.
    (
        b"a = zeros <i8 ()\r\n\r\n \t\n  # \x80 is no matter here\n \tset a[ ] = 1\n  print\ta \nprint a",
        b"ok a <i8 () new\nno E03 syntax\n0\n0\n",
    ),
];

#[test]
fn the_pieces_of_a_script_make_no_difference(rt: HostRuntime) {
    for (script, replies) in &ROWS {
        for most in [1, 2, 7, 4096] {
            let mut reader = in_pieces(script, most);
            check_row(&rt, rt.alloc(), &mut reader, replies, DEPTH);
        }
    }
}

/// Scripts, and how many of their commands are accepted and how many refused. A blank line or a comment is neither.
const COUNTED: &[(&[u8], (u64, u64))] = &[
    (b"", (0, 0)),
    (FIRST_RUN, (3, 0)),
    (b"print q\n", (0, 1)),
    (
        b"# note\n\n \t\na = zeros <i4 (2)\nset b = 1\nundo\nundo\nnames",
        (3, 2),
    ),
];

#[test]
fn commands_are_counted(rt: HostRuntime) {
    for (script, told) in COUNTED {
        let mut reader = *script;
        let mut replies = Vec::new(rt.alloc());
        assert_eq!(rt;
            counts(rt.alloc(), &mut reader, &mut replies, DEPTH),
            Ok(*told)
        );
    }
}
