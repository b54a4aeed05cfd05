//! The arguments of the command line, and the help.
ghost use Rattle.std.specs.Prelude.{◌≡◌, ◌≤◌, ℕ, List, codes, map, option_map, string_bytes, IfOk, IfErr};
ghost use Rattle.clap.specs.Words.{app_of, rule_of};
ghost use Rattle.host_process.specs.CommandLine.{AreSaid, command_line, dir_rule, script_rule, undo_rule};
ghost use Rattle.host_process.specs.inside.Depths.{IsDepth, IsNamed, TakesDepth};
ghost use Rattle.host_process.specs.Faults.{IsToldApart};

use crate::words::{Options, OptionsFault};
use clap::error::ErrorKind;
use clap::{Arg, Command, Error, value_parser};
use std::alloc::{AllocError, Global};
use std::env::Env;
use std::{env, io};

/// The commands, for the help.
const COMMANDS: &str = "Commands, one per line:
  X = zeros D S         makes an array of zeros, as in a = zeros <i4 (2,3)
  X = full D S L        fills an array with one literal, as in a = full |u1 (4) 255
  X = arange D a b s    makes an array of the integers a, a+s, .. before b
  X = array D S L..     makes an array of literals, as in r = array T{<h:x:?:on:} (2) (5,True) 0
  X = Y                 gives the same items a second name; a write through one shows in both
  X = Y[ix]             selects items, as in b = a[1,:], c = a[::-1], d = a[...,0,None]
  X = field Y \"f\"       selects one field of each record, as in y = field r \"y\"
  X = transpose Y (..)  puts the axes in this order; without a list, reverses them
  X = reshape Y S       changes the shape, as in m = reshape a (2,-1); copies only if it must
  X = broadcast Y S     repeats the items in a larger shape, read-only
  X = copy Y C, or F    copies the items, in C order or in Fortran order
  X = cast Y D          converts the items to type D
  X = OP Y Z            calculates or compares item by item, as in c = sub a b[0], m = lt a 5
  X = UN Y              calculates item by item, as in b = neg a
  X = RED Y [axis]      reduces all items, or those along an axis, as in s = sum m, t = max m 0;
                        a final keep keeps that axis, with length 1
  X = load \"f\"          reads an array from the NPY file f
  save X \"f\"            writes an array to the NPY file f
  set X[ix] = L         writes a literal to items of X, as in set a[1,-1] = 7
  set X[ix] = Y[iy]     writes items of Y to items of X; all are read before any is written
  upd X[ix] OP Z        updates items of X by an operation, as in upd a[1:] add a[:-1]
  del X                 unbinds X
  undo                  takes back the last change to names or items that still stands
  names                 lists the names in the order in which they were first bound
  print X, format X     prints the items; prints the format text of their type
  info X                shows strides and start in bytes, order, and whether X is writable
  shares X Y            says whether X and Y have an item in common
  # ..                  is a comment

D is a type string (<i4, >u2, |b1, |S5) or a format text of PEP 3118 (T{<i:x:>h:y:}).
L is an integer, True, False, a byte string such as b'a\\x00', or a record such as (1,b'x').
OP is one of add sub mul fdiv mod and or xor shl shr div, or of the comparisons eq ne lt le gt ge.
UN is one of neg not, RED one of sum prod min max any all argmin argmax.
After OP and UN, Y and Z may be indexed, as in a[1:], and Z may be a literal.

A refused command changes nothing. Its reply is `no`, a code and the reason.
Exit status: 0 if all commands were accepted, 1 if one was refused, 2 for invalid arguments,
3 if the run could not go on.";

/// The default folder.
const THIS_FOLDER: &str = ".";

/// The default number of earlier states that are kept.
const DEPTH: u8 = 16;

/// The message for an argument that is not UTF-8.
const NO_TEXT: &str = "invalid UTF-8 was detected in one or more arguments";

/// The argument that names the folder.
fn folder_argument<'a>(alloc: Global) -> Arg<'a>
    ensures named { IsNamed (codes "dir") result }
    ensures rule { rule_of result ≡ dir_rule }
{
    Arg::new(alloc, "dir")
        .long("dir")
        .value_name("DIR")
        .default_value(THIS_FOLDER)
        .help("The folder for load and save")
}

/// The argument for how many earlier states are kept.
fn depth_argument<'a>(alloc: Global) -> Arg<'a>
    ensures depth { IsDepth result }
    ensures rule { rule_of result ≡ undo_rule }
{
    Arg::new(alloc, "undo")
        .long("undo")
        .value_name("N")
        .value_parser(value_parser!(u8).range(0..=64))
        .default_value("16")
        .help("The number of changes that undo can take back, 0 to 64")
}

/// The argument that names the script.
fn script_argument<'a>(alloc: Global) -> Arg<'a>
    ensures named { IsNamed (codes "script") result }
    ensures rule { rule_of result ≡ script_rule }
{
    Arg::new(alloc, "script").value_name("SCRIPT").help(
        "The script, one command per line [default: standard input]",
    )
}

/// The command line of the program.
fn command<'a>(alloc: Global) -> Result<Command<'a>, AllocError>
    ensures takes { IfOk result TakesDepth }
    ensures line { IfOk result (λ command. app_of command ≡ command_line) }
{
    Command::new(alloc, "bench")
        .bin_name("bench")?
        .about("Runs a script of array commands and prints a reply to each")
        .after_help(COMMANDS)
        .arg(folder_argument(alloc))?
        .arg(depth_argument(alloc))?
        .arg(script_argument(alloc))
}

/// What an error of `clap` means: memory may have run out.
fn fault_of(error: Error) -> OptionsFault
    ensures { IsToldApart result }
{
    match error.kind() {
        ErrorKind::OutOfMemory => OptionsFault::Memory,
        _ => OptionsFault::Words(error),
    }
}

/// The arguments of the program, of which the first is its own name. One that is not UTF-8 is
/// refused.
fn given_words<R: Env + AllocGlobal>(rt: &R) -> Result<Vec<String>, OptionsFault>
    ensures told { IfErr result IsToldApart }
{
    match env::args(rt) {
        Ok(words) => Ok(words.collect(rt.alloc())?),
        Err(error) if error.kind() == io::ErrorKind::OutOfMemory => Err(OptionsFault::Memory),
        Err(_) => {
            let error = command(rt.alloc())?.error(ErrorKind::InvalidValue, NO_TEXT)?;
            Err(OptionsFault::Words(error))
        }
    }
}

/// Reads the arguments of the program. No contract of the library says which words it was given.
pub fn given_options<R: Env + AllocGlobal>(rt: &R) -> Result<Options, OptionsFault>
    ensures said { IfOk result (λ options. (words : List (List ℕ)) × AreSaid words options) }
    ensures depth { IfOk result (λ options. options.depth ≤ 64) }
    ensures told { IfErr result IsToldApart }
{
    options(rt.alloc(), given_words(rt)?.as_slice())
}

/// A copy of a text, if there is one.
fn copied(alloc: Global, text: Option<&str>) -> Result<Option<String>, AllocError>
    ensures { IfOk result (λ copy. option_map string_bytes copy ≡ option_map (λ t. t.now) text.entry) }
{
    match text {
        Some(text) => Ok(Some(String::from_str(alloc, text)?)),
        None => Ok(None),
    }
}

/// Reads arguments, of which the first is the program's own name. A request for help is an error
/// too, as in `clap`.
fn options(alloc: Global, words: &[String]) -> Result<Options, OptionsFault>
    ensures said { IfOk result (AreSaid (map string_bytes words.now)) }
    ensures depth { IfOk result (λ options. options.depth ≤ 64) }
    ensures told { IfErr result IsToldApart }
{
    let matches = match command(alloc)?.try_get_matches_from(words) {
        Ok(matches) => matches,
        Err(error) => return Err(fault_of(error)),
    };
    let depth = matches.get_one::<u8>("undo").unwrap_or(DEPTH);
    let dir = matches.get_str("dir").unwrap_or(THIS_FOLDER);
    let script = matches.get_str("script");
    Ok(Options {
        depth: usize::from(depth),
        dir: String::from_str(alloc, dir)?,
        script: copied(alloc, script)?,
    })
}

#[cfg(test)]
mod tests {
    use super::*;
    use std::test::Fail;

    /// The arguments, as the program is given them.
    fn given(alloc: Global, words: &[&str]) -> Result<Vec<String>, AllocError> {
        let mut texts = Vec::new(alloc);
        for word in words {
            texts.push(String::from_str(alloc, word)?)?;
        }
        Ok(texts)
    }

    #[test]
    fn a_script_is_named_or_not(rt: HostRuntime) -> Result<(), Fail> {
        let words = given(rt.alloc(), &["bench"])?;
        let none = options(rt.alloc(), words.as_slice()).map_err(|_| "refused")?;
        assert!(rt; none.script.is_none());
        let words = given(rt.alloc(), &["bench", "first.bench"])?;
        let one = options(rt.alloc(), words.as_slice()).map_err(|_| "refused")?;
        let script = one.script.ok_or("no script")?;
        assert_eq!(rt; script.as_str(), "first.bench");
        Ok(())
    }

    #[test]
    fn a_folder_is_named_or_the_one_where_it_runs(rt: HostRuntime) -> Result<(), Fail> {
        let rows: [(&[&str], &str); 4] = [
            (&["bench"], "."),
            (&["bench", "--dir", "files"], "files"),
            (&["bench", "--dir=/tmp/a b", "first.bench"], "/tmp/a b"),
            (&["bench", "first.bench", "--dir", ""], ""),
        ];
        for (line, dir) in rows {
            let words = given(rt.alloc(), line)?;
            let read = options(rt.alloc(), words.as_slice()).map_err(|_| "refused")?;
            assert_eq!(rt; read.dir.as_str(), dir);
            assert_eq!(rt; read.script.is_some(), line.contains(&"first.bench"));
        }
        Ok(())
    }

    #[test]
    fn a_depth_is_named_or_16(rt: HostRuntime) -> Result<(), Fail> {
        let rows: [(&[&str], usize); 5] = [
            (&["bench"], 16),
            (&["bench", "--undo", "64"], 64),
            (&["bench", "--undo=0"], 0),
            (&["bench", "--undo", "1", "first.bench"], 1),
            (&["bench", "first.bench", "--undo", "63"], 63),
        ];
        for (line, depth) in rows {
            let words = given(rt.alloc(), line)?;
            let read = options(rt.alloc(), words.as_slice()).map_err(|_| "refused")?;
            assert_eq!(rt; read.depth, depth);
        }
        Ok(())
    }

    #[test]
    fn other_words_are_refused(rt: HostRuntime) -> Result<(), Fail> {
        let rows: [(&[&str], i32); 9] = [
            (&["bench", "--help"], 0),
            (&["bench", "one", "two"], 2),
            (&["bench", "--unknown"], 2),
            (&["bench", "--dir"], 2),
            (&["bench", "--dir", "one", "--dir", "two"], 2),
            (&["bench", "--undo", "65"], 2),
            (&["bench", "--undo", "-1"], 2),
            (&["bench", "--undo", "many"], 2),
            (&["bench", "--undo"], 2),
        ];
        for (line, status) in rows {
            let words = given(rt.alloc(), line)?;
            let fault = options(rt.alloc(), words.as_slice()).err().ok_or("taken")?;
            match fault {
                OptionsFault::Words(error) => assert_eq!(rt; error.exit_code(), status),
                OptionsFault::Memory => assert!(rt; false, "memory"),
            }
        }
        Ok(())
    }
}
