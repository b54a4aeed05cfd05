//! The bools of a run: the ranks of the true ones, one after the other, and how many are true.
ghost use Rattle.std.specs.Prelude.{List, drop, take, ℕ, ◌++◌, ◌+◌, ◌≡◌, ◌≤◌};
ghost use Rattle.fancy_index.specs.Clauses.{truth, LieInBytes, bools_in, ranks_from, true_count};

use shape_strides::Run;

/// The bools of a run, and the rank of the first one.
#[derive(Clone, Copy)]
pub(crate) struct Bools<'a> {
    pub bytes: &'a [u8],
    pub run: Run,
    pub rank: usize,
}

/// 1 for true, and 0 for false.
#[inline(always)]
pub(crate) fn truth(byte: u8) -> usize
    ensures value { result ≡ truth byte }
    ensures few { result ≤ 1 }
{
    (byte != 0) as usize
}

/// Writes the ranks of the true bools in a range after the first `many` ranks, and returns how many
/// there are then. Each rank is written, and stays if its bool is true, so there is no branch.
pub(crate) fn note_true(
    found: &mut [u32; 512],
    many: usize,
    bools: Bools<'_>,
    from: usize,
    end: usize,
) -> usize
    requires lie { LieInBytes bools }
    requires end { end ≤ bools.run.count }
    requires few { many + end ≤ from + 512 }
    requires order { from ≤ end }
    ensures many { result + from ≤ many + end }
    ensures found { (whole : List ℕ) → take many found.old ++ ranks_from bools.entry from ≡ whole
        → take result found.new ++ ranks_from bools.entry end ≡ whole }
{
    let mut many = many;
    for k in from..end {
        found[many] = (bools.rank + k) as u32;
        many += truth(bools.bytes[bools.run.offset_after(k)]);
    }
    many
}

/// How many of a few bools are true. They are counted in a byte, so that a vector holds sixteen counts.
#[inline(always)]
fn count_few(bools: Bools<'_>, from: usize, end: usize) -> u8
    requires lie { LieInBytes bools }
    requires order { from ≤ end }
    requires end { end ≤ bools.run.count }
    requires few { end ≤ from + 128 }
    ensures { let numbers = bools_in bools.entry in
        result + true_count (drop end numbers) ≡ true_count (drop from numbers) }
{
    let mut many = 0;
    for k in from..end {
        let one = truth(bools.bytes[bools.run.offset_after(k)]);
        many += one as u8;
    }
    many
}

/// How many bools of a run are true, a few at a time.
#[inline(always)]
fn count_blocks(bools: Bools<'_>) -> usize
    requires { LieInBytes bools }
    ensures { result ≡ true_count (bools_in bools.entry) }
{
    let mut many = 0;
    let mut from = 0;
    while from < bools.run.count {
        let end = bools.run.count.min(from + 128);
        many += count_few(bools, from, end) as usize;
        from = end;
    }
    many
}

/// The same, with separate loops for adjacent bools and for others.
pub(crate) fn count_run(bools: Bools<'_>) -> usize
    requires { LieInBytes bools }
    ensures { result ≡ true_count (bools_in bools.entry) }
{
    match bools.run.step {
        1 => {
            let run = Run {
                step: 1,
                ..bools.run
            };
            count_blocks(Bools { run, ..bools })
        }
        _ => count_blocks(bools),
    }
}
