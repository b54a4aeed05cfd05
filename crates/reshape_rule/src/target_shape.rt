//! The shape that the numbers of a reshape mean.
ghost use Rattle.std.specs.Prelude.{◌≡◌, ◌+◌, ◌/◌, ◌≤◌, min, map, negsuc, int_le, IfOk};
ghost use Rattle.reshape_rule.specs.Clauses.{list_all, Gives, max_items, count, left_open, given, make_up, length_or, target_of};

use elem_descr::Refusal;
use shape_strides::{MAX_AXES, MAX_ITEMS, Shape};
use smallvec::SmallVec;
use std::alloc::{AllocError, Global};

/// Whether each number is a length or -1.
fn are_lengths(numbers: &[i128]) -> bool
    ensures { result ≡ list_all (int_le (negsuc 0)) numbers.now }
{
    numbers.iter().all(|number| -1 <= *number)
}

/// How many of the numbers are -1.
fn left_open(numbers: &[i128]) -> usize
    ensures { result ≡ left_open numbers.now }
{
    let mut opened = 0;
    for number in numbers {
        if *number < 0 {
            opened += 1;
        }
    }
    opened
}

/// The length that a number gives, or the remaining length for -1. A length above `MAX_ITEMS`
/// becomes `MAX_ITEMS` + 1.
fn capped_length(number: i128, rest: usize) -> usize
    requires { rest ≤ max_items }
    ensures { result ≡ min (length_or rest number) (max_items + 1) }
{
    if number < 0 {
        return rest;
    }
    number.min(MAX_ITEMS as i128 + 1) as usize
}

/// The product of the given lengths, or `MAX_ITEMS` + 1 if it is greater than that.
fn capped_given(numbers: &[i128]) -> usize
    ensures { result ≡ min (given numbers.now) (max_items + 1) }
{
    let mut product = 1;
    for number in numbers {
        product = (product * capped_length(*number, 1)).min(MAX_ITEMS + 1);
    }
    product
}

/// Whether lengths with this product, and `opened` numbers of -1, can make `items` items.
fn make_up(items: usize, opened: usize, product: usize) -> bool
    ensures { result ≡ make_up items opened product }
{
    if opened == 0 {
        return product == items;
    }
    product != 0 && items % product == 0
}

/// The lengths, with the remaining length for -1.
fn lengths(alloc: Global, numbers: &[i128], rest: usize) -> Result<SmallVec<usize, 4>, AllocError>
    requires { rest ≤ max_items }
    ensures { IfOk result
        (λ v. v.items ≡ map (λ number. min (length_or rest number) (max_items + 1)) numbers.now) }
{
    let mut lengths = SmallVec::new(alloc);
    for number in numbers {
        lengths.push(capped_length(*number, rest))?;
    }
    Ok(lengths)
}

/// The shape that these numbers mean for an array of the shape `old`. One of them may be -1, which
/// stands for the rest. More than 64 axes are refused first. Then these are refused as
/// `BadReshape`: a number below -1, a second -1, another number of items, and a -1 for which the
/// division leaves a remainder or the product is 0. Then a length above 2^24 is refused, which only
/// a shape without items can have.
pub fn target(alloc: Global, old: &Shape, numbers: &[i128]) -> Result<Shape, Refusal>
    ensures value { Gives (λ s. s) result (target_of (count old.now) numbers.now) }
    ensures items { IfOk result (λ s. count s ≡ count old.now) }
{
    if numbers.len() > MAX_AXES {
        return Err(Refusal::TooManyAxes);
    }
    if !are_lengths(numbers) {
        return Err(Refusal::BadReshape);
    }
    let opened = left_open(numbers);
    if opened > 1 {
        return Err(Refusal::BadReshape);
    }
    let items = old.items();
    let given = capped_given(numbers);
    if !make_up(items, opened, given) {
        return Err(Refusal::BadReshape);
    }
    // What -1 stands for.
    let rest = items.checked_div(given).unwrap_or(0);
    let lengths = lengths(alloc, numbers, rest)?;
    Shape::try_new(alloc, lengths.as_slice())
}
