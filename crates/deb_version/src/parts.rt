// How two parts of versions compare, by their bytes (Debian Policy 5.6.12).
ghost use Rattle.std.specs.Prelude.{◌≡◌, ◌≤◌, drop, length};
ghost use Rattle.std.specs.List.{position};
ghost use Rattle.std.specs.Str.Parse.{digits_value};
ghost use Rattle.std.specs.Ordering.{nat_cmp};
ghost use Rattle.deb_version.specs.steps.Digits.{AreDigits, is_not_zero, leading_digits, after_digits, significant};
ghost use Rattle.deb_version.specs.steps.Front.{rank, front_rank};
ghost use Rattle.deb_version.specs.Key.{is_non_digit, part_cmp};

use std::cmp::Ordering;

/// The rank of a digit, and of the end of a part.
const END: u16 = 1;

/// The order of two parts, an upstream version or a revision each.
pub fn order_parts(a: &[u8], b: &[u8]) -> Ordering
    ensures { result ≡ part_cmp a.now b.now }
{
    let front = common_front(a, b);
    let (_, left) = a.split_at(front);
    let (_, right) = b.split_at(front);
    order_by_turns(left, right)
}

/// The length of the front of two parts that can be skipped: it is the same in both and ends after a non-digit, so that
/// it cuts no number.
fn common_front(a: &[u8], b: &[u8]) -> usize
    ensures within_first { result ≤ length a.now }
    ensures within_second { result ≤ length b.now }
    ensures rest { part_cmp a.now b.now ≡ part_cmp (drop result a.now) (drop result b.now) }
{
    let mut front = 0;
    for i in 0..a.len().min(b.len()) {
        if a[i] != b[i] {
            return front;
        }
        if !a[i].is_ascii_digit() {
            front = i + 1;
        }
    }
    front
}

/// The order of two parts, from the left: non-digits one by one by their ranks, and runs of digits as numbers.
fn order_by_turns(a: &[u8], b: &[u8]) -> Ordering
    ensures { result ≡ part_cmp a.now b.now }
{
    let (mut left, mut right) = (a, b);
    while !left.is_empty() || !right.is_empty() {
        let (first, second) = (front_rank(left), front_rank(right));
        if first != second {
            return first.cmp(&second);
        }
        if first == END {
            let (first, second) = (first_number(left), first_number(right));
            let order = order_numbers(first.digits, second.digits);
            if order.is_ne() {
                return order;
            }
            left = first.rest;
            right = second.rest;
        } else {
            left = behind_first(left);
            right = behind_first(right);
        }
    }
    Ordering::Equal
}

/// The rank of the first byte of a part, or of its end.
fn front_rank(part: &[u8]) -> u16
    ensures { result ≡ front_rank part.now }
{
    match part {
        [] => END,
        [byte, ..] => rank(*byte),
    }
}

/// The rank of a byte: `~` before the end of the part, then letters, then all other bytes.
fn rank(byte: u8) -> u16
    ensures { result ≡ rank byte }
{
    match byte {
        b'~' => 0,
        b'0'..=b'9' => END,
        b'A'..=b'Z' | b'a'..=b'z' => byte as u16 + 1,
        _ => byte as u16 + 257,
    }
}

/// The part without its first byte.
fn behind_first(part: &[u8]) -> &[u8]
    ensures { result.now ≡ drop 1 part.now }
{
    match part {
        [] => part,
        [_, rest @ ..] => rest,
    }
}

/// The digits at the front of a part, and the rest after them.
#[derive(Clone, Copy)]
struct Number<'a> {
    digits: &'a [u8],
    rest: &'a [u8],
    ghost numeric: { AreDigits digits.now },
}

/// The longest run of digits at the front of a part.
#[tactic(auto, using(crate::proofs::Runs::position_unwrapped))]
fn first_number(part: &[u8]) -> Number<'_>
    ensures digits { result.digits.now ≡ leading_digits part.now }
    ensures rest { result.rest.now ≡ after_digits part.now }
{
    let (digits, rest) = part.split_at(first_non_digit(part).unwrap_or(part.len()));
    Number { digits, rest }
}

/// The order of two runs of digits as numbers, of any length.
fn order_numbers(a: &[u8], b: &[u8]) -> Ordering
    requires first { AreDigits a.now }
    requires second { AreDigits b.now }
    ensures { result ≡ nat_cmp (digits_value 10 a.now) (digits_value 10 b.now) }
{
    let (a, b) = (without_zeros(a), without_zeros(b));
    a.len().cmp(&b.len()).then(a.cmp(b))
}

/// The digits without leading zeros.
#[tactic(auto, using(crate::proofs::Runs::position_unwrapped))]
fn without_zeros(digits: &[u8]) -> &[u8]
    ensures { result.now ≡ significant digits.now }
{
    &digits[first_non_zero(digits).unwrap_or(digits.len())..]
}

/// The place of the first byte that isn't a digit.
fn first_non_digit(part: &[u8]) -> Option<usize>
    ensures { result ≡ position is_non_digit part.now }
{
    part.iter().position(|byte| !byte.is_ascii_digit())
}

/// The place of the first byte other than `0`.
fn first_non_zero(digits: &[u8]) -> Option<usize>
    ensures { result ≡ position is_not_zero digits.now }
{
    digits.iter().position(|byte| *byte != b'0')
}
