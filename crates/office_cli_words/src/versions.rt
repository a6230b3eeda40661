// `office compare V1 OP V2`: whether the versions are in the order that OP names.
ghost use Rattle.std.specs.Prelude.{◌≡◌};
ghost use Rattle.office_cli_words.specs.Compare.{answer, comparison_of, holds_at, status_of};

use deb_version::{CompareFault, compare_texts};
use std::cmp::Ordering;
use std::io;

/// What OP asks of the order of V1 and V2.
#[derive(Clone, Copy)]
pub enum Comparison {
    Below,
    AtMost,
    Same,
    AtLeast,
    Above,
}

/// Why V1 OP V2 has no answer.
#[derive(Clone, Copy, Debug, thiserror::Error)]
pub enum Refusal {
    #[error("not one of lt, le, eq, ge and gt")]
    UnknownComparison,
    #[error("{0}")]
    Version(CompareFault),
}

/// The exit status for V1 OP V2: 0 if it holds, 1 if it doesn't, 2 for an unknown OP, 3 if a version is refused. OP is
/// checked first. Nothing is allocated.
pub fn compare_status(v1: &str, op: &str, v2: &str) -> u8
    ensures { result ≡ status_of (answer v1.now op.now v2.now) }
{
    status(compared(v1, op, v2))
}

/// The exit status for V1 OP V2. First prints a line on standard error that names what is refused, and why. If that
/// can't be printed, the status stays.
pub fn compare(rt: &impl Eprint, v1: &str, op: &str, v2: &str) -> u8
    ensures { result ≡ status_of (answer v1.now op.now v2.now) }
{
    let compared = compared(v1, op, v2);
    if let Err(refusal) = compared {
        let _ = tell(rt, v1, op, v2, refusal);
    }
    status(compared)
}

/// Writes what is refused, and why.
fn tell(rt: &impl Eprint, v1: &str, op: &str, v2: &str, refusal: Refusal) -> io::Result<()> {
    match refusal {
        Refusal::UnknownComparison => eprintln!(rt; "office: '{op}': {refusal}"),
        Refusal::Version(CompareFault::First(fault)) => eprintln!(rt; "office: '{v1}': {fault}"),
        Refusal::Version(CompareFault::Second(fault)) => eprintln!(rt; "office: '{v2}': {fault}"),
    }
}

/// Whether V1 OP V2 holds.
fn compared(v1: &str, op: &str, v2: &str) -> Result<bool, Refusal>
    ensures { result ≡ answer v1.now op.now v2.now }
{
    let Some(comparison) = comparison_of(op) else {
        return Err(Refusal::UnknownComparison);
    };
    let order = compare_texts(v1, v2).map_err(Refusal::Version)?;
    Ok(holds(comparison, order))
}

/// The exit status for an answer.
fn status(answer: Result<bool, Refusal>) -> u8
    ensures { result ≡ status_of answer }
{
    match answer {
        Ok(true) => 0,
        Ok(false) => 1,
        Err(Refusal::UnknownComparison) => 2,
        Err(Refusal::Version(_)) => 3,
    }
}

/// The comparison that a word names.
fn comparison_of(op: &str) -> Option<Comparison>
    ensures { result ≡ comparison_of op.now }
{
    match op {
        "lt" => Some(Comparison::Below),
        "le" => Some(Comparison::AtMost),
        "eq" => Some(Comparison::Same),
        "ge" => Some(Comparison::AtLeast),
        "gt" => Some(Comparison::Above),
        _ => None,
    }
}

/// Whether an order is as a comparison asks.
fn holds(comparison: Comparison, order: Ordering) -> bool
    ensures { result ≡ holds_at comparison order }
{
    match comparison {
        Comparison::Below => order.is_lt(),
        Comparison::AtMost => order.is_le(),
        Comparison::Same => order.is_eq(),
        Comparison::AtLeast => order.is_ge(),
        Comparison::Above => order.is_gt(),
    }
}
