// Where the parts of a version are in its text, and the fault of a text that isn't a version.
ghost use Rattle.std.specs.Prelude.{◌≡◌, ◌==◌, ◌+◌, ◌*◌, ◌^◌, ◌&&◌, nat_lt, ◌<◌, ◌≤◌, true, false, drop, take, length, not, IsTrue, Some, None, MatchOption, MatchResult};
ghost use Rattle.std.specs.List.{position, list_any, list_all, before_last, after_last};
ghost use Rattle.std.specs.Char.{is_ascii_digit, digit_value};
ghost use Rattle.std.specs.Str.Parse.{digits_value};
ghost use Rattle.deb_version.specs.steps.Split.{IsSplit, revision_behind, first_fault, has_bad_epoch, has_bad_byte, upstream_in, revision_in};
ghost use Rattle.deb_version.specs.Order.{version_cmp};
ghost use Rattle.deb_version.specs.Text.{is_colon, is_hyphen, is_epoch, epoch_of, after_epoch, upstream_of, revision_of, is_upstream_byte, is_revision_byte, version_fault, IsVersion};

use super::faults::VersionFault;
use super::parts::order_parts;
use std::cmp::Ordering;

/// The greatest epoch.
const MAX_EPOCH: u32 = 2_147_483_647;

/// The greatest length of a text.
const MAX_LEN: usize = 256;

/// Where each byte is allowed: `r` in a revision and an upstream version, `u` only in an upstream version, `x` in
/// neither.
static PLACES: [u8; 256] = *b"\
    xxxxxxxxxxxxxxxxxxxxxxxxxxxxxxxx\
    xxxxxxxxxxxrxurxrrrrrrrrrruxxxxx\
    xrrrrrrrrrrrrrrrrrrrrrrrrrrxxxxx\
    xrrrrrrrrrrrrrrrrrrrrrrrrrrxxxrx\
    xxxxxxxxxxxxxxxxxxxxxxxxxxxxxxxx\
    xxxxxxxxxxxxxxxxxxxxxxxxxxxxxxxx\
    xxxxxxxxxxxxxxxxxxxxxxxxxxxxxxxx\
    xxxxxxxxxxxxxxxxxxxxxxxxxxxxxxxx";

/// Where the parts of a version are in its text.
#[derive(Clone, Copy)]
pub struct Split {
    pub epoch: u32,
    pub start: u16,
    pub upstream_len: u16,
}

impl Split {
    /// The places in a text that is short enough to be a version.
    fn of(epoch: u32, start: usize, upstream_len: usize) -> Split
        requires start { start ≤ 256 }
        requires upstream { upstream_len ≤ 256 }
        ensures { result ≡ record { epoch = epoch; start = start; upstream_len = upstream_len } }
    {
        Split {
            epoch,
            start: start as u16,
            upstream_len: upstream_len as u16,
        }
    }
}

/// The split of a text into the parts of a version, or its first fault.
pub fn split_text(text: &[u8]) -> Result<Split, VersionFault>
    ensures { MatchResult result (λ s. IsVersion text.now × IsSplit text.now s.epoch s.start s.upstream_len) (λ fault. version_fault text.now ≡ Some fault) }
{
    if text.is_empty() {
        return Err(VersionFault::Empty);
    }
    if text.len() > MAX_LEN {
        return Err(VersionFault::TooLong);
    }
    let Some((epoch, start)) = stated_epoch(text) else {
        return Err(VersionFault::BadEpoch);
    };
    let (_, rest) = text.split_at(start);
    let upstream_len = upstream_len(rest);
    let (upstream, revision) = parts_at(rest, upstream_len);
    match parts_fault(upstream, revision) {
        Some(fault) => Err(fault),
        None => Ok(Split::of(epoch, start, upstream_len)),
    }
}

/// The order of two versions, by their texts and splits. Equal texts, the most common case, need no look at their
/// parts.
pub fn compare_split(a: &[u8], first: Split, b: &[u8], second: Split) -> Ordering
    requires first { IsSplit a.now first.epoch first.start first.upstream_len }
    requires second { IsSplit b.now second.epoch second.start second.upstream_len }
    ensures { result ≡ version_cmp a.now b.now }
{
    if a == b {
        return Ordering::Equal;
    }
    let epochs = first.epoch.cmp(&second.epoch);
    if epochs.is_ne() {
        return epochs;
    }
    let (upstream, revision) = parts_of(a, first);
    let (other_upstream, other_revision) = parts_of(b, second);
    let upstreams = order_parts(upstream, other_upstream);
    if upstreams.is_ne() {
        return upstreams;
    }
    order_parts(revision, other_revision)
}

/// The upstream version and the revision of a text.
fn parts_of(text: &[u8], split: Split) -> (&[u8], &[u8])
    requires { IsSplit text.now split.epoch split.start split.upstream_len }
    ensures upstream { result.0.now ≡ upstream_of text.now }
    ensures revision { result.1.now ≡ revision_of text.now }
{
    let (_, rest) = text.split_at(split.start as usize);
    parts_at(rest, split.upstream_len as usize)
}

/// The upstream version and the revision, in the text after the epoch.
fn parts_at(rest: &[u8], upstream_len: usize) -> (&[u8], &[u8])
    requires { upstream_len ≤ length rest.now }
    ensures upstream { result.0.now ≡ take upstream_len rest.now }
    ensures revision { result.1.now ≡ revision_behind (drop upstream_len rest.now) }
{
    let (upstream, behind) = rest.split_at(upstream_len);
    match behind {
        [] => (upstream, b"0"),
        [_, revision @ ..] => (upstream, revision),
    }
}

/// The fault of an upstream version and a revision.
#[tactic(auto, unfolding(crate::specs::steps::Split::first_fault))]
fn parts_fault(upstream: &[u8], revision: &[u8]) -> Option<VersionFault>
    ensures { result ≡ first_fault false false false (length upstream.now == 0) (length revision.now == 0) (has_bad_byte upstream.now revision.now) }
{
    if upstream.is_empty() {
        return Some(VersionFault::EmptyUpstream);
    }
    if revision.is_empty() {
        return Some(VersionFault::EmptyRevision);
    }
    if !is_upstream(upstream) || !is_revision(revision) {
        return Some(VersionFault::BadCharacter);
    }
    None
}

/// The epoch of a text and where the rest of it begins, or None if its epoch isn't valid.
fn stated_epoch(text: &[u8]) -> Option<(u32, usize)>
    ensures { MatchOption result (has_bad_epoch text.now ≡ true) (λ e. (has_bad_epoch text.now ≡ false) × (e.0 ≡ epoch_of text.now) × (e.1 ≤ length text.now) × (drop e.1 text.now ≡ after_epoch text.now)) }
{
    match first_colon(text) {
        Some(colon) => {
            let epoch = epoch_value(&text[..colon])?;
            Some((epoch, colon + 1))
        }
        None => Some((0, 0)),
    }
}

/// The length of the upstream version, in the text after the epoch.
fn upstream_len(rest: &[u8]) -> usize
    ensures within { result ≤ length rest.now }
    ensures upstream { take result rest.now ≡ upstream_in rest.now }
    ensures revision { revision_behind (drop result rest.now) ≡ revision_in rest.now }
{
    match last_hyphen(rest) {
        Some(hyphen) => hyphen,
        None => rest.len(),
    }
}

/// The epoch written with these digits, or None if they aren't an epoch.
fn epoch_value(digits: &[u8]) -> Option<u32>
    ensures { MatchOption result (is_epoch digits.now ≡ false) (λ epoch. (is_epoch digits.now ≡ true) × (epoch ≡ digits_value 10 digits.now)) }
{
    if digits.is_empty() {
        return None;
    }
    let mut epoch = 0;
    for digit in digits {
        epoch = with_digit(epoch, *digit)?;
    }
    Some(epoch)
}

/// The epoch with one more digit after it.
fn with_digit(epoch: u32, digit: u8) -> Option<u32>
    requires { epoch < 2 ^ 31 }
    ensures { MatchOption result ((is_ascii_digit digit && nat_lt (epoch * 10 + digit_value digit) (2 ^ 31)) ≡ false) (λ more. ((is_ascii_digit digit && nat_lt (epoch * 10 + digit_value digit) (2 ^ 31)) ≡ true) × (more ≡ epoch * 10 + digit_value digit)) }
{
    if !digit.is_ascii_digit() {
        return None;
    }
    let more = epoch.checked_mul(10)?.checked_add((digit - b'0') as u32)?;
    if more > MAX_EPOCH {
        return None;
    }
    Some(more)
}

/// The place of the first colon.
fn first_colon(text: &[u8]) -> Option<usize>
    ensures { result ≡ position is_colon text.now }
{
    text.iter().position(|byte| *byte == b':')
}

/// The place of the last hyphen.
fn last_hyphen(text: &[u8]) -> Option<usize>
    ensures { MatchOption result (list_any is_hyphen text.now ≡ false) (λ i. (list_any is_hyphen text.now ≡ true) × (i < length text.now) × (take i text.now ≡ before_last is_hyphen text.now) × (drop (i + 1) text.now ≡ after_last is_hyphen text.now)) }
{
    for i in (0..text.len()).rev() {
        if text[i] == b'-' {
            return Some(i);
        }
    }
    None
}

/// Whether an upstream version has only allowed bytes.
fn is_upstream(text: &[u8]) -> bool
    ensures { result ≡ list_all is_upstream_byte text.now }
{
    text.iter().all(|byte| is_upstream_byte(*byte))
}

/// Whether a revision has only allowed bytes.
fn is_revision(text: &[u8]) -> bool
    ensures { result ≡ list_all is_revision_byte text.now }
{
    text.iter().all(|byte| is_revision_byte(*byte))
}

/// Whether a byte is allowed in an upstream version.
fn is_upstream_byte(byte: u8) -> bool
    ensures { result ≡ is_upstream_byte byte }
{
    PLACES[byte as usize] != b'x'
}

/// Whether a byte is allowed in a revision.
fn is_revision_byte(byte: u8) -> bool
    ensures { result ≡ is_revision_byte byte }
{
    PLACES[byte as usize] == b'r'
}
