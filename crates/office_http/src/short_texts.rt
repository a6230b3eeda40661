//! How much of a text the answer to a question has.

ghost use Rattle.std.specs.Prelude.{◌≡◌, ◌≤◌, ◌<◌, ◌+◌, ◌-◌, ◌++◌, IfErr, IfOk, OnOk, drop, length, slice_index, string_bytes, take};
ghost use Rattle.std.specs.List.{count_by, suffix_len};
ghost use Rattle.office_http.specs.ShortTexts.{short_text, short_answer, cut_text, ends_line, is_told_whole, is_within_line, left_out_line, whole_lines};

use deb_control::{NoMemory, Text};
use office_core_store::StoreFault;
use office_http_requests::{Answer, Page};
use std::alloc::{AllocError, Global};

/// How many bytes of a text are in whole lines.
fn whole_len(bytes: &[u8]) -> usize
    ensures len { result + suffix_len is_within_line bytes.now ≡ length bytes.now }
    ensures ends { 0 < result → slice_index bytes.now (result - 1) ≡ 10 }
{
    let mut len = bytes.len();
    while len > 0 && bytes[len - 1] != b'\n' {
        len -= 1;
    }
    len
}

/// How many lines end in a text.
pub(crate) fn line_count(bytes: &[u8]) -> usize
    ensures { result ≡ count_by ends_line bytes.now }
{
    let mut count = 0;
    for byte in bytes {
        if *byte == b'\n' {
            count += 1;
        }
    }
    count
}

/// The whole lines within that many first bytes of a text, and what follows them.
#[tactic(auto, unfolding(crate::specs::ShortTexts::whole_lines))]
fn split_lines(text: &str, room: usize) -> (&str, &str)
    requires { room ≤ length text.now }
    ensures front { result.0.now ≡ whole_lines (take room text.now) }
    ensures back { result.1.now ≡ drop (length result.0.now) text.now }
{
    let len = whole_len(&text.as_bytes()[..room]);
    text.split_at(len)
}

/// The line on how many lines are left out.
fn push_left_out(text: &mut String, lines: usize) -> Result<(), AllocError>
    ensures { OnOk result (string_bytes text.new ≡ string_bytes text.old ++ left_out_line lines) }
{
    writeln!(text, "left out {lines} lines")
}

/// The whole lines within that many first bytes of a text, and then how many lines are left out.
#[tactic(auto, using(crate::proofs::CutFacts::cut_is))]
fn cut_text(alloc: Global, text: &str, room: usize) -> Result<String, AllocError>
    requires { room ≤ length text.now }
    ensures { IfOk result (λ cut. string_bytes cut ≡ cut_text room text.now) }
{
    let (front, rest) = split_lines(text, room);
    let mut cut = String::from_str(alloc, front)?;
    push_left_out(&mut cut, line_count(rest.as_bytes()))?;
    Ok(cut)
}

/// A text of at most 4,000,000 bytes, or of a longer one the whole lines within its first 3,999,900, and how many lines are
/// left out.
#[tactic(auto, unfolding(crate::specs::ShortTexts::short_text))]
pub(crate) fn short_text(alloc: Global, text: Text) -> Result<Text, NoMemory>
    ensures { IfOk result (λ within. within ≡ short_text text) }
{
    if text.as_str().len() <= 4_000_000 {
        return Ok(text);
    }
    let cut = cut_text(alloc, text.as_str(), 3_999_900);
    drop(text);
    Ok(Text::from_string(cut?))
}

/// An answer, with a short text. It fails only if memory runs out.
pub(crate) fn short_answer(alloc: Global, answer: Answer) -> Result<Answer, StoreFault>
    ensures answer { IfOk result (λ within. within ≡ short_answer answer) }
    ensures no_store { IfErr result (λ fault. fault ≡ StoreFault.NoMemory) }
{
    match answer {
        Answer::Told(text) => Ok(Answer::Told(short_text(alloc, text)?)),
        answer => Ok(answer),
    }
}

/// Whether the text of a page stays uncut.
pub(crate) fn is_told_whole(page: &Page) -> bool
    ensures { result ≡ is_told_whole page.now }
{
    matches!(
        page,
        Page::Testing | Page::Unstable | Page::Excuses(_) | Page::Update(_)
    )
}
