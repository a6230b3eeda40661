//! What a run waits for, and the text on it.
ghost use Rattle.std.specs.Prelude.{◌≡◌, ◌++◌, IfOk, OnOk, string_bytes};
ghost use Rattle.std.specs.List.{flat_map};
ghost use Rattle.office_core_replies.specs.Replies.{name_at};
ghost use Rattle.office_core_orders.specs.WaitingLines.{lack_line, order_line, awaited_lines, waiting_text};

use deb_control::{NoMemory, Text};
use office_core_replies::name_at;
use office_mail::Setup;
use std::alloc::{AllocError, Global};

/// How many runs are ready, and how many are finished.
#[derive(Clone, Copy, Debug, PartialEq, Eq)]
pub struct Progress {
    pub ready: u32,
    pub finished: u32,
}

/// What a run needs of one sender: its first missing number, and the number up to which the run needs its mail.
#[derive(Clone, Copy, Debug, PartialEq, Eq)]
pub struct Lack {
    pub sender: u32,
    pub number: u32,
    pub cover: u32,
}

/// What the first run that isn't ready waits for.
#[derive(Drop)]
pub enum Awaited {
    /// Its order, which isn't kept.
    Order,
    /// Mail of each of these senders.
    Mail(Vec<Lack>),
}

/// How far the runs are, and what the first run that isn't ready waits for.
#[derive(Drop)]
pub struct Waiting {
    pub progress: Progress,
    pub awaited: Awaited,
}

/// The text on how far the runs are, and what the first run that isn't ready waits for.
#[tactic(auto, unfolding(crate::specs::WaitingLines::waiting_text))]
pub fn waiting_text(alloc: Global, setup: &Setup, waiting: &Waiting) -> Result<Text, NoMemory>
    ensures { IfOk result (λ text. text ≡ waiting_text setup.now waiting.now) }
{
    let Progress { ready, finished } = waiting.progress;
    let mut text = format!(in alloc; "ready {ready} finished {finished}\n")?;
    push_awaited(&mut text, setup, u64::from(ready) + 1, &waiting.awaited)?;
    Ok(Text::from_string(text))
}

fn push_awaited(
    text: &mut String,
    setup: &Setup,
    run: u64,
    awaited: &Awaited,
) -> Result<(), AllocError>
    ensures { OnOk result (string_bytes text.new ≡ string_bytes text.old ++ awaited_lines setup.now run awaited.now) }
{
    match awaited {
        Awaited::Order => push_order(text, setup, run),
        Awaited::Mail(lacks) => push_lacks(text, setup, run, lacks.as_slice()),
    }
}

fn push_order(text: &mut String, setup: &Setup, run: u64) -> Result<(), AllocError>
    ensures { OnOk result (string_bytes text.new ≡ string_bytes text.old ++ order_line setup.now run) }
{
    let sender = name_at(setup, setup.runs());
    writeln!(text, "run {run} waits for {sender} {run}")
}

fn push_lacks(text: &mut String, setup: &Setup, run: u64, lacks: &[Lack]) -> Result<(), AllocError>
    ensures { OnOk result (string_bytes text.new ≡ string_bytes text.old ++ flat_map (lack_line setup.now run) lacks.now) }
{
    for lack in lacks {
        push_lack(text, setup, run, *lack)?;
    }
    Ok(())
}

fn push_lack(text: &mut String, setup: &Setup, run: u64, lack: Lack) -> Result<(), AllocError>
    ensures { OnOk result (string_bytes text.new ≡ string_bytes text.old ++ lack_line setup.now run lack) }
{
    let sender = name_at(setup, lack.sender);
    let (number, cover) = (lack.number, lack.cover);
    writeln!(text, "run {run} waits for {sender} {number} of {cover}")
}
