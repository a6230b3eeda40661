//! A walk over a sender's kept mail, block by block, that adds what its messages say to the facts.
#![tactic(auto, using(office_core_store::proofs::LastFacts::lasting))]

ghost use Rattle.std.specs.Prelude.{◌≡◌, ◌+◌, ◌<◌, ◌≤◌, [], ◌∷◌, OnOk};
ghost use Rattle.office_core_store.specs.ReadsStore.{ReadsStore};
ghost use Rattle.office_core_facts.specs.steps.Chosen.{TookLetters, TookStretch};

use crate::choice::{Choice, is_chosen};
use crate::taken::take_text;
use deb_control::NoMemory;
use office_core_store::stored::{BLOCK, block_end};
use office_core_store::{StoreFault, stored};
use office_mail::Setup;
use office_store_keeper::{Keeper, Letter};
use std::alloc::Global;
use testing_rules_facts::Facts;

/// The numbers of a sender to take next: those after the number that is done, up to the end.
#[derive(Clone, Copy)]
pub(crate) struct Stretch {
    pub sender: u32,
    pub done: u32,
    pub end: u32,
}

/// Adds to the facts what the chosen messages of a stretch say.
pub(crate) fn take_stretch<K: Keeper>(
    alloc: Global,
    setup: &Setup,
    keeper: &mut K,
    facts: &mut Facts,
    stretch: Stretch,
    choice: Choice<'_>,
) -> Result<(), StoreFault>
    requires within { stretch.done ≤ stretch.end }
    ensures took { K.is_trusted keeper.new → OnOk result (TookStretch choice.entry setup.now (K.content keeper.old) stretch.sender stretch.done stretch.end facts.old facts.new) }
    ensures looks { ReadsStore K.Keeper keeper.old keeper.new result }
{
    let mut done = stretch.done;
    'loads: while done < stretch.end {
        let end = block_end(done, BLOCK, stretch.end);
        let block = Stretch {
            sender: stretch.sender,
            done,
            end,
        };
        take_block(alloc, setup, keeper, facts, block, choice)?;
        done = end;
    }
    Ok(())
}

/// Adds to the facts what the chosen messages of a stretch say, which are loaded at once.
fn take_block<K: Keeper>(
    alloc: Global,
    setup: &Setup,
    keeper: &mut K,
    facts: &mut Facts,
    stretch: Stretch,
    choice: Choice<'_>,
) -> Result<(), StoreFault>
    requires on { stretch.done < stretch.end }
    requires block { stretch.end ≤ stretch.done + 256 }
    ensures took { K.is_trusted keeper.new → OnOk result (TookStretch choice.entry setup.now (K.content keeper.old) stretch.sender stretch.done stretch.end facts.old facts.new) }
    ensures looks { ReadsStore K.Keeper keeper.old keeper.new result }
{
    let letters = stored::load(keeper, stretch.sender, stretch.done + 1, stretch.end)?;
    take_letters(alloc, setup, facts, stretch.sender, &letters, choice)?;
    Ok(())
}

/// Adds to the facts what the chosen letters of a sender say.
pub fn take_letters(
    alloc: Global,
    setup: &Setup,
    facts: &mut Facts,
    sender: u32,
    letters: &[Letter],
    choice: Choice<'_>,
) -> Result<(), NoMemory>
    ensures { OnOk result (TookLetters choice.entry setup.now sender letters.now facts.old facts.new) }
{
    'letters: for letter in letters {
        take_letter(alloc, setup, facts, sender, letter, choice)?;
    }
    Ok(())
}

/// Adds to the facts what a letter of a sender says, if it is chosen.
fn take_letter(
    alloc: Global,
    setup: &Setup,
    facts: &mut Facts,
    sender: u32,
    letter: &Letter,
    choice: Choice<'_>,
) -> Result<(), NoMemory>
    ensures { OnOk result (TookLetters choice.entry setup.now sender (letter.now ∷ []) facts.old facts.new) }
{
    let text = letter.text.as_slice();
    let chosen = is_chosen(alloc, setup, text, choice)?;
    if !chosen {
        return Ok(());
    }
    take_text(alloc, setup, facts, sender, letter.number, text)?;
    Ok(())
}
