//! What an order to run covers, in words.
ghost use Rattle.std.specs.Prelude.{◌≡◌, ◌++◌, IfOk, OnOk, codes, length, slice_index, string_bytes};
ghost use Rattle.std.specs.List.{flat_map};
ghost use Rattle.office_core_queries.specs.Listing.{listed_words, stated_to, stated_words};

use office_core_replies::name_at;
use office_mail::Setup;
use std::alloc::{AllocError, Global};

/// The number that an order states for a sender, given by its place in the setup.
#[derive(Clone, Copy, Debug, PartialEq, Eq)]
pub(crate) struct Stated {
    pub(crate) sender: u32,
    pub(crate) number: u32,
}

/// The number that covers state for a sender, 0 if they have none.
pub(crate) fn number_at(covers: &[u32], sender: usize) -> u32
    ensures { result ≡ slice_index covers.now sender }
{
    covers.get(sender).copied().unwrap_or(0)
}

/// What an order states for each sender, by sender; a number of 0 states nothing.
#[tactic(auto, unfolding(crate::specs::Listing::stated_to))]
pub(crate) fn stated_covers(
    alloc: Global,
    setup: &Setup,
    covers: &[u32],
) -> Result<Vec<Stated>, AllocError>
    ensures { IfOk result (λ stated. stated.items ≡ stated_to (slice_index covers.now) (length setup.now.senders)) }
{
    let mut stated = Vec::new(alloc);
    'senders: for sender in 0..setup.senders().len() {
        let number = number_at(covers, sender);
        if number > 0 {
            stated.push(Stated {
                sender: sender as u32,
                number,
            })?;
        }
    }
    Ok(stated)
}

/// What is stated for some senders: the first after a space, and each other one after a comma.
pub(crate) fn push_listed(
    text: &mut String,
    setup: &Setup,
    stated: &[Stated],
) -> Result<(), AllocError>
    ensures { OnOk result (string_bytes text.new ≡ string_bytes text.old ++ listed_words setup.now stated.now) }
{
    match stated {
        [] => Ok(()),
        [first, rest @ ..] => {
            push_stated(text, setup, " ", *first)?;
            push_rest(text, setup, rest)
        }
    }
}

fn push_rest(text: &mut String, setup: &Setup, rest: &[Stated]) -> Result<(), AllocError>
    ensures { OnOk result (string_bytes text.new ≡ string_bytes text.old ++ flat_map (λ s. codes ", " ++ stated_words setup.now s) rest.now) }
{
    for stated in rest {
        push_stated(text, setup, ", ", *stated)?;
    }
    Ok(())
}

/// A sender's name and the number stated for it, after a separator.
fn push_stated(
    text: &mut String,
    setup: &Setup,
    separator: &str,
    stated: Stated,
) -> Result<(), AllocError>
    ensures { OnOk result (string_bytes text.new ≡ string_bytes text.old ++ separator.now ++ stated_words setup.now stated) }
{
    let (sender, number) = (name_at(setup, stated.sender), stated.number);
    write!(text, "{separator}{sender} {number}")
}
