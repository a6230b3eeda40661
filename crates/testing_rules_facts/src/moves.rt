//! Unstable, for moves.

ghost use Rattle.std.specs.Prelude.{◌≡◌, IfOk, length, option_copied};
ghost use Rattle.std.specs.List.Sorted.{IsBinarySearchResult, IsSearchInRange};
ghost use Rattle.testing_rules_items.specs.Words.{byte_cmp};
ghost use Rattle.testing_rules_model.specs.Boxed.{unboxed};
ghost use Rattle.testing_rules_model.specs.FactOrder.{AreBySource};
ghost use Rattle.testing_rules_model.specs.Moves as rules;

use crate::taken::place_of_upload;
use deb_control::Text;
use deb_version::NoMemory;
use std::alloc::Global;
use std::cmp::Ordering;
use testing_rules_items::search_near;
use testing_rules_model::{LentRow, SourceIn, UploadIn};

/// Unstable in the form that moves use: its sources by name, and its rows, borrowed, by architecture and name.
#[derive(Clone, Copy)]
pub struct Unstable<'u, 'a> {
    pub sources: &'u [Box<UploadIn>],
    pub rows: &'u [LentRow<'a>],
}

/// The place at which a name was found, or belongs.
fn place_in(found: Result<usize, usize>) -> usize {
    match found {
        Ok(place) => place,
        Err(place) => place,
    }
}

/// The place of the name among the sources, or where it belongs. The guessed place is tried first, then the next one.
fn place_near(sources: &[Box<UploadIn>], name: &str, guess: usize) -> Result<usize, usize>
    ensures bound { IsSearchInRange result (length (unboxed sources.now)) }
    ensures found { IsBinarySearchResult (λ u. byte_cmp u.source name.now) (unboxed sources.now) result }
{
    search_near(
        sources,
        guess,
        |upload: &Box<UploadIn>| -> Ordering
            ensures { result ≡ byte_cmp upload.now.value.source name.entry.now }
        { upload.source.as_str().cmp(name) },
    )
}

/// The source of a name, from the place where the name was found among the ordered sources, or belongs.
fn source_found<'a>(
    sources: &'a [Box<UploadIn>],
    name: &str,
    place: Result<usize, usize>,
) -> Option<&'a UploadIn>
    requires order { AreBySource (unboxed sources.now) }
    requires bound { IsSearchInRange place (length (unboxed sources.now)) }
    requires found { IsBinarySearchResult (λ u. byte_cmp u.source name.now) (unboxed sources.now) place }
    ensures { option_copied result ≡ rules.source_in (unboxed sources.now) name.now }
{
    match place {
        Ok(place) => {
            let upload: &UploadIn = &sources[place];
            Some(upload)
        }
        Err(_) => None,
    }
}

/// The source of a name, among sources ordered by name.
pub fn source_in<'a>(sources: &'a [Box<UploadIn>], name: &str) -> Option<&'a UploadIn>
    requires { AreBySource (unboxed sources.now) }
    ensures { option_copied result ≡ rules.source_in (unboxed sources.now) name.now }
{
    source_found(sources, name, place_of_upload(sources, name))
}

/// The source of a name, among sources ordered by name. The guessed place is tried first, then the next one.
pub fn source_near<'a>(
    sources: &'a [Box<UploadIn>],
    name: &str,
    guess: usize,
) -> Option<&'a UploadIn>
    requires { AreBySource (unboxed sources.now) }
    ensures { option_copied result ≡ rules.source_in (unboxed sources.now) name.now }
{
    source_found(sources, name, place_near(sources, name, guess))
}

/// The place of a group's first source, among sources ordered by name. The guessed place is tried first, then the next
/// one. It is only a guess for `source_near`: no result depends on it.
pub fn place_of_group(sources: &[Box<UploadIn>], group: &[Text], guess: usize) -> usize {
    match group.first() {
        Some(name) => place_in(place_near(sources, name.as_str(), guess)),
        None => guess,
    }
}

/// The source in testing, once its unstable version has moved.
pub fn as_source(alloc: Global, upload: &UploadIn) -> Result<SourceIn, NoMemory>
    ensures { IfOk result (λ x. x ≡ rules.as_source upload.now) }
{
    let name = upload.source.copy(alloc)?;
    let version = upload.version.copy(alloc)?;
    Ok(SourceIn {
        name,
        version,
        sender: upload.sender,
        number: upload.number,
    })
}
