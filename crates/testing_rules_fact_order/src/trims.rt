//! Removes the facts' uploads that don't count with a testing. It allocates nothing.

ghost use Rattle.std.specs.Prelude.{◌≡◌, ◌+◌, ◌≤◌, ◌++◌, not, filter, length, map, option_copied, option_map, vec_len, vec_capacity};
ghost use Rattle.std.specs.List.Sorted.{IsBinarySearchResult, IsSearchInRange};
ghost use Rattle.testing_rules_items.specs.Words.{byte_cmp};
ghost use Rattle.testing_rules_model.specs.Excuses.{is_news};
ghost use Rattle.testing_rules_model.specs.steps.Excuses.{entry_of};
ghost use Rattle.testing_rules_model.specs.FactRows.{upload_row};
ghost use Rattle.testing_rules_model.specs.InOrder.{AreByName};
ghost use Rattle.testing_rules_model.specs.KeptFacts.{counts_beside};
ghost use Rattle.testing_rules_fact_order.specs.steps.Trimming.{with_sources};

use crate::rows::upload_row;
use deb_version::Version;
use std::cmp::Ordering;
use testing_rules_items::next_place;
use testing_rules_model::{FactRow, SourceIn, UploadIn, source_place_near};

/// The place of the name among the sources, or where it belongs.
fn place_of_name(sources: &[SourceIn], name: &str) -> Result<usize, usize>
    ensures bound { IsSearchInRange result (length sources.now) }
    ensures found { IsBinarySearchResult (λ s. byte_cmp s.name name.now) sources.now result }
{
    sources.binary_search_by(
        |source: &SourceIn| -> Ordering
            ensures { result ≡ byte_cmp source.now.name name.entry.now }
        { source.name.as_str().cmp(name) },
    )
}

/// The version of a name, from the place where the name was found among the sources, or belongs.
fn version_found<'a>(
    sources: &'a [SourceIn],
    name: &str,
    place: Result<usize, usize>,
) -> Option<&'a Version>
    requires order { AreByName sources.now }
    requires bound { IsSearchInRange place (length sources.now) }
    requires found { IsBinarySearchResult (λ s. byte_cmp s.name name.now) sources.now place }
    ensures { option_copied result ≡ option_map (λ s. s.version) (entry_of sources.now name.now) }
{
    match place {
        Ok(place) => Some(&sources[place].version),
        Err(_place) => None,
    }
}

/// Whether the version is above testing's, or testing has none.
fn is_news(testing: Option<&Version>, version: &Version) -> bool
    ensures { result ≡ is_news (option_copied testing.entry) version.now }
{
    match testing {
        Some(other) => version.order(other).is_gt(),
        None => true,
    }
}

/// Whether the upload counts with a testing of these sources, from the place of its name, or where that belongs.
fn counts_at(sources: &[SourceIn], upload: &UploadIn, place: Result<usize, usize>) -> bool
    requires order { AreByName sources.now }
    requires bound { IsSearchInRange place (length sources.now) }
    requires found { IsBinarySearchResult (λ s. byte_cmp s.name upload.now.source) sources.now place }
    ensures { result ≡ counts_beside (with_sources sources.now) upload.now }
{
    is_news(
        version_found(sources, upload.source.as_str(), place),
        &upload.version,
    )
}

/// Whether the upload counts with a testing of these sources.
fn counts(sources: &[SourceIn], upload: &UploadIn) -> bool
    requires { AreByName sources.now }
    ensures { result ≡ counts_beside (with_sources sources.now) upload.now }
{
    let place = place_of_name(sources, upload.source.as_str());
    counts_at(sources, upload, place)
}

/// Notes the rows of the uploads that don't count. There is room for all. Each upload's source is first tried next to
/// that of the previous upload: usually their names are close.
fn note_uncounted(uploads: &[UploadIn], left: &mut Vec<FactRow>, sources: &[SourceIn])
    requires order { AreByName sources.now }
    requires room { vec_len left.old + length uploads.now ≤ vec_capacity left.old }
    ensures left { left.new.items ≡ left.old.items ++ map upload_row (filter (λ u. not (counts_beside (with_sources sources.now) u)) uploads.now) }
    ensures capacity { vec_capacity left.old ≤ vec_capacity left.new }
{
    let mut guess = 0;
    'uploads: for upload in uploads {
        let place = source_place_near(sources, upload.source.as_str(), guess);
        guess = next_place(place);
        if !counts_at(sources, upload, place) {
            let _ = left.push(upload_row(upload));
        }
    }
}

/// Leaves only the uploads that count, and notes the rows of the others.
pub fn trim_uploads(uploads: &mut Vec<UploadIn>, left: &mut Vec<FactRow>, sources: &[SourceIn])
    requires order { AreByName sources.now }
    requires room { vec_len left.old + vec_len uploads.old ≤ vec_capacity left.old }
    ensures uploads { uploads.new.items ≡ filter (counts_beside (with_sources sources.now)) uploads.old.items }
    ensures left { left.new.items ≡ left.old.items ++ map upload_row (filter (λ u. not (counts_beside (with_sources sources.now) u)) uploads.old.items) }
    ensures capacity { vec_capacity left.old ≤ vec_capacity left.new }
{
    note_uncounted(uploads, left, sources);
    uploads.retain(
        |upload: &UploadIn| -> bool
            requires { AreByName sources.now }
            ensures { result ≡ counts_beside (with_sources sources.entry.now) upload.now }
        { counts(sources, upload) },
    );
}
