//! The uploads kept in facts, by sender and number.

ghost use Rattle.std.specs.Prelude.{◌≡◌, length};
ghost use Rattle.std.specs.List.Sorted.{IsBinarySearchResult, IsSearchInRange};
ghost use Rattle.testing_rules_fact_order.specs.Uploads.{message_order};

use crate::select::message_order;
use std::cmp::Ordering;
use testing_rules_model::UploadIn;

/// The place of this upload, or where it belongs.
pub fn place_of_kept(uploads: &[UploadIn], upload: &UploadIn) -> Result<usize, usize>
    ensures bound { IsSearchInRange result (length uploads.now) }
    ensures found { IsBinarySearchResult (λ u. message_order u upload.now) uploads.now result }
{
    uploads.binary_search_by(
        |other: &UploadIn| -> Ordering
            ensures { result ≡ message_order other.now upload.entry.now }
        { message_order(other, upload) },
    )
}
