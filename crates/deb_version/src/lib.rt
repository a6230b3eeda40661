//! Version texts of Debian packages and their order (Debian Policy 5.6.12).
#![tactic(auto)]

ghost use Rattle.std.specs.Prelude.{◌≡◌, ◌++◌, ◌∷◌, List, ℕ, map, pos, IfOk, IfErr, unwrap_or};
ghost use Rattle.std.specs.Str.Parse.{digits_value};
ghost use Rattle.deb_version.specs.Key.{key, weight, IsFirstBlock};
ghost use Rattle.deb_version.specs.Text.{IsVersion, version_fault};
ghost use Rattle.std.specs.Cmp.{IsTotalOrder};
ghost use Rattle.deb_version.specs.Order.{version_cmp};

mod faults;
mod lent;
mod parts;
mod small_string;
mod split;

pub use faults::{CompareFault, NoMemory, VersionFault};
pub use lent::compare_texts;
pub use small_string::SmallString;
use split::{Split, compare_split, split_text};
use std::alloc::Global;
use std::cmp::Ordering;
use std::marker::Model;

/// A version, `[epoch:]upstream[-revision]` (Debian Policy 5.6.12). Contracts see its text, a list of bytes.
pub struct Version {
    text: SmallString,
    split: Split,
}

impl Drop for Version {
    fn drop(self) {
        let Version { text: _, split: _ } = self;
    }
}

impl Model for Version {
    ghost use Rattle.std.specs.Prelude.{List, ℕ};
    ghost use Rattle.deb_version.specs.Text.{IsVersion};
    ghost use Rattle.deb_version.specs.steps.Split.{IsSplit};

    ghost Value = { List ℕ };

    ghost view = { λ v. v.text };

    ghost invariant = { λ v. IsVersion v.text × IsSplit v.text v.split.epoch v.split.start v.split.upstream_len };
}

impl Version {
    /// Parses a version of 1 to 256 bytes. A text that isn't a version is refused for its first fault, in the order of
    /// `VersionFault`.
    pub fn parse(alloc: Global, text: &str) -> Result<Version, VersionFault>
        // A parsed text is a version, and is kept as it is.
        ensures version { IfOk result (λ v. IsVersion text.now × (v ≡ text.now)) }
        // The error is the text's first fault, or NoMemory if it has none.
        ensures fault { IfErr result (λ e. e ≡ unwrap_or (version_fault text.now) VersionFault.NoMemory) }
    {
        let split = split_text(text.as_bytes())?;
        let text = SmallString::from_str(alloc, text).map_err(|_| VersionFault::NoMemory)?;
        Ok(Version { text, split })
    }

    /// The order of two versions (Debian Policy 5.6.12). It allocates nothing. It isn't an `Ord`: different texts can
    /// be the same version, like `1.0` and `0:1.00-0`.
    pub fn order(&self, other: &Version) -> Ordering
        ensures { result ≡ version_cmp self.now other.now }
    {
        compare_split(
            self.text.as_str().as_bytes(),
            self.split,
            other.text.as_str().as_bytes(),
            other.split,
        )
    }

    /// The text that was parsed, byte for byte.
    pub fn text(&self) -> &str
        ensures text { result.now ≡ self.now }
        ensures version { IsVersion self.now }
    {
        self.text.as_str()
    }

    /// A version with the same text.
    pub fn copy(&self, alloc: Global) -> Result<Version, NoMemory>
        ensures { IfOk result (λ v. v ≡ self.now) }
    {
        let text = self.text.copy(alloc)?;
        Ok(Version {
            text,
            split: self.split,
        })
    }
}

/// The order is total, and texts of the same version compare alike.
pub fn order_is_total()
    ensures { IsTotalOrder version_cmp }
{}

/// The key of a part is the key of its first block, then the key of the rest. A block is the longest run of non-digits,
/// then the longest run of digits.
pub fn key_is_by_blocks()
    ensures { (text digits rest : List ℕ) → IsFirstBlock text digits rest → key (text ++ digits ++ rest) ≡ map weight text ++ (pos 0 ∷ pos (digits_value 10 digits) ∷ key rest) }
{}
