//! The architectures, in the setup's order.

ghost use Rattle.std.specs.Prelude.{◌≡◌, ◌≤◌, length, map, IfOk};
ghost use Rattle.testing_rules_items.specs.Archs.{IsArchs, GivesArchs};
ghost use Rattle.testing_rules_items.specs.declared.archs.ArchsFault.TheVariants as fault;
ghost use Rattle.testing_rules_items.specs.Words.{arch_name};

use crate::arch_names::are_archs;
use crate::item::copy_texts;
use deb_control::{NoMemory, Text};
use std::alloc::{AllocError, AllocFailed, Global};
use std::marker::Model;
use thiserror::Error;

/// The place of `all` wherever a place names an architecture.
pub const ALL: u32 = 16;

/// Why names aren't those of an office's architectures. The first fault that applies is reported.
#[derive(Clone, Copy, Debug, PartialEq, Eq, Error)]
pub enum ArchsFault {
    /// There is no name, one isn't an architecture's, or one occurs twice.
    #[error("a bad architecture")]
    BadArchitecture,

    /// There are more than 16.
    #[error("too many architectures")]
    TooMany,

    /// An allocation failed.
    #[error("out of memory")]
    NoMemory,
}

impl From<AllocError> for ArchsFault {
    ghost from_gives = { λ _ e. e ≡ fault.NoMemory };

    fn from(_e: AllocError) -> ArchsFault {
        ArchsFault::NoMemory
    }
}

impl<T: Drop> From<AllocFailed<T>> for ArchsFault {
    ghost from_gives = { λ _ e. e ≡ fault.NoMemory };

    fn from(_e: AllocFailed<T>) -> ArchsFault {
        ArchsFault::NoMemory
    }
}

/// 1 to 16 different names of architectures (Debian Policy 5.6.8), none of them `all`, `any` or `source`,
/// seen as their list.
pub struct Archs {
    names: Vec<Text>,
}

impl Drop for Archs {
    fn drop(self) {
        let Archs { names: _ } = self;
    }
}

impl Model for Archs {
    ghost use Rattle.std.specs.Prelude.{List, ℕ};

    ghost Value = { List (List ℕ) };

    ghost view = { λ a. a.names.items };

    ghost use Rattle.testing_rules_items.specs.Archs.{IsArchs};

    ghost invariant = { λ a. IsArchs a.names.items };
}

impl Archs {
    /// These architectures. It allocates nothing.
    pub fn of(names: Vec<Text>) -> Archs
        requires { IsArchs names.items }
        ensures { result ≡ names.items }
    {
        Archs { names }
    }

    /// The architectures with these names, in order; else `BadArchitecture` or `TooMany`, the first that applies.
    /// `NoMemory` comes only if the names are valid.
    #[tactic(auto, unfolding(crate::specs::Archs::archs_of))]
    pub fn parse(alloc: Global, names: &[&str]) -> Result<Archs, ArchsFault>
        ensures { GivesArchs result (map (λ n. n.now) names.now) }
    {
        if !are_archs(names) {
            return Err(ArchsFault::BadArchitecture);
        }
        if names.len() > 16 {
            return Err(ArchsFault::TooMany);
        }
        let names = texts(alloc, names)?;
        Ok(Archs { names })
    }

    /// The names, in order.
    pub fn as_slice(&self) -> &[Text]
        ensures names { result.now ≡ self.now }
        ensures few { length result.now ≤ 16 }
        ensures valid { IsArchs self.now }
    {
        self.names.as_slice()
    }

    /// Equal architectures.
    pub fn copy(&self, alloc: Global) -> Result<Archs, NoMemory>
        ensures { IfOk result (λ archs. archs ≡ self.now) }
    {
        let names = copy_texts(alloc, &self.names)?;
        Ok(Archs { names })
    }

    /// The number of architectures.
    pub fn len(&self) -> u32
        ensures len { result ≡ length self.now }
        ensures few { result ≤ 16 }
    {
        self.names.len() as u32
    }

    /// The name of the architecture at a place, `all` for its place, or an empty text past the end.
    pub fn name(&self, place: u32) -> &str
        ensures { result.now ≡ arch_name self.now place }
    {
        if place == ALL {
            return "all";
        }
        match self.names.get(place as usize) {
            Some(name) => name.as_str(),
            None => "",
        }
    }
}

fn texts(alloc: Global, names: &[&str]) -> Result<Vec<Text>, AllocError>
    ensures { IfOk result (λ v. v.items ≡ map (λ n. n.now) names.now) }
{
    let mut texts = Vec::new(alloc);
    'names: for name in names {
        texts.push(Text::from_str(alloc, name)?)?;
    }
    Ok(texts)
}
