//! Clauses shared by builds of one package.

ghost use Rattle.std.specs.Prelude.{◌≡◌, IfOk, IfSome};

use deb_control::{Binary, Clauses};
use deb_version::NoMemory;
use std::alloc::Global;
use std::collections::HashMap;
use testing_install::hash_of;
use testing_rules_items::{Binaries, Item};
use testing_rules_model::are_same;

/// The clauses of the last binary package of each name, by the hash of the name. Most packages have the same needs on
/// each architecture, so that their builds can share one list.
#[derive(Drop)]
pub struct LastClauses {
    clauses: HashMap<u64, Clauses>,
}

/// The last clauses at the hash, if they equal these.
fn equal_clauses(
    last: &HashMap<u64, Clauses>,
    hash: u64,
    clauses: &Clauses,
) -> Result<Option<Clauses>, NoMemory>
    ensures { IfOk result (λ found. IfSome found (λ shared. shared ≡ clauses.now)) }
{
    match last.get(&hash) {
        Some(other) => {
            if are_same(other.as_slice(), clauses.as_slice()) {
                Ok(Some(other.copy()?))
            } else {
                Ok(None)
            }
        }
        None => Ok(None),
    }
}

impl LastClauses {
    /// No clauses yet.
    pub fn new(alloc: Global) -> LastClauses {
        LastClauses {
            clauses: HashMap::new(alloc),
        }
    }

    /// The binary package shares the clauses of the last one of its name, if they are equal.
    fn share_one(&mut self, binary: &mut Binary) -> Result<(), NoMemory>
        ensures { binary.new ≡ binary.old }
    {
        let hash = hash_of(binary.name.as_str());
        match equal_clauses(&self.clauses, hash, &binary.clauses)? {
            Some(clauses) => binary.clauses = clauses,
            None => {
                self.clauses.insert(hash, binary.clauses.copy()?)?;
            }
        }
        Ok(())
    }

    fn share_all(&mut self, binaries: &mut [Binary]) -> Result<(), NoMemory>
        ensures { binaries.new ≡ binaries.old }
    {
        for place in 0..binaries.len() {
            self.share_one(&mut binaries[place])?;
        }
        Ok(())
    }

    /// The same item. A build shares the clauses of earlier ones.
    pub fn shared(&mut self, item: Item) -> Result<Item, NoMemory>
        ensures { IfOk result (λ shared. shared ≡ item) }
    {
        match item {
            Item::Build(binaries) => {
                let mut binaries = binaries.into_vec();
                self.share_all(&mut binaries)?;
                Ok(Item::Build(Binaries::of(binaries)))
            }
            other => Ok(other),
        }
    }
}
