//! A binary package that rows share.

ghost use Rattle.std.specs.Prelude.{◌≡◌, IfOk};
ghost use Rattle.testing_install.specs.Index.{hash_of};

use deb_control::Binary;
use deb_version::NoMemory;
use std::alloc::Global;
use std::marker::Model;
use std::ops::Deref;
use std::rc::Rc;
use testing_install::hash_of;

/// A binary package with one value shared by a build of unstable, the rows of testing and a suite: a row that moves or
/// stays copies none of its texts. The value includes the hash of its source's name, so that the rows of a few sources
/// are found without reading the texts of all.
pub struct SharedBinary {
    shared: Rc<Binary>,
    source_hash: u64,
}

impl Drop for SharedBinary {
    fn drop(self) {
        let SharedBinary {
            shared: _,
            source_hash: _,
        } = self;
    }
}

impl Model for SharedBinary {
    ghost use Rattle.deb_control.specs.declared.binary.Binary.{Binary};
    ghost use Rattle.std.specs.Prelude.{◌≡◌};
    ghost use Rattle.testing_install.specs.Index.{hash_of};

    ghost Value = { Binary };

    ghost view = { λ b. b.shared.value };

    ghost invariant = { λ b. b.source_hash ≡ hash_of b.shared.value.source };
}

impl SharedBinary {
    /// The package, which others may share from here on.
    pub fn of(alloc: Global, binary: Binary) -> Result<SharedBinary, NoMemory>
        ensures { IfOk result (λ b. b ≡ binary) }
    {
        let source_hash = hash_of(binary.source.as_str());
        let shared = Rc::new(alloc, binary)?;
        Ok(SharedBinary {
            shared,
            source_hash,
        })
    }

    /// An equal package, which others may share from here on.
    pub fn copy_of(alloc: Global, binary: &Binary) -> Result<SharedBinary, NoMemory>
        ensures { IfOk result (λ b. b ≡ binary.now) }
    {
        SharedBinary::of(alloc, binary.copy(alloc)?)
    }

    /// This package, shared once more.
    pub fn share(&self) -> Result<SharedBinary, NoMemory>
        ensures { IfOk result (λ b. b ≡ self.now) }
    {
        let shared = self.shared.clone()?;
        Ok(SharedBinary {
            shared,
            source_hash: self.source_hash,
        })
    }

    /// The hash of its source's name.
    pub fn source_hash(&self) -> u64
        ensures { result ≡ hash_of self.now.source }
    {
        self.source_hash
    }

    /// The package for a suite, which shares it too.
    pub fn package(&self) -> Result<Rc<Binary>, NoMemory>
        ensures { IfOk result (λ binary. binary.value ≡ self.now) }
    {
        Ok(self.shared.clone()?)
    }
}

impl Deref for SharedBinary {
    type Target = Binary;

    ghost deref_gives = { λ x y. y ≡ x };

    fn deref(&self) -> &Binary {
        self.shared.as_ref()
    }
}
