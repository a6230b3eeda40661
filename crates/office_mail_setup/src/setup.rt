//! Who sends mail to the office, and the architectures for which it decides.
ghost use Rattle.std.specs.Prelude.{◌≡◌, ◌<◌, ◌≤◌, IfOk, length};
ghost use Rattle.office_mail_setup.specs.declared.setup.SetupFault.TheVariants as fault;
ghost use Rattle.office_mail_setup.specs.SetupAnswers.{SetupGives};
ghost use Rattle.office_mail_setup.specs.Setup.{setup_in as setup_said, setup_field_name, place_of_role, role_named, IsSetup};

use crate::setup_read::setup_in;
use deb_control::{NoMemory, Text};
use std::alloc::{AllocError, AllocFailed, Global};
use std::marker::Model;
use testing_rules_items::Archs;
use thiserror::Error;

/// What a sender may send.
#[derive(Clone, Copy, Debug, PartialEq, Eq)]
pub enum Role {
    Upload,
    Build,
    Bugs,
    Release,
    Runs,
}

impl Role {
    ghost use Rattle.office_mail_setup.specs.Setup.{same_role};

    pub(crate) fn is_runs(self) -> bool
        ensures { result ≡ same_role Role.Runs self }
    {
        matches!(self, Role::Runs)
    }

    /// The role with this name.
    #[tactic(auto, unfolding(crate::specs::Setup::role_named))]
    pub fn named(name: &str) -> Option<Role>
        ensures { result ≡ role_named name.now }
    {
        match name {
            "upload" => Some(Role::Upload),
            "build" => Some(Role::Build),
            "bugs" => Some(Role::Bugs),
            "release" => Some(Role::Release),
            "runs" => Some(Role::Runs),
            _ => None,
        }
    }
}

/// A sender of mail, and what it may send.
#[derive(Drop)]
pub struct Sender {
    pub name: Text,
    pub role: Role,
}

impl Sender {
    /// An equal sender.
    pub fn copy(&self, alloc: Global) -> Result<Sender, NoMemory>
        ensures { IfOk result (λ sender. sender ≡ self.now) }
    {
        let name = self.name.copy(alloc)?;
        Ok(Sender {
            name,
            role: self.role,
        })
    }
}

/// A field of a setup.
#[derive(Clone, Copy, Debug, PartialEq, Eq)]
pub enum SetupField {
    Architectures,
    Sender,
    Role,
}

impl SetupField {
    /// Its spelling.
    pub fn name(self) -> &'static str
        ensures { result.now ≡ setup_field_name self }
    {
        match self {
            SetupField::Architectures => "Architectures",
            SetupField::Sender => "Sender",
            SetupField::Role => "Role",
        }
    }
}

/// Why a text isn't a setup. The first fault that applies is reported.
#[derive(Clone, Copy, Debug, PartialEq, Eq, Error)]
pub enum SetupFault {
    #[error("a paragraph can't be read")]
    BadParagraph,
    #[error("the field {0:?} is missing")]
    MissingField(SetupField),
    #[error("a bad architecture")]
    BadArchitecture,
    #[error("a bad sender")]
    BadSender,
    #[error("an unknown role, or too few or too many senders of a role")]
    BadRoles,
    #[error("too many architectures or senders, or too long a text")]
    TooMany,
    #[error("out of memory")]
    NoMemory,
}

impl From<AllocError> for SetupFault {
    ghost from_gives = { λ _ e. e ≡ fault.NoMemory };

    fn from(_e: AllocError) -> SetupFault {
        SetupFault::NoMemory
    }
}

impl<T: Drop> From<AllocFailed<T>> for SetupFault {
    ghost from_gives = { λ _ e. e ≡ fault.NoMemory };

    fn from(_e: AllocFailed<T>) -> SetupFault {
        SetupFault::NoMemory
    }
}

/// The architectures and the senders, each in order.
pub struct Setup {
    archs: Archs,
    senders: Vec<Sender>,
}

impl Drop for Setup {
    fn drop(self) {
        let Setup {
            archs: _,
            senders: _,
        } = self;
    }
}

impl Model for Setup {
    ghost use Rattle.office_mail_setup.specs.Lists.{Lists};
    ghost use Rattle.office_mail_setup.specs.Setup.{IsSetup};

    ghost Value = { Lists };

    ghost view = { λ a. record { archs = a.archs; senders = a.senders.items } };

    ghost invariant = { λ a. IsSetup (record { archs = a.archs; senders = a.senders.items }) };
}

impl Setup {
    /// The setup in a text. The first fault that applies is reported, in the listed order; memory may run out at any
    /// point.
    pub fn parse(alloc: Global, text: &[u8]) -> Result<Setup, SetupFault>
        ensures { SetupGives result (setup_said text.now) }
    {
        setup_in(alloc, text)
    }

    /// A setup of these lists. It allocates nothing.
    pub(crate) fn of(archs: Archs, senders: Vec<Sender>) -> Setup
        requires { IsSetup (record { archs = archs; senders = senders.items }) }
        ensures { result ≡ record { archs = archs; senders = senders.items } }
    {
        Setup { archs, senders }
    }

    /// The architectures, in order.
    pub fn archs(&self) -> &Archs
        ensures same { result.now ≡ self.now.archs }
        ensures valid { IsSetup self.now }
    {
        &self.archs
    }

    /// The senders, in order.
    pub fn senders(&self) -> &[Sender]
        ensures same { result.now ≡ self.now.senders }
        ensures few { length result.now ≤ 16 }
    {
        self.senders.as_slice()
    }

    /// An equal setup.
    pub fn copy(&self, alloc: Global) -> Result<Setup, NoMemory>
        ensures { IfOk result (λ setup. setup ≡ self.now) }
    {
        let archs = self.archs.copy(alloc)?;
        let senders = copy_senders(alloc, &self.senders)?;
        Ok(Setup { archs, senders })
    }

    /// The place of the sender of run orders.
    pub fn runs(&self) -> u32
        ensures same { result ≡ place_of_role Role.Runs self.now.senders }
        ensures there { result < length self.now.senders }
        ensures valid { IsSetup self.now }
    {
        let senders = self.senders.as_slice();
        let mut place = 0;
        for sender in senders {
            if sender.role.is_runs() {
                return place;
            }
            place += 1;
        }
        place
    }
}

fn copy_senders(alloc: Global, senders: &[Sender]) -> Result<Vec<Sender>, NoMemory>
    ensures { IfOk result (λ copies. copies.items ≡ senders.now) }
{
    let mut copies = Vec::new(alloc);
    'each: for sender in senders {
        copies.push(sender.copy(alloc)?)?;
    }
    Ok(copies)
}
