//! The kinds of messages, and who sends them.
ghost use Rattle.std.specs.Prelude.{◌≡◌};
ghost use Rattle.office_mail_setup.specs.Kinds.{kind_named, may_send, fields_needed};

use crate::field::Field;
use crate::setup::Role;

/// A kind of message.
#[derive(Clone, Copy, Debug, PartialEq, Eq)]
pub enum Kind {
    Upload,
    Drop,
    Build,
    Bug,
    Hint,
    Unhint,
    Delays,
    Run,
    Nothing,
}

impl Kind {
    /// The kind with this name.
    #[tactic(auto, unfolding(crate::specs::Kinds::kind_named))]
    pub fn named(name: &str) -> Option<Kind>
        ensures { result ≡ kind_named name.now }
    {
        match name {
            "upload" => Some(Kind::Upload),
            "drop" => Some(Kind::Drop),
            "build" => Some(Kind::Build),
            "bug" => Some(Kind::Bug),
            "hint" => Some(Kind::Hint),
            "unhint" => Some(Kind::Unhint),
            "delays" => Some(Kind::Delays),
            "run" => Some(Kind::Run),
            "none" => Some(Kind::Nothing),
            _ => None,
        }
    }

    /// The fields needed in the first paragraph besides From, Number and Kind.
    pub fn fields_needed(self) -> &'static [Field]
        ensures { result.now ≡ fields_needed self }
    {
        match self {
            Kind::Upload => &[Field::Source, Field::Version, Field::Urgency, Field::Day],
            Kind::Drop => &[Field::Package, Field::Architecture, Field::Version],
            Kind::Build => &[],
            Kind::Bug => &[Field::Bug, Field::Source, Field::Severity],
            Kind::Hint => &[Field::Hint],
            Kind::Unhint => &[Field::Cancels],
            Kind::Delays => &[Field::Low, Field::Medium, Field::High, Field::Critical],
            Kind::Run => &[Field::Day, Field::Covers],
            Kind::Nothing => &[],
        }
    }
}

impl Role {
    /// Whether a sender with this role may send such messages.
    pub fn may_send(self, kind: Kind) -> bool
        ensures { result ≡ may_send self kind }
    {
        match self {
            Role::Upload => matches!(kind, Kind::Upload | Kind::Drop | Kind::Nothing),
            Role::Build => matches!(kind, Kind::Build | Kind::Nothing),
            Role::Bugs => matches!(kind, Kind::Bug | Kind::Nothing),
            Role::Release => matches!(
                kind,
                Kind::Hint | Kind::Unhint | Kind::Delays | Kind::Nothing
            ),
            Role::Runs => matches!(kind, Kind::Run),
        }
    }
}
