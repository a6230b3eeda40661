//! The fields of messages.
ghost use Rattle.std.specs.Prelude.{◌≡◌};
ghost use Rattle.office_mail_setup.specs.Fields.{field_name};

/// A field of a message.
#[derive(Clone, Copy, Debug, PartialEq, Eq)]
pub enum Field {
    From,
    Number,
    Kind,
    Source,
    Version,
    Urgency,
    Day,
    Package,
    Architecture,
    PreDepends,
    Depends,
    Provides,
    Bug,
    Severity,
    Found,
    Fixed,
    Hint,
    Cancels,
    Low,
    Medium,
    High,
    Critical,
    Covers,
}

impl Field {
    /// Its spelling.
    pub fn name(self) -> &'static str
        ensures { result.now ≡ field_name self }
    {
        match self {
            Field::From => "From",
            Field::Number => "Number",
            Field::Kind => "Kind",
            Field::Source => "Source",
            Field::Version => "Version",
            Field::Urgency => "Urgency",
            Field::Day => "Day",
            Field::Package => "Package",
            Field::Architecture => "Architecture",
            Field::PreDepends => "Pre-Depends",
            Field::Depends => "Depends",
            Field::Provides => "Provides",
            Field::Bug => "Bug",
            Field::Severity => "Severity",
            Field::Found => "Found",
            Field::Fixed => "Fixed",
            Field::Hint => "Hint",
            Field::Cancels => "Cancels",
            Field::Low => "Low",
            Field::Medium => "Medium",
            Field::High => "High",
            Field::Critical => "Critical",
            Field::Covers => "Covers",
        }
    }
}
