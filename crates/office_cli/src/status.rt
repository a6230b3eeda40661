//! The exit statuses of the program.

ghost use Rattle.std.specs.Prelude.{◌≡◌};
ghost use Rattle.office_cli.specs.steps.Status.{code_of};

/// How the program ends.
#[derive(Clone, Copy, Debug, PartialEq, Eq)]
pub enum ExitStatus {
    /// A question has no answer, or an answer says no: nothing changes, something waits, a message is refused.
    Negative,
    /// The words aren't as required.
    Usage,
    /// A setup, a bag, a hint or a store is refused.
    Refused,
    /// Memory, the store, a socket or standard output failed.
    Failed,
}

impl ExitStatus {
    /// The number that the process ends with. Success is 0, for which there is no value here.
    pub fn code(self) -> u8
        ensures { result ≡ code_of self }
    {
        match self {
            ExitStatus::Negative => 1,
            ExitStatus::Usage => 2,
            ExitStatus::Refused => 3,
            ExitStatus::Failed => 4,
        }
    }
}
