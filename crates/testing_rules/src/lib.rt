//! The promotion rules: which sources may move from unstable to testing, and how they move; and what they promise over
//! whole runs.
#![tactic(auto)]

mod dated;

pub use dated::{excuses, excuses_text, update_text};
pub use testing_rules_excuses::fallen;
pub use testing_rules_facts::Facts;
pub use testing_rules_items::{
    ALL, Archs, Binaries, Hint, HintItem, HintItems, Item, Names, Severity, Urgency,
};
pub use testing_rules_laws::laws;
pub use testing_rules_model::{
    BugIn, BuildIn, Decision, Delays, DelaysIn, DropIn, Excuse, Excuses, FactChanges, FactKind,
    FactRow, FactRows, HasSources, HintIn, Moved, MovedItems, Offender, Reason, Reasons, RowIn,
    SharedBinary, SourceIn, UnhintIn, Update, UploadIn,
};
pub use testing_rules_moves::migrate;
pub use testing_rules_reports::testing_text;
pub use testing_rules_suites::Testing;
