//! Suites of which only the sources are used.

ghost use Rattle.std.specs.Prelude.{◌≡◌};
ghost use Rattle.testing_rules_model.specs.InOrder.{AreByName};
ghost use Rattle.testing_rules_model.specs.Suite.{Suite};

use crate::suite::SourceIn;

/// A suite of which only the sources are used.
pub trait HasSources {
    // The suite.
    ghost suite: { Self → Suite };

    /// The sources in byte order of their names, each name once.
    fn sources_by_name(&self) -> &[SourceIn]
        ensures sources { result.now ≡ (suite self.now).sources }
        ensures ordered { AreByName result.now };
}
