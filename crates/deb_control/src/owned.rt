//! Texts and lists that contracts see as lists.

ghost use Rattle.std.specs.Prelude.{◌≡◌, IfOk};
ghost use Rattle.std.specs.String.{string_bytes};

use deb_version::SmallString;
use std::alloc::{AllocError, Global};
use std::marker::Model;

/// A text. Contracts see its bytes.
#[derive(Debug)]
pub struct Text {
    text: SmallString,
}

impl Drop for Text {
    fn drop(self) {
        let Text { text: _ } = self;
    }
}

impl Model for Text {
    ghost use Rattle.std.specs.Prelude.{List, ℕ};

    ghost Value = { List ℕ };

    ghost view = { λ a. a.text };
}

impl Text {
    /// An owned text with these bytes.
    pub fn from_str(alloc: Global, text: &str) -> Result<Text, AllocError>
        ensures { IfOk result (λ t. t ≡ text.now) }
    {
        let text = SmallString::from_str(alloc, text)?;
        Ok(Text { text })
    }

    /// A text of these bytes. It allocates nothing.
    pub fn from_string(text: String) -> Text
        ensures { result ≡ string_bytes text }
    {
        Text {
            text: SmallString::from_string(text),
        }
    }

    /// The text as a slice.
    pub fn as_str(&self) -> &str
        ensures { result.now ≡ self.now }
    {
        self.text.as_str()
    }

    /// An equal text.
    pub fn copy(&self, alloc: Global) -> Result<Text, AllocError>
        ensures { IfOk result (λ t. t ≡ self.now) }
    {
        let text = self.text.copy(alloc)?;
        Ok(Text { text })
    }
}
