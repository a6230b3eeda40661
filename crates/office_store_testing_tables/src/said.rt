//! What the office's row says.
use deb_control::Text;

/// The content of the office's row: the schema's number, the setup's text, and the number of finished runs.
#[derive(Drop)]
pub struct Said {
    pub schema: u32,
    pub setup: Text,
    pub finished: u32,
}
