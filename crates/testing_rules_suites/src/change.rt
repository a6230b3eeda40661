//! The rows that come and leave when a group moves.

use smallvec::SmallVec;

/// Places of rows that leave, and of rows that come then. They are usually few, and are kept in the value itself.
#[derive(Drop)]
pub struct Change {
    pub leaving: SmallVec<usize, 4>,
    pub coming: SmallVec<usize, 4>,
}
