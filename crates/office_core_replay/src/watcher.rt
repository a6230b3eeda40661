//! A watcher of a replay: it sees each delivery, and influences none.

use office_core_orders::Progress;
use office_core_replies::{DeliverFault, Held};
use office_core_store::StoreFault;

/// Sees each delivery of a replay. Nothing that it does changes what the replay does.
pub trait Watcher {
    /// A text was delivered, with this reply.
    fn delivered(&mut self, text: &[u8], reply: &Result<Held, DeliverFault>);

    /// The office has settled after a text that it holds.
    fn settled(&mut self, settled: &Result<Progress, StoreFault>);
}

/// Nobody watches.
#[derive(Clone, Copy, Debug, PartialEq, Eq)]
pub struct Unwatched;

impl Watcher for Unwatched {
    fn delivered(&mut self, _text: &[u8], _reply: &Result<Held, DeliverFault>) {}

    fn settled(&mut self, _settled: &Result<Progress, StoreFault>) {}
}
