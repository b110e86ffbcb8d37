// A load as a request asks for it.
use crate::sent::Sent;
use csv_load::Options;
use dl_values::Name;

/// A load as a request asks for it.
#[derive(Drop)]
pub struct Load {
    pub db: Name,
    pub sent: Sent,
    /// It waits for its commit before it becomes visible.
    pub two_phase: bool,
    pub options: Options,
    /// The moment at which it came, in seconds.
    pub at: u64,
}
