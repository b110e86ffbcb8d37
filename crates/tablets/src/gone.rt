// A compaction that came too late.
use thiserror::Error;

/// The rowsets that a compaction names do not stand first any more, or it names none.
#[derive(Clone, Copy, Debug, PartialEq, Eq, Error)]
#[error("the rowsets that were merged do not stand first any more")]
pub struct Gone;
