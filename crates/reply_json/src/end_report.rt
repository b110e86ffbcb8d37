// What the end of a two-phase load answers.
use dl_values::Text;

/// What the end of a two-phase load answers (Apache Doris documentation, "Stream Load", on two-phase commit).
#[derive(Debug, Drop)]
pub enum EndReport {
    /// The load was committed, or else aborted. One that was committed is published too, or a fault came before that.
    Done {
        commit: bool,
        published: bool,
        txn: u64,
    },
    /// It was refused, with this text.
    Refused(Text),
}
