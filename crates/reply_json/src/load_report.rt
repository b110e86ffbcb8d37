// What a load answers.
use dl_values::Text;

/// What a load answers (Apache Doris documentation, "Stream Load", "Return Results"). Counts are of rows, but `bytes`,
/// which is the body's length.
#[derive(Debug, Drop)]
pub enum LoadReport {
    /// It began: a transaction was opened for it.
    Began {
        label: Text,
        bytes: u64,
        message: Text,
        filtered: u64,
        loaded: u64,
        total: u64,
        status: Text,
        txn: u64,
    },
    /// Its label is used by an earlier transaction, of which `job` and `state` are told.
    Used {
        label: Text,
        job: Text,
        state: Text,
        message: Text,
        txn: u64,
    },
    /// It was refused before it began. The label is told where the request has one.
    Refused {
        label: Option<Text>,
        message: Text,
    },
}
