// Whose shadow an index is.

/// A new index that is not yet read: the job that fills it, and the number of the index whose place it will take, if it
/// takes one (Apache Doris documentation, "Schema Change").
#[derive(Clone, Copy, Debug, PartialEq, Eq)]
pub struct Shadow {
    pub job: u64,
    pub replaces: Option<u64>,
}
