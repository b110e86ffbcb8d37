// How the cells of a value column merge.

/// The aggregation of a value column, as in the Aggregate model of the Apache Doris documentation ("Aggregate Key
/// Model").
#[derive(Clone, Copy, Debug, PartialEq, Eq)]
pub enum AggKind {
    Sum,
    Min,
    Max,
    Replace,
    ReplaceIfNotNull,
}
