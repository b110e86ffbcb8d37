// What a column is for.
use dl_values::AggKind;

/// The part that a column plays: a key, a plain value, or a value that merges by its kind.
#[derive(Clone, Copy, Debug, PartialEq, Eq)]
pub enum Role {
    Key,
    Plain,
    Agg(AggKind),
}
