// Why a map is refused.
use dl_values::Name;
use thiserror::Error;

/// The first rule that a map breaks, in the order in which the rules are looked at. `NoColumn` names a column of the source,
/// the others one of the target; `NeedsKey` names the key that the target lacks.
#[derive(Debug, Drop, Error)]
pub enum AdmitError {
    /// The source has no column of that name.
    #[error("a column is unknown")]
    NoColumn { column: Name },
    /// There is no such cast, or the column changes its part, or a constant is not of the column's type.
    #[error("a column cannot be made so")]
    BadCast { column: Name },
    /// A SUM column would change its type.
    #[error("a SUM column keeps its type")]
    SumType { column: Name },
    /// The order of a MIN or a MAX column would change.
    #[error("a MIN or MAX column keeps its order")]
    NeedsMonotone { column: Name },
    /// Two keys could become one.
    #[error("a key column keeps its values apart")]
    NeedsOneToOne { column: Name },
    /// A SUM column is added with a default that is neither NULL nor 0.
    #[error("a new SUM column is NULL or 0 at first")]
    SumDefault { column: Name },
    /// The target lacks a key column, and the newer of its rows would count.
    #[error("each key column is needed")]
    NeedsKey { column: Name },
}
