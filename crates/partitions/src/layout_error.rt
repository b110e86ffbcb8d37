// What is wrong with a layout.
use dl_values::{Name, NoMemory};
use thiserror::Error;

/// The first thing that is wrong with a layout, in the order in which it is looked for.
#[derive(Debug, Drop, Error)]
pub enum LayoutError {
    /// A partition is added to a table that has no partition column.
    #[error("the table has no partition column")]
    NotPartitioned,
    /// The partition column or a distribution column is no column of the table.
    #[error("a partition or distribution column is no column of the table")]
    NoColumn { column: Name },
    /// The partition column is no key or a VARCHAR, or a distribution column of a Unique or an Aggregate table is no key.
    #[error("a partition or distribution column may not be one")]
    NotAKey { column: Name },
    /// The number of buckets is not from 1 to 64.
    #[error("the number of buckets is not from 1 to 64")]
    BadBuckets,
    /// An end of a partition is null or not of its column's type, or the low end is not below the high one.
    #[error("the range of a partition has a wrong end")]
    BadBound { partition: Name },
    /// The name of a partition is no name.
    #[error("the name of a partition is no name")]
    BadName { partition: Name },
    /// Two partitions have one name.
    #[error("two partitions have one name")]
    DoubleName { partition: Name },
    /// Two partitions have a value in common.
    #[error("two partitions have a value in common")]
    Overlap { partition: Name },
    /// There would be more than 1,000 partitions.
    #[error("there would be more than 1,000 partitions")]
    TooManyPartitions,
    #[error("there is not enough memory")]
    NoMemory,
}

impl From<NoMemory> for LayoutError {
    ghost use Rattle.std.specs.Prelude.{◌≡◌};
    ghost use Rattle.partitions.specs.declared.layout_error.LayoutError.TheVariants as error;

    ghost from_gives = { λ _ e. e ≡ error.NoMemory };

    fn from(_: NoMemory) -> LayoutError {
        LayoutError::NoMemory
    }
}
