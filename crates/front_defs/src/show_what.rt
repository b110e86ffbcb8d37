// What a report is asked of.
use alter_core::JobKind;
use dl_values::Name;

/// What a report shows of a database.
#[derive(Debug, Drop)]
pub enum ShowWhat {
    Tables,
    /// The partitions of the table of that name.
    Partitions(Name),
    /// The columns of the table of that name and of its rollups.
    Indexes(Name),
    /// The kept jobs of that kind.
    Jobs(JobKind),
    /// The transaction of that number.
    ById(u64),
    /// The last transaction that holds that label.
    ByLabel(Name),
}
