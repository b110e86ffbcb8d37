// A query over one table.
use dl_values::{Name, Text};
use sqlite_items::Items;

/// `SELECT .. FROM table [WHERE ..] [GROUP BY ..] [ORDER BY ..] [LIMIT ..]`, by its parts in the order of the text.
#[derive(Debug, Drop)]
pub struct Query {
    pub table: Name,
    /// The select list is `*`, and `items` is empty.
    pub star: bool,
    pub items: Items<Item>,
    /// All of them have to hold.
    pub filters: Items<Filter>,
    pub group: Items<Name>,
    pub order: Items<OrderKey>,
    pub limit: Option<u64>,
}

/// One member of a select list.
#[derive(Debug, Drop)]
pub enum Item {
    Column(Name),
    Agg(AggFn, Name),
    /// `COUNT(*)`.
    CountAll,
}

/// An aggregate over one column.
#[derive(Clone, Copy, Debug, PartialEq, Eq)]
pub enum AggFn {
    Sum,
    Min,
    Max,
    Count,
}

/// A test of one column.
#[derive(Debug, Drop)]
pub struct Filter {
    pub column: Name,
    pub check: Check,
}

/// What a column is tested for.
#[derive(Debug, Drop)]
pub enum Check {
    Compare(CompareOp, Literal),
    IsNull,
    IsNotNull,
}

/// How a cell has to stand to a literal.
#[derive(Clone, Copy, Debug, PartialEq, Eq)]
pub enum CompareOp {
    Eq,
    Ne,
    Lt,
    Le,
    Gt,
    Ge,
}

/// A value as a statement writes it.
#[derive(Debug, Drop)]
pub enum Literal {
    Int(i64),
    Text(Text),
}

/// One key of an ORDER BY.
#[derive(Debug, Drop)]
pub struct OrderKey {
    pub by: OrderBy,
    pub descending: bool,
}

/// A member of the select list, by itself or by its position from 1.
#[derive(Debug, Drop)]
pub enum OrderBy {
    Item(Item),
    Position(i64),
}
