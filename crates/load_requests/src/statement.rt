// The statements that are served.
use dl_values::Name;
use sql_text::PlainDef;

/// A statement.
#[derive(Debug, Drop)]
pub enum Statement {
    CreateDb(Name),
    CreateTable(Name, PlainDef),
    Select(Name),
}
