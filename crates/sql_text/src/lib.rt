//! The statements of the service, and the reader that gives the statement of a text or the first fault of it.
#![tactic(auto)]

mod alter;
mod clause;
mod clauses;
mod create;
mod definition;
mod key_clause;
pub mod laws;
mod names;
mod parse;
mod part;
mod parts;
mod plain_def;
mod query;
mod select;
mod show;
mod sql_error;
mod statement;
mod stmt;
mod table_def;

pub use clause::{AlteredColumn, Clause, ColumnPlace};
pub use key_clause::KeyClause;
pub use parse::parse_stmt;
pub use part::{Part, PartBounds};
pub use plain_def::{PlainColumn, PlainDef};
pub use query::{AggFn, Check, CompareOp, Filter, Item, Literal, OrderBy, OrderKey, Query};
pub use sql_error::{SqlError, SqlKind};
pub use stmt::{AdminTask, AlterKind, Stmt, TransactionKey};
pub use table_def::{ColumnText, ColumnType, DefaultText, Property, Ranges, TableDef};
