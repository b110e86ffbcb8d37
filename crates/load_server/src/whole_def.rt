// Writing out a plain definition.
ghost use Rattle.std.specs.Prelude.{◌≡◌, IfOk, map};
ghost use Rattle.load_server.specs.WholeDef.{whole_column, whole_def, whole_kind};

use dl_values::{ColType, NoMemory};
use sql_text::{ColumnText, ColumnType, PlainColumn, PlainDef, TableDef};
use sqlite_items::Items;
use std::alloc::Global;

/// The definition of a table that a plain one stands for.
pub fn whole_def(alloc: Global, def: PlainDef) -> Result<TableDef, NoMemory>
    ensures { IfOk result (λ d. d ≡ whole_def def) }
{
    let PlainDef {
        columns,
        key,
        hash,
        buckets,
    } = def;
    let columns = whole_columns(alloc, columns.as_slice())?;
    Ok(TableDef {
        columns,
        key,
        ranges: None,
        hash,
        buckets,
        properties: Items::new(alloc),
    })
}

fn whole_columns(alloc: Global, columns: &[PlainColumn]) -> Result<Items<ColumnText>, NoMemory>
    ensures { IfOk result (λ cs. cs ≡ map whole_column columns.now) }
{
    let mut whole = Items::new(alloc);
    for column in columns {
        whole.push(whole_column(alloc, column)?)?;
    }
    Ok(whole)
}

fn whole_column(alloc: Global, column: &PlainColumn) -> Result<ColumnText, NoMemory>
    ensures { IfOk result (λ c. c ≡ whole_column column.now) }
{
    Ok(ColumnText {
        name: column.name.copy(alloc)?,
        kind: whole_kind(column.kind),
        agg: None,
        nullable: column.nullable,
        default: None,
    })
}

fn whole_kind(kind: ColType) -> ColumnType
    ensures { result ≡ whole_kind kind }
{
    match kind {
        ColType::TinyInt => ColumnType::TinyInt,
        ColType::SmallInt => ColumnType::SmallInt,
        ColType::Int => ColumnType::Int,
        ColType::BigInt => ColumnType::BigInt,
        ColType::Date => ColumnType::Date,
        ColType::Varchar(most) => ColumnType::Varchar(most as u64),
    }
}
