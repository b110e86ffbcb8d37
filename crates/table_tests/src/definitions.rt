// Definitions as a table: the text of each, and what it gives as another.
use super::layouts::fault;
use super::texts::read;
use dl_values::{Cell, ColType, Name, NoMemory};
use partitions::{Bounds, Layout, LayoutError};
use schema_models::{Model, Shape, ShapeError};
use sql_text::{Part, Stmt, TableDef};
use std::alloc::Global;
use std::test::Fail;
use table_defs::{DefError, define, part_of};

const DEFINITIONS: &[(&str, &str)] = &[
    (
        "(k INT, v INT) DISTRIBUTED BY HASH(k)",
        "Duplicate 1 of 2 keys, 1 parts, 10 buckets",
    ),
    (
        "(k INT, v INT) DUPLICATE KEY(k, v) DISTRIBUTED BY HASH(v) BUCKETS 1",
        "Duplicate 2 of 2 keys, 1 parts, 1 buckets",
    ),
    (
        "(k INT, c INT, v BIGINT SUM) AGGREGATE KEY(k, c) DISTRIBUTED BY HASH(k) BUCKETS 4",
        "Aggregate 2 of 3 keys, 1 parts, 4 buckets",
    ),
    (
        "(k INT, v VARCHAR(9) DEFAULT 'x') UNIQUE KEY(k) COMMENT 'c' DISTRIBUTED BY HASH(k) BUCKETS 64",
        "Unique 1 of 2 keys, 1 parts, 64 buckets",
    ),
    (
        "(city VARCHAR(16), day DATE, items BIGINT SUM) AGGREGATE KEY(city, day) PARTITION BY RANGE(day) (PARTITION p1 VALUES LESS THAN ('2024-02-01'), PARTITION p2 VALUES LESS THAN ('2024-03-01')) DISTRIBUTED BY HASH(city) BUCKETS 4",
        "Aggregate 2 of 3 keys, 2 parts, 4 buckets",
    ),
    (
        "(k INT, v INT) UNIQUE KEY(v) DISTRIBUTED BY HASH(k)",
        "KeyAfterValue 0",
    ),
    (
        "(k INT, v INT) UNIQUE KEY(k, x) DISTRIBUTED BY HASH(k)",
        "KeyAfterValue 1",
    ),
    (
        "(k INT, v INT) UNIQUE KEY(k, v, x) DISTRIBUTED BY HASH(k)",
        "KeyAfterValue 2",
    ),
    (
        "(k BIGINT SUM, v INT) UNIQUE KEY(v) DISTRIBUTED BY HASH(k)",
        "KeyAfterValue 0",
    ),
    ("(k BIGINT SUM, v INT) DISTRIBUTED BY HASH(k)", "BadAgg 0"),
    (
        "(k INT, c BIGINT MAX, `1` INT) UNIQUE KEY(k, c) DISTRIBUTED BY HASH(k)",
        "BadAgg 1",
    ),
    (
        "(k INT, v INT) AGGREGATE KEY(k) DISTRIBUTED BY HASH(k)",
        "BadAgg 1",
    ),
    (
        "(k INT, v INT SUM) AGGREGATE KEY(k) DISTRIBUTED BY HASH(k)",
        "BadAgg 1",
    ),
    (
        "(k INT, v INT SUM) UNIQUE KEY(k) DISTRIBUTED BY HASH(k)",
        "BadAgg 1",
    ),
    ("(k INT, k INT) DISTRIBUTED BY HASH(x)", "DoubleName 1"),
    ("(`k-k` INT) DISTRIBUTED BY HASH(x)", "BadName 0"),
    ("(k VARCHAR(0)) DISTRIBUTED BY HASH(k)", "BadType 0"),
    (
        "(k VARCHAR(65533)) DISTRIBUTED BY HASH(k)",
        "Duplicate 1 of 1 keys, 1 parts, 10 buckets",
    ),
    ("(k VARCHAR(65534)) DISTRIBUTED BY HASH(k)", "BadType 0"),
    (
        "(k VARCHAR(4294967297)) DISTRIBUTED BY HASH(k)",
        "BadType 0",
    ),
    (
        "(k INT, v INT DEFAULT 'x') DISTRIBUTED BY HASH(k)",
        "BadDefault 1",
    ),
    (
        "(k INT, v INT DEFAULT 'x', v INT) DISTRIBUTED BY HASH(k)",
        "BadDefault 1",
    ),
    (
        "(k INT, v TINYINT DEFAULT 128) DISTRIBUTED BY HASH(k)",
        "BadDefault 1",
    ),
    (
        "(k INT, v TINYINT DEFAULT ' 127 ') DISTRIBUTED BY HASH(k)",
        "Duplicate 1 of 2 keys, 1 parts, 10 buckets",
    ),
    (
        "(k INT, v DATE DEFAULT '2023-02-29') DISTRIBUTED BY HASH(k)",
        "BadDefault 1",
    ),
    (
        "(k INT, v VARCHAR(2) DEFAULT 100) DISTRIBUTED BY HASH(k)",
        "BadDefault 1",
    ),
    (
        "(k INT, v VARCHAR(3) DEFAULT 100) DISTRIBUTED BY HASH(k)",
        "Duplicate 1 of 2 keys, 1 parts, 10 buckets",
    ),
    (
        "(k INT NOT NULL DEFAULT NULL) DISTRIBUTED BY HASH(k)",
        "BadDefault 0",
    ),
    ("(k INT) DISTRIBUTED BY HASH(x) BUCKETS 0", "NoColumn x"),
    (
        "(k INT, v INT) UNIQUE KEY(k) DISTRIBUTED BY HASH(v) BUCKETS 0",
        "NotAKey v",
    ),
    (
        "(k VARCHAR(4)) PARTITION BY RANGE(k) (PARTITION p VALUES LESS THAN ('x')) DISTRIBUTED BY HASH(k)",
        "NotAKey k",
    ),
    ("(k INT) DISTRIBUTED BY HASH(k) BUCKETS 0", "BadBuckets"),
    ("(k INT) DISTRIBUTED BY HASH(k) BUCKETS 65", "BadBuckets"),
    (
        "(k INT) DISTRIBUTED BY HASH(k) BUCKETS 4294967297",
        "BadBuckets",
    ),
    (
        "(k INT) PARTITION BY RANGE(k) (PARTITION `1` VALUES LESS THAN ('x')) DISTRIBUTED BY HASH(k)",
        "BadBound 1",
    ),
    (
        "(k INT) PARTITION BY RANGE(k) (PARTITION p VALUES [(5), (5))) DISTRIBUTED BY HASH(k)",
        "BadBound p",
    ),
    (
        "(k INT) PARTITION BY RANGE(k) (PARTITION p VALUES LESS THAN (' 5 '), PARTITION q VALUES LESS THAN MAXVALUE) DISTRIBUTED BY HASH(k)",
        "Duplicate 1 of 1 keys, 2 parts, 10 buckets",
    ),
    (
        "(k INT) PARTITION BY RANGE(k) (PARTITION p VALUES LESS THAN (9), PARTITION q VALUES LESS THAN (5)) DISTRIBUTED BY HASH(k)",
        "Overlap q",
    ),
    (
        "(k INT) DISTRIBUTED BY HASH(k) PROPERTIES ('enable_unique_key_merge_on_write' = 'true')",
        "BadProperty",
    ),
    (
        "(k INT) DISTRIBUTED BY HASH(k) PROPERTIES ('a' = 'b', 'enable_unique_key_merge_on_write' = 'FALSE')",
        "BadProperty",
    ),
    (
        "(k INT) DISTRIBUTED BY HASH(k) PROPERTIES ('enable_unique_key_merge_on_write' = 'true', 'enable_unique_key_merge_on_write' = 'false')",
        "BadProperty",
    ),
    (
        "(k INT) DISTRIBUTED BY HASH(k) PROPERTIES ('enable_unique_key_merge_on_write' = 'false', 'replication_num' = '3')",
        "Duplicate 1 of 1 keys, 1 parts, 10 buckets",
    ),
    (
        "(k INT) DISTRIBUTED BY HASH(k) PROPERTIES ('ENABLE_UNIQUE_KEY_MERGE_ON_WRITE' = 'true')",
        "Duplicate 1 of 1 keys, 1 parts, 10 buckets",
    ),
    (
        "(k INT) DISTRIBUTED BY HASH(k) BUCKETS 0 PROPERTIES ('enable_unique_key_merge_on_write' = 'true')",
        "BadBuckets",
    ),
];

fn definitions() -> &'static [(&'static str, &'static str)] {
    DEFINITIONS
}

fn model_word(model: Model) -> &'static str {
    match model {
        Model::Duplicate => "Duplicate",
        Model::Unique => "Unique",
        Model::Aggregate => "Aggregate",
    }
}

fn shown(alloc: Global, shape: &Shape, layout: &Layout) -> Result<String, Fail> {
    let word = model_word(shape.model());
    let keys = shape.keys();
    let columns = shape.columns().len();
    let parts = layout.parts().len();
    let buckets = layout.buckets();
    Ok(format!(in alloc; "{word} {keys} of {columns} keys, {parts} parts, {buckets} buckets")?)
}

// The word of a refusal, and the column that is at fault.
fn shape_fault(error: ShapeError) -> (&'static str, u64) {
    match error {
        ShapeError::TooManyColumns { limit } => ("TooManyColumns", limit),
        ShapeError::BadName { column } => ("BadName", column),
        ShapeError::DoubleName { column } => ("DoubleName", column),
        ShapeError::BadType { column } => ("BadType", column),
        ShapeError::NoKey { column } => ("NoKey", column),
        ShapeError::KeyAfterValue { column } => ("KeyAfterValue", column),
        ShapeError::BadAgg { column } => ("BadAgg", column),
        ShapeError::BadDefault { column } => ("BadDefault", column),
    }
}

fn shape_refused(alloc: Global, error: ShapeError) -> Result<String, Fail> {
    let (word, column) = shape_fault(error);
    Ok(format!(in alloc; "{word} {column}")?)
}

fn layout_refused(alloc: Global, error: &LayoutError) -> Result<String, Fail> {
    match fault(error) {
        (word, Some(name)) => Ok(format!(in alloc; "{word}{name}")?),
        (word, None) => Ok(word.to_string(alloc)?),
    }
}

fn refused(alloc: Global, error: &DefError) -> Result<String, Fail> {
    match error {
        DefError::Shape(error) => shape_refused(alloc, *error),
        DefError::Layout(error) => layout_refused(alloc, error),
        DefError::BadProperty => Ok("BadProperty".to_string(alloc)?),
        DefError::NoMemory => Err("out of memory".into()),
    }
}

fn defined(alloc: Global, name: &Name, def: &TableDef) -> Result<String, Fail> {
    match &define(alloc, name, def) {
        Ok((shape, layout)) => shown(alloc, shape, layout),
        Err(error) => refused(alloc, error),
    }
}

fn created(stmt: &Stmt) -> Option<(&Name, &TableDef)> {
    match stmt {
        Stmt::CreateTable { name, def, .. } => Some((name, def)),
        _ => None,
    }
}

fn given(alloc: Global, text: &str) -> Result<String, Fail> {
    let text = format!(in alloc; "CREATE TABLE t {text}")?;
    let given = read(alloc, text.as_str())?;
    match created(&given.stmt) {
        Some((name, def)) => defined(alloc, name, def),
        None => Err("no definition".into()),
    }
}

#[test]
fn definitions_give_a_table_or_their_first_refusal(rt: HostRuntime) -> Result<(), Fail> {
    for (text, wanted) in definitions() {
        let answer = given(rt.alloc(), text)?;
        assert_eq!(rt; answer.as_str(), *wanted, "{text}");
    }
    Ok(())
}

fn is_end(bounds: &Bounds, end: &Cell) -> bool {
    match (bounds, end) {
        (Bounds::Less(Some(Cell::Int(found))), Cell::Int(wanted)) => found == wanted,
        (Bounds::Less(Some(Cell::Null)), Cell::Null) => true,
        _ => false,
    }
}

fn added(stmt: &Stmt) -> Option<&Part> {
    match stmt {
        Stmt::AddPartition { part, .. } => Some(part),
        _ => None,
    }
}

fn ends_at(alloc: Global, kind: ColType, part: &Part, end: &Cell) -> Result<bool, NoMemory> {
    let made = part_of(alloc, Some(kind), part)?;
    Ok(is_end(&made.bounds, end))
}

// Whether the partition of an ALTER TABLE has this high end, beside a column of a type.
fn has_end(alloc: Global, kind: ColType, text: &str, end: &Cell) -> Result<bool, Fail> {
    let given = read(alloc, text)?;
    match added(&given.stmt) {
        Some(part) => Ok(ends_at(alloc, kind, part, end)?),
        None => Err("no partition".into()),
    }
}

#[test]
fn ends_are_read_by_the_type_of_the_column(rt: HostRuntime) -> Result<(), Fail> {
    let text = "ALTER TABLE t ADD PARTITION p VALUES LESS THAN ('-5')";
    assert!(rt; has_end(rt.alloc(), ColType::Int, text, &Cell::Int(-5))?);
    assert!(rt; has_end(rt.alloc(), ColType::Date, text, &Cell::Null)?);
    Ok(())
}
