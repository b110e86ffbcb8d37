// What a statement holds, part by part.
use dl_values::{AggKind, Name};
use schema_models::Model;
use sql_text::{
    AdminTask, AggFn, AlterKind, Check, Clause, ColumnPlace, ColumnType, CompareOp, DefaultText,
    Filter, Item, Literal, OrderBy, OrderKey, PartBounds, Query, Stmt, TableDef, TransactionKey,
    parse_stmt,
};
use std::alloc::Global;
use std::test::Fail;

fn is_named(name: &Name, bytes: &[u8]) -> bool {
    name.bytes() == bytes
}

fn are_items(items: &[Item]) -> bool {
    matches!(
        items,
        [Item::Column(_), Item::CountAll, Item::Agg(AggFn::Min, _)]
    )
}

fn are_filters(filters: &[Filter]) -> bool {
    let [first, second] = filters else {
        return false;
    };
    matches!(
        &first.check,
        Check::Compare(CompareOp::Le, Literal::Int(-1))
    ) && matches!(&second.check, Check::IsNotNull)
}

fn are_keys(order: &[OrderKey]) -> bool {
    let [position, item] = order else {
        return false;
    };
    position.descending && !item.descending && matches!(&position.by, OrderBy::Position(2))
}

// SELECT k, COUNT(*), min(v) FROM t WHERE a <= -1 AND b IS NOT NULL GROUP BY g ORDER BY 2 DESC, k LIMIT 7
fn is_the_query(query: &Query) -> bool {
    let [group] = query.group.as_slice() else {
        return false;
    };
    is_named(&query.table, b"t")
        && !query.star
        && are_items(query.items.as_slice())
        && are_filters(query.filters.as_slice())
        && is_named(group, b"g")
        && are_keys(query.order.as_slice())
        && query.limit == Some(7)
}

fn are_columns(def: &TableDef) -> bool {
    let [k, v] = def.columns.as_slice() else {
        return false;
    };
    k.kind == ColumnType::Varchar(9)
        && !k.nullable
        && k.agg == None
        && k.default.is_none()
        && v.agg == Some(AggKind::Sum)
        && v.nullable
        && matches!(&v.default, Some(DefaultText::Null))
}

fn has_one_partition(def: &TableDef) -> bool {
    let Some(ranges) = &def.ranges else {
        return false;
    };
    let [part] = ranges.parts.as_slice() else {
        return false;
    };
    matches!(&part.bounds, PartBounds::Less(None))
}

fn has_one_property(def: &TableDef) -> bool {
    let [property] = def.properties.as_slice() else {
        return false;
    };
    property.value.bytes() == b"b".as_slice()
}

fn is_aggregate(def: &TableDef) -> bool {
    let Some(key) = &def.key else {
        return false;
    };
    key.model == Model::Aggregate
}

fn is_the_table(def: &TableDef) -> bool {
    are_columns(def)
        && is_aggregate(def)
        && has_one_partition(def)
        && def.hash.len() == 1
        && def.buckets == Some(3)
        && has_one_property(def)
}

fn are_clauses(clauses: &[Clause]) -> bool {
    matches!(clauses, [Clause::Add(column, Some(ColumnPlace::First)), Clause::Drop(_)] if column.key)
}

// What a row of the table below says of a statement.
fn holds(row: usize, stmt: &Stmt) -> bool {
    match (row, stmt) {
        (0, Stmt::Select(query)) => is_the_query(query),
        (
            1,
            Stmt::CreateTable {
                if_not_exists,
                name,
                def,
            },
        ) => *if_not_exists && is_named(name, b"t") && is_the_table(def),
        (2, Stmt::Alter { clauses, .. }) => are_clauses(clauses.as_slice()),
        (
            3,
            Stmt::ShowAlter {
                kind: AlterKind::Rollup,
            },
        ) => true,
        (
            4,
            Stmt::ShowTransaction {
                by: TransactionKey::Id(5),
            },
        ) => true,
        (5, Stmt::Admin(AdminTask::Sweep)) => true,
        (6, Stmt::AuditDrop { place: 3 }) => true,
        _ => false,
    }
}

const HOLDING: &[&str] = &[
    "SELECT k, COUNT(*), min(v) FROM t WHERE a <= -1 AND b IS NOT NULL GROUP BY g ORDER BY 2 DESC, k LIMIT 7",
    "CREATE TABLE IF NOT EXISTS t (k VARCHAR(9) NOT NULL, v BIGINT SUM DEFAULT NULL) AGGREGATE KEY(k) PARTITION BY RANGE(k) (PARTITION p VALUES LESS THAN MAXVALUE) DISTRIBUTED BY HASH(k) BUCKETS 3 PROPERTIES('a'='b')",
    "ALTER TABLE t ADD COLUMN c INT KEY FIRST, DROP COLUMN d",
    "SHOW ALTER TABLE ROLLUP",
    "SHOW TRANSACTION WHERE ID = 5",
    "ADMIN SWEEP",
    "ADMIN AUDIT DROP 3",
];

fn holding() -> &'static [&'static str] {
    HOLDING
}

fn is_held(alloc: Global, row: usize, text: &str) -> bool {
    match parse_stmt(alloc, text) {
        Ok(stmt) => holds(row, &stmt),
        Err(_) => false,
    }
}

#[test]
fn parts_stand_in_their_places(rt: HostRuntime) -> Result<(), Fail> {
    for (row, text) in holding().iter().enumerate() {
        assert!(rt; is_held(rt.alloc(), row, text), "{text}");
    }
    Ok(())
}
