// Tables of shapes and of folds.
use dl_values::{AggKind, Cell, ColType, Name, NoMemory};
use schema_models::{ColumnDef, Model, Role, Shape, ShapeError, is_name};
use std::alloc::Global;
use std::process::Abort;
use std::test::Fail;

// A column by its name, type, whether it is nullable, its role, and its default, if it has one.
#[derive(Clone, Copy)]
struct Column {
    name: u8,
    kind: ColType,
    nullable: bool,
    role: Role,
    default: Option<Option<i64>>,
}

const KEY: Column = Column {
    name: b'k',
    kind: ColType::Int,
    nullable: true,
    role: Role::Key,
    default: None,
};

const VALUE: Column = Column {
    name: b'v',
    kind: ColType::BigInt,
    nullable: true,
    role: Role::Plain,
    default: None,
};

const SUM: Column = Column {
    name: b'v',
    kind: ColType::BigInt,
    nullable: true,
    role: Role::Agg(AggKind::Sum),
    default: None,
};

fn cell(value: Option<i64>) -> Cell {
    match value {
        Some(value) => Cell::Int(value),
        None => Cell::Null,
    }
}

fn definition(alloc: Global, of: &Column) -> Result<ColumnDef, NoMemory> {
    Ok(ColumnDef {
        name: Name::new(alloc, &[of.name])?,
        kind: of.kind,
        nullable: of.nullable,
        role: of.role,
        default: of.default.map(cell),
    })
}

fn definitions(alloc: Global, of: &[Column]) -> Result<Vec<ColumnDef>, NoMemory> {
    let mut columns = Vec::new(alloc);
    for one in of {
        columns.push(definition(alloc, one)?)?;
    }
    Ok(columns)
}

// A model, columns, and the first thing that is wrong with them.
type Case = (Model, &'static [Column], Option<ShapeError>);

fn first_fault(alloc: Global, of: &Case) -> Result<Option<ShapeError>, NoMemory> {
    Ok(Shape::build(of.0, definitions(alloc, of.1)?).err())
}

fn are_refused(rt: &impl Abort, alloc: Global, of: &[Case]) -> Result<(), Fail> {
    for (place, one) in of.iter().enumerate() {
        assert!(rt; first_fault(alloc, one)? == one.2, "case {place}");
    }
    Ok(())
}

const PAIRS: &[Case] = &[
    (Model::Unique, &[KEY, VALUE], None),
    (Model::Duplicate, &[KEY, VALUE], None),
    (Model::Aggregate, &[KEY, SUM], None),
    (
        Model::Unique,
        &[Column { name: b'1', ..KEY }, KEY],
        Some(ShapeError::BadName { column: 0 }),
    ),
    (
        Model::Unique,
        &[
            KEY,
            Column {
                name: b'k',
                ..VALUE
            },
        ],
        Some(ShapeError::DoubleName { column: 1 }),
    ),
    (
        Model::Unique,
        &[
            KEY,
            Column {
                kind: ColType::Varchar(0),
                ..VALUE
            },
        ],
        Some(ShapeError::BadType { column: 1 }),
    ),
    (
        Model::Unique,
        &[VALUE, KEY],
        Some(ShapeError::NoKey { column: 0 }),
    ),
    (
        Model::Aggregate,
        &[KEY, VALUE],
        Some(ShapeError::BadAgg { column: 1 }),
    ),
    (
        Model::Unique,
        &[KEY, SUM],
        Some(ShapeError::BadAgg { column: 1 }),
    ),
    (
        Model::Aggregate,
        &[
            KEY,
            Column {
                kind: ColType::Int,
                ..SUM
            },
        ],
        Some(ShapeError::BadAgg { column: 1 }),
    ),
    (
        Model::Unique,
        &[
            KEY,
            Column {
                nullable: false,
                default: Some(None),
                ..VALUE
            },
        ],
        Some(ShapeError::BadDefault { column: 1 }),
    ),
    (
        Model::Unique,
        &[
            Column {
                kind: ColType::TinyInt,
                default: Some(Some(128)),
                ..KEY
            },
            VALUE,
        ],
        Some(ShapeError::BadDefault { column: 0 }),
    ),
];

fn pairs() -> &'static [Case] {
    PAIRS
}

#[test]
fn a_pair_of_columns_is_refused_by_its_first_fault(rt: HostRuntime) -> Result<(), Fail> {
    are_refused(&rt, rt.alloc(), pairs())
}

const NUMBERS: &[Case] = &[
    (Model::Unique, &[], Some(ShapeError::NoKey { column: 0 })),
    (
        Model::Unique,
        &[KEY; 65],
        Some(ShapeError::TooManyColumns { limit: 64 }),
    ),
    (
        Model::Unique,
        &[KEY, VALUE, Column { name: b'l', ..KEY }],
        Some(ShapeError::KeyAfterValue { column: 2 }),
    ),
];

fn numbers() -> &'static [Case] {
    NUMBERS
}

#[test]
fn the_number_and_the_order_of_columns_are_looked_at(rt: HostRuntime) -> Result<(), Fail> {
    are_refused(&rt, rt.alloc(), numbers())
}

const NAMES: &[(&[u8], bool)] = &[
    (b"k", true),
    (b"_1_Z", true),
    (b"", false),
    (b"1a", false),
    (b"a-b", false),
    (&[b'a'; 64], true),
    (&[b'a'; 65], false),
];

fn names() -> &'static [(&'static [u8], bool)] {
    NAMES
}

#[test]
fn names_begin_with_a_letter_or_an_underscore(rt: HostRuntime) {
    for (place, (name, wanted)) in names().iter().enumerate() {
        assert!(rt; is_name(name) == *wanted, "name {place}");
    }
}

const TWO: &[Column] = &[
    KEY,
    Column {
        nullable: false,
        default: Some(Some(7)),
        ..VALUE
    },
];

fn two() -> &'static [Column] {
    TWO
}

fn copied(alloc: Global, of: &[Column]) -> Result<Shape, Fail> {
    match &Shape::build(Model::Unique, definitions(alloc, of)?) {
        Ok(shape) => Ok(shape.copy(alloc)?),
        Err(_) => Err("no shape".into()),
    }
}

fn is_of_two(shape: &Shape) -> bool {
    match shape.columns() {
        [_, value] => {
            shape.model() == Model::Unique
                && shape.keys() == 1
                && !value.nullable
                && value.default.is_some()
        }
        _ => false,
    }
}

#[test]
fn a_copied_shape_has_the_same_columns(rt: HostRuntime) -> Result<(), Fail> {
    let copy = copied(rt.alloc(), two())?;
    assert!(rt; is_of_two(&copy));
    Ok(())
}
