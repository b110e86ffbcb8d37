// Tables of folds.
use super::tables::{Pair, are_same, rows, shape};
use dl_values::{AggKind, Cell, ColType, Name, NoMemory};
use schema_models::{Model, Role, Shape, fold, is_of_shape, laws};
use std::alloc::Global;
use std::process::Abort;
use std::test::Fail;

// A model, the role of the value, rows, and what they fold to.
type Case = (Model, Role, &'static [Pair], &'static [Pair]);

fn folds_to(alloc: Global, shape: &Shape, of: &[Pair], wanted: &[Pair]) -> Result<bool, NoMemory> {
    let made = fold(alloc, shape, &rows(alloc, of)?)?;
    Ok(are_same(&made, &rows(alloc, wanted)?))
}

fn is_folded(alloc: Global, of: &Case) -> Result<bool, Fail> {
    let (model, role, given, wanted) = of;
    let shape = shape(alloc, *model, ColType::BigInt, *role)?;
    Ok(folds_to(alloc, &shape, given, wanted)?)
}

fn are_folded(rt: &impl Abort, alloc: Global, of: &[Case]) -> Result<(), Fail> {
    for (place, one) in of.iter().enumerate() {
        assert!(rt; is_folded(alloc, one)?, "case {place}");
    }
    Ok(())
}

const GIVEN: &[Pair] = &[
    (Some(2), Some(1)),
    (Some(1), Some(9)),
    (Some(2), None),
    (Some(1), Some(9)),
    (Some(2), Some(5)),
];

const BY_MODEL: &[Case] = &[
    (
        Model::Aggregate,
        Role::Agg(AggKind::Sum),
        GIVEN,
        &[(Some(1), Some(18)), (Some(2), Some(6))],
    ),
    (
        Model::Unique,
        Role::Plain,
        GIVEN,
        &[(Some(1), Some(9)), (Some(2), Some(5))],
    ),
    (
        Model::Duplicate,
        Role::Plain,
        GIVEN,
        &[
            (Some(1), Some(9)),
            (Some(1), Some(9)),
            (Some(2), None),
            (Some(2), Some(1)),
            (Some(2), Some(5)),
        ],
    ),
    (Model::Aggregate, Role::Agg(AggKind::Max), &[], &[]),
];

fn by_model() -> &'static [Case] {
    BY_MODEL
}

#[test]
fn rows_fold_by_their_model(rt: HostRuntime) -> Result<(), Fail> {
    are_folded(&rt, rt.alloc(), by_model())
}

const NULLS: &[Case] = &[
    (
        Model::Unique,
        Role::Plain,
        &[(Some(1), Some(5)), (Some(1), None)],
        &[(Some(1), None)],
    ),
    (
        Model::Aggregate,
        Role::Agg(AggKind::ReplaceIfNotNull),
        &[(Some(1), Some(5)), (Some(1), None)],
        &[(Some(1), Some(5))],
    ),
];

fn nulls() -> &'static [Case] {
    NULLS
}

#[test]
fn a_newer_null_is_kept_in_the_unique_model_alone(rt: HostRuntime) -> Result<(), Fail> {
    are_folded(&rt, rt.alloc(), nulls())
}

fn is_of_two(shape: &Shape) -> bool {
    shape.vouch();
    shape.model() == Model::Unique && shape.keys() == 1 && shape.columns().len() == 2
}

fn position(alloc: Global, shape: &Shape, name: &[u8]) -> Result<Option<usize>, NoMemory> {
    let name = Name::new(alloc, name)?;
    Ok(shape.position(&name))
}

fn takes_its_rows(shape: &Shape) -> bool {
    is_of_shape(shape, &[Cell::Int(1), Cell::Null])
        && !is_of_shape(shape, &[Cell::Int(1), Cell::Day(2024_02_29)])
        && !is_of_shape(shape, &[Cell::Int(1)])
}

#[test]
fn a_shape_gives_what_it_was_made_of(rt: HostRuntime) -> Result<(), Fail> {
    let shape = shape(rt.alloc(), Model::Unique, ColType::BigInt, Role::Plain)?;
    assert!(rt; is_of_two(&shape));
    assert!(rt; position(rt.alloc(), &shape, b"v")? == Some(1));
    assert!(rt; takes_its_rows(&shape));
    Ok(())
}

#[test]
fn each_law_may_be_called() {
    laws::shapes_fold_by_key();
    laws::folds_join();
    laws::folds_are_determined();
    laws::stable_sorting_keeps_the_fold();
    laws::folds_and_tests_of_keys_change_places();
    laws::rows_of_a_shape_stay_so();
}
