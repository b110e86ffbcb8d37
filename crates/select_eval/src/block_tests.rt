// The tests of blocks that a query gives.
ghost use Rattle.std.specs.Prelude.{◌≡◌, ◌∷◌, ◌++◌, [], IfOk, OnOk};
ghost use Rattle.select_eval.specs.BlockTests as blocks;

use crate::asked::Asked;
use crate::condition::Condition;
use dl_values::{Cell, NoMemory, copy_cell};
use schema_models::{Model, Shape};
use sql_text::CompareOp;
use std::alloc::Global;
use zones::{Op, Test};

// How many of the first columns are the key.
fn key_width(shape: &Shape) -> usize
    ensures { result ≡ blocks.key_width shape.now }
{
    match shape.model() {
        Model::Duplicate => shape.columns().len(),
        Model::Unique | Model::Aggregate => shape.keys(),
    }
}

fn op_of(op: CompareOp) -> Op
    ensures { result ≡ blocks.op_of op }
{
    match op {
        CompareOp::Eq => Op::Eq,
        CompareOp::Ne => Op::Ne,
        CompareOp::Lt => Op::Lt,
        CompareOp::Le => Op::Le,
        CompareOp::Gt => Op::Gt,
        CompareOp::Ge => Op::Ge,
    }
}

fn add_test(tests: &mut Vec<Test>, column: usize, op: Op, literal: Cell) -> Result<(), NoMemory>
    ensures { OnOk result (tests.new.items ≡ tests.old.items ++ blocks.test_at column op literal ∷ []) }
{
    tests.push(Test {
        column,
        op,
        literal,
    })?;
    Ok(())
}

// A literal that is null gives no test: a condition orders cells about it, with null least, where a test of blocks is false.
fn add_comparison(
    alloc: Global,
    tests: &mut Vec<Test>,
    column: usize,
    op: Op,
    literal: &Cell,
) -> Result<(), NoMemory>
    ensures { OnOk result (tests.new.items ≡ tests.old.items ++ blocks.compared_at column op literal.now) }
{
    match literal {
        Cell::Null => Ok(()),
        Cell::Int(_) | Cell::Day(_) | Cell::Text(_) => {
            add_test(tests, column, op, copy_cell(alloc, literal)?)
        }
    }
}

// The test of what is asked of the column at a place.
fn add_asked(
    alloc: Global,
    tests: &mut Vec<Test>,
    column: usize,
    asked: &Asked,
) -> Result<(), NoMemory>
    ensures { OnOk result (tests.new.items ≡ tests.old.items ++ blocks.asked_at column asked.now) }
{
    match asked {
        Asked::Compare(op, literal) => add_comparison(alloc, tests, column, op_of(*op), literal),
        Asked::IsNull => add_test(tests, column, Op::IsNull, Cell::Null),
        Asked::IsNotNull => add_test(tests, column, Op::IsNotNull, Cell::Null),
        Asked::Never => add_test(tests, column, Op::Eq, Cell::Null),
    }
}

// The rows of one key are merged: only a test of the key sees of each of them what it sees of the merged row.
fn add_tests(
    alloc: Global,
    tests: &mut Vec<Test>,
    width: usize,
    condition: &Condition,
) -> Result<(), NoMemory>
    ensures { OnOk result (tests.new.items ≡ tests.old.items ++ blocks.tests_at width condition.now.place condition.now.asked) }
{
    match condition.place {
        Some(column) if column < width => add_asked(alloc, tests, column, &condition.asked),
        _ => Ok(()),
    }
}

// The tests of blocks that the tests of a query give.
pub fn block_tests(
    alloc: Global,
    index: &Shape,
    conditions: &[Condition],
) -> Result<Vec<Test>, NoMemory>
    ensures { IfOk result (λ v. v.items ≡ blocks.tests_in (blocks.key_width index.now) conditions.now) }
{
    let width = key_width(index);
    let mut tests = Vec::new(alloc);
    for condition in conditions {
        add_tests(alloc, &mut tests, width, condition)?;
    }
    Ok(tests)
}
