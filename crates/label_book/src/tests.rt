// A book of labels. The steps of each test stand in a function that owns nothing.
ghost use Rattle.std.specs.Prelude.{◌≡◌, []};

use crate::{BindError, LabelBook};
use dl_values::{Name, NoMemory};
use labels::TxnState;
use std::alloc::Global;
use std::test::Fail;

#[derive(Drop)]
struct Names {
    d: Name,
    e: Name,
    a: Name,
}

fn three_names(alloc: Global) -> Result<Names, NoMemory> {
    Ok(Names {
        d: Name::new(alloc, b"d")?,
        e: Name::new(alloc, b"e")?,
        a: Name::new(alloc, b"a")?,
    })
}

fn has(book: &LabelBook, db: &Name, label: &Name, wanted: Option<(u64, TxnState)>) -> bool {
    book.state(db, label) == wanted
}

fn two_databases(book: &mut LabelBook, d: &Name, e: &Name, a: &Name) -> bool
    requires { book.old ≡ [] }
{
    let Ok(()) = book.bind(d, a, 5) else {
        return false;
    };
    let Ok(()) = book.bind(e, a, 6) else {
        return false;
    };
    let first = has(book, d, a, Some((5, TxnState::Prepare)));
    let second = has(book, e, a, Some((6, TxnState::Prepare)));
    book.clean(5);
    let cleaned = has(book, d, a, None);
    let left = has(book, e, a, Some((6, TxnState::Prepare)));
    first && second && cleaned && left
}

#[test]
fn equal_labels_of_two_databases_are_two(rt: HostRuntime) -> Result<(), Fail> {
    let n = three_names(rt.alloc())?;
    let mut book = LabelBook::new(rt.alloc());
    assert!(rt; two_databases(&mut book, &n.d, &n.e, &n.a));
    Ok(())
}

fn used_and_free(book: &mut LabelBook, d: &Name, a: &Name) -> bool
    requires { book.old ≡ [] }
{
    let Ok(()) = book.bind(d, a, 5) else {
        return false;
    };
    let Err(refused) = book.bind(d, a, 9) else {
        return false;
    };
    let used = BindError::Used {
        txn: 5,
        state: TxnState::Prepare,
    };
    book.finish(5, TxnState::Aborted);
    let Ok(()) = book.bind(d, a, 9) else {
        return false;
    };
    let bound = has(book, d, a, Some((9, TxnState::Prepare)));
    book.clean(9);
    let before = has(book, d, a, Some((5, TxnState::Aborted)));
    refused == used && bound && before
}

#[test]
fn a_label_is_free_after_an_abort_and_used_before(rt: HostRuntime) -> Result<(), Fail> {
    let n = three_names(rt.alloc())?;
    let mut book = LabelBook::new(rt.alloc());
    assert!(rt; used_and_free(&mut book, &n.d, &n.a));
    Ok(())
}

fn between_others(book: &mut LabelBook, d: &Name, a: &Name) -> bool
    requires { book.old ≡ [] }
{
    let Ok(()) = book.bind(d, a, 5) else {
        return false;
    };
    book.finish(5, TxnState::Aborted);
    let Ok(()) = book.bind(d, a, 9) else {
        return false;
    };
    book.finish(9, TxnState::Aborted);
    let Ok(()) = book.bind(d, a, 7) else {
        return false;
    };
    let all = has(book, d, a, Some((9, TxnState::Aborted)));
    book.clean(5);
    let without_first = has(book, d, a, Some((9, TxnState::Aborted)));
    book.clean(9);
    let without_last = has(book, d, a, Some((7, TxnState::Prepare)));
    book.vouch();
    all && without_first && without_last
}

#[test]
fn the_highest_number_of_a_label_answers(rt: HostRuntime) -> Result<(), Fail> {
    let n = three_names(rt.alloc())?;
    let mut book = LabelBook::new(rt.alloc());
    assert!(rt; between_others(&mut book, &n.d, &n.a));
    Ok(())
}
