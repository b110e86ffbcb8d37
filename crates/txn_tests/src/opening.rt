// A book that is filled from a journal, and a begin that is taken back.
ghost use Rattle.std.specs.Prelude.{◌≡◌, ◌∷◌, IfOk, None, Some, [], true};
ghost use Rattle.labels.specs.declared.txn_state.TxnState.TheVariants as states;

use crate::calls::{stands, start_of};
use dl_values::{Name, NoMemory};
use labels::TxnState;
use std::alloc::Global;
use std::test::Fail;
use txn_core::{TxnBook, TxnInfo, TxnStart};

// A committed load of number 3 at place 2.
fn told(alloc: Global) -> Result<TxnInfo, NoMemory>
    ensures { IfOk result (λ k. (k.id ≡ 3) × (k.state ≡ states.Committed) × (k.place ≡ Some 2) × (k.told ≡ true)) }
{
    Ok(TxnInfo {
        id: 3,
        db: Name::new(alloc, b"d")?,
        table: 7,
        label: Name::new(alloc, b"a")?,
        state: TxnState::Committed,
        since: 50,
        two_phase: false,
        schema: 1,
        place: Some(2),
        told: true,
        held: None,
    })
}

fn restores(book: &mut TxnBook, told: TxnInfo) -> bool
    requires empty { book.old ≡ record { kept = []; next = 10; places = 5 } }
    requires id { told.id ≡ 3 }
    requires state { told.state ≡ states.Committed }
    requires place { told.place ≡ Some 2 }
    requires told { told.told ≡ true }
{
    match book.restore(told) {
        Ok(()) => {}
        Err(NoMemory) => return false,
    }
    let waits = stands(book, 10, 5, 1, 3);
    let published = book.publish(60);
    waits && published == Ok(3) && stands(book, 10, 5, 0, 10)
}

#[test]
fn a_restored_load_waits_at_its_place(rt: HostRuntime) -> Result<(), Fail> {
    let info = told(rt.alloc())?;
    let mut book = TxnBook::new(rt.alloc());
    book.raise(10, 5);
    let restored = restores(&mut book, info);
    assert!(rt; restored);
    Ok(())
}

fn begins_and_takes_back(book: &mut TxnBook, start: TxnStart) -> bool {
    match book.begin(start) {
        Ok(_) => {}
        Err(_) => return false,
    }
    let begun = stands(book, 2, 0, 0, 1);
    book.unbegin();
    begun && stands(book, 1, 0, 0, 1)
}

#[test]
fn a_begin_is_taken_back_with_its_number(rt: HostRuntime) -> Result<(), Fail> {
    let start = start_of(rt.alloc(), b'a', false, 5)?;
    let mut book = TxnBook::new(rt.alloc());
    let back = begins_and_takes_back(&mut book, start);
    assert!(rt; back);
    Ok(())
}
