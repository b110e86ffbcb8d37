// A book of labels.
use dl_values::Name;
use labels::{BindError, LabelBook, TxnState};
use std::test::Fail;

#[test]
fn a_label_is_used_while_its_load_is_committed(rt: HostRuntime) -> Result<(), Fail> {
    let alloc = rt.alloc();
    let mut book = LabelBook::new(alloc);
    let d = Name::new(alloc, b"d")?;
    let a = Name::new(alloc, b"a")?;
    assert!(rt; book.state(&d, &a).is_none());
    book.bind(&d, &a, 1).map_err(|_| "bind")?;
    book.finish(1, TxnState::Committed);
    assert_eq!(rt; book.state(&d, &a), Some((1, TxnState::Committed)));
    let again = book.bind(&d, &a, 2);
    let used = BindError::Used {
        txn: 1,
        state: TxnState::Committed,
    };
    assert_eq!(rt; again, Err(used));
    Ok(())
}

#[test]
fn a_label_is_free_again_after_an_abort(rt: HostRuntime) -> Result<(), Fail> {
    let alloc = rt.alloc();
    let mut book = LabelBook::new(alloc);
    let d = Name::new(alloc, b"d")?;
    let e = Name::new(alloc, b"e")?;
    let a = Name::new(alloc, b"a")?;
    book.bind(&d, &a, 1).map_err(|_| "bind")?;
    book.finish(1, TxnState::Aborted);
    book.bind(&d, &a, 2).map_err(|_| "bind again")?;
    assert_eq!(rt; book.state(&d, &a), Some((2, TxnState::Prepare)));
    assert!(rt; book.state(&e, &a).is_none());
    Ok(())
}
