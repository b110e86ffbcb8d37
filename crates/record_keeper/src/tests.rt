use super::*;
use std::alloc::Global;
use std::test::*;

// A keeper whose second call fails and keeps, whose third fails and does not, and whose fourth fails.
fn failing(alloc: Global) -> Result<MemoryKeeper, Fail> {
    let mut fails = Vec::new(alloc);
    for (call, kept) in [(1, true), (2, false), (3, true)] {
        fails.push(FailingCall { call, kept })?;
    }
    Ok(MemoryKeeper::new(alloc, fails))
}

fn is_failed(answer: Result<(), KeeperError>) -> bool {
    matches!(answer, Err(KeeperError::Failed))
}

fn has<K: Keeper + Drop>(mut keeper: K, place: u64, bytes: &[u8]) -> bool {
    match keeper.read_from(place) {
        Ok(Some(record)) => record.as_slice() == bytes,
        _ => false,
    }
}

fn ends_at<K: Keeper + Drop>(mut keeper: K, place: u64) -> bool {
    matches!(keeper.read_from(place), Ok(None))
}

#[test]
fn records_stand_in_the_order_in_which_they_were_appended(rt: HostRuntime) -> Result<(), Fail> {
    let mut keeper = MemoryKeeper::new(rt.alloc(), Vec::new(rt.alloc()));
    assert!(rt; ends_at(&mut keeper, 0));
    keeper.append(b"one")?;
    keeper.append(b"")?;
    assert!(rt; has(&mut keeper, 0, b"one"));
    assert!(rt; has(&mut keeper, 1, b""));
    assert!(rt; ends_at(&mut keeper, 2));
    assert!(rt; ends_at(&mut keeper, u64::MAX));
    assert_eq!(rt; keeper.records().len(), 2);
    Ok(())
}

#[test]
fn chosen_calls_fail_and_keep_or_lose(rt: HostRuntime) -> Result<(), Fail> {
    let mut keeper = failing(rt.alloc())?;
    keeper.append(b"one")?;
    assert!(rt; is_failed(keeper.append(b"kept")));
    assert!(rt; is_failed(keeper.append(b"lost")));
    assert_eq!(rt; keeper.records().len(), 2);
    assert_eq!(rt; keeper.faults(), 2);
    assert!(rt; matches!(keeper.read_from(0), Err(KeeperError::Failed)));
    assert_eq!(rt; keeper.faults(), 3);
    assert!(rt; has(&mut keeper, 1, b"kept"));
    Ok(())
}

#[test]
fn a_replaced_journal_has_one_record(rt: HostRuntime) -> Result<(), Fail> {
    let mut keeper = failing(rt.alloc())?;
    keeper.append(b"one")?;
    assert!(rt; is_failed(keeper.replace(b"new")));
    assert!(rt; is_failed(keeper.replace(b"lost")));
    assert!(rt; is_failed(keeper.append(b"two")));
    keeper.replace(b"last")?;
    assert!(rt; has(&mut keeper, 0, b"last"));
    assert!(rt; ends_at(&mut keeper, 1));
    Ok(())
}
