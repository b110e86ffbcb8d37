// Many threads at one desk.
use crate::ends::{opened, total_at_the_end};
use crate::work::{sixteen, two};
use std::test::Fail;

#[test]
fn two_threads_make_one_history(rt: HostRuntime) -> Result<(), Fail> {
    let alloc = rt.alloc();
    let (desk, seat) = opened(alloc, 0, true)?;
    let (seat, replies) = two(&rt, &desk, seat, 1000);
    assert_eq!(rt; replies.sum, 1000 * 2001);
    assert!(rt; replies.ascended);
    assert_eq!(rt; total_at_the_end(alloc, desk, seat)?, 2000);
    Ok(())
}

#[test]
fn sixteen_threads_make_one_history(rt: HostRuntime) -> Result<(), Fail> {
    let alloc = rt.alloc();
    let (desk, seat) = opened(alloc, 0, true)?;
    let (seat, replies) = sixteen(&rt, &desk, seat, 1000);
    assert_eq!(rt; replies.sum, 8000 * 16001);
    assert!(rt; replies.ascended);
    assert_eq!(rt; total_at_the_end(alloc, desk, seat)?, 16000);
    Ok(())
}
