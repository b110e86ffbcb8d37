// Splits of splits, joins of joined seats, and closes in any order.
use crate::any::may_be_shared;
use crate::ends::{opened, total_at_the_end, total_of_three};
use crate::work::add;
use desk::laws;
use std::test::Fail;

#[test]
fn a_desk_is_closed_with_its_seats_in_any_order(rt: HostRuntime) -> Result<(), Fail> {
    let alloc = rt.alloc();
    let (desk, mut first) = opened(alloc, 0, true)?;
    let mut second = desk.split(&mut first);
    add(&rt, &desk, &mut first, 2);
    let mut third = desk.split(&mut second);
    assert_eq!(rt; add(&rt, &desk, &mut third, 1).sum, 3);
    assert_eq!(rt; add(&rt, &desk, &mut second, 2).sum, 4 + 5);
    assert_eq!(rt; total_of_three(alloc, desk, first, second, third)?, 5);
    Ok(())
}

#[test]
fn a_joined_seat_is_joined_again(rt: HostRuntime) -> Result<(), Fail> {
    let alloc = rt.alloc();
    let (desk, mut first) = opened(alloc, 0, true)?;
    let mut second = desk.split(&mut first);
    let mut third = desk.split(&mut second);
    add(&rt, &desk, &mut third, 1);
    desk.join(&mut second, third);
    assert_eq!(rt; add(&rt, &desk, &mut second, 1).sum, 2);
    desk.join(&mut first, second);
    assert_eq!(rt; add(&rt, &desk, &mut first, 1).sum, 3);
    assert_eq!(rt; total_at_the_end(alloc, desk, first)?, 3);
    Ok(())
}

#[test]
fn an_engine_that_stands_for_nothing_is_taken_too(rt: HostRuntime) -> Result<(), Fail> {
    let alloc = rt.alloc();
    let (desk, mut seat) = opened(alloc, 5, false)?;
    assert_eq!(rt; add(&rt, &desk, &mut seat, 2).sum, 6 + 7);
    assert_eq!(rt; total_at_the_end(alloc, desk, seat)?, 7);
    Ok(())
}

#[test]
fn a_desk_is_shared_and_a_seat_crosses(rt: HostRuntime) -> Result<(), Fail> {
    let (desk, seat) = opened(rt.alloc(), 0, true)?;
    may_be_shared(&desk, seat);
    Ok(())
}

#[test]
fn the_laws_of_seats_hold_at_any_type(_rt: HostRuntime) -> Result<(), Fail> {
    laws::split_seats_are_all::<u64, u64>();
    laws::seats_come_back::<u64, u64>();
    Ok(())
}
