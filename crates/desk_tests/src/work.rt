// What threads do at a desk.
ghost use Rattle.std.specs.Prelude.{◌≡◌, ◌<◌};
ghost use Rattle.std.specs.Thread.{IsSync};
ghost use Rattle.desk.specs.Seats.{view_of, IsOf};
ghost use Rattle.desk.specs.Lacking.{CameBack};
ghost use Rattle.desk_tests.specs.Seats.{IsSame};

use crate::total::Total;
use desk::{Desk, Seat};
use dl_outside::Steps;
use std::marker::Brand;
use std::sync::Wait;
use std::sync::ledger::{Blank, Ledger};
use std::thread;
use std::thread::Threads;

/// What was answered to a seat, and to the seats that it took in.
#[derive(Drop)]
pub struct Replies {
    pub sum: u64,
    /// Each seat's replies ascended.
    pub ascended: bool,
}

impl Replies {
    fn and(self, other: Replies) -> Replies {
        Replies {
            sum: self.sum.wrapping_add(other.sum),
            ascended: self.ascended && other.ascended,
        }
    }
}

fn adds<R: Wait, L: Ledger>(
    rt: &R,
    desk: &Desk<Total>,
    seat: &mut Seat<Total>,
    turns: u64,
    blank: Blank,
) -> Replies
    requires place { IsOf desk.now seat.old }
    requires name { blank.name ≡ L.name }
    requires parts { blank.parts ≡ L.parts }
    requires some { 0 < L.parts }
    ensures place { IsOf desk.now seat.new }
    ensures same { IsSame (view_of seat.old) (view_of seat.new) }
{
    let mut steps: Steps<L> = Steps::new(blank);
    let mut sum: u64 = 0;
    let mut ascended = true;
    let mut last = 0;
    for _ in 0..turns {
        let reply = desk.turn(rt, seat, 1, &mut steps);
        sum = sum.wrapping_add(reply);
        ascended = ascended && last < reply;
        last = reply;
    }
    Replies { sum, ascended }
}

/// One seat adds one, so many times.
pub fn add<R: Wait>(rt: &R, desk: &Desk<Total>, seat: &mut Seat<Total>, turns: u64) -> Replies
    requires { IsOf desk.now seat.old }
    ensures place { IsOf desk.now seat.new }
    ensures same { IsSame (view_of seat.old) (view_of seat.new) }
{
    adds::<R, Brand>(rt, desk, seat, turns, Blank::new(1))
}

/// One thread adds.
pub fn one<R: Wait>(
    rt: &R,
    desk: &Desk<Total>,
    mut seat: Seat<Total>,
    turns: u64,
) -> (Seat<Total>, Replies)
    requires { IsOf desk.now seat }
    ensures place { IsOf desk.now result.0 }
    ensures back { CameBack (view_of seat) (view_of result.0) }
{
    let replies = add(rt, desk, &mut seat, turns);
    (seat, replies)
}

/// Two threads add, each with a seat of its own.
pub fn two<R: Threads + Wait + Sync>(
    rt: &R,
    desk: &Desk<Total>,
    mut seat: Seat<Total>,
    turns: u64,
) -> (Seat<Total>, Replies)
    requires { IsOf desk.now seat }
    ensures place { IsOf desk.now result.0 }
    ensures back { CameBack (view_of seat) (view_of result.0) }
{
    let other = desk.split(&mut seat);
    let ((mut seat, replies), (other, more)) = thread::join(
        rt,
        move || -> (Seat<Total>, Replies)
            requires { IsSync R.row × IsOf desk.now seat }
            ensures place { IsOf desk.entry.now result.0 }
            ensures back { CameBack (view_of seat) (view_of result.0) }
        { one(rt, desk, seat, turns) },
        move || -> (Seat<Total>, Replies)
            requires { IsSync R.row × IsOf desk.now other }
            ensures place { IsOf desk.entry.now result.0 }
            ensures back { CameBack (view_of other) (view_of result.0) }
        { one(rt, desk, other, turns) },
    );
    desk.join(&mut seat, other);
    (seat, replies.and(more))
}

/// Four threads add, each with a seat of its own.
pub fn four<R: Threads + Wait + Sync>(
    rt: &R,
    desk: &Desk<Total>,
    mut seat: Seat<Total>,
    turns: u64,
) -> (Seat<Total>, Replies)
    requires { IsOf desk.now seat }
    ensures place { IsOf desk.now result.0 }
    ensures back { CameBack (view_of seat) (view_of result.0) }
{
    let other = desk.split(&mut seat);
    let ((mut seat, replies), (other, more)) = thread::join(
        rt,
        move || -> (Seat<Total>, Replies)
            requires { IsSync R.row × IsOf desk.now seat }
            ensures place { IsOf desk.entry.now result.0 }
            ensures back { CameBack (view_of seat) (view_of result.0) }
        { two(rt, desk, seat, turns) },
        move || -> (Seat<Total>, Replies)
            requires { IsSync R.row × IsOf desk.now other }
            ensures place { IsOf desk.entry.now result.0 }
            ensures back { CameBack (view_of other) (view_of result.0) }
        { two(rt, desk, other, turns) },
    );
    desk.join(&mut seat, other);
    (seat, replies.and(more))
}

/// Eight threads add, each with a seat of its own.
pub fn eight<R: Threads + Wait + Sync>(
    rt: &R,
    desk: &Desk<Total>,
    mut seat: Seat<Total>,
    turns: u64,
) -> (Seat<Total>, Replies)
    requires { IsOf desk.now seat }
    ensures place { IsOf desk.now result.0 }
    ensures back { CameBack (view_of seat) (view_of result.0) }
{
    let other = desk.split(&mut seat);
    let ((mut seat, replies), (other, more)) = thread::join(
        rt,
        move || -> (Seat<Total>, Replies)
            requires { IsSync R.row × IsOf desk.now seat }
            ensures place { IsOf desk.entry.now result.0 }
            ensures back { CameBack (view_of seat) (view_of result.0) }
        { four(rt, desk, seat, turns) },
        move || -> (Seat<Total>, Replies)
            requires { IsSync R.row × IsOf desk.now other }
            ensures place { IsOf desk.entry.now result.0 }
            ensures back { CameBack (view_of other) (view_of result.0) }
        { four(rt, desk, other, turns) },
    );
    desk.join(&mut seat, other);
    (seat, replies.and(more))
}

/// Sixteen threads add, each with a seat of its own.
pub fn sixteen<R: Threads + Wait + Sync>(
    rt: &R,
    desk: &Desk<Total>,
    mut seat: Seat<Total>,
    turns: u64,
) -> (Seat<Total>, Replies)
    requires { IsOf desk.now seat }
    ensures place { IsOf desk.now result.0 }
    ensures back { CameBack (view_of seat) (view_of result.0) }
{
    let other = desk.split(&mut seat);
    let ((mut seat, replies), (other, more)) = thread::join(
        rt,
        move || -> (Seat<Total>, Replies)
            requires { IsSync R.row × IsOf desk.now seat }
            ensures place { IsOf desk.entry.now result.0 }
            ensures back { CameBack (view_of seat) (view_of result.0) }
        { eight(rt, desk, seat, turns) },
        move || -> (Seat<Total>, Replies)
            requires { IsSync R.row × IsOf desk.now other }
            ensures place { IsOf desk.entry.now result.0 }
            ensures back { CameBack (view_of other) (view_of result.0) }
        { eight(rt, desk, other, turns) },
    );
    desk.join(&mut seat, other);
    (seat, replies.and(more))
}
