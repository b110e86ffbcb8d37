// The opening and the end of a desk with a total on it.
ghost use Rattle.std.specs.Prelude.{◌≡◌, IfOk};
ghost use Rattle.desk.specs.Rule.{newcomer};
ghost use Rattle.desk.specs.Seats.{view_of, opening_of, IsOf};
ghost use Rattle.desk.specs.Lacking.{CameBack};
ghost use Rattle.desk_tests.specs.Seats.{AreThree};

use crate::total::Total;
use desk::{Desk, OpenError, Seat};
use std::alloc::{AllocError, Global};

/// A desk with a total on it, and its first seat.
pub fn opened(
    alloc: Global,
    sum: u64,
    whole: bool,
) -> Result<(Desk<Total>, Seat<Total>), AllocError>
    ensures { IfOk result (λ t. IsOf t.0 t.1 × (view_of t.1 ≡ newcomer (opening_of t.0))) }
{
    match Desk::open(alloc, Total { sum, whole }) {
        Ok(opened) => Ok(opened),
        Err(OpenError::NoMemory(_)) => Err(AllocError),
    }
}

/// Closes a desk whose first seat took in all others, and gives the total.
pub fn total_at_the_end(
    alloc: Global,
    desk: Desk<Total>,
    seat: Seat<Total>,
) -> Result<u64, AllocError>
    requires place { IsOf desk seat }
    requires back { CameBack (newcomer (opening_of desk)) (view_of seat) }
{
    let seats = vec![in alloc; seat]?;
    Ok(desk.close(seats).sum)
}

/// Closes a desk with its three seats, the last one first.
pub fn total_of_three(
    alloc: Global,
    desk: Desk<Total>,
    first: Seat<Total>,
    second: Seat<Total>,
    third: Seat<Total>,
) -> Result<u64, AllocError>
    requires places { IsOf desk first × IsOf desk second × IsOf desk third }
    requires names { AreThree (view_of first) (view_of second) (view_of third) }
{
    let seats = vec![in alloc; third, first, second]?;
    Ok(desk.close(seats).sum)
}
