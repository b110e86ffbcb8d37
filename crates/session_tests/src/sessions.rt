// Sessions with exact bytes.
use super::replies::{Told, ran};
use super::texts::*;
use dl_values::NoMemory;
use load_server::SessionEnd;
use std::alloc::Global;
use std::test::Fail;

// What is sent, what the core replies, the commands that it was asked, and what is written.
#[derive(Clone, Copy)]
struct Case {
    sent: &'static [u8],
    told: &'static [Told],
    asked: &'static [u8],
    written: &'static [&'static [u8]],
}

const LOADS: &[Case] = &[
    Case {
        sent: LOAD,
        told: &[Told::Begun(1), Told::Submitted(1, 0), Told::Published(1, 1)],
        asked: b"BSP",
        written: &[CONTINUE, LOADED],
    },
    // The publish turns go on until the place of the load is reached,
    Case {
        sent: LOAD,
        told: &[
            Told::Begun(1),
            Told::Submitted(3, 2),
            Told::Published(4, 1),
            Told::Published(5, 2),
            Told::Published(1, 3),
        ],
        asked: b"BSPPP",
        written: &[CONTINUE, LOADED],
    },
    // once for each load that was ahead, and once more,
    Case {
        sent: LOAD,
        told: &[
            Told::Begun(1),
            Told::Submitted(3, 1),
            Told::Published(4, 1),
            Told::Published(5, 2),
            Told::Fault,
        ],
        asked: b"BSPP",
        written: &[CONTINUE, LOADED],
    },
    // until a fault comes,
    Case {
        sent: LOAD,
        told: &[Told::Begun(1), Told::Submitted(3, 2), Told::Fault],
        asked: b"BSP",
        written: &[CONTINUE, LATE],
    },
    // or nothing waits.
    Case {
        sent: LOAD,
        told: &[Told::Begun(1), Told::Submitted(3, 2), Told::Nothing],
        asked: b"BSP",
        written: &[CONTINUE, LOADED],
    },
    Case {
        sent: LOAD,
        told: &[Told::Used(1)],
        asked: b"B",
        written: &[CONTINUE, USED],
    },
    // A load that fails is aborted,
    Case {
        sent: STRAY,
        told: &[Told::Begun(7), Told::Aborted(7)],
        asked: b"BA",
        written: &[FILTERED],
    },
    Case {
        sent: LOAD,
        told: &[Told::Begun(1), Told::Expired(7), Told::Aborted(1)],
        asked: b"BSA",
        written: &[CONTINUE, EXPIRED],
    },
    // and so is one that finds no memory.
    Case {
        sent: LOAD,
        told: &[Told::Begun(1), Told::Short, Told::Aborted(1)],
        asked: b"BSA",
        written: &[CONTINUE, OUT_OF_MEMORY],
    },
    Case {
        sent: LOAD,
        told: &[Told::UnknownTable],
        asked: b"B",
        written: &[CONTINUE, UNKNOWN_TABLE],
    },
    // A fault of the keeper aborts nothing.
    Case {
        sent: LOAD,
        told: &[Told::Begun(1), Told::Fault],
        asked: b"BS",
        written: &[CONTINUE, KEEPER_FAULT],
    },
    // A load of two phases has no publish turns before its commit,
    Case {
        sent: TWO_PHASES,
        told: &[Told::Begun(4), Told::Waits],
        asked: b"2S",
        written: &[WAITING],
    },
    // which has those of the load.
    Case {
        sent: COMMIT,
        told: &[
            Told::Committed(4, 3, 1),
            Told::Published(1, 2),
            Told::Published(4, 3),
        ],
        asked: b"CPP",
        written: &[COMMITTED],
    },
    Case {
        sent: COMMIT,
        told: &[Told::Committed(4, 3, 1), Told::Fault],
        asked: b"CP",
        written: &[COMMITTED_LATE],
    },
    Case {
        sent: COMMIT,
        told: &[Told::WrongState],
        asked: b"C",
        written: &[WRONG_STATE],
    },
    Case {
        sent: COMMIT,
        told: &[Told::Fault],
        asked: b"C",
        written: &[KEEPER_FAULT],
    },
    Case {
        sent: ABORT,
        told: &[Told::Aborted(4)],
        asked: b"A",
        written: &[ABORTED],
    },
    Case {
        sent: BAD_END,
        told: &[],
        asked: b"",
        written: &[NO_KEY],
    },
];

fn loads() -> &'static [Case] {
    LOADS
}

const STATEMENTS: &Case = &Case {
    sent: b"",
    told: &[Told::Done, Told::DbExists, Told::TwoLists, Told::TwoLists],
    asked: b"DDQQ",
    written: &[DONE, NOT_FOUND, EXISTS, UNSUPPORTED, ROWS, LAST_ROWS],
};

fn statements() -> &'static Case {
    STATEMENTS
}

fn joined(alloc: Global, parts: &[&[u8]]) -> Result<Vec<u8>, NoMemory> {
    let mut all = Vec::new(alloc);
    for part in parts {
        all.extend_from_slice(part)?;
    }
    Ok(all)
}

// Whether the session that is sent this ends well, asks for the commands and writes the texts of a case.
fn goes_so(alloc: Global, sent: &[u8], case: &Case) -> Result<bool, NoMemory> {
    let run = ran(alloc, sent, case.told, &[])?;
    let wanted = joined(alloc, case.written)?;
    Ok(
        run.end == SessionEnd::Done
            && run.asked.as_slice() == case.asked
            && run.written.as_slice() == wanted.as_slice(),
    )
}

#[test]
fn loads_are_answered_by_what_the_core_replies(rt: HostRuntime) -> Result<(), Fail> {
    for case in loads() {
        let well = goes_so(rt.alloc(), case.sent, case)?;
        assert!(rt; well);
    }
    Ok(())
}

#[test]
fn statements_are_answered_in_their_order(rt: HostRuntime) -> Result<(), Fail> {
    let alloc = rt.alloc();
    let input = joined(alloc, &[CREATE, GET, CREATE, OTHER, SELECT, CLOSE, CREATE])?;
    let well = goes_so(alloc, input.as_slice(), statements())?;
    assert!(rt; well);
    Ok(())
}
