// The calls of a script, and what they answer.
use dl_values::{Name, NoMemory};
use labels::TxnState;
use std::alloc::Global;
use txn_core::{TxnBook, TxnError, TxnStart};

#[derive(Clone, Copy)]
pub enum Call {
    // A load of a label that has one letter, into table 7, or into table 8 from the letter m on.
    Begin(u8, bool),
    Submit(u64),
    Commit(u64),
    Abort(u64),
    Publish,
    Sweep,
    DropTable(u64),
}

#[derive(Clone, Copy, Debug, PartialEq, Eq)]
pub enum Answer {
    Number(u64),
    Place(Option<u64>),
    Swept(u64, u64),
    Done,
    Used(u64, TxnState),
    Wrong(TxnState),
    Expired(u64),
    Other(TxnError),
    // The test itself gave up.
    Failed,
}

// The moment, the call, and the answer that is wanted.
pub type Step = (u64, Call, Answer);

fn refused(refusal: TxnError) -> Answer {
    match refusal {
        TxnError::Used { txn, state } => Answer::Used(txn, state),
        TxnError::WrongState { state } => Answer::Wrong(state),
        TxnError::Expired { since } => Answer::Expired(since),
        other => Answer::Other(other),
    }
}

pub fn start_of(alloc: Global, label: u8, two_phase: bool, at: u64) -> Result<TxnStart, NoMemory> {
    Ok(TxnStart {
        db: Name::new(alloc, b"d")?,
        table: if label < b'm' { 7 } else { 8 },
        label: Some(Name::new(alloc, &[label])?),
        two_phase,
        schema: 1,
        at,
    })
}

fn begin(book: &mut TxnBook, start: Result<TxnStart, NoMemory>) -> Answer {
    let Ok(start) = start else {
        return Answer::Failed;
    };
    match book.begin(start) {
        Ok(number) => Answer::Number(number),
        Err(refusal) => refused(refusal),
    }
}

fn submit(book: &mut TxnBook, txn: u64, at: u64) -> Answer {
    if book.last_place() > 99 {
        return Answer::Failed;
    }
    match book.submit(txn, None, at) {
        Ok(place) => Answer::Place(place),
        Err(refusal) => refused(refusal),
    }
}

fn commit(book: &mut TxnBook, txn: u64, at: u64) -> Answer {
    if book.last_place() > 99 {
        return Answer::Failed;
    }
    match book.commit(txn, at) {
        Ok(place) => Answer::Place(Some(place)),
        Err(refusal) => refused(refusal),
    }
}

fn abort(book: &mut TxnBook, txn: u64, at: u64) -> Answer {
    match book.abort(txn, at) {
        Ok(()) => Answer::Done,
        Err(refusal) => refused(refusal),
    }
}

fn publish(book: &mut TxnBook, at: u64) -> Answer {
    match book.publish(at) {
        Ok(number) => Answer::Number(number),
        Err(refusal) => refused(refusal),
    }
}

fn sweep(book: &mut TxnBook, at: u64) -> Answer {
    match book.sweep(at) {
        Ok((aborted, forgotten)) => Answer::Swept(aborted, forgotten),
        Err(refusal) => refused(refusal),
    }
}

fn play(book: &mut TxnBook, alloc: Global, at: u64, call: Call) -> Answer {
    match call {
        Call::Begin(label, two_phase) => begin(book, start_of(alloc, label, two_phase, at)),
        Call::Submit(txn) => submit(book, txn, at),
        Call::Commit(txn) => commit(book, txn, at),
        Call::Abort(txn) => abort(book, txn, at),
        Call::Publish => publish(book, at),
        Call::Sweep => sweep(book, at),
        Call::DropTable(table) => {
            book.drop_table(table, at);
            Answer::Done
        }
    }
}

// Whether each call answers as it is to.
pub fn plays(book: &mut TxnBook, alloc: Global, script: &[Step]) -> bool {
    for step in script {
        let (at, call, wanted) = *step;
        if play(book, alloc, at, call) != wanted {
            return false;
        }
    }
    true
}

// The next number, the last place, how many wait, and the lowest number that is open.
pub fn stands(book: &TxnBook, next: u64, places: u64, waiting: u64, lowest: u64) -> bool {
    book.next_id() == next
        && book.last_place() == places
        && book.waiting() == waiting
        && book.lowest_open() == lowest
}
