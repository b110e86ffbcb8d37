// The loads of one table as a plain list, which each command goes through.
use super::asks::{Ask, name};
use super::scans;
use super::texts::state_text;
use dl_values::{Name, NoMemory, Rows};
use front_defs::Txn;
use labels::TxnState;
use std::alloc::Global;

const LABELS: [&'static str; 12] = ["a", "b", "c", "d", "e", "f", "g", "h", "i", "j", "k", "l"];

// A command that a number picks, over the last of so many loads.
fn ask_of(pick: u64, loads: u64) -> Ask {
    let label = LABELS[((pick >> 3) % 12) as usize];
    let txn = loads.saturating_sub((pick >> 7) % 4);
    match pick % 8 {
        0 => Ask::Begin(label, (pick >> 9) % 4 == 0, (pick >> 11) % 700),
        1 => Ask::Unlabelled,
        2 | 3 => Ask::Submit(txn, (pick >> 11) % 900, ((pick >> 5) % 100) as i64),
        4 => Ask::Nothing(txn),
        5 => Ask::Publish,
        6 => {
            if (pick >> 9) % 2 == 0 {
                Ask::Abort(label)
            } else {
                Ask::AbortId(txn)
            }
        }
        _ => Ask::Select("t"),
    }
}

// A reply of the plain list.
#[derive(Clone, Copy)]
pub enum Told {
    Begun(u64),
    Used(u64, TxnState),
    NoSuchTxn,
    WrongState(TxnState),
    Expired(u64),
    Precommitted,
    Committed(u64, usize),
    Nothing,
    Published(u64, u64),
    Aborted(u64),
    Snap(u64, i64),
}

impl Told {
    // The text of the same reply of a front.
    pub fn text(self, alloc: Global) -> Result<String, NoMemory> {
        let text = match self {
            Told::Begun(id) => format!(in alloc; "Begun {id} {id}")?,
            Told::Used(id, state) => format!(in alloc; "Used {id} {}", state_text(state))?,
            Told::NoSuchTxn => format!(in alloc; "NoSuchTxn")?,
            Told::WrongState(state) => format!(in alloc; "WrongState {}", state_text(state))?,
            Told::Expired(since) => format!(in alloc; "Expired {since}")?,
            Told::Precommitted => format!(in alloc; "Submitted")?,
            Told::Committed(place, ahead) => format!(in alloc; "Submitted {place} {ahead}")?,
            Told::Nothing => format!(in alloc; "NothingToPublish")?,
            Told::Published(id, place) => format!(in alloc; "Published {id} {place}")?,
            Told::Aborted(id) => format!(in alloc; "Aborted {id}")?,
            Told::Snap(lists, sum) => format!(in alloc; "Snap {lists} {sum}")?,
        };
        Ok(text)
    }
}

// The loads by their numbers, and the one row of each that was submitted with one.
#[derive(Drop)]
pub struct Plain {
    alloc: Global,
    kept: Vec<Txn>,
    rows: Vec<(u64, i64)>,
    places: u64,
    lists: u64,
    sum: i64,
}

impl Plain {
    pub fn new(alloc: Global) -> Plain {
        Plain {
            alloc,
            kept: Vec::new(alloc),
            rows: Vec::new(alloc),
            places: 0,
            lists: 0,
            sum: 0,
        }
    }

    // How many loads there are.
    pub fn loads(&self) -> u64 {
        self.kept.len() as u64
    }

    // The reply to a command.
    pub fn answer(&mut self, ask: Ask) -> Result<Told, NoMemory> {
        match ask {
            Ask::Begin(label, two_phase, at) => {
                let label = name(self.alloc, label)?;
                self.begin(label, two_phase, at)
            }
            Ask::Unlabelled => {
                let label = self.auto_label()?;
                self.begin(label, false, 0)
            }
            Ask::Submit(txn, at, k) => self.submit(txn, at, Some(k)),
            Ask::Nothing(txn) => self.submit(txn, 0, None),
            Ask::Publish => Ok(self.publish()),
            Ask::Abort(label) => self.abort_label(label),
            Ask::AbortId(id) => Ok(self.abort(id)),
            _ => Ok(Told::Snap(self.lists, self.sum)),
        }
    }

    fn auto_label(&self) -> Result<Name, NoMemory> {
        let id = self.loads().saturating_add(1);
        let label = format!(in self.alloc; "auto_{id}")?;
        name(self.alloc, label.as_str())
    }

    // Who uses a label.
    fn holder(&self, db: &Name, label: &Name) -> Option<Told> {
        match scans::label_of(&self.kept, db, label) {
            None => None,
            Some(k) => {
                if k.state == TxnState::Aborted {
                    None
                } else {
                    Some(Told::Used(k.id, k.state))
                }
            }
        }
    }

    fn begin(&mut self, label: Name, two_phase: bool, at: u64) -> Result<Told, NoMemory> {
        let db = name(self.alloc, "d")?;
        if let Some(used) = self.holder(&db, &label) {
            return Ok(used);
        }
        let id = self.loads().saturating_add(1);
        let kept = Txn {
            id,
            db,
            table: 1,
            label,
            state: TxnState::Prepare,
            since: at,
            two_phase,
            schema: 0,
            place: None,
            told: false,
            rows: Rows::new(self.alloc),
        };
        self.kept.push(kept)?;
        Ok(Told::Begun(id))
    }

    fn load(&self, id: u64) -> Option<&Txn> {
        self.kept.iter().find(|k| k.id == id)
    }

    fn change(&mut self, id: u64, state: TxnState, place: Option<u64>) {
        for k in self.kept.iter_mut() {
            if k.id == id {
                k.state = state;
                k.place = place;
            }
        }
    }

    // Why rows of a load are not taken.
    fn refusal(&self, id: u64, at: u64) -> Option<Told> {
        match self.load(id) {
            None => Some(Told::NoSuchTxn),
            Some(k) => {
                if k.state != TxnState::Prepare {
                    Some(Told::WrongState(k.state))
                } else if at.saturating_sub(k.since) >= 600 {
                    Some(Told::Expired(k.since))
                } else {
                    None
                }
            }
        }
    }

    fn is_two_phase(&self, id: u64) -> bool {
        match self.load(id) {
            None => false,
            Some(k) => k.two_phase,
        }
    }

    fn submit(&mut self, id: u64, at: u64, k: Option<i64>) -> Result<Told, NoMemory> {
        if let Some(refusal) = self.refusal(id, at) {
            return Ok(refusal);
        }
        if let Some(k) = k {
            self.rows.push((id, k))?;
        }
        if self.is_two_phase(id) {
            self.change(id, TxnState::Precommitted, None);
            return Ok(Told::Precommitted);
        }
        Ok(self.commit(id))
    }

    fn commit(&mut self, id: u64) -> Told {
        let place = self.places.saturating_add(1);
        let ahead = scans::ahead_of(&self.kept, place);
        self.places = place;
        self.change(id, TxnState::Committed, Some(place));
        Told::Committed(place, ahead)
    }

    fn publish(&mut self) -> Told {
        let (id, place) = match scans::due(&self.kept) {
            None => return Told::Nothing,
            Some(k) => (k.id, k.place),
        };
        self.change(id, TxnState::Visible, place);
        self.store(id);
        Told::Published(id, place.unwrap_or(0))
    }

    fn store(&mut self, id: u64) {
        for (txn, k) in self.rows.iter() {
            if *txn == id {
                self.lists = self.lists.saturating_add(1);
                self.sum = self.sum.wrapping_add(*k);
            }
        }
    }

    fn abort_label(&mut self, label: &str) -> Result<Told, NoMemory> {
        let db = name(self.alloc, "d")?;
        let label = name(self.alloc, label)?;
        let id = match scans::label_of(&self.kept, &db, &label) {
            None => return Ok(Told::NoSuchTxn),
            Some(k) => k.id,
        };
        Ok(self.abort(id))
    }

    fn abort(&mut self, id: u64) -> Told {
        let state = match self.load(id) {
            None => return Told::NoSuchTxn,
            Some(k) => k.state,
        };
        if state != TxnState::Prepare && state != TxnState::Precommitted {
            return Told::WrongState(state);
        }
        self.change(id, TxnState::Aborted, None);
        Told::Aborted(id)
    }
}

// So many commands are mixed.
const MIXED: usize = 2000;

// Commands that a number mixes, and the texts of the plain list's replies.
pub fn mixed(alloc: Global, seed: u64) -> Result<(Vec<Ask>, Vec<String>), NoMemory> {
    let mut plain = Plain::new(alloc);
    let mut asks = Vec::new(alloc);
    let mut texts = Vec::new(alloc);
    asks.push(Ask::Db("d"))?;
    texts.push(format!(in alloc; "Done")?)?;
    asks.push(Ask::Table("d", "t"))?;
    texts.push(format!(in alloc; "Done")?)?;
    let mut x = seed;
    for _ in 0..MIXED {
        x = x
            .wrapping_mul(6364136223846793005)
            .wrapping_add(1442695040888963407);
        let ask = ask_of(x >> 33, plain.loads());
        asks.push(ask)?;
        texts.push(plain.answer(ask)?.text(alloc)?)?;
    }
    Ok((asks, texts))
}
