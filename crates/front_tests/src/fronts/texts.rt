// Replies in short.
use dl_outside::Steps;
use dl_values::{Cell, NoMemory};
use front_defs::Reply;
use labels::TxnState;
use row_fold::SortedRows;
use rowsets::Rowset;
use std::alloc::Global;
use std::sync::Arc;
use std::sync::ledger::Ledger;

// A state in capitals.
pub fn state_text(state: TxnState) -> &'static str {
    match state {
        TxnState::Prepare => "PREPARE",
        TxnState::Precommitted => "PRECOMMITTED",
        TxnState::Committed => "COMMITTED",
        TxnState::Visible => "VISIBLE",
        TxnState::Aborted => "ABORTED",
    }
}

// The sum of the rows' one cell, over lists of one row.
fn sums<L: Ledger>(lists: &[Arc<Rowset>], steps: &mut Steps<L>) -> i64 {
    let mut sum: i64 = 0;
    for list in lists {
        if list.len() == 1 {
            let row = list.row(0, steps);
            if row.len() == 1 {
                if let Cell::Int(k) = row.cell(0) {
                    sum = sum.wrapping_add(*k);
                }
            }
        }
    }
    sum
}

fn well_text<L: Ledger>(
    alloc: Global,
    reply: &Reply,
    steps: &mut Steps<L>,
) -> Result<String, NoMemory> {
    let text = match reply {
        Reply::Done => format!(in alloc; "Done")?,
        Reply::Begun { txn, plan } => format!(in alloc; "Begun {txn} {}", plan.txn)?,
        Reply::Submitted { placed: None } => format!(in alloc; "Submitted")?,
        Reply::Submitted { placed: Some(p) } => {
            format!(in alloc; "Submitted {} {}", p.place, p.ahead)?
        }
        Reply::Published { txn, place } => format!(in alloc; "Published {txn} {place}")?,
        Reply::Aborted { txn } => format!(in alloc; "Aborted {txn}")?,
        Reply::Committed { txn, place, ahead } => {
            format!(in alloc; "Committed {txn} {place} {ahead}")?
        }
        Reply::Swept { aborted, cleaned } => format!(in alloc; "Swept {aborted} {cleaned}")?,
        Reply::Snap { snapshot } => {
            let lists = snapshot.lists.as_slice();
            format!(in alloc; "Snap {} {}", lists.len(), sums(lists, steps))?
        }
        _ => format!(in alloc; "refused")?,
    };
    Ok(text)
}

// A reply in short.
pub fn text<L: Ledger>(
    alloc: Global,
    reply: &Reply,
    steps: &mut Steps<L>,
) -> Result<String, NoMemory> {
    let text = match reply {
        Reply::BadName => format!(in alloc; "BadName")?,
        Reply::DbExists => format!(in alloc; "DbExists")?,
        Reply::UnknownDb => format!(in alloc; "UnknownDb")?,
        Reply::TableExists => format!(in alloc; "TableExists")?,
        Reply::BadTable { error: _ } => format!(in alloc; "BadTable")?,
        Reply::UnknownTable => format!(in alloc; "UnknownTable")?,
        Reply::BadLabel => format!(in alloc; "BadLabel")?,
        Reply::Used { txn, state } => format!(in alloc; "Used {txn} {}", state_text(*state))?,
        Reply::NoSuchTxn => format!(in alloc; "NoSuchTxn")?,
        Reply::WrongState { state } => format!(in alloc; "WrongState {}", state_text(*state))?,
        Reply::Expired { since } => format!(in alloc; "Expired {since}")?,
        Reply::NothingToPublish => format!(in alloc; "NothingToPublish")?,
        Reply::NothingToSweep => format!(in alloc; "NothingToSweep")?,
        _ => well_text(alloc, reply, steps)?,
    };
    Ok(text)
}
