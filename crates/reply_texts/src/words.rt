// The words for states and types.
ghost use Rattle.std.specs.Prelude.{◌≡◌, IfOk};
ghost use Rattle.front_defs.specs.Words.{job_state_text, state_text, type_text};
ghost use Rattle.reply_texts.specs.Words.{job_text};

use crate::piece::add_number;
use alter_core::JobState;
use dl_values::{ColType, NoMemory, Text};
use labels::TxnState;
use std::alloc::Global;

// The word for a state.
pub fn state_word(state: TxnState) -> &'static [u8]
    ensures { result.now ≡ state_text state }
{
    match state {
        TxnState::Prepare => b"PREPARE",
        TxnState::Precommitted => b"PRECOMMITTED",
        TxnState::Committed => b"COMMITTED",
        TxnState::Visible => b"VISIBLE",
        TxnState::Aborted => b"ABORTED",
    }
}

// The word for the state of a job.
pub fn job_word(state: JobState) -> &'static [u8]
    ensures { result.now ≡ job_state_text state }
{
    match state {
        JobState::Pending => b"PENDING",
        JobState::WaitingTxn => b"WAITING_TXN",
        JobState::Running => b"RUNNING",
        JobState::Finished => b"FINISHED",
        JobState::Cancelled => b"CANCELLED",
    }
}

/// The state of a transaction in capitals (Apache Doris documentation, "SHOW TRANSACTION": TransactionStatus).
pub fn state_text(alloc: Global, state: TxnState) -> Result<Text, NoMemory>
    ensures { IfOk result (λ t. t ≡ state_text state) }
{
    Text::new(alloc, state_word(state))
}

/// The state of a load's job, by the state of its transaction (Apache Doris documentation, "Stream Load":
/// ExistingJobStatus).
pub fn job_text(alloc: Global, state: TxnState) -> Result<Text, NoMemory>
    ensures { IfOk result (λ t. t ≡ job_text state) }
{
    match state {
        TxnState::Prepare => Text::new(alloc, b"RUNNING"),
        TxnState::Precommitted => Text::new(alloc, b"PRECOMMITTED"),
        TxnState::Committed | TxnState::Visible => Text::new(alloc, b"FINISHED"),
        TxnState::Aborted => Text::new(alloc, b"CANCELLED"),
    }
}

// The type of texts of at most so many bytes.
fn varchar_text(alloc: Global, most: u32) -> Result<Text, NoMemory>
    ensures { IfOk result (λ t. t ≡ type_text (ColType.Varchar most)) }
{
    let mut out = Vec::new(alloc);
    add_number(&mut out, b"VARCHAR(", most as u64)?;
    out.push(b')')?;
    Text::new(alloc, out.as_slice())
}

/// A type of a column as statements write it (Apache Doris documentation, "Data Types").
pub fn type_text(alloc: Global, kind: ColType) -> Result<Text, NoMemory>
    ensures { IfOk result (λ t. t ≡ type_text kind) }
{
    match kind {
        ColType::TinyInt => Text::new(alloc, b"TINYINT"),
        ColType::SmallInt => Text::new(alloc, b"SMALLINT"),
        ColType::Int => Text::new(alloc, b"INT"),
        ColType::BigInt => Text::new(alloc, b"BIGINT"),
        ColType::Date => Text::new(alloc, b"DATE"),
        ColType::Varchar(most) => varchar_text(alloc, most),
    }
}
