// The record of a job that was added.
use crate::change::Change;
use crate::piece::Piece;
use crate::read_fields::number64;
use crate::stop::Stop;
use crate::write_fields::put_number64;
use dl_values::NoMemory;
use std::alloc::Global;

/// A job that changes a table.
#[derive(Debug, Drop)]
pub struct NewJob {
    pub job: u64,
    pub table: u64,
    /// In milliseconds, as each moment of a record.
    pub at: u64,
    pub change: Change,
}

impl Piece for NewJob {
    ghost use Rattle.journal_records.specs.Spelling.{new_job};
    ghost use Rattle.journal_records.specs.Fitting.{short_job};
    ghost use Rattle.journal_records.specs.Reading.{new_job_at};

    ghost spelled = { new_job };

    ghost short = { short_job };

    ghost reader = { new_job_at };

    fn is_short(&self) -> bool {
        self.change.is_short()
    }

    #[tactic(auto, unfolding(crate::specs::Spelling::new_job))]
    fn put(&self, format: u8, out: &mut Vec<u8>) -> Result<(), NoMemory> {
        put_number64(out, self.job)?;
        put_number64(out, self.table)?;
        put_number64(out, self.at)?;
        self.change.put(format, out)?;
        Ok(())
    }

    #[tactic(auto, unfolding(crate::specs::Reading::new_job_at))]
    fn read(alloc: Global, format: u8, bytes: &[u8]) -> Result<(NewJob, &[u8]), Stop> {
        let (job, rest) = number64(bytes)?;
        let (table, rest) = number64(rest)?;
        let (at, rest) = number64(rest)?;
        let (change, rest) = Change::read(alloc, format, rest)?;
        let job = NewJob {
            job,
            table,
            at,
            change,
        };
        Ok((job, rest))
    }
}
