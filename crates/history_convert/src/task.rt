// A task of a job, and what came of it.
use dl_values::{Name, Row};
use merge_read::Snapshot;
use row_map::RowMap;
use rowsets::Rowset;
use schema_models::Shape;
use std::sync::Arc;

/// What is converted: the rows of one tablet of the base as the job went to run.
#[derive(Drop)]
pub struct Task {
    pub number: u64,
    /// How often the service was opened again when the task was taken.
    pub born: u64,
    pub job: u64,
    /// Which of the new indexes of the job.
    pub index: u64,
    pub part: u64,
    pub bucket: u64,
    pub source: Snapshot<Arc<Rowset>>,
    /// The shape that the map leads to.
    pub shape: Shape,
    pub map: RowMap,
}

/// What came of a task, with its numbers.
#[derive(Drop)]
pub struct Piece {
    pub number: u64,
    pub born: u64,
    pub job: u64,
    pub index: u64,
    pub part: u64,
    pub bucket: u64,
    pub result: PieceResult,
}

/// The converted rows, the first row that cannot be converted, or want of memory.
#[derive(Drop)]
pub enum PieceResult {
    Rows(Arc<Rowset>),
    Fault { row: Row, column: Name },
    Back,
}
