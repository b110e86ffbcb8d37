//! The JSON of responses: loads, their ends, results and refusals, and the statement that a body holds.
#![tactic(auto)]

mod body_error;
mod cells;
mod columns;
mod end;
mod end_report;
mod load;
mod load_report;
mod refusal;
mod result;
mod stmt_body;
mod text;

pub use body_error::BodyError;
pub use end::render_end;
pub use end_report::EndReport;
pub use load::render_load;
pub use load_report::LoadReport;
pub use refusal::{render_error, render_refusal, render_refused};
pub use result::{render_done, render_result};
pub use stmt_body::read_stmt_body;
