//! What a query answers over a list of rows: the definition, its laws, and a plain function that computes it.
#![tactic(auto)]

mod aggregates;
mod answer;
mod columns;
mod evaluation;
pub mod examples;
mod filters;
mod groups;
mod item_names;
mod items;
pub mod laws;
mod orders;
mod refusals;
mod select_error;

pub use columns::kind_named;
pub use evaluation::eval;
pub use filters::literal_cell;
pub use item_names::{output_names, output_types, type_text};
pub use items::items_of;
pub use orders::{limited, sort};
pub use refusals::{is_grouped, refusal};
pub use select_error::SelectError;
