//! HTTP/1.1 on the wire: the requests of a source of bytes, and responses to a sink.
//!
//! Main interface: [`HttpReader`] reads heads and bodies, [`write_response`] and [`write_continue`] answer. The profile is
//! RFC 9112 as `httparse` reads it, with this project's own limits.
#![tactic(auto)]

mod body;
mod buffer;
mod error;
mod fields;
mod find;
mod head;
mod head_text;
pub mod laws;
mod length;
mod make;
mod reader;
mod response;

pub use error::WireError;
pub use fields::Fields;
pub use head::{BodyLength, Head};
pub use head_text::HeadText;
pub use reader::HttpReader;
pub use response::{write_continue, write_response};

/// The longest head, in bytes, with the empty lines before it: this project's own limit.
pub const MAX_HEAD: usize = 16384;

/// The most fields of a head: this project's own limit.
pub const MAX_FIELDS: usize = 64;

/// The longest body, in bytes: this project's own limit.
pub const MAX_BODY: u64 = 16777216;
