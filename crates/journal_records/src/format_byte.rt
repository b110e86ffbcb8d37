// The format of records.

// The format that is written, and the one that is read.
pub const FORMAT: u8 = 1;
