// What a text spells.
use sql_text::{Stmt, parse_stmt};
use std::alloc::Global;
use std::test::Fail;

/// A statement that was read.
pub struct Given {
    pub stmt: Stmt,
}

// By a function of its own: a derived one would be part of each function that has a statement, at each way out, with all that a
// statement may hold.
impl Drop for Given {
    fn drop(self) {
        let Given { stmt: _stmt } = self;
    }
}

/// The statement of a text that has one.
pub fn read(alloc: Global, text: &str) -> Result<Given, Fail> {
    match parse_stmt(alloc, text) {
        Ok(stmt) => Ok(Given { stmt }),
        Err(_) => Err("no statement".into()),
    }
}
