// The transactions of a table that is dropped.
ghost use Rattle.std.specs.Prelude.{◌≡◌};
ghost use Rattle.txn_core.specs.Book.{without_table};

use super::TxnBook;
use crate::drops::drop_of;

impl TxnBook {
    /// Aborts the transactions of a table that are not committed, and gives up the rows of all of them. Takes no memory.
    pub fn drop_table(&mut self, table: u64, at: u64)
        ensures { self.new ≡ without_table table at self.old }
    {
        drop_of(&mut self.kept, &mut self.labels, table, at);
    }
}
