// A begin that is taken back.
ghost use Rattle.std.specs.Prelude.{◌≡◌};
ghost use Rattle.txn_core.specs.declared.start.TxnStart.{TxnStart};
ghost use Rattle.txn_core.specs.Book.{BookView, HasBegun, begun, unbegun};

use super::TxnBook;

impl TxnBook {
    /// Takes back the last begin, with its number. Condition: the last transaction has the last number, and is in Prepare.
    pub fn unbegin(&mut self)
        requires { HasBegun self.old }
        ensures is { self.new ≡ unbegun self.old }
        ensures back { (b : BookView) (s : TxnStart) → self.old ≡ begun s b → self.new ≡ b }
    {
        match self.kept.pop() {
            None => {}
            Some(last) => {
                let id = last.id;
                drop(last);
                self.labels.clean(id);
                self.next = id;
            }
        }
    }
}
