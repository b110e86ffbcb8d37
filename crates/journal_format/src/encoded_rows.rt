// The rows of a load, ready for the journal.
ghost use Rattle.std.specs.Prelude.{◌≡◌};

use dl_values::Rows;
use std::marker::Model;

/// The rows of a load as its record has them, which contracts see as the list of the rows.
#[derive(Debug, Drop)]
pub struct EncodedRows {
    rows: Rows,
}

impl Model for EncodedRows {
    ghost use Rattle.std.specs.Prelude.{List};
    ghost use Rattle.dl_values.specs.declared.cell.Cell.{Cell};

    ghost Value = { List (List Cell) };

    ghost view = { λ e. e.rows };
}

impl EncodedRows {
    /// These rows.
    pub fn new(rows: Rows) -> EncodedRows
        ensures { result ≡ rows }
    {
        EncodedRows { rows }
    }

    /// The rows in their order.
    pub fn rows(&self) -> &Rows
        ensures { result.now ≡ self.now }
    {
        &self.rows
    }
}
