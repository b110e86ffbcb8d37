// Writing rows.
ghost use Rattle.std.specs.Prelude.{◌≡◌, true, false, IfOk, OnOk, Err};
ghost use Rattle.journal_records.specs.Fitting.{short_rows, readable_rows};

use crate::encoded_rows::EncodedRows;
use crate::errors::EncodeError;
use crate::short::are_short_rows;
use crate::write_fields::put_rows;
use dl_values::Rows;
use std::alloc::Global;

/// The rows as a record spells them. `are_readable` tests what they have to be.
pub fn encode_rows(alloc: Global, rows: &Rows) -> Result<EncodedRows, EncodeError>
    requires readable { readable_rows rows.now ≡ true }
    ensures spelled { IfOk result (λ e. e ≡ rows.now) }
    ensures short { OnOk result (short_rows rows.now ≡ true) }
    ensures long { result ≡ Err EncodeError.TooLong → short_rows rows.now ≡ false }
{
    if !are_short_rows(rows) {
        return Err(EncodeError::TooLong);
    }
    let mut bytes = Vec::new(alloc);
    put_rows(&mut bytes, rows)?;
    Ok(EncodedRows::from_bytes(bytes))
}
