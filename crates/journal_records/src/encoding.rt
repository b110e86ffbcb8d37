// Writing a record.
ghost use Rattle.std.specs.Prelude.{◌≡◌, true, false, IfOk, OnOk, Err};
ghost use Rattle.journal_records.specs.Spelling.{spelling};
ghost use Rattle.journal_records.specs.Fitting.{short};

use crate::errors::EncodeError;
use crate::record::Record;
use crate::short::is_short;
use crate::write_records::put_record;
use std::alloc::Global;

/// The one spelling of a record. Days and texts are written as they are.
pub fn encode(alloc: Global, told: &Record) -> Result<Vec<u8>, EncodeError>
    ensures spelled { IfOk result (λ v. v.items ≡ spelling told.now) }
    ensures short { OnOk result (short told.now ≡ true) }
    ensures long { result ≡ Err EncodeError.TooLong → short told.now ≡ false }
{
    if !is_short(told) {
        return Err(EncodeError::TooLong);
    }
    let mut out = Vec::new(alloc);
    put_record(&mut out, told)?;
    Ok(out)
}
