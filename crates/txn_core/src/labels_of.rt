// The label of a transaction that begins.
ghost use Rattle.std.specs.Prelude.{◌≡◌, ◌++◌, IfOk};
ghost use Rattle.front_defs.specs.Names.{auto_label as auto_label_of};
ghost use Rattle.front_defs.specs.Answer.{label_for};

use dl_values::{Name, NoMemory};
use itoa::Buffer;
use std::alloc::Global;

fn auto_label(alloc: Global, id: u64) -> Result<Name, NoMemory>
    ensures { IfOk result (λ label. label ≡ auto_label_of id) }
{
    let mut digits = Buffer::new();
    let mut text = Vec::from_slice(alloc, b"auto_")?;
    text.extend_from_slice(digits.format(id).as_bytes())?;
    Name::new(alloc, &text)
}

// The label that is asked for, or that of the number.
pub fn label_or_auto(alloc: Global, label: Option<Name>, id: u64) -> Result<Name, NoMemory>
    ensures { IfOk result (λ found. found ≡ label_for label id) }
{
    match label {
        None => auto_label(alloc, id),
        Some(label) => Ok(label),
    }
}
