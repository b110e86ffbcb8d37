// What a report tells of a load.
ghost use Rattle.std.specs.Prelude.{◌≡◌, IfOk};
ghost use Rattle.front_defs.specs.Answer.{label_for};
ghost use Rattle.front_defs.specs.Names.{auto_label};

use dl_values::{Name, NoMemory, Text};
use itoa::Buffer;
use std::alloc::Global;

/// What a report tells of a load as it was sent.
#[derive(Drop)]
pub struct Sent {
    /// Without a label the core gives the load one from its number.
    pub label: Option<Name>,
    /// The length of its body.
    pub bytes: u64,
}

/// The label of a load that has this number.
pub fn label_of(alloc: Global, label: &Option<Name>, txn: u64) -> Result<Text, NoMemory>
    ensures { IfOk result (λ t. t ≡ label_for label.now txn) }
{
    match label {
        Some(label) => Text::new(alloc, label.bytes()),
        None => auto_label(alloc, txn),
    }
}

// The label that the core gives to the load of this number.
fn auto_label(alloc: Global, txn: u64) -> Result<Text, NoMemory>
    ensures { IfOk result (λ t. t ≡ auto_label txn) }
{
    let mut bytes = Vec::from_slice(alloc, b"auto_")?;
    bytes.extend_from_slice(Buffer::new().format(txn).as_bytes())?;
    Text::new(alloc, bytes.as_slice())
}

/// The label that a request tells, as a text.
pub fn told_label(alloc: Global, label: &Option<Name>) -> Result<Option<Text>, NoMemory>
    ensures { IfOk result (λ t. t ≡ label.now) }
{
    match label {
        Some(label) => Ok(Some(Text::new(alloc, label.bytes())?)),
        None => Ok(None),
    }
}
