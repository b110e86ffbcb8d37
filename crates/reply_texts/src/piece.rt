// Putting a text together.
ghost use Rattle.std.specs.Prelude.{◌≡◌, ◌++◌, OnOk, decimal};

use dl_values::NoMemory;
use itoa::Buffer;

// Adds a text and a number.
pub fn add_number(out: &mut Vec<u8>, text: &[u8], number: u64) -> Result<(), NoMemory>
    ensures { OnOk result (out.new.items ≡ out.old.items ++ (text.now ++ decimal number)) }
{
    let mut digits = Buffer::new();
    out.extend_from_slice(text)?;
    out.extend_from_slice(digits.format(number).as_bytes())?;
    Ok(())
}

// Adds a text and another one.
pub fn add_texts(out: &mut Vec<u8>, text: &[u8], more: &[u8]) -> Result<(), NoMemory>
    ensures { OnOk result (out.new.items ≡ out.old.items ++ (text.now ++ more.now)) }
{
    out.extend_from_slice(text)?;
    out.extend_from_slice(more)?;
    Ok(())
}
