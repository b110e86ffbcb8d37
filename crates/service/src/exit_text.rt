// What a run says on standard error.
ghost use Rattle.std.specs.Prelude.{◌≡◌, IfOk, OnOk, ◌++◌, decimal, string_bytes};
ghost use Rattle.service.specs.Exits.{name_of, text_of};

use crate::Exit;
use dl_values::NoMemory;
use itoa::Buffer;
use std::alloc::Global;

const USAGE: &str =
    "usage: labelload dryrun MODEL COLUMN... | run [JOURNAL] | serve ADDRESS WORKERS [JOURNAL] | generate NUMBER LOADS\n";

// Adds a text and a number.
fn add_field(out: &mut String, text: &str, value: u64) -> Result<(), NoMemory>
    ensures { OnOk result (string_bytes out.new ≡ string_bytes out.old ++ (text.now ++ decimal value)) }
{
    let mut digits = Buffer::new();
    out.push_str(text)?;
    out.push_str(digits.format(value))?;
    Ok(())
}

// Adds the name of an exit and its fields.
fn add_name(out: &mut String, exit: Exit) -> Result<(), NoMemory>
    ensures { OnOk result (string_bytes out.new ≡ string_bytes out.old ++ name_of exit) }
{
    match exit {
        Exit::Ok | Exit::Usage => Ok(()),
        Exit::ReadFault => Ok(out.push_str("ReadFault")?),
        Exit::WriteFault => Ok(out.push_str("WriteFault")?),
        Exit::Refused { at } => add_field(out, "Refused at=", at),
        Exit::NoMemory => Ok(out.push_str("NoMemory")?),
        Exit::BadDef { word } => add_field(out, "BadDef word=", word),
        Exit::TooManyFiltered { line } => add_field(out, "TooManyFiltered line=", line),
        Exit::TooBig { limit } => add_field(out, "TooBig limit=", limit),
        Exit::Enough => Ok(out.push_str("Enough")?),
    }
}

impl Exit {
    /// What is said on standard error: nothing where all went well.
    pub fn text(self, alloc: Global) -> Result<String, NoMemory>
        ensures { IfOk result (λ text. string_bytes text ≡ text_of self) }
    {
        match self {
            Exit::Ok => Ok(String::new(alloc)),
            Exit::Usage => Ok(String::from_str(alloc, USAGE)?),
            exit => {
                let mut out = String::from_str(alloc, "labelload: ")?;
                add_name(&mut out, exit)?;
                out.push_str("\n")?;
                Ok(out)
            }
        }
    }
}
