// How a run ends.
ghost use Rattle.std.specs.Prelude.{◌≡◌};
ghost use Rattle.service.specs.Exits.{status_of};

use dl_values::NoMemory;

/// How a run ends (this project's own).
#[derive(Clone, Copy, Debug, PartialEq, Eq)]
pub enum Exit {
    /// The input was read to its end, and all was written.
    Ok,
    /// The words are no command form.
    Usage,
    /// A read failed.
    ReadFault,
    /// A write failed.
    WriteFault,
    /// The request at that offset of the input cannot be read, and was answered so.
    Refused { at: u64 },
    /// There was not enough memory.
    NoMemory,
    /// That word, the command being word 1, is the first that is no column of the table.
    BadDef { word: u64 },
    /// That record, counted from 1 without empty lines, is the first that gives no row.
    TooManyFiltered { line: u64 },
    /// There are more bytes or records than this.
    TooBig { limit: u64 },
    /// As many requests were answered as one run answers at most.
    Enough,
}

impl Exit {
    /// The exit status of the process.
    pub fn status(self) -> u8
        ensures { result ≡ status_of self }
    {
        match self {
            Exit::Ok => 0,
            Exit::Usage => 2,
            Exit::ReadFault => 3,
            Exit::WriteFault => 4,
            Exit::Refused { .. } => 7,
            Exit::NoMemory => 8,
            Exit::BadDef { .. } => 9,
            Exit::TooManyFiltered { .. } => 10,
            Exit::TooBig { .. } => 12,
            Exit::Enough => 13,
        }
    }
}

impl From<NoMemory> for Exit {
    ghost use Rattle.std.specs.Prelude.{◌≡◌};
    ghost use Rattle.service.specs.declared.exit.Exit.TheVariants as exit;

    ghost from_gives = { λ _ e. e ≡ exit.NoMemory };

    fn from(_: NoMemory) -> Exit {
        Exit::NoMemory
    }
}
