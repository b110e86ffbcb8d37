// The texts of tokens.
ghost use Rattle.std.specs.Prelude.{◌≡◌, ◌++◌, OnOk, decimal};
ghost use Rattle.std.specs.Fmt.{signed_decimal};
ghost use Rattle.sql_tokens.specs.declared.token.TokenKind.TheVariants as kind;
ghost use Rattle.sql_print.specs.Printing.{sign_text, escape, escapes, spelled};

use dl_values::NoMemory;
use itoa::Buffer;
use sql_tokens::Sign;

/// The text of a sign.
pub fn sign_text(sign: Sign) -> &'static [u8]
    ensures { result.now ≡ sign_text sign }
{
    match sign {
        Sign::Open => b"(",
        Sign::Close => b")",
        Sign::OpenRange => b"[",
        Sign::Comma => b",",
        Sign::End => b";",
        Sign::Equal => b"=",
        Sign::Less => b"<",
        Sign::Greater => b">",
        Sign::AtMost => b"<=",
        Sign::AtLeast => b">=",
        Sign::Unequal => b"<>",
        Sign::Star => b"*",
    }
}

// Adds a byte of a string.
fn add_escaped(out: &mut Vec<u8>, byte: u8) -> Result<(), NoMemory>
    ensures { OnOk result (out.new.items ≡ out.old.items ++ escape byte) }
{
    match byte {
        b'\'' => out.extend_from_slice(b"\\'")?,
        b'\\' => out.extend_from_slice(b"\\\\")?,
        b'\n' => out.extend_from_slice(b"\\n")?,
        b'\t' => out.extend_from_slice(b"\\t")?,
        b'\r' => out.extend_from_slice(b"\\r")?,
        _ => out.push(byte)?,
    }
    Ok(())
}

// Adds the bytes of a string.
#[tactic(auto, unfolding(crate::specs::Printing::escapes))]
fn add_all_escaped(out: &mut Vec<u8>, bytes: &[u8]) -> Result<(), NoMemory>
    ensures { OnOk result (out.new.items ≡ out.old.items ++ escapes bytes.now) }
{
    for byte in bytes {
        add_escaped(out, *byte)?;
    }
    Ok(())
}

/// Adds a string in its quotes.
pub fn add_string(out: &mut Vec<u8>, bytes: &[u8]) -> Result<(), NoMemory>
    ensures { OnOk result (out.new.items ≡ out.old.items ++ spelled (kind.Text bytes.now)) }
{
    out.push(b'\'')?;
    add_all_escaped(out, bytes)?;
    out.push(b'\'')?;
    Ok(())
}

/// Adds a name in backquotes.
pub fn add_name(out: &mut Vec<u8>, bytes: &[u8]) -> Result<(), NoMemory>
    ensures { OnOk result (out.new.items ≡ out.old.items ++ spelled (kind.Quoted bytes.now)) }
{
    out.push(b'`')?;
    out.extend_from_slice(bytes)?;
    out.push(b'`')?;
    Ok(())
}

/// Adds an integer in decimal.
pub fn add_integer(out: &mut Vec<u8>, value: i64) -> Result<(), NoMemory>
    ensures { OnOk result (out.new.items ≡ out.old.items ++ signed_decimal value) }
{
    let mut digits = Buffer::new();
    out.extend_from_slice(digits.format(value).as_bytes())?;
    Ok(())
}

/// Adds a count in decimal.
pub fn add_count(out: &mut Vec<u8>, value: u64) -> Result<(), NoMemory>
    ensures { OnOk result (out.new.items ≡ out.old.items ++ decimal value) }
{
    let mut digits = Buffer::new();
    out.extend_from_slice(digits.format(value).as_bytes())?;
    Ok(())
}
