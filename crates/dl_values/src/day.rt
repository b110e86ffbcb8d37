// Reading and writing a day.
ghost use Rattle.std.specs.Prelude.{◌≡◌, if◌then◌else◌, ◌&&◌, ◌≤◌, Some, None, IfSome, OnOk, ◌++◌};
ghost use Rattle.dl_values.specs.Days.{is_day, is_digit, two, two_digits, day_of, day_text};

use crate::NoMemory;
use jiff::civil::Date;

// Whether the calendar has that day.
fn is_real(year: u16, month: u8, day: u8) -> bool
    requires year_fits { year ≤ 9999 }
    requires month_fits { month ≤ 99 }
    requires day_fits { day ≤ 99 }
    ensures { result ≡ is_day year month day }
{
    Date::new(year as i16, month as i8, day as i8).is_ok()
}

// The number of two digits.
fn number(a: u8, b: u8) -> Option<u8>
    ensures value { result ≡ (if is_digit a && is_digit b then Some (two a b) else None) }
    ensures fits { IfSome result (λ n. n ≤ 99) }
{
    if a.is_ascii_digit() && b.is_ascii_digit() {
        Some((a - b'0') * 10 + (b - b'0'))
    } else {
        None
    }
}

// The day of a text `YYYY-MM-DD`.
pub fn read_day(bytes: &[u8]) -> Option<u32>
    ensures { result ≡ day_of bytes.now }
{
    let [a, b, c, d, b'-', e, f, b'-', g, h] = bytes else {
        return None;
    };
    let century = number(*a, *b)?;
    let rest = number(*c, *d)?;
    let month = number(*e, *f)?;
    let day = number(*g, *h)?;
    let year = century as u16 * 100 + rest as u16;
    if is_real(year, month, day) {
        Some(year as u32 * 10000 + month as u32 * 100 + day as u32)
    } else {
        None
    }
}

// Adds two digits of a number.
fn write_two(n: u32, out: &mut Vec<u8>) -> Result<(), NoMemory>
    ensures { OnOk result (out.new.items ≡ out.old.items ++ two_digits n) }
{
    out.push(b'0' + (n / 10 % 10) as u8)?;
    out.push(b'0' + (n % 10) as u8)?;
    Ok(())
}

// Adds the text of a day.
#[tactic(auto, unfolding(crate::specs::Days::day_text))]
pub fn write_day(day: u32, out: &mut Vec<u8>) -> Result<(), NoMemory>
    ensures { OnOk result (out.new.items ≡ out.old.items ++ day_text day) }
{
    write_two(day / 1_000_000, out)?;
    write_two(day / 10_000, out)?;
    out.push(b'-')?;
    write_two(day / 100, out)?;
    out.push(b'-')?;
    write_two(day, out)
}
