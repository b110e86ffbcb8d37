// Reading the integers that are digits alone, as most are.
ghost use Rattle.std.specs.Prelude.{◌≡◌, IfSome, Some};
ghost use Rattle.dl_values.specs.PlainInt.{few_digits as number_of_few, int_limit, plain_int};
ghost use Rattle.dl_values.specs.Read.{read};
ghost use Rattle.dl_values.specs.declared.cell.Cell.TheVariants as cell;

use crate::ColType;

// So many digits fit into 64 bits whatever they are, so none of them has to be looked at again.
const MOST_DIGITS: usize = 18;

// The number of one to eighteen digits.
fn few_digits(text: &[u8]) -> Option<u64>
    ensures { result ≡ number_of_few text.now }
{
    if text.is_empty() {
        return None;
    }
    if text.len() > MOST_DIGITS {
        return None;
    }
    let mut value: u64 = 0;
    for digit in text {
        if !digit.is_ascii_digit() {
            return None;
        }
        value = value * 10 + (*digit - b'0') as u64;
    }
    Some(value)
}

impl ColType {
    // The integers of this type are below it.
    fn int_limit(&self) -> u64
        ensures { result ≡ int_limit self.now }
    {
        match self {
            ColType::TinyInt => 128,
            ColType::SmallInt => 32_768,
            ColType::Int => 2_147_483_648,
            ColType::BigInt => 9_223_372_036_854_775_808,
            ColType::Date | ColType::Varchar(_) => 0,
        }
    }

    /// The integer of a text of one to eighteen digits and nothing else, where it is an integer of this type. Where it is
    /// there, `read` gives it too; where it is not, `read` may still give a cell.
    pub fn plain_int(&self, text: &[u8]) -> Option<i64>
        ensures is { result ≡ plain_int self.now text.now }
        ensures reads { IfSome result (λ z. read self.now text.now ≡ Some (cell.Int z)) }
    {
        match few_digits(text) {
            Some(value) if value < self.int_limit() => Some(value as i64),
            _ => None,
        }
    }
}
