// Whether a shadow may come.
ghost use Rattle.std.specs.Prelude.{◌≡◌, ◌↔◌, IsTrue, false};
ghost use Rattle.tablets.specs.Shadows as shadows;

use crate::index::Index;

// Whether a shadow under a number may come, to take the place of none or of an index.
pub fn may_come(indexes: &[Index], number: u64, replaces: Option<u64>) -> bool
    ensures { IsTrue result ↔ ((shadows.is_among (shadows.numbers (shadows.marks_of indexes.now)) number ≡ false) × shadows.MayAim (shadows.marks_of indexes.now) replaces) }
{
    !has_number(indexes, number) && may_aim(indexes, replaces)
}

// Whether none is named, or an index that is no shadow and that no other is to replace.
fn may_aim(indexes: &[Index], replaces: Option<u64>) -> bool
    ensures { IsTrue result ↔ shadows.MayAim (shadows.marks_of indexes.now) replaces }
{
    match replaces {
        None => true,
        Some(number) => has_plain(indexes, number) && !has_aim(indexes, number),
    }
}

// Whether an index has a number.
fn has_number(indexes: &[Index], number: u64) -> bool
    ensures { result ≡ shadows.is_among (shadows.numbers (shadows.marks_of indexes.now)) number }
{
    indexes.iter().any(|index| index.number == number)
}

// Whether an index that is no shadow has a number.
fn has_plain(indexes: &[Index], number: u64) -> bool
    ensures { result ≡ shadows.is_among (shadows.plains (shadows.marks_of indexes.now)) number }
{
    indexes
        .iter()
        .any(|index| index.shadow.is_none() && index.number == number)
}

// Whether a shadow is to replace the index of a number.
fn has_aim(indexes: &[Index], number: u64) -> bool
    ensures { result ≡ shadows.is_among (shadows.aims (shadows.marks_of indexes.now)) number }
{
    indexes.iter().any(|index| index.aims_at(number))
}
