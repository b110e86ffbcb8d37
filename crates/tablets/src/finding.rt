// Finding a tablet: its index by number among the few indexes of a table, and then by partition and bucket.
ghost use Rattle.std.specs.Prelude.{◌≡◌, Some, IsSome, option_copied, slice_get};
ghost use Rattle.std.specs.Borrow.{sem};
ghost use Rattle.tablets.specs.SetView.{index_at, is_numbered, tablet_of};
ghost use Rattle.tablets.specs.Shadows.{AreApart, marks_of, numbers};

use crate::Tablet;
use crate::index::Index;

// The place of an index.
pub fn place_of(indexes: &[Index], number: u64) -> usize
    requires { IsSome (index_at number indexes.now) }
    ensures { slice_get indexes.now result ≡ index_at number indexes.now }
{
    for (place, index) in indexes.iter().enumerate() {
        if index.number == number {
            return place;
        }
    }
    unreachable!()
}

// A tablet that is there.
pub fn tablet(indexes: &[Index], index: u64, part: u64, bucket: u64) -> &Tablet
    requires { IsSome (tablet_of index part bucket indexes.now) }
    ensures { tablet_of index part bucket indexes.now ≡ Some result.now }
{
    let index = &indexes[place_of(indexes, index)];
    let part = &index.parts[part as usize];
    &part.tablets[bucket as usize]
}

// The index of a number, where there is one.
fn find_index(indexes: &[Index], number: u64) -> Option<&Index>
    ensures { option_copied result ≡ index_at number indexes.now }
{
    indexes.iter().find(|index| index.number == number)
}

// A tablet, where it is there.
pub fn find_tablet(indexes: &[Index], index: u64, part: u64, bucket: u64) -> Option<&Tablet>
    ensures { option_copied result ≡ tablet_of index part bucket indexes.now }
{
    let index = find_index(indexes, index)?;
    let part = index.parts.get(part as usize)?;
    part.tablets.get(bucket as usize)
}
