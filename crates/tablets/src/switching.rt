// The shadows of a job go, or take their places.
ghost use Rattle.std.specs.Prelude.{◌≡◌, ◌<◌, ℕ, length, true, false, IsSome, MatchOption, filter, map, not, slice_get};
ghost use Rattle.std.specs.List.{AllByRecursion, list_any};
ghost use Rattle.tablets.specs.Parting.{IsOnTheWay, IsWithout, put_for};
ghost use Rattle.tablets.specs.SetView.{index_at};
ghost use Rattle.tablets.specs.Shadows as shadows;

use crate::finding::place_of;
use crate::index::Index;

// The shadows of a job go.
pub fn drop_shadows(indexes: &mut Vec<Index>, job: u64)
    ensures { indexes.new.items ≡ filter (λ i. not (shadows.is_shadow_of job i)) indexes.old.items }
{
    indexes.retain(|index| !index.is_shadow_of(job));
}

// Each shadow of a job takes its place, and is no shadow any more.
pub fn switch_shadows(indexes: &mut Vec<Index>, job: u64)
    requires { shadows.AreMarks (shadows.marks_of indexes.old.items) }
    ensures switched { indexes.new.items ≡ shadows.switched_in job indexes.old.items }
    ensures marks { shadows.AreMarks (shadows.marks_of indexes.new.items) }
    ensures sized { (parts buckets : ℕ) → AllByRecursion (shadows.IsIndexOf parts buckets) indexes.old.items → AllByRecursion (shadows.IsIndexOf parts buckets) indexes.new.items }
{
    'turns: while replace_one(indexes, job) {}
    unmark_all(indexes, job);
}

// A shadow of a job takes its place, where there is one that is to take a place.
fn replace_one(indexes: &mut Vec<Index>, job: u64) -> bool
    requires { shadows.AreMarks (shadows.marks_of indexes.old.items) }
    ensures step { IsOnTheWay job indexes.old.items indexes.new.items }
    ensures fewer { result ≡ true → length indexes.new.items < length indexes.old.items }
    ensures done { result ≡ false → list_any (shadows.gives_way job) indexes.new.items ≡ false }
{
    match take_shadow(indexes, job) {
        None => false,
        Some((number, shadow)) => {
            put_in_place(indexes, number, shadow);
            true
        }
    }
}

// Takes out a shadow of a job that is to take a place, with the number of that place.
fn take_shadow(indexes: &mut Vec<Index>, job: u64) -> Option<(u64, Index)>
    ensures { MatchOption result ((list_any (shadows.gives_way job) indexes.old.items ≡ false) × (indexes.new.items ≡ indexes.old.items)) (λ r. (shadows.takes job r.0 r.1 ≡ true) × IsWithout r.1 indexes.old.items indexes.new.items) }
{
    match place_to_give(indexes, job) {
        None => None,
        Some((place, number)) => Some((number, indexes.remove(place))),
    }
}

// The place of a shadow of a job that is to take a place, and the number of that place.
fn place_to_give(indexes: &[Index], job: u64) -> Option<(usize, u64)>
    ensures { MatchOption result (list_any (shadows.gives_way job) indexes.now ≡ false) (λ r. MatchOption (slice_get indexes.now r.0) ⊥ (λ i. shadows.takes job r.1 i ≡ true)) }
{
    for (place, index) in indexes.iter().enumerate() {
        if let Some(number) = index.aim_of(job) {
            return Some((place, number));
        }
    }
    None
}

// A shadow takes the place and the number of an index, which goes.
fn put_in_place(indexes: &mut [Index], number: u64, shadow: Index)
    requires there { IsSome (index_at number indexes.old) }
    requires apart { shadows.AreApart (shadows.numbers (shadows.marks_of indexes.old)) }
    ensures { indexes.new ≡ map (put_for number shadow) indexes.old }
{
    let place = place_of(indexes, number);
    let mut shadow = shadow;
    shadow.number = number;
    shadow.shadow = None;
    indexes[place] = shadow;
}

// The shadows of a job are no shadows any more.
fn unmark_all(indexes: &mut [Index], job: u64)
    ensures { indexes.new ≡ map (shadows.unmarked job) indexes.old }
{
    for index in indexes.iter_mut() {
        index.unmark(job);
    }
}
