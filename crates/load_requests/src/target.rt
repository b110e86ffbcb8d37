// The targets that are served.
ghost use Rattle.std.specs.Prelude.{◌≡◌, ◌∷◌, option_map, option_copied};
ghost use Rattle.load_requests.specs.Targets.{load_target, query_target, end_target, end_place, is_end, table_end_place, path_of, parts_of, parts_behind, four_of, five_of};

use crate::bytes::{Class, run_length};

/// The database and the table that a load goes to.
#[tactic(auto, unfolding(crate::specs::Targets::load_target))]
pub fn load_target<'a>(method: &[u8], target: &'a [u8]) -> Option<(&'a [u8], &'a [u8])>
    ensures { option_map (λ x. (x.0.now, x.1.now)) result ≡ load_target method.now target.now }
{
    if method != b"PUT".as_slice() {
        return None;
    }
    let (root, api, db, table, last) = five_parts(target)?;
    let served = root.is_empty() && api == b"api".as_slice() && last == b"_stream_load".as_slice();
    if served && !db.is_empty() && !table.is_empty() {
        Some((db, table))
    } else {
        None
    }
}

/// The database of a two-phase load that is to be ended.
#[tactic(auto, unfolding(crate::specs::Targets::end_target))]
pub fn end_target<'a>(method: &[u8], target: &'a [u8]) -> Option<&'a [u8]>
    ensures { option_copied result ≡ end_target method.now target.now }
{
    if method != b"PUT".as_slice() {
        return None;
    }
    match end_place(target) {
        Some(db) => Some(db),
        None => table_end_place(target),
    }
}

// Whether these are the parts of a target that ends a load of this database, but for its table.
fn is_end(root: &[u8], api: &[u8], db: &[u8], last: &[u8]) -> bool
    ensures { result ≡ is_end root.now api.now db.now last.now }
{
    root.is_empty()
        && api == b"api".as_slice()
        && last == b"_stream_load_2pc".as_slice()
        && !db.is_empty()
}

fn end_place(target: &[u8]) -> Option<&[u8]>
    ensures { option_copied result ≡ end_place (four_of target.now) }
{
    let (root, api, db, last) = four_parts(target)?;
    if is_end(root, api, db, last) {
        Some(db)
    } else {
        None
    }
}

// The same with a table, whichever it is.
fn table_end_place(target: &[u8]) -> Option<&[u8]>
    ensures { option_copied result ≡ table_end_place (five_of target.now) }
{
    let (root, api, db, table, last) = five_parts(target)?;
    if is_end(root, api, db, last) && !table.is_empty() {
        Some(db)
    } else {
        None
    }
}

/// The database that a statement is for.
#[tactic(auto, unfolding(crate::specs::Targets::query_target))]
pub fn query_target<'a>(method: &[u8], target: &'a [u8]) -> Option<&'a [u8]>
    ensures { option_copied result ≡ query_target method.now target.now }
{
    if method != b"POST".as_slice() {
        return None;
    }
    let (root, api, query, internal, db) = five_parts(target)?;
    let served = root.is_empty()
        && api == b"api".as_slice()
        && query == b"query".as_slice()
        && internal == b"internal".as_slice();
    if served && !db.is_empty() {
        Some(db)
    } else {
        None
    }
}

// What stands before the first `?`.
fn path(target: &[u8]) -> &[u8]
    ensures { result.now ≡ path_of target.now }
{
    &target[..run_length(Class::Path, target)]
}

// The part before the first slash, and what stands behind that slash, if there is one.
fn cut(path: &[u8]) -> (&[u8], Option<&[u8]>)
    ensures { parts_of path.now ≡ result.0.now ∷ parts_behind (option_copied result.1) }
{
    let (part, rest) = path.split_at(run_length(Class::Part, path));
    match rest {
        [] => (part, None),
        [_, behind @ ..] => (part, Some(behind)),
    }
}

// The four parts of a target's path, if it has four.
#[tactic(auto, using(crate::proofs::Parts::more_than_four), unfolding(crate::specs::Targets::four_of))]
fn four_parts(target: &[u8]) -> Option<(&[u8], &[u8], &[u8], &[u8])>
    ensures { option_map (λ x. (x.0.now, x.1.now, x.2.now, x.3.now)) result ≡ four_of target.now }
{
    let (first, rest) = cut(path(target));
    let (second, rest) = cut(rest?);
    let (third, rest) = cut(rest?);
    let (fourth, rest) = cut(rest?);
    match rest {
        None => Some((first, second, third, fourth)),
        Some(_) => None,
    }
}

// The five parts of a target's path, if it has five.
#[tactic(auto, using(crate::proofs::Parts::too_many), unfolding(crate::specs::Targets::five_of))]
fn five_parts(target: &[u8]) -> Option<(&[u8], &[u8], &[u8], &[u8], &[u8])>
    ensures { option_map (λ x. (x.0.now, x.1.now, x.2.now, x.3.now, x.4.now)) result ≡ five_of target.now }
{
    let (first, rest) = cut(path(target));
    let (second, rest) = cut(rest?);
    let (third, rest) = cut(rest?);
    let (fourth, rest) = cut(rest?);
    let (fifth, rest) = cut(rest?);
    match rest {
        None => Some((first, second, third, fourth, fifth)),
        Some(_) => None,
    }
}
