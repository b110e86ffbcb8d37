// What a load that is built for the base of its table holds.
ghost use Rattle.std.specs.Prelude.{◌≡◌, ◌∷◌, [], IfSome, IfNone, Some, false, true};
ghost use Rattle.front_core.specs.Parts.{is_for_base, sets_by};
ghost use Rattle.txn_core.specs.Seen.{sets_in};

use shadow_writes::{Built, Mapped};
use sqlite_items::Items;
use txn_core::Held;

// The only one of a list.
fn only(targets: Items<Mapped>) -> Option<Mapped>
    ensures some { IfSome result (λ x. targets ≡ x ∷ []) }
    ensures none { IfNone result (is_for_base targets ≡ false) }
{
    let mut targets = targets;
    let last = targets.pop();
    if targets.is_empty() { last } else { None }
}

// The rows of a load and what its tablets get, where it was built for the base alone.
pub fn held_of(built: Built) -> Option<Held>
    ensures none { IfNone result (is_for_base built.targets ≡ false) }
    ensures some { IfSome result (λ h. (is_for_base built.targets ≡ true) × (h.rows ≡ built.rows) × (sets_in (Some h) ≡ sets_by built.targets)) }
{
    match only(built.targets) {
        None => None,
        Some(Mapped::Bad { .. }) => None,
        Some(Mapped::Sets(sets)) => Some(Held {
            rows: built.rows,
            sets,
        }),
    }
}
