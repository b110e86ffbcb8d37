// The desk.
ghost use Rattle.std.specs.Prelude.{◌≡◌};

use crate::book::Home;
use crate::engine::Engine;
use crate::rule::InOrder;
use crate::view::View;
use atomic_table::Table;
use std::alloc::Global;
use std::snapshot::Snapshot;

/// An engine that seats take in turn. Threads share it by reference, where the engine may cross threads; each thread
/// has a seat of its own.
#[derive(Drop)]
pub struct Desk<E: Engine> {
    pub(crate) table: Table<
        Option<Home<E, E::Entry>>,
        View<E, E::Entry>,
        Snapshot<E>,
        InOrder<E>,
        Global,
    >,
    ghost shape: { (table.shared.table_id.words ≡ 2) × (table.shared.table_id.slots ≡ 1) },
}
