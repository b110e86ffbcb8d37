// A desk and its first seat.
ghost use Rattle.std.specs.Prelude.{◌≡◌, [], IfOk, IfErr};
ghost use Rattle.desk.specs.declared.open.OpenError.TheVariants.{NoMemory};
ghost use Rattle.desk.specs.Rule.{newcomer};
ghost use Rattle.desk.specs.Seats.{view_of, opening_of, IsOf};

use crate::book::{Book, Home};
use crate::desk::Desk;
use crate::engine::Engine;
use crate::seat::{Place, Seat};
use atomic_table::{Refused, Table};
use std::alloc::Global;
use std::snapshot::Snapshot;

/// Why no desk was opened. The engine comes back.
#[derive(Drop)]
pub enum OpenError<E> {
    NoMemory(E),
}

impl<E: Engine> Desk<E> {
    /// Puts an engine on a desk. Where it stands for no legal list, the desk takes it too, and promises nothing of what
    /// is legal, of what the engine stands for and of what a turn costs.
    pub fn open(alloc: Global, engine: E) -> Result<(Desk<E>, Seat<E>), OpenError<E>>
        ensures ok { IfOk result (λ t. IsOf t.0 t.1 × (view_of t.1 ≡ newcomer engine) × (opening_of t.0 ≡ engine)) }
        ensures err { IfErr result (λ e. e ≡ NoMemory engine) }
    {
        match Desk::set_up(alloc, engine) {
            Ok((desk, place)) => Ok((desk, Seat { place })),
            Err(engine) => Err(OpenError::NoMemory(engine)),
        }
    }

    // The table with the engine at home, or the engine where there was no memory.
    fn set_up(alloc: Global, engine: E) -> Result<(Desk<E>, Place<E, E::Entry>), E>
        ensures ok { IfOk result (λ t. (t.1.table_id ≡ t.0.table.shared.table_id) × (t.1.me ≡ (newcomer engine, [])) × (t.0.table.shared.key.value ≡ engine)) }
        ensures err { IfErr result (λ e. e ≡ engine) }
    {
        let about = Snapshot::of(&engine);
        let Ok(book) = Book::new(alloc) else {
            return Err(engine);
        };
        let mut slots = Vec::new(alloc);
        if let Err(failed) = slots.push(Some(Home { engine, book })) {
            let Some(Home { engine, book: _ }) = failed.value else {
                unreachable!()
            };
            slots.destroy_empty();
            return Err(engine);
        }
        match Table::new(alloc, &[0, 0], slots, &about) {
            Ok((table, place)) => Ok((Desk { table }, place)),
            Err(Refused { mut slots }) => {
                let Some(Some(Home { engine, book: _ })) = slots.pop() else {
                    unreachable!()
                };
                slots.destroy_empty();
                Err(engine)
            }
        }
    }
}
