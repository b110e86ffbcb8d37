// The history of an engine, as the view of a token that lies beside it in the slot.
ghost use Rattle.std.specs.Prelude.{◌≡◌, [], ◌∷◌, Option, Some, IfOk};

use atomic_table::{Play, Seat, Table, TableRule};
use std::alloc::{AllocError, Global};
use std::collections::LinkedList;
use std::marker::{Brand, PhantomData};

/// What the pen knows: the entries since the opening, the newest first.
pub struct Log<N> {
    pub since: LinkedList<N>,
}

/// The rule of a book: its word is the number of entries.
pub struct Counted;

impl<N> TableRule<(), Log<N>, ()> for Counted {
    ghost use Rattle.desk.specs.Books.{IsBook, empty_log};

    ghost holds = { λ _. IsBook };

    ghost first = { λ _. empty_log };
}

/// The entry that is written, for the proof alone. A call at `Brand` picks it.
pub trait Noted<N> {
    ghost entry: { Option N };
}

impl<N> Noted<N> for Brand {
    ghost use Rattle.std.specs.Prelude.{None};

    ghost entry = { None };
}

/// The one step of a book: the pen writes an entry.
pub struct Writes<W> {
    of: PhantomData<W>,
}

impl<N, W: Noted<N>> Play<(), Log<N>> for Writes<W> {
    ghost use Rattle.desk.specs.Books.{Written};

    ghost then = { Written W.entry };
}

/// A table of one word and one seat, the pen.
#[derive(Drop)]
pub struct Book<N> {
    table: Table<(), Log<N>, (), Counted, Global>,
    pub pen: Seat<(), Log<N>>,
    ghost fits: { (pen.table_id ≡ table.shared.table_id) × (table.shared.table_id.words ≡ 1) },
}

/// What lies in the slot: an engine and its book. So the list for which the engine stands is the view of a token that is
/// really there.
#[derive(Drop)]
pub struct Home<E, N> {
    pub engine: E,
    pub book: Book<N>,
}

impl<N> Book<N> {
    /// An empty book.
    pub fn new(alloc: Global) -> Result<Book<N>, AllocError>
        ensures { IfOk result (λ b. b.pen.me.0.since ≡ []) }
    {
        let (table, pen) = Table::of_words(alloc, &[0], &())?;
        Ok(Book { table, pen })
    }

    /// Writes an entry.
    pub fn add<W: Noted<N>>(&mut self)
        requires { (e : N) × (W.entry ≡ Some e) }
        ensures { (e : N) → W.entry ≡ Some e → self.new.pen.me.0.since ≡ e ∷ self.old.pen.me.0.since }
    {
        let table = &self.table;
        let shared = &table.shared;
        shared.fetch_add::<Writes<W>>(&mut self.pen, 0, 1);
    }
}
