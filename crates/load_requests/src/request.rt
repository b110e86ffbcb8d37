// What a request asks for.
use crate::end_key::EndKey;
use csv_load::Options;
use dl_values::{Name, Text};
use sql_text::PlainDef;

/// What a request asks for.
#[derive(Debug, Drop)]
pub enum Request {
    /// Its target is none that is served.
    Unknown,
    /// A load.
    Load {
        db: Name,
        table: Name,
        label: Option<Name>,
        /// It waits for its commit before it becomes visible.
        two_phase: bool,
        options: Options,
    },
    /// A load with a field at fault: its label, where the head has exactly one and in UTF-8, and the text that says why.
    BadLoad {
        label: Option<Text>,
        message: Text,
    },
    /// The end of a two-phase load of this database: it is to be committed, or else aborted.
    End {
        db: Name,
        key: EndKey,
        commit: bool,
    },
    /// An end with a field that is missing or cannot be read, and the text that says which.
    BadEnd {
        message: Text,
    },
    CreateDb {
        name: Name,
    },
    CreateTable {
        db: Name,
        table: Name,
        def: PlainDef,
    },
    Select {
        db: Name,
        table: Name,
    },
    /// A statement that is not served, and the text that says why.
    BadStatement {
        message: Text,
    },
}
