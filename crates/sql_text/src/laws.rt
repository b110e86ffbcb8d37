//! Laws of the definitions: a text has one statement or one fault.
ghost use Rattle.std.specs.Prelude.{◌≡◌, ◌⊎◌, ℕ, List};
ghost use Rattle.sql_text.specs.declared.stmt.Stmt.{Stmt};
ghost use Rattle.sql_text.specs.declared.sql_error.SqlKind.{SqlKind};
ghost use Rattle.sql_text.specs.Statements.{Spells};
ghost use Rattle.sql_text.specs.Faults.{IsFault};

/// A text spells at most one statement.
pub fn statements_are_unique()
    ensures { (s t : Stmt) (text : List ℕ) → Spells s text → Spells t text → s ≡ t }
{}

/// A text has at most one first fault, and none where it spells a statement.
pub fn faults_are_unique()
    ensures one { (at place : ℕ) (kind other : SqlKind) (text : List ℕ) → IsFault text at kind → IsFault text place other → (at ≡ place) × (kind ≡ other) }
    ensures none { (s : Stmt) (at : ℕ) (kind : SqlKind) (text : List ℕ) → Spells s text → IsFault text at kind → ⊥ }
{}

/// Each text spells a statement or has a fault.
pub fn texts_spell_or_fail()
    ensures { (text : List ℕ) → ((s : Stmt) × Spells s text) ⊎ ((at : ℕ) × (kind : SqlKind) × IsFault text at kind) }
{}
