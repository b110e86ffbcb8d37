// What the definition of a table gives: a shape and a layout, or its first fault as a refusal.
ghost use Rattle.std.specs.Prelude.{◌≡◌, None, IfOk, IfErr};
ghost use Rattle.front_core.specs.Refused.{RefusesDef};
ghost use Rattle.front_defs.specs.Gives.{Gives};
ghost use Rattle.partitions.specs.LayoutRules.{IsLayout};
ghost use Rattle.table_defs.specs.Columns.{shape_of};
ghost use Rattle.table_defs.specs.Defined.{def_fault, layout_of};

use dl_values::Name;
use front_defs::Reply;
use partitions::Layout;
use schema_models::Shape;
use sql_text::TableDef;
use std::alloc::Global;
use table_defs::DefError;

// The shape and the layout of a table of this name by its definition.
pub fn defined(alloc: Global, table: &Name, def: &TableDef) -> Result<(Shape, Layout), Reply>
    ensures laid { IfOk result (λ p. IsLayout p.0 p.1) }
    ensures ok { IfOk result (λ p. (p.0 ≡ shape_of def.now) × (p.1 ≡ layout_of table.now def.now) × (def_fault table.now def.now ≡ None)) }
    ensures err { IfErr result (RefusesDef table.now def.now) }
    ensures gives { IfErr result Gives }
{
    match table_defs::define(alloc, table, def) {
        Ok(made) => Ok(made),
        Err(DefError::NoMemory) => Err(Reply::NoMemory),
        Err(error) => Err(Reply::BadTable { error }),
    }
}
