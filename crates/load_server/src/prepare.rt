// Reading the body of a load that has begun, and building it.
ghost use Rattle.std.specs.Prelude.{◌≡◌};
ghost use Rattle.load_server.specs.Preparing.{Prepares};

use crate::places::Places;
use crate::report::Counts;
use csv_load::{BodyFault, Options, Parsed, fails, read_body};
use dl_values::NoMemory;
use load_build::build_load;
use shadow_writes::{Built, Plan};
use std::alloc::Global;

/// What a body gives.
#[derive(Drop)]
pub enum Prepared {
    /// A load that is ready to be submitted.
    Ready { built: Built, counts: Counts },
    TooManyRows,
    TooManyFiltered { counts: Counts },
    NoMemory,
}

/// Reads a body and builds the load of its rows. The bytes are given back before the rows are folded.
pub fn prepare(alloc: Global, plan: Plan, options: &Options, body: Vec<u8>) -> Prepared
    ensures { Prepares plan options.now body.items result }
{
    match parse(alloc, &plan, options, body) {
        Ok(parsed) => judge(alloc, plan, options, parsed),
        Err(BodyFault::TooManyRows { .. }) => Prepared::TooManyRows,
        Err(BodyFault::NoMemory) => Prepared::NoMemory,
    }
}

ghost use Rattle.std.specs.Prelude.{IfErr, IfOk, OnOk, length, ◌≤◌};
ghost use Rattle.csv_load.specs.Body.{records_by};
ghost use Rattle.csv_load.specs.Refusal.{Explains, max_records};
ghost use Rattle.load_server.specs.Scripts.{parsed_by};

fn parse(alloc: Global, plan: &Plan, options: &Options, body: Vec<u8>) -> Result<Parsed, BodyFault>
    ensures parsed { IfOk result (λ p. p ≡ parsed_by plan.now options.now body.items) }
    ensures within { OnOk result (length (records_by options.now body.items) ≤ max_records) }
    ensures refused { IfErr result (Explains (length (records_by options.now body.items))) }
{
    let places = Places {
        layout: &plan.layout,
    };
    read_body(alloc, &plan.base, Some(&places), options, body.as_slice())
}

ghost use Rattle.front_defs.specs.Stored.{AreRowsOf};
ghost use Rattle.load_server.specs.Preparing.{Judges};

fn judge(alloc: Global, plan: Plan, options: &Options, parsed: Parsed) -> Prepared
    requires { AreRowsOf plan.base plan.layout parsed.rows }
    ensures { Judges plan options.now parsed result }
{
    let counts = Counts {
        filtered: parsed.filtered,
        total: parsed.total,
    };
    if fails(counts.filtered, counts.total, options.ratio) {
        return Prepared::TooManyFiltered { counts };
    }
    match build_load(alloc, plan, parsed.rows) {
        Ok(built) => Prepared::Ready { built, counts },
        Err((_plan, NoMemory)) => Prepared::NoMemory,
    }
}
