// Worked examples: what the definitions say of a table with partitions, of sweeps and restarts, and of reports.
ghost use Rattle.std.specs.Prelude.{◌≡◌, [], ◌∷◌, List, Some, None, true, false, pos, codes};
ghost use Rattle.dl_values.specs.declared.cell.Cell.TheVariants as cell;
ghost use Rattle.labels.specs.declared.txn_state.TxnState.TheVariants as state;
ghost use Rattle.partitions.specs.Places.{is_inside};
ghost use Rattle.partitions.specs.declared.layout_error.LayoutError.TheVariants as layout_error;
ghost use Rattle.shadow_writes.specs.declared.built.Built.{Built};
ghost use Rattle.alter_core.specs.declared.job.JobKind.TheVariants as job_kind;
ghost use Rattle.front_defs.specs.declared.command.Command.TheVariants as command;
ghost use Rattle.front_defs.specs.declared.reply.Reply.TheVariants as reply;
ghost use Rattle.front_defs.specs.declared.show_what.ShowWhat.TheVariants as show;
ghost use Rattle.front_defs.specs.declared.history.Call.{Call};
ghost use Rattle.front_defs.specs.declared.history.Entry.{Entry};
ghost use Rattle.front_defs.specs.History.{happened};
ghost use Rattle.front_defs.specs.Legal.{IsMarked, Legal};
ghost use Rattle.front_defs.specs.Reports.{report};
ghost use Rattle.front_defs.specs.Stands.{Stands};
ghost use Rattle.front_defs.specs.Stored.{lists_of, version_of};
ghost use Rattle.front_laws.specs.Examples.{OneAnswer, a1, added, begin, begun, d, loaded, made, plan, row, rows, submit, submitted, t};
ghost use Rattle.front_laws.specs.Parted.{add, begun_by_range, empty, grown, in_both, layout, less, place, r, restarted, shown, swept};

/// A load over two partitions raises the version of each and adds a list in each; a load in one leaves the other as it is.
/// A row above the last partition has no place.
pub fn a_load_over_two_partitions()
    ensures outside { is_inside layout (row 25 7) ≡ false }
    ensures first { (built : Built) → built.rows ≡ in_both → version_of (happened (shown built begun_by_range)) 1 0 ≡ 2 }
    ensures second { (built : Built) → built.rows ≡ in_both → version_of (happened (shown built begun_by_range)) 1 1 ≡ 2 }
    ensures lists { (built : Built) → built.rows ≡ in_both → lists_of (happened (shown built begun_by_range)) 1 0 (place 1) ≡ record { first = 2; last = 2; rows = row 15 6 ∷ [] } ∷ [] }
    ensures untouched { (built : Built) → built.rows ≡ row 1 5 ∷ [] → version_of (happened (shown built begun_by_range)) 1 1 ≡ 1 }
{}

/// A partition may be added while a load is open, which is submitted all the same and leaves the new one as it is. One that
/// meets another is refused.
pub fn a_partition_is_added_while_a_load_is_open()
    ensures added { OneAnswer begun_by_range (add (less r 30)) reply.Done }
    ensures meets { OneAnswer begun_by_range (add (less r 20)) (reply.BadPartition (layout_error.Overlap r)) }
    ensures taken { (built : Built) → OneAnswer grown (submit 1 built) (reply.Submitted (Some (record { place = 1; ahead = 0 }))) }
    ensures untouched { (built : Built) → built.rows ≡ in_both → version_of (happened (shown built grown)) 1 2 ≡ 1 }
{}

/// A label is free again once a sweep has cleaned its load.
pub fn a_label_is_used_again_after_a_sweep()
    ensures held { (built : Built) → OneAnswer (loaded built) (begin a1) (reply.Used 1 state.Visible) }
    ensures free { (built : Built) → OneAnswer (swept built) (begin a1) (reply.Begun 2 (plan 2)) }
{}

/// A restart is answered Done, and has opened the service then: an open load is gone and its label is free.
pub fn a_restart_opens_the_service()
    ensures done { OneAnswer begun command.Restart reply.Done }
    ensures opened { (c : Call) (H : List Entry) → IsMarked c H → c.command ≡ command.Restart → c.reply ≡ reply.Done → c.opened ≡ true }
    ensures legal { Legal restarted }
    ensures lost { (built : Built) → OneAnswer restarted (submit 1 built) reply.NoSuchTxn }
    ensures free { OneAnswer restarted (begin a1) (reply.Begun 1001 (plan 1001)) }
{}

/// A front that holds nothing stands for the empty history.
pub fn an_empty_front_stands_for_nothing()
    ensures { Stands empty [] }
{}

/// What reports show of a table: its name, its columns, its versions before and after a load, the load, and its job.
pub fn reports_of_a_table()
    ensures tables { (report (happened made) d show.Tables).rows ≡ (cell.Text t ∷ []) ∷ [] }
    ensures before { (built : Built) → built.rows ≡ rows → (report (happened (submitted built)) d (show.Partitions t)).rows ≡ (cell.Text t ∷ cell.Int (pos 1) ∷ cell.Int (pos 2) ∷ []) ∷ [] }
    ensures after { (built : Built) → built.rows ≡ rows → (report (happened (loaded built)) d (show.Partitions t)).rows ≡ (cell.Text t ∷ cell.Int (pos 2) ∷ cell.Int (pos 2) ∷ []) ∷ [] }
    ensures load { (built : Built) → (report (happened (loaded built)) d (show.ByLabel a1)).rows ≡ (cell.Int (pos 1) ∷ cell.Text a1 ∷ cell.Text (codes "VISIBLE") ∷ []) ∷ [] }
    ensures job { (built : Built) → (report (happened (added built)) d (show.Jobs job_kind.Rollup)).rows ≡ (cell.Int (pos 1) ∷ cell.Text t ∷ cell.Text r ∷ cell.Null ∷ cell.Text (codes "PENDING") ∷ cell.Text [] ∷ []) ∷ [] }
    ensures none { (built : Built) → (report (happened (added built)) d (show.Jobs job_kind.Column)).rows ≡ [] }
{}
