// Worked examples: what the definitions say of the histories of one table with an INT key and an INT value.
ghost use Rattle.std.specs.Prelude.{◌≡◌, [], ◌∷◌, List, Some, None, true, false};
ghost use Rattle.shadow_writes.specs.declared.built.Built.{Built};
ghost use Rattle.labels.specs.declared.txn_state.TxnState.TheVariants as state;
ghost use Rattle.partitions.specs.declared.layout_error.LayoutError.TheVariants as layout_error;
ghost use Rattle.schema_models.specs.declared.shape_error.ShapeError.TheVariants as shape_error;
ghost use Rattle.table_defs.specs.declared.def_error.DefError.TheVariants as def_error;
ghost use Rattle.front_defs.specs.declared.command.Command.TheVariants as command;
ghost use Rattle.front_defs.specs.declared.command.TxnKey.TheVariants as key;
ghost use Rattle.front_defs.specs.declared.event.Event.TheVariants.{Opened};
ghost use Rattle.front_defs.specs.declared.reply.Reply.TheVariants as reply;
ghost use Rattle.front_defs.specs.declared.history.Call.{Call};
ghost use Rattle.front_defs.specs.declared.reply.Reply.{Reply};
ghost use Rattle.front_defs.specs.History.{happened};
ghost use Rattle.front_defs.specs.Script.{Served};
ghost use Rattle.front_defs.specs.Ids.{next_of};
ghost use Rattle.front_defs.specs.Catalogue.{last_table_of};
ghost use Rattle.front_defs.specs.Legal.{Legal};
ghost use Rattle.front_defs.specs.May.{IsBuilt};
ghost use Rattle.front_defs.specs.Stored.{base_of, stored_of, version_of};
ghost use Rattle.table_defs.specs.Columns.{shape_of};
ghost use Rattle.table_defs.specs.Defined.{layout_of};
ghost use Rattle.schema_models.specs.Folds.{fold_of};
ghost use Rattle.partitions.specs.Places.{rows_at};
ghost use Rattle.row_map.specs.Maps.{conv};
ghost use Rattle.rowsets.specs.declared.rowset.Rowset.{Rowset};
ghost use Rattle.std.specs.declared.sync.Arc.{Arc};
ghost use Rattle.std.specs.declared.alloc.Global.{Global};
ghost use Rattle.alter_core.specs.declared.job.JobKind.TheVariants as job_kind;
ghost use Rattle.alter_core.specs.declared.job.JobState.TheVariants as job_state;
ghost use Rattle.history_convert.specs.declared.task.PieceResult.{PieceResult};
ghost use Rattle.history_convert.specs.declared.task.PieceResult.TheVariants.{Rows, Back};
ghost use Rattle.history_convert.specs.declared.task.Task.{Task};
ghost use Rattle.front_defs.specs.Transactions.{txns_of};
ghost use Rattle.front_laws.specs.Examples.{
  added,
  advance,
  alter_t,
  finished,
  given,
  map_of_r,
  piece_of,
  plan_with_r,
  running,
  taken,
  waiting,
  IsOnePublish,
  OneAnswer,
  OneAnswerReopened,
  Reads,
  a1,
  abort_b,
  commit_b,
  committed,
  committed_shown,
  drop_t,
  gone,
  made_again,
  remade,
  part,
  shown_gone,
  aborted,
  all_of_t,
  b,
  begin,
  begin_two_phase,
  begun,
  both_begun,
  both_published,
  both_submitted,
  d,
  def,
  ended,
  faulted,
  hashed_by_x,
  later_first,
  loaded,
  made,
  one_published,
  plain,
  plan,
  precommitted,
  publish_one,
  row,
  rows,
  submitted,
  t,
  twice_k,
  two_phase_begun,
};

/// A database and a table are made once, and a definition is refused by its first fault.
pub fn a_table_is_made_once()
    ensures known { OneAnswer made (command.CreateDb d false) reply.DbExists }
    ensures again { OneAnswer made (command.CreateTable d t def false) reply.TableExists }
    ensures quietly { OneAnswer made (command.CreateTable d t hashed_by_x true) reply.Done }
    ensures hashed { OneAnswer made (command.CreateTable d b hashed_by_x false) (reply.BadTable (def_error.Layout (layout_error.NoColumn (120 ∷ [])))) }
    ensures twice { OneAnswer made (command.CreateTable d b twice_k false) (reply.BadTable (def_error.Shape (shape_error.DoubleName 1))) }
    ensures elsewhere { OneAnswer made (command.CreateTable a1 t def false) reply.UnknownDb }
{}

/// The entries of a first load are those of a legal history. Its rows are then in the base, and the version is 2.
pub fn a_first_load()
    ensures legal { (built : Built) → IsBuilt (plan 1) built → Legal (loaded built) }
    ensures rows { (built : Built) → built.rows ≡ rows → base_of (happened (loaded built)) 1 ≡ row 1 5 ∷ row 1 6 ∷ row 2 7 ∷ [] }
    ensures version { (built : Built) → built.rows ≡ rows → version_of (happened (loaded built)) 1 0 ≡ 2 }
    ensures no_rows { (built : Built) → built.rows ≡ [] → version_of (happened (loaded built)) 1 0 ≡ 1 }
{}

/// The same load again is answered by its recorded state.
pub fn a_load_sent_again()
    ensures open { OneAnswer begun (begin a1) (reply.Used 1 state.Prepare) }
    ensures committed { (built : Built) → OneAnswer (submitted built) (begin a1) (reply.Used 1 state.Committed) }
    ensures visible { (built : Built) → OneAnswer (loaded built) (begin a1) (reply.Used 1 state.Visible) }
    ensures other { (built : Built) → OneAnswer (loaded built) (begin b) (reply.Begun 2 (plan 2)) }
{}

/// A label with a blank, or of the form of the service's own, is refused; so is an unknown table or database.
pub fn a_refused_begin()
    ensures blank { OneAnswer made (begin (97 ∷ 32 ∷ [])) reply.BadLabel }
    ensures own { OneAnswer made (begin (97 ∷ 117 ∷ 116 ∷ 111 ∷ 95 ∷ 55 ∷ [])) reply.BadLabel }
    ensures table { OneAnswer made (command.Begin d b (Some a1) false 0) reply.UnknownTable }
    ensures database { OneAnswer made (command.Begin b t (Some a1) false 0) reply.UnknownDb }
    ensures unlabelled { OneAnswer made (command.Begin d t None false 0) (reply.Begun 1 (plan 1)) }
{}

/// A load that began at moment 0 is taken at 599 seconds, and has expired at 600.
pub fn a_load_expires()
    ensures taken { (built : Built) → OneAnswer begun (command.Submit 1 built 599) (reply.Submitted (Some (record { place = 1; ahead = 0 }))) }
    ensures expired { (built : Built) → OneAnswer begun (command.Submit 1 built 600) (reply.Expired 0) }
    ensures twice { (built : Built) → OneAnswer (submitted built) (command.Submit 1 built 0) (reply.WrongState state.Committed) }
    ensures unknown { (built : Built) → OneAnswer begun (command.Submit 2 built 0) reply.NoSuchTxn }
{}

/// Of two loads the one that was submitted first has the lower place, and is published first.
pub fn loads_become_visible_in_commit_order()
    ensures legal { (first second : Built) → IsBuilt (plan 1) first → IsBuilt (plan 2) second → Legal (both_published first second) }
    ensures second { (first second : Built) → OneAnswer (later_first second) (command.Submit 1 first 0) (reply.Submitted (Some (record { place = 2; ahead = 1 }))) }
    ensures lowest { (first second : Built) → OneAnswer (both_submitted first second) (command.Publish 0) (reply.Published 2 1) }
    ensures next { (first second : Built) → OneAnswer (one_published first second) (command.Publish 0) (reply.Published 1 2) }
    ensures done { (first second : Built) → OneAnswer (both_published first second) (command.Publish 0) reply.NothingToPublish }
{}

/// An aborted load gives its label back, whether it was submitted or not, and a load that is committed is not aborted.
pub fn an_abort_frees_the_label()
    ensures used { OneAnswer two_phase_begun (begin b) (reply.Used 1 state.Prepare) }
    ensures abort { OneAnswer two_phase_begun abort_b (reply.Aborted 1) }
    ensures again { OneAnswer ended (begin b) (reply.Begun 2 (plan 2)) }
    ensures waits { (built : Built) → OneAnswer (precommitted built) (command.Publish 0) reply.NothingToPublish }
    ensures submitted { (built : Built) → OneAnswer (precommitted built) abort_b (reply.Aborted 1) }
    ensures free { (built : Built) → OneAnswer (aborted built) begin_two_phase (reply.Begun 2 (plan 2)) }
    ensures twice { (built : Built) → OneAnswer (aborted built) abort_b (reply.WrongState state.Aborted) }
    ensures visible { (built : Built) → OneAnswer (loaded built) (command.Abort d (key.Id 1) 10) (reply.WrongState state.Visible) }
    ensures unknown { OneAnswer made abort_b reply.NoSuchTxn }
{}

/// A snapshot has the rows of a load from its Publish on.
pub fn a_snapshot_shows_what_is_visible()
    ensures before { (built : Built) → Reads (submitted built) [] }
    ensures after { (built : Built) → built.rows ≡ rows → Reads (loaded built) (row 1 5 ∷ row 1 6 ∷ row 2 7 ∷ []) }
    ensures unknown { OneAnswer made (command.Snapshot d b all_of_t) reply.UnknownTable }
{}

/// An opening forgets what no record tells, and the numbers go on after the last range.
pub fn an_opening_forgets_open_loads()
    ensures forgotten { txns_of (Opened ∷ happened begun) ≡ [] }
    ensures numbers { next_of (Opened ∷ happened begun) ≡ 1001 }
    ensures kept { (built : Built) → txns_of (Opened ∷ happened (loaded built)) ≡ txns_of (happened (loaded built)) }
{}

/// A Submit whose record reached the keeper when it failed is found after the next opening; one whose record was lost is
/// not, and the label begins again with the number after the last range.
pub fn a_fault_of_the_keeper()
    ensures kept { (built : Built) → OneAnswerReopened (faulted built true) (begin a1) (reply.Used 1 state.Committed) }
    ensures lost { (built : Built) → OneAnswerReopened (faulted built false) (begin a1) (reply.Begun 1001 (plan 1001)) }
    ensures legal { (built : Built) → IsBuilt (plan 1) built → Legal (faulted built true) }
{}

/// A script that asks one command is served by one call of it, and its response is the reply.
pub fn a_script_asks_one_command()
    ensures served { Served publish_one (plain (command.Publish 0) reply.NothingToPublish ∷ []) reply.NothingToPublish }
    ensures only { (calls : List Call) (response : Reply) → Served publish_one calls response → IsOnePublish calls response }
{}

/// A two-phase load holds its label, is committed until it expires, and then becomes visible, once and for all.
pub fn a_two_phase_load_is_committed()
    ensures well { (built : Built) → OneAnswer (precommitted built) (commit_b 3599) (reply.Committed 1 1 0) }
    ensures expired { (built : Built) → OneAnswer (precommitted built) (commit_b 3600) (reply.Expired 0) }
    ensures open { OneAnswer two_phase_begun (commit_b 10) (reply.WrongState state.Prepare) }
    ensures twice { (built : Built) → OneAnswer (committed built) (commit_b 10) (reply.WrongState state.Committed) }
    ensures next { (built : Built) → OneAnswer (committed built) (command.Publish 20) (reply.Published 1 1) }
    ensures again { (built : Built) → OneAnswer (precommitted built) (begin b) (reply.Used 1 state.Precommitted) }
    ensures late { (built : Built) → OneAnswer (committed_shown built) (commit_b 30) (reply.WrongState state.Visible) }
    ensures too_late { (built : Built) → OneAnswer (committed_shown built) (command.Abort d (key.Id 1) 30) (reply.WrongState state.Visible) }
{}

/// A table that is dropped takes its rows along: a load that waits becomes visible and changes nothing, an open one is
/// aborted, one that ended stays as it was, and the number of the table is not used again.
pub fn a_table_is_dropped()
    ensures once { OneAnswer (gone made) (drop_t 5) reply.UnknownTable }
    ensures quietly { OneAnswer (gone made) (command.DropTable d t true 5) reply.Done }
    ensures open { (built : Built) → OneAnswer (gone begun) (command.Submit 1 built 5) (reply.WrongState state.Aborted) }
    ensures precommitted { (built : Built) → OneAnswer (gone (precommitted built)) (commit_b 6) (reply.WrongState state.Aborted) }
    ensures waits { (built : Built) → OneAnswer (gone (submitted built)) (command.Publish 6) (reply.Published 1 1) }
    ensures rows { (built : Built) → base_of (happened (shown_gone built)) 1 ≡ [] }
    ensures version { (built : Built) → version_of (happened (shown_gone built)) 1 0 ≡ 1 }
    ensures label { (built : Built) → OneAnswer (made_again built) (begin a1) (reply.Used 1 state.Visible) }
    ensures number { (built : Built) → last_table_of (happened (made_again built)) ≡ 2 }
    ensures whole { OneAnswer made (command.AddPartition d t part) (reply.BadPartition layout_error.NotPartitioned) }
    ensures shown { (built : Built) → base_of (happened (gone (loaded built))) 1 ≡ [] }
    ensures shown_label { (built : Built) → OneAnswer (remade (gone (loaded built))) (begin a1) (reply.Used 1 state.Visible) }
    ensures ended { (built : Built) → OneAnswer (remade (gone (aborted built))) (begin b) (reply.Begun 2 (plan 2)) }
{}

/// What ended is cleaned after 259,200 seconds, and what expired is aborted.
pub fn a_sweep_cleans_what_ended()
    ensures early { (built : Built) → OneAnswer (loaded built) (command.Sweep 259199) reply.NothingToSweep }
    ensures late { (built : Built) → OneAnswer (loaded built) (command.Sweep 259200) (reply.Swept 0 1) }
    ensures taken { OneAnswer begun (command.Sweep 599) reply.NothingToSweep }
    ensures expired { OneAnswer begun (command.Sweep 600) (reply.Swept 1 0) }
    ensures submitted { (built : Built) → OneAnswer (precommitted built) (command.Sweep 3599) reply.NothingToSweep }
    ensures aborted { (built : Built) → OneAnswer (precommitted built) (command.Sweep 3600) (reply.Swept 1 0) }
{}

/// A rollup is added after a load. A second one is refused while the first one's job lives, and so is a partition. The job
/// waits, with a target in each plan from then on, and runs; its one task is taken and given its rows, and it ends.
pub fn a_rollup()
    ensures added { (built : Built) → OneAnswer (loaded built) alter_t (reply.Added 1) }
    ensures busy { (built : Built) → OneAnswer (added built) alter_t (reply.Busy 1) }
    ensures no_part { (built : Built) → OneAnswer (added built) (command.AddPartition d t part) (reply.Busy 1) }
    ensures waits { (built : Built) → OneAnswer (added built) advance (reply.Advanced 1 job_state.WaitingTxn) }
    ensures planned { (built : Built) → OneAnswer (waiting built) (begin b) (reply.Begun 3 (plan_with_r 3)) }
    ensures runs { (built : Built) → OneAnswer (waiting built) advance (reply.Advanced 1 job_state.Running) }
    ensures open_task { (built : Built) → OneAnswer (running built) advance reply.NothingToAdvance }
    ensures stale { (built : Built) (task : Task) (result : PieceResult) → OneAnswerReopened (taken task built) (command.Give (piece_of result) 40) (reply.Stale 1) }
    ensures gives { (built : Built) (task : Task) (rows : Arc Rowset Global) → OneAnswer (taken task built) (command.Give (piece_of (Rows rows)) 40) (reply.Given 1 job_state.Running) }
    ensures again { (built : Built) (task : Task) (rows : Arc Rowset Global) → OneAnswer (given (Rows rows) task built) (command.Give (piece_of (Rows rows)) 40) (reply.TaskOver job_state.Running) }
    ensures open_again { (built : Built) (task : Task) → OneAnswer (given Back task built) advance reply.NothingToAdvance }
    ensures ends { (built : Built) (task : Task) (rows : Arc Rowset Global) → OneAnswer (given (Rows rows) task built) advance (reply.Advanced 1 job_state.Finished) }
    ensures none { (built : Built) (task : Task) (rows : Arc Rowset Global) → OneAnswer (finished (Rows rows) task built) (command.CancelAlter d t job_kind.Rollup 50) reply.NoJob }
    ensures lists { (built : Built) (task : Task) (rows : Arc Rowset Global) → stored_of (happened (finished (Rows rows) task built)) 1 1 ≡ fold_of map_of_r.to (conv map_of_r (rows_at (layout_of t def) (record { part = 0; bucket = 0 }) (base_of (happened (loaded built)) 1))) ∷ [] }
{}
