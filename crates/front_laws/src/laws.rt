// Laws over definitions: each function does nothing, and its contract is the law.
ghost use Rattle.std.specs.Prelude.{◌≡◌, ℕ, ◌&&◌, Bool, true, false, cond, filter, nat_lt, None, Some, List, [], ◌∷◌, ◌++◌, ◌<◌, ◌≤◌};
ghost use Rattle.front_defs.specs.declared.command.Command.{Command};
ghost use Rattle.front_defs.specs.declared.command.Command.TheVariants.{Submit};
ghost use Rattle.shadow_writes.specs.declared.built.Built.{Built};
ghost use Rattle.dl_values.specs.declared.cell.Cell.{Cell};
ghost use Rattle.schema_models.specs.ShapeView.{ShapeView};
ghost use Rattle.front_defs.specs.Indexes.{Index};
ghost use Rattle.partitions.specs.LayoutView.{LayoutView};
ghost use Rattle.partitions.specs.LayoutFaults.{with_part};
ghost use Rattle.partitions.specs.LayoutRules.{IsLayout};
ghost use Rattle.partitions.specs.declared.part_def.PartDef.{PartDef};
ghost use Rattle.partitions.specs.Places.{AreInside, Place, lies_in};
ghost use Rattle.std.specs.List.{AllByRecursion, list_any};
ghost use Rattle.front_defs.specs.declared.event.Event.{Event};
ghost use Rattle.front_defs.specs.declared.event.Event.TheVariants.{Opened};
ghost use Rattle.front_defs.specs.declared.history.Call.{Call};
ghost use Rattle.front_defs.specs.declared.history.Entry.{Entry};
ghost use Rattle.front_defs.specs.declared.history.Entry.TheVariants.{Made};
ghost use Rattle.front_defs.specs.Catalogue.{table_at, tables_of};
ghost use Rattle.front_defs.specs.History.{happened, journal};
ghost use Rattle.front_defs.specs.Ids.{next_of};
ghost use Rattle.front_defs.specs.Jobs.{jobs_of};
ghost use Rattle.front_defs.specs.Journal.{Agrees, IsStory, journal_of, story};
ghost use Rattle.front_defs.specs.Legal.{Legal};
ghost use Rattle.front_defs.specs.May.{Carries, IsBuilt, May};
ghost use Rattle.front_defs.specs.Stands.{IsShadow, StandsOpen, View};
ghost use Rattle.front_defs.specs.Stored.{StoredList, base_of, lists_of, set_at, set_for, sets_of, stored_of, version_of};
ghost use Rattle.front_defs.specs.Transactions.{places_of, txns_of};
ghost use Rattle.front_laws.specs.Laws.{ChainsBy, CountsLoads, CountsOnce, EarlierIsAborted, HasShape, IdsAscend, IndexFoldsTo, IsBase, IsOwed, IsPlannedJob, IsSettled, JobsAscend, NeverBad, RunsAhead, RunsWell, NumbersAscend, TabletFoldsTo, target_maps, visible_of};
ghost use Rattle.front_laws.specs.Tidy.{Distinct, Each, HasHome, LiveApart, Pairs, PlacesFit, Tells, published_of};

/// The records of records are the records.
pub fn records_are_told_once()
    ensures { (Es : List Event) → journal (journal Es) ≡ journal Es }
{}

/// A list of records each of which follows the ones before it is a legal history of told records.
pub fn stories_are_legal()
    ensures { (Es : List Event) → IsStory Es → Legal (story Es) }
{}

/// The reopening law. The records that a legal history leaves tell a story, which agrees with the history and an opening
/// after it; and each transaction that was submitted is told by them.
pub fn what_is_told_is_what_an_opening_leaves()
    ensures story { (H : List Entry) → Legal H → IsStory (journal_of H) }
    ensures agrees { (H : List Entry) → Legal H → Agrees (Opened ∷ happened H) (happened (story (journal_of H))) }
    ensures told { (H : List Entry) → Legal H → Each (λ t. Tells t.state t.told) (txns_of (happened H)) }
{}

/// What stands for the story of a journal stands for the history and an opening after it.
pub fn what_was_opened_stands_for_the_history()
    ensures { (v : View) (H : List Entry) → Legal H → StandsOpen v (happened (story (journal_of H))) → StandsOpen v (Opened ∷ happened H) }
{}

/// The kept transactions have ascending numbers, each below the next one.
pub fn transactions_have_numbers_of_their_own()
    ensures ascend { (H : List Entry) → Legal H → Pairs IdsAscend (txns_of (happened H)) }
    ensures below { (H : List Entry) → Legal H → Each (λ t. t.id < next_of (happened H)) (txns_of (happened H)) }
{}

/// The live tables have ascending numbers, and each kept transaction in PREPARE or PRECOMMITTED is of one of them, in its
/// database and schema. The table of another one may be gone; if it is there, it is that one.
pub fn transactions_are_of_live_tables()
    ensures numbers { (H : List Entry) → Legal H → Pairs NumbersAscend (tables_of (happened H)) }
    ensures homes { (H : List Entry) → Legal H → Each (HasHome (tables_of (happened H))) (txns_of (happened H)) }
{}

/// The places of kept transactions differ and are from 1 to the last one, and those of the loads that wait to be
/// published are the last of them.
pub fn places_are_in_commit_order()
    ensures { (H : List Entry) → Legal H → PlacesFit (txns_of (happened H)) (places_of (happened H)) }
{}

/// The label law. Of the kept transactions of one label at most one is COMMITTED or VISIBLE, since all but the last are
/// aborted; and no transaction is published twice.
pub fn a_label_becomes_visible_once()
    ensures counts { (H : List Entry) → Legal H → Pairs CountsOnce (txns_of (happened H)) }
    ensures aborted { (H : List Entry) → Legal H → Pairs EarlierIsAborted (txns_of (happened H)) }
    ensures published { (H : List Entry) → Legal H → Distinct (published_of (happened H)) }
{}

/// The lists that are stored of an index fold to what it makes of the base: those of all its tablets, by partition and
/// bucket, and those of each tablet to what it makes of the rows that the layout places there. The base is folded, and each
/// of its rows has a place.
pub fn stored_lists_fold_to_the_index()
    ensures all { (H : List Entry) → Legal H → (table index : ℕ) → IndexFoldsTo (table_at table (tables_of (happened H))) index (base_of (happened H) table) (stored_of (happened H) table index) }
    ensures each { (H : List Entry) → Legal H → (table index : ℕ) (w : Place) → TabletFoldsTo (table_at table (tables_of (happened H))) index w (base_of (happened H) table) (lists_of (happened H) table index w) }
    ensures base { (H : List Entry) → Legal H → (table : ℕ) → IsBase (table_at table (tables_of (happened H))) (base_of (happened H) table) }
{}

/// While a job runs, every load that has not ended is at or above its watershed; the work of a task and the lists of the loads
/// since fold to what the new index makes of the base; and these lists have versions above those that the work holds.
pub fn conversion_meets_double_writes()
    ensures watershed { (H : List Entry) → Legal H → Each (IsSettled (txns_of (happened H))) (jobs_of (happened H)) }
    ensures folds { (H : List Entry) → Legal H → Each (RunsWell (happened H)) (jobs_of (happened H)) }
    ensures ahead { (H : List Entry) → Legal H → Each (RunsAhead (happened H)) (jobs_of (happened H)) }
{}

/// What a front does to the lists of a shadow, tablet by tablet: where its job goes to run, they hold no version above the
/// fixed one; a load adds its list behind; the piece takes the place of those up to the fixed version; and in the end they
/// are the work and the lists since.
pub fn a_shadow_takes_its_piece()
    ensures runs { (work : List StoredList) (fixed : ℕ) (lists : List StoredList) → AllByRecursion (λ (l : StoredList). l.last ≤ fixed) lists → IsShadow false work fixed [] lists }
    ensures takes { (done : Bool) (work : List StoredList) (fixed : ℕ) (since lists : List StoredList) (l : StoredList) → IsShadow done work fixed since lists → IsShadow done work fixed (since ++ l ∷ []) (lists ++ l ∷ []) }
    ensures installs { (work : List StoredList) (fixed : ℕ) (since lists : List StoredList) → AllByRecursion (λ (l : StoredList). l.first ≤ l.last) lists → AllByRecursion (λ (l : StoredList). fixed < l.first) since → IsShadow false work fixed since lists → IsShadow true work fixed since (work ++ filter (λ (l : StoredList). nat_lt fixed l.first) lists) }
    ensures ends { (work : List StoredList) (fixed : ℕ) (since lists : List StoredList) → IsShadow true work fixed since lists → lists ≡ work ++ since }
{}

/// The kept jobs have ascending numbers, and at most one of a table lives. A job whose new indexes are in the plans has a
/// watershed, which is below the next number.
pub fn jobs_have_numbers_of_their_own()
    ensures numbers { (H : List Entry) → Legal H → Pairs JobsAscend (jobs_of (happened H)) }
    ensures alone { (H : List Entry) → Legal H → Pairs LiveApart (jobs_of (happened H)) }
    ensures watersheds { (H : List Entry) → Legal H → Each (IsPlannedJob (next_of (happened H))) (jobs_of (happened H)) }
{}

/// The visible version of a partition is 1 and the number of visible loads with a row in it, and the lists of its tablets
/// have the versions from 2 to that one, one after another.
pub fn versions_count_the_loads()
    ensures counts { (H : List Entry) → Legal H → (table : ℕ) → CountsLoads (table_at table (tables_of (happened H))) (visible_of (happened H) table) (version_of (happened H) table) }
    ensures chains { (H : List Entry) → Legal H → (table : ℕ) (w : Place) → ChainsBy (table_at table (tables_of (happened H))) w (lists_of (happened H) table 0 w) (version_of (happened H) table w.part) }
{}

/// What a load was built with for a tablet is the list that its Publish adds there, also where partitions were added
/// meanwhile.
pub fn what_was_built_is_what_is_added()
    ensures found { (s : ShapeView) (l : LayoutView) (target : Index) → IsLayout s l → (rows : List (List Cell)) (w : Place) → set_for w (sets_of l target rows) ≡ cond (list_any (lies_in l w.part) rows && nat_lt w.bucket l.buckets) (Some (set_at l target rows w)) None }
    ensures stays { (s : ShapeView) (l : LayoutView) (p : PartDef) (target : Index) → IsLayout s l → (rows : List (List Cell)) → AreInside l rows → sets_of (with_part p l) target rows ≡ sets_of l target rows }
{}

/// The law of seats. What a seat may give after a history it may give after each longer one, whoever called meanwhile.
pub fn what_a_seat_may_give_stays()
    ensures { (H more : List Entry) (c : Command) → May H c → May (more ++ H) c }
{}

/// What a reply gives may be given from its entry on.
pub fn what_a_reply_gives_may_be_given()
    ensures { (H more : List Entry) (x : Call) (c : Command) → Carries c x.reply → May (more ++ Made x ∷ H) c }
{}

/// A load that a seat may submit was built by its plan, and the plan has the shape of the load's table and a target for each
/// of its rollups and for each new index of a job whose watershed is not above the load's number.
pub fn a_submitted_load_is_of_its_table()
    ensures built { (H : List Entry) (txn : ℕ) (built : Built) (at : ℕ) → May H (Submit txn built at) → IsBuilt built.plan built }
    ensures shape { (H : List Entry) (txn : ℕ) (built : Built) (at : ℕ) → Legal H → May H (Submit txn built at) → Each (HasShape (tables_of (happened H)) txn built.plan.base built.plan.layout) (txns_of (happened H)) }
    ensures owed { (H : List Entry) (txn : ℕ) (built : Built) (at : ℕ) → Legal H → May H (Submit txn built at) → Each (IsOwed (tables_of (happened H)) (jobs_of (happened H)) txn (target_maps built.plan.targets)) (txns_of (happened H)) }
{}

/// No legal history has the answer that a record is damaged: over a keeper that tells its records there is none.
pub fn no_record_is_damaged()
    ensures { (H : List Entry) → Legal H → NeverBad H }
{}
