//! The laws of the definitions. Each function is empty, and its clause is the law.

ghost use Rattle.chr_semantics.specs.Tree.{SameLaw};
ghost use Rattle.chr_semantics.specs.Subst.{SolvedLaw};
ghost use Rattle.chr_semantics.specs.Mgu.{UnifierLaw};
ghost use Rattle.chr_semantics.specs.Effect.{EffectLaw};
ghost use Rattle.chr_semantics.specs.Match.{FitsLaw};
ghost use Rattle.chr_semantics.specs.Search.{TuplesLaw, RowsLaw, DeadEntriesLaw, RuleEntriesLaw};
ghost use Rattle.chr_semantics.specs.Schedule.{AppendedLaw, IdleLaw, LimitsLaw};
ghost use Rattle.chr_semantics.specs.ScheduleText.{ReadBackLaw};
ghost use Rattle.chr_semantics.specs.Join.{JoinLaw, OrderLaw};
ghost use Rattle.chr_semantics.specs.Keys.{ClashLaw, LookLaw, RootLaw};
ghost use Rattle.chr_semantics.specs.Snapshot.{SnapshotLaw, SoundLaw};
ghost use Rattle.chr_semantics.specs.Stamps.{StampsByCallLaw};
ghost use Rattle.chr_semantics.specs.Calls.{CallsLaw};
ghost use Rattle.chr_semantics.specs.Desk.{TotalsLaw};
ghost use Rattle.chr_semantics.specs.Tries.{TriesLaw};
ghost use Rattle.chr_semantics.specs.Trail.{TrailLaw};
ghost use Rattle.chr_semantics.specs.Cursor.{CursorLaw, GatedLaw};
ghost use Rattle.chr_semantics.specs.Suspicion.{SuspicionLaw};
ghost use Rattle.chr_semantics.specs.Verdict.{VerdictLaw};
ghost use Rattle.chr_semantics.specs.Footprint.{FootprintLaw, ServesLaw, UsedLaw, StampsLaw, TakenLaw};

/// The tests of identity decide equality of terms, and of lists of terms.
pub fn same_law()
    ensures { SameLaw }
{}

/// Applying a substitution twice is applying it once exactly where no variable that it binds occurs
/// in what a variable stands for.
pub fn solved_law()
    ensures { SolvedLaw }
{}

/// The most general unifier makes both terms equal and keeps the bindings that were there; whatever
/// else does both is an instance of it; and where there is none, nothing does both.
pub fn unifier_law()
    ensures { UnifierLaw }
{}

/// A match makes the heads the rows, and it is of their variables alone; where there is none,
/// nothing makes the heads the rows.
pub fn fits_law()
    ensures { FitsLaw }
{}

/// Where no transition touches the footprint of an occurrence of a living constraint, the
/// constraint's first firing there stays the same.
pub fn footprint_law()
    ensures { FootprintLaw }
{}

/// An answer that serves, to a task of a row or of the guest, is what the search at the later state
/// finds.
pub fn serves_law()
    ensures { ServesLaw }
{}

/// In a run from a query's start, an answer that serves the search of a step is what that step's
/// own search finds.
pub fn used_law()
    ensures { UsedLaw }
{}

/// Stamps that count the touches of each symbol and rule tell whether a footprint was touched: they
/// are equal at two places exactly where no transition between touches it. In a guest's case they
/// tell whether its Activate alone did.
pub fn stamps_law()
    ensures { StampsLaw }
{}

/// The tuples of a search are all lists of rows with different identities that have the active
/// constraint at its place, in lexicographic order of identities.
pub fn tuples_law()
    ensures { TuplesLaw }
{}

/// Rows that fit no head of an occurrence's rule change no search at it, also where the active
/// constraint is one of them.
pub fn rows_law()
    ensures { RowsLaw }
{}

/// Entries of the history with an identity that no row has change no search.
pub fn dead_entries_law()
    ensures { DeadEntriesLaw }
{}

/// In a run, a search of a row or of the guest finds the same with only the entries of the history
/// whose identities all live.
pub fn taken_law()
    ensures { TakenLaw }
{}

/// A schedule grows event by event.
pub fn appended_law()
    ensures { AppendedLaw }
{}

/// Heads may be matched with the one of the active constraint first: the match has the same look-ups,
/// and guards and bodies see look-ups alone.
pub fn order_law()
    ensures { OrderLaw }
{}

/// A row whose argument has another root than the head asks for does not fit, nor does a row of
/// another symbol.
pub fn root_law()
    ensures { RootLaw }
{}

/// A row that clashes with a rule fits none of its heads.
pub fn clash_law()
    ensures { ClashLaw }
{}

/// The first tuple that can fire is the first that the join with the own head first meets, whatever
/// rows are left out that do not fit.
pub fn join_law()
    ensures { JoinLaw }
{}

/// The join may look for each head at the rows by the root at any one position.
pub fn look_law()
    ensures { LookLaw }
{}

/// The join tries the tuples whose rows fit, up to and with the first that can fire, and at most as
/// many as the product of the numbers of rows of the partners' symbols.
pub fn tries_law()
    ensures { TriesLaw }
{}

/// What a search comes to step by step leads to the whole lists of the join, in their order.
pub fn trail_law()
    ensures { TrailLaw }
{}

/// A search may go on after a list that it found, while rows are only removed and new ones get
/// greater identities.
pub fn cursor_law()
    ensures { CursorLaw }
{}

/// The join among the tuples whose identities pass a test.
pub fn gated_law()
    ensures { GatedLaw }
{}

/// Entries of other rules change no search.
pub fn rule_entries_law()
    ensures { RuleEntriesLaw }
{}

/// A task finds in a snapshot what it finds in the state that the snapshot is of.
pub fn snapshot_law()
    ensures { SnapshotLaw }
{}

/// Each state of a run is sound.
pub fn sound_law()
    ensures { SoundLaw }
{}

/// Stamps that count calls tell what counts of touches tell.
pub fn stamps_by_call_law()
    ensures { StampsByCallLaw }
{}

/// The calls that are made for a transition lead to its store and history, and raise the stamps of
/// what it touches alone.
pub fn calls_law()
    ensures { CallsLaw }
{}

/// The totals of a desk add up.
pub fn totals_law()
    ensures { TotalsLaw }
{}

/// The limits of rounds and Steps hold after every progress.
pub fn limits_law()
    ensures { LimitsLaw }
{}

/// Steps after the end of a run change neither its state nor its counts.
pub fn idle_law()
    ensures { IdleLaw }
{}

/// What is printed of a schedule of at most 2,000,000 events reads back as those events.
pub fn read_back_law()
    ensures { ReadBackLaw }
{}

/// A list of constraints could fire a rule exactly where they live, are different and can fire it; and where they are unlike its heads, no
/// later state of the run has them fire it.
pub fn verdict_law()
    ensures { VerdictLaw }
{}

/// A rule whose heads are all passive fires in no run, and a test that is hopeless as it is written is entailed under no match.
pub fn suspicion_law()
    ensures { SuspicionLaw }
{}

/// A run can be made again from what its transitions change: each change makes a state that shows the next one.
pub fn effect_law()
    ensures { EffectLaw }
{}
