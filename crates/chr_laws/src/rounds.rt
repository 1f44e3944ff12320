//! The laws. Each function is empty, and its clause is the law.
ghost use Rattle.chr_laws.specs.Good.{GoodLaw};
ghost use Rattle.chr_laws.specs.Kept.{ServedLaw, SpotsLaw};
ghost use Rattle.chr_laws.specs.Replay.{ReplayLaw};
ghost use Rattle.chr_laws.specs.Rounds.{HoldsLaw};
ghost use Rattle.chr_laws.specs.Stands.{StandsLaw, TellsLaw};
ghost use Rattle.chr_laws.specs.Sums.{LivingLaw, NewestLaw, SumsLaw};

/// The tasks of a state are of constraints that live, or of the guest.
pub fn living_law()
    ensures { LivingLaw }
{}

/// Whether an answer serves is told by the stamps of its task's footprint, added up.
pub fn sums_law()
    ensures { SumsLaw }
{}

/// Whether an answer to a guest's task is good while the guest waits is told by the same sums.
pub fn good_law()
    ensures { GoodLaw }
{}

/// Of the answers to one task of a stored constraint, the newest serves where any does.
pub fn newest_law()
    ensures { NewestLaw }
{}

/// Which kept answers have to be looked at to know whether one serves.
pub fn served_law()
    ensures { ServedLaw }
{}

/// Where the answers to a task stand, after one more and after a round more.
pub fn spots_law()
    ensures { SpotsLaw }
{}

/// What is kept of rounds and answers goes on to agree with the schedule.
pub fn holds_law()
    ensures { HoldsLaw }
{}

/// A core goes on to stand at the schedule with one event more.
pub fn stands_law()
    ensures { StandsLaw }
{}

/// What a core that stands at a schedule tells of its answers.
pub fn tells_law()
    ensures { TellsLaw }
{}

/// What has been performed of the first events of a schedule tells what the next one asks of them.
pub fn replay_law()
    ensures { ReplayLaw }
{}
