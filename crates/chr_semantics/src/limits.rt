//! The limits of the language and of a run.

/// The bytes of a text.
pub const MAX_TEXT_BYTES: usize = 1_048_576;

/// The brackets of a text that are open at once.
pub const MAX_OPEN_BRACKETS: usize = 256;

/// The rules of a program.
pub const MAX_RULES: usize = 1_024;

/// The heads of a rule.
pub const MAX_HEADS: usize = 8;

/// The variables of a rule.
pub const MAX_RULE_VARIABLES: usize = 64;

/// The arguments of a name.
pub const MAX_ARITY: usize = 16;

/// The transitions of one machine, the budget of a run, and the Steps of a schedule.
pub const MAX_TRANSITIONS: u64 = 1_000_000;

/// The calls that change one store.
pub const MAX_CHANGES: u64 = 1_000_000_000_000;

/// The workers of a run.
pub const MAX_WORKERS: u32 = 64;

/// The tasks of a round.
pub const MAX_TASKS: usize = 64;

/// The waiting elements of the stack that give a round tasks.
pub const MAX_WAITING_ELEMENTS: usize = 8;

/// The rounds of a core.
pub const MAX_ROUNDS: usize = 4_096;

/// The last rounds whose answers are kept.
pub const KEPT_ROUNDS: usize = 8;

/// The most tasks that one board is ever offered.
pub const MAX_OFFERED_TASKS: usize = 262_144;

/// The events of a schedule that is read.
pub const MAX_SCHEDULE_EVENTS: usize = 2_000_000;

/// The numbers of a schedule's lines: rounds, indices, and Steps at once.
pub const MAX_SCHEDULE_NUMBER: u32 = 4_294_967_295;
