//! The limits of what stp accepts. A number above its limit is refused by name.

/// Bytes of a file.
pub const MAX_FILE_BYTES: usize = 1_048_576;
/// Lists inside one another, the outermost counted.
pub const MAX_NESTING: u32 = 100;
/// Bytes of a word.
pub const MAX_WORD_BYTES: usize = 100;
/// Parameters of a predicate, a function or an action.
pub const MAX_PARAMETERS: usize = 16;
/// Nodes of a schema's conditions, and of the goal, once quantifiers are expanded.
pub const MAX_EXPANDED_NODES: u64 = 10_000;
/// Moments of the timed literals of a problem.
pub const MAX_TIMED: usize = 100;
/// Events of a problem whose moments the environment chooses.
pub const MAX_EVENTS: usize = 30;
/// The greatest time of an event of the environment.
pub const MAX_MOMENT: u128 = 100_000_000;
/// Steps of a plan.
pub const MAX_STEPS: usize = 500;
/// Moments in a unit of time.
pub const MAX_GRID: u128 = 999_999_999;
/// A start, and a start with the greatest duration.
pub const MAX_TIME: u128 = 999_999_999;
/// Typed bindings over all schemas.
pub const MAX_BINDINGS: u64 = 2_000_000;
/// Kept actions.
pub const MAX_ACTIONS: u32 = 20_000;
/// Nodes of the kept actions' schemas in all.
pub const MAX_ACTION_NODES: u64 = 10_000_000;
/// Numbered atoms.
pub const MAX_ATOMS: u32 = 20_000;
/// The greatest duration of a kept action.
pub const MAX_DURATION: u128 = 1_000_000;
/// The common denominator of the kept durations.
pub const MAX_DURATION_GRID: u128 = 600_000;
/// Footprints at one formula.
pub const MAX_FOOTPRINTS: usize = 10;
/// Nodes of the expanded over-all conditions in all.
pub const MAX_OVER_ALL_NODES: u64 = 10_000_000;
/// Requirements of locks in all.
pub const MAX_BLOCKS: u64 = 10_000_000;
/// Points of a temporal network, the origin counted.
pub const MAX_POINTS: u32 = 1_661;
/// Constraints of a temporal network.
pub const MAX_CONSTRAINTS: u32 = 10_000_000;
/// How large the bound of a constraint may be, in size.
pub const MAX_BOUND: i128 = 1_000_000_000_000_000_000;
/// Nodes that a search may expand.
pub const MAX_BUDGET: u32 = 1_000_000;
