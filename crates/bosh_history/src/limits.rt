/// The most calls for one row of a goal, or one obsolete row, where nothing fails and nothing is lost.
pub const MOST_CALLS_OF_A_ROW: u64 = 36;

/// The most calls for one package that is compiled, and for one compile machine that an earlier task left.
pub const MOST_CALLS_OF_A_MACHINE: u64 = 8;
