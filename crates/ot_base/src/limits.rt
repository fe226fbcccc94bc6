/// The greatest number of inputs of a tableau.
pub const INPUT_LIMIT: usize = 1_000;

/// The greatest number of candidates of one input.
pub const CANDIDATE_LIMIT: usize = 200;

/// The greatest number of candidates of a tableau.
pub const ROW_LIMIT: usize = 20_000;

/// The greatest violation.
pub const VIOLATION_LIMIT: u32 = 1_000_000;

/// The greatest number of contradictions that a search may keep.
pub const PLACE_LIMIT: usize = 4_096;

/// The greatest number of given pairs.
pub const GIVEN_LIMIT: usize = 4_096;
