/// The greatest number of bytes of a file.
pub const FILE_LIMIT: usize = 16_777_216;

/// The billionths of one: counts are kept in them.
pub const BILLION: u64 = 1_000_000_000;
