// The paper's limits, each as records/specs/Limits has it.

// Indices of a map, vertices of a surface, an IndexOffset.
pub const MOST_RECORDS: u64 = 1_048_576;

// A length of a volume.
pub const MOST_LENGTH: u64 = 65_536;

// Bytes of a text.
pub const MOST_BYTES: usize = 16_777_216;
