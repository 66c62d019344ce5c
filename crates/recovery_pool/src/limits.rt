/// The most jobs that one list may have.
pub const MAX_JOBS: u64 = 4294967296;

/// The most workers.
pub const MAX_WORKERS: u32 = 64;
