// The limits of scripts and histories. Definitions in specs/ write the same numbers out, so that they stand alone; a
// clause that names a constant is proved against them, so the two agree.

/// As many entries as a history has at most.
pub const MOST_ENTRIES: u64 = 2_000_000;

/// As many bytes as a script has at most.
pub const MOST_SCRIPT_BYTES: u64 = 4_194_304;

/// As many bytes as a report that is read has at most.
pub const MOST_REPORT_BYTES: u64 = 268_435_456;

/// As many operations as a script has at most.
pub const MOST_OPERATIONS: u64 = 100_000;

/// As many schedule lines as a script has at most.
pub const MOST_SCHEDULE_LINES: u64 = 100_000;

/// As many frames of the system as a script has at most.
pub const MOST_SYSTEM_FRAMES: u64 = 16_384;

/// As many frames of a device as a script has at most.
pub const MOST_DEVICE_FRAMES: u64 = 8_192;

/// As many actors as a script has at most.
pub const MOST_ACTORS: u32 = 16;

/// As many processes as a script has at most.
pub const MOST_PROCESSES: u32 = 32;

/// As many mirrors as a script has at most.
pub const MOST_MIRRORS: u32 = 32;

/// As many devices as a script has at most.
pub const MOST_DEVICES: u32 = 4;

/// As many areas as a process has at most.
pub const MOST_AREAS: u64 = 64;

/// As many bytes as a page or a frame has.
pub const PAGE_BYTES: u64 = 4096;
