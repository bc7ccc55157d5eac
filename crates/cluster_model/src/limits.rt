//! Numbers that several parts share. They are the project's own choice but where a section is named.

/// How many bytes a data file has at most.
pub const MAX_FILE: u64 = 67_108_864;

/// How many bytes the files of one data server have at most, together.
pub const MAX_TOTAL: u64 = 268_435_456;

/// How many bytes one READ of a data server gives at most.
pub const MAX_READ: u32 = 1_048_576;

/// How many ticks a boot has.
pub const MAX_TICKS: u32 = 999_999_999;

/// The last boot number.
pub const MAX_BOOT: u32 = u32::MAX;

/// The mode of a data file: its owner reads and writes it, and its group reads it (RFC 8435, section 2.2).
pub const FILE_MODE: u32 = 0o640;

/// The first synthetic uid (RFC 8435, section 2.2).
pub const FIRST_UID: u32 = 65_536;

/// Uids count as spent where fewer than this are left.
pub const SPARE_UIDS: u32 = 65_536;

/// How many timeouts of one call make it fail.
pub const MAX_TIMEOUTS: u32 = 3;

/// How many SETATTRs of one fence that find another ctime make a mirror fail.
pub const MAX_UNSYNCED: u32 = 8;

/// The status as which an answer counts that no server gives to its call (RFC 1813, section 2.6, NFS3ERR_SERVERFAULT).
pub const SERVERFAULT: u32 = 10_006;

/// How many bytes of a file are read or written at a time.
pub const PIECE_SIZE: u32 = 65_536;
