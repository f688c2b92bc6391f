//! Each limit has one constant, which definitions and code cite alike.

/// How many members a ring may declare.
pub const MOST_MEMBERS: usize = 64;

/// How many regions a ring may declare.
pub const MOST_REGIONS: usize = 16;

/// How many clients a ring may declare.
pub const MOST_CLIENTS: usize = 64;

/// How many tables a schema may have.
pub const MOST_TABLES: usize = 256;

/// How many columns a table may have.
pub const MOST_COLUMNS: usize = 64;

/// The bytes of the longest name of a region, a database, a table or a column.
pub const NAME_BYTES: usize = 64;

/// The bytes of the longest address of a member or a client.
pub const ADDRESS_BYTES: usize = 255;

/// The greatest number of a member. The numbers above it are for clients.
pub const LAST_NODE: u32 = 65_535;

/// The least number that a ring may declare for a client.
pub const FIRST_CLIENT: u32 = 65_536;

/// The most bytes that a text column may be declared to hold.
pub const TEXT_COLUMN_BYTES: u16 = 16_000;

/// How many votes a node keeps in its history.
pub const MOST_VOTES: usize = 1_024;

/// How many entries one `AppendEntries` carries.
pub const BATCH_ENTRIES: usize = 64;

/// The bytes of the groups that one `AppendEntries` carries, all of them together.
pub const BATCH_BYTES: u64 = 1_000_000;

/// The bytes of one entry's group in the binary log.
pub const GROUP_BYTES: u64 = 1_000_000;

/// The greatest number of a binary log file: MySQL's names have six digits.
pub const LAST_FILE: u64 = 999_999;

/// Terms, positions and commit counts are below this, so that their successors fit 64 bits.
pub const TERM_END: u64 = 1 << 62;

/// The greatest number of a transaction in a GTID (the MySQL manual).
pub const LAST_GTID: u64 = (1 << 63) - 2;

/// The greatest number of a round of transfers.
pub const LAST_ROUND: u64 = u64::MAX;

/// After how many beats without a reply a leader takes a proxy for silent.
pub const SILENT_BEATS: u64 = 3;

/// How many entries a voter may lack and still answer a mock election with yes.
pub const MOCK_LAG: u64 = 8;

/// How many changes a transaction in a message may have.
pub const CHANGES_IN_MESSAGE: u64 = 65_535;

/// How many values the row of a change in a message may have.
pub const VALUES_IN_CHANGE: u64 = 65_535;

/// The bytes of a table's name in a message.
pub const TABLE_NAME_BYTES: u64 = 255;

/// The bytes of a text in a message.
pub const TEXT_BYTES: u64 = (1 << 32) - 1;

/// The bytes of a ring file.
pub const RING_FILE_BYTES: u64 = 1 << 20;

/// The bytes of a schedule.
pub const SCHEDULE_BYTES: u64 = 1 << 24;
