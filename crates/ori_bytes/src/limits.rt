// Limits and sizes as constants, which contracts cite by name.

/// Bytes of a page.
pub const PAGE_BYTES: usize = 4096;

/// The greatest number of pages of a database.
pub const MAX_PAGES: u32 = 1 << 20;

/// The greatest length of one log file, in bytes.
pub const MAX_LOG_BYTES: u64 = 1 << 30;

/// The greatest place in a file that a write may reach, in bytes.
pub const MAX_FILE_BYTES: u64 = 1 << 40;

/// The greatest weight of a transaction, and so the most pages that one commit changes.
pub const MAX_WEIGHT: u64 = 240_000;

/// The weight of a transaction before its changes are counted.
pub const BASE_WEIGHT: u64 = 100;

/// The weight of one change before its bytes are counted.
pub const CHANGE_WEIGHT: u64 = 8;

/// Record bytes that count 1 in a weight when they are begun.
pub const BYTES_PER_WEIGHT: u64 = 3000;

/// The greatest number of positions of a cluster.
pub const MAX_POSITIONS: u64 = 250_000;

/// The greatest length of a record, in bytes: what a page of one record has room for.
pub const MAX_RECORD_BYTES: u64 = 4086;

/// The greatest length of a line of input, in bytes, without its end.
pub const MAX_LINE_BYTES: usize = 4000;

/// The greatest length of the input, in bytes.
pub const MAX_INPUT_BYTES: u64 = 1 << 30;

/// The greatest session number. Sessions count from 1.
pub const MAX_SESSIONS: u8 = 64;

/// The most times that a line may ask for its statement to be run.
pub const MAX_TRIES: u32 = 1_000_000;

/// How deep values, and expressions, may nest.
pub const MAX_NESTING: u64 = 64;

/// The greatest length of a name, in bytes.
pub const MAX_NAME_BYTES: usize = 64;

/// The most entries of the feed of one opening.
pub const MAX_FEED_ENTRIES: u64 = 1 << 20;

/// The most bytes of the feed of one opening.
pub const MAX_FEED_BYTES: u64 = 1 << 29;

/// Bytes that a change counts in the feed before those of its record.
pub const CHANGE_FEED_BYTES: u64 = 64;

/// Bytes that a schema change counts in the feed.
pub const DEFINITION_FEED_BYTES: u64 = 256;

/// The number of cache partitions. Page p is in partition p mod this.
pub const PARTITIONS: u8 = 8;

/// The byte of an open gate of the log. A gate with any other byte is closed.
pub const OPEN_GATE: u8 = 0xa5;

/// The byte that closes a gate of the log.
pub const CLOSED_GATE: u8 = 0;

/// The greatest length of the file of pages, in bytes.
pub const MAX_PAGES_BYTES: u64 = 1 << 32;

/// The owner of page 0.
pub const HEAD_OWNER: u32 = 1;

/// The owner of the pages of cluster 1: 65,536 and the cluster.
pub const FIRST_CLUSTER_OWNER: u32 = 65_537;

/// The kind of page 0.
pub const HEAD_KIND: u8 = 1;

/// The kind of a page with records.
pub const SLOTS_KIND: u8 = 5;

/// The length of a log file grows to a multiple of this many bytes, so that few commits change it.
pub const LOG_STEP_BYTES: u64 = 1 << 18;

/// A commit that finds this many bytes in the tail of the log makes a checkpoint first.
pub const CHECKPOINT_BYTES: u64 = 1 << 24;

/// How many clean pages a partition of the cache keeps.
pub const CLEAN_PAGES: usize = 512;

/// The kind of a free page.
pub const FREE_KIND: u8 = 0;

/// The owner of free pages.
pub const FREE_OWNER: u32 = 3;

/// The kind of the directory page of a cluster's position map.
pub const DIRECTORY_KIND: u8 = 3;

/// The kind of a page with entries of a position map.
pub const MAP_KIND: u8 = 4;

/// How many entries a map page has.
pub const MAP_ENTRIES: usize = 250;

/// How many map pages a directory page names.
pub const MAX_MAP_PAGES: usize = 1000;

/// The number of the form of the pages that a head names.
pub const PAGE_FORMAT: u32 = 1;

/// The number of the form of the pages.
pub const STAGE_FORMAT: u32 = 0;

/// Bytes of a record page before the record: owner, kind, three zeros and the length.
pub const RECORD_PAGE_HEAD: usize = 10;
