// The statuses of a run, which are the program's exit statuses.

/// The input was read to its end, and each line has its reply.
pub const INPUT_ENDED: u8 = 0;

/// The words are no command.
pub const WRONG_WORDS: u8 = 1;

/// Out of memory outside a statement.
pub const NO_MEMORY: u8 = 2;

/// The source failed.
pub const SOURCE_FAILED: u8 = 3;

/// The sink failed.
pub const SINK_FAILED: u8 = 4;

/// The volume failed.
pub const VOLUME_FAILED: u8 = 5;

/// The volume isn't one that can be opened.
pub const NOT_A_DATABASE: u8 = 6;

/// A line is none of the forms.
pub const BAD_LINE: u8 = 8;

/// The input is longer than its limit.
pub const INPUT_TOO_LARGE: u8 = 9;
