// The limits of documents 01 and 02: how large an input may be, and how much room an output asks for.

// "A roll has 1 to 4,096 nodes."
pub const NODES: usize = 4096;

// "Record 0 is the root; its parent field is 65,535."
pub const NO_PARENT: usize = 65535;

// An annotation has 0 to 32 records.
pub const RECORDS: usize = 32;

// How many entries a table may have, and how high an entry may be: the curator's query, the filter table, and the query answered on a roll.
pub const CURATOR_ENTRIES: usize = 256;

pub const CURATOR_HEIGHT: u16 = 32;

pub const FILTER_ENTRIES: usize = 256;

pub const FILTER_HEIGHT: u16 = 16;

pub const ANSWER_ENTRIES: usize = 1024;

pub const ANSWER_HEIGHT: u16 = 128;

// Rule entries: "at most 256, height at most 32"; and "at most 64" list records.
pub const RULE_ENTRIES: usize = 256;

pub const RULE_HEIGHT: u16 = 32;

pub const LISTED: usize = 64;

// "ASCII, 1 to 1,024 bytes"; and the room of a text that is printed, "1,024 bytes"
pub const TEXT_BYTES: usize = 1024;

// "a bracket is opened while 32 are open": no more may be open at once.
pub const OPEN_BRACKETS: usize = 32;

// "a bitmap of record numbers; room 512 bytes", and the same for view positions
pub const BITMAP_ROOM: usize = 512;

// "Read a text into a table; room 1,536 bytes"
pub const TABLE_ROOM: usize = 6 * CURATOR_ENTRIES;

// "Rewrite; room 6,144 bytes"
pub const REWRITTEN_ROOM: usize = 6 * ANSWER_ENTRIES;
