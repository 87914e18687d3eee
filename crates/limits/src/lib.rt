// The limits of a table: "At most 1,024 records and 8,192 bytes", "1 to 64 parts". Contracts say the specification's
// most-bytes, most-records and most-parts (crates/xliff/specs/Parse.antt), so that each proof compares the two.
#![tactic(auto)]

pub const MOST_BYTES: usize = 8192;

pub const MOST_RECORDS: usize = 1024;

pub const MOST_PARTS: usize = 64;
