//! The limits that look at tokens alone, which the definitions cite.

/// A word, a placed variable, and an integer with its sign have at most so many bytes.
pub const TOKEN_LIMIT: usize = 64;
/// At most so many brackets are open at once, round and pointed ones together.
pub const NESTING_LIMIT: usize = 200;
/// A string means at most so many bytes.
pub const STRING_LIMIT: usize = 1_024;
