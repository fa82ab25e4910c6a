//! How long a line may be, and each of its parts.

/// The longest line that is read or written, in bytes.
pub const LONGEST_LINE: usize = 1024;

/// The most letters of a word.
pub const MOST_LETTERS: usize = 8;

/// The most digits of a number.
pub const MOST_DIGITS: usize = 13;

/// The most numbers of a list.
pub const MOST_NUMBERS: usize = 96;
