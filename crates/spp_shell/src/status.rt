//! The statuses that the program ends with.

/// The whole answer went out.
pub const GOOD: u8 = 0;

/// The definitions refuse the input.
pub const BAD_INPUT: u8 = 1;

/// The words of the command line are no request.
pub const USAGE: u8 = 2;

/// An input could not be read whole, or the output could not be written whole.
pub const DEVICE: u8 = 3;

/// An allocation failed.
pub const MEMORY: u8 = 4;
