//! The exit statuses of the program.

/// The command did what it does.
pub const DONE: u8 = 0;

/// A row of the fault table holds for the file, or for the base.
pub const FAULT: u8 = 1;

/// The arguments are no command, or ask for a base that isn't handed in.
pub const USAGE: u8 = 2;

/// The file, or the base, has something that isn't supported, or page 0 of a damaged file names such a case.
pub const UNSUPPORTED: u8 = 3;

/// Reading failed.
pub const READ_FAULT: u8 = 4;

/// Writing failed.
pub const WRITE_FAULT: u8 = 5;

/// The input or the base is longer than the limit, or the image that is built would be.
pub const TOO_LARGE: u8 = 6;

/// Memory ran out.
pub const MEMORY: u8 = 7;

/// The text has a fault, or can't be loaded.
pub const BAD_TEXT: u8 = 8;

/// No database has the name, or the key has no data in it.
pub const NOT_FOUND: u8 = 9;

/// Nothing says how the image is read, since no guess is given and page 0 gives none; or no database is found in it.
pub const NO_META: u8 = 10;

/// The database isn't a btree.
pub const NOT_BTREE: u8 = 12;

/// Items of a page overlap, so the file isn't put into the other byte order.
pub const OVERLAP: u8 = 13;

/// Page 0 is that of a queue, or of a file of several databases, so no file of one database is made.
pub const NOT_ONE: u8 = 14;
