// The record words, which the reader compares and the printer writes, and the two bytes between them.
pub const MESH: [u8; 4] = *b"mesh";

pub const SEARCH: [u8; 6] = *b"search";

pub const FLOW: [u8; 4] = *b"flow";

pub const TABLE: [u8; 5] = *b"table";

pub const INJECT: [u8; 6] = *b"inject";

pub const END: [u8; 3] = *b"end";

pub const REFUSE: [u8; 6] = *b"refuse";

pub const NONE: [u8; 4] = *b"none";

// Fields are parted by one tab.
pub const TAB: u8 = b'\t';

// Each line ends in a line feed.
pub const FEED: u8 = b'\n';
