/// The byte that closes a line.
pub const LINE_FEED: u8 = b'\n';
