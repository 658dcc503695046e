/// The place of a line in a storage log: the other body that our records carry.
#[derive(Clone, Copy, PartialEq, Eq, Debug)]
pub struct LinePlace {
    /// where the line begins in the log, and how many bytes it has
    pub start: u64,
    pub length: u32,
}
