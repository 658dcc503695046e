/// From 00:00:00 UTC of the day on, TAI minus UTC is the offset in seconds. Days are counted from 1970-01-01.
#[derive(Clone, Copy, PartialEq, Eq, Debug)]
pub struct Entry {
    pub day: u32,
    pub offset: u16,
}
