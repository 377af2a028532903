//! The names of a replay's files.

/// The names of the files of a replay, in the order in which they are read.
#[derive(Clone, Copy)]
pub struct Files<'a> {
    pub place: &'a str,
    pub calls: &'a str,
    pub schedule: &'a str,
}
