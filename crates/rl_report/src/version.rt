//! The versions of a report's text.

/// Which version a report's text has. The first one knows no batch.
#[derive(Clone, Copy, PartialEq, Eq, Debug)]
pub enum Version {
    First,
    Second,
}
