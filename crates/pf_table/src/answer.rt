//! What an edit answers for each entry.

/// What became of an entry of an add.
#[derive(Clone, Copy, Debug, PartialEq, Eq)]
pub enum Addition {
    /// Its network had no entry.
    Added,
    /// It was there already.
    Same,
    /// Its network is there with the other sign, and stays so.
    Conflict,
}

/// What became of an entry of a delete.
#[derive(Clone, Copy, Debug, PartialEq, Eq)]
pub enum Deletion {
    /// It was there.
    Deleted,
    /// Its network isn't there, or is there with the other sign, and stays so.
    Absent,
}
