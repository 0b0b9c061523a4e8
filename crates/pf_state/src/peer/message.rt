//! Messages and their groups.
ghost use Rattle.std.specs.Prelude.{◌≡◌};

use crate::peer::record::{Clear, Delete, Insert};
use std::marker::Model;

/// The action of a group that inserts states.
pub(crate) const INSERT: u8 = 1;
/// The action of a group that deletes states.
pub(crate) const DELETE: u8 = 6;
/// The action of a group that clears creators.
pub(crate) const CLEAR: u8 = 0;
/// How many bytes a message may have with its header: the most that its length field can say.
pub const MESSAGE_LIMIT: usize = 65535;

/// A list, of records or of groups. Contracts see the list.
#[derive(Drop)]
pub struct Records<T: Drop> {
    items: Vec<T>,
}

impl<T: Drop> Model for Records<T> {
    ghost use Rattle.std.specs.Prelude.{List};

    ghost Value = { List T };

    ghost view = { λ r. r.items.items };
}

impl<T: Drop> Records<T> {
    /// The list of these. It takes no memory.
    pub fn new(items: Vec<T>) -> Records<T>
        ensures { result ≡ items.items }
    {
        Records { items }
    }

    /// The items, in order.
    pub fn as_slice(&self) -> &[T]
        ensures { result.now ≡ self.now }
    {
        &self.items
    }
}

/// A group of a message: records of one action, which act in their order.
#[derive(Drop)]
pub enum Group {
    /// States that are new or have changed.
    Inserts(Records<Insert>),
    /// States that are gone.
    Deletes(Records<Delete>),
    /// Hosts that have no state left.
    Clears(Records<Clear>),
}

/// A message. A header alone, without groups, is one too.
#[derive(Drop)]
pub struct Message {
    /// The checksum of the rules whose numbers its inserts give: the 16 bytes of an MD5 digest, in its order.
    pub checksum: [u8; 16],
    /// Its groups, which act in their order.
    pub groups: Records<Group>,
}
