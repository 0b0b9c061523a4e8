//! Tables as values of maps.
ghost use Rattle.pf_map.specs.ListMaps.{unless_empty, kept_again};

use crate::table::Table;
use pf_map::Content;

impl Content for Table {
    ghost kept = { unless_empty };

    // An empty table doesn't exist.
    fn is_none(&self) -> bool {
        self.is_empty()
    }

    ghost keeps = { kept_again };
}
