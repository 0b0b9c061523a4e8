//! Levels of all addresses.
ghost use Rattle.pf_trie.specs.Tries.{IsRooted};

use crate::draft::Draft;
use crate::found::Found;
use crate::index::PrefixIndex;
use crate::level::Level;
use crate::prefix::Prefix;
use std::alloc::{AllocError, Global};

/// The signs of all addresses: that of the prefix that contains all of them, and the level with those of all others.
pub struct Rooted<L: Level> {
    all: Option<bool>,
    level: L,
}

impl<L: Level> Drop for Rooted<L> {
    fn drop(self) {
        let Rooted { all: _, level: _ } = self;
    }
}

impl<L: Level> PrefixIndex for Rooted<L> {
    ghost has = { λ s t. IsRooted L.holds s t.all t.level };

    fn empty() -> Rooted<L> {
        Rooted {
            all: None,
            level: L::empty(),
        }
    }

    fn of(alloc: Global, draft: Draft) -> Result<Rooted<L>, AllocError> {
        let (all, rows) = draft.parts();
        Ok(Rooted {
            all,
            level: L::of_rows(alloc, 128, 0, rows)?,
        })
    }

    fn shared(&self) -> Result<Rooted<L>, AllocError> {
        Ok(Rooted {
            all: self.all,
            level: self.level.shared()?,
        })
    }

    fn longest(&self, address: u128) -> Option<Found> {
        match self.level.longest(128, address) {
            Some(found) => Some(found),
            None => Some(Found {
                free: 128,
                sign: self.all?,
            }),
        }
    }

    fn replaced(
        self,
        alloc: Global,
        prefix: Prefix,
        sign: Option<bool>,
    ) -> Result<Rooted<L>, AllocError> {
        let Rooted { all, mut level } = self;
        if prefix.free == 128 {
            return Ok(Rooted { all: sign, level });
        }
        level.replace(alloc, 128, prefix, sign)?;
        Ok(Rooted { all, level })
    }
}
