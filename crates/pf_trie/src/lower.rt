//! The levels of the last 64 bits.
use crate::found::Found;
use crate::level::Level;
use crate::page::Page;
use crate::prefix::Prefix;
use crate::row_list::RowList;
use crate::sixteen::SixteenLevels;
use std::alloc::{AllocError, Global};

/// The levels of an address's last 64 bits.
///
/// It has no type parameter, so a proof about the levels above it doesn't spell out these.
pub struct LowerLevels {
    levels: SixteenLevels<Page>,
}

impl Drop for LowerLevels {
    fn drop(self) {
        let LowerLevels { levels: _ } = self;
    }
}

impl Level for LowerLevels {
    ghost holds = { λ s top front l. ⟦<SixteenLevels<Page> as Level>⟧.holds s top front l.levels };

    fn empty() -> LowerLevels {
        LowerLevels {
            levels: Level::empty(),
        }
    }

    fn of_rows(
        alloc: Global,
        top: u8,
        address: u128,
        rows: RowList,
    ) -> Result<LowerLevels, AllocError> {
        Ok(LowerLevels {
            levels: Level::of_rows(alloc, top, address, rows)?,
        })
    }

    fn shared(&self) -> Result<LowerLevels, AllocError> {
        Ok(LowerLevels {
            levels: self.levels.shared()?,
        })
    }

    fn longest(&self, top: u8, address: u128) -> Option<Found> {
        self.levels.longest(top, address)
    }

    fn replace(
        &mut self,
        alloc: Global,
        top: u8,
        prefix: Prefix,
        sign: Option<bool>,
    ) -> Result<(), AllocError> {
        self.levels.replace(alloc, top, prefix, sign)
    }

    ghost agrees = { λ s t top front l same is. ⟦<SixteenLevels<Page> as Level>⟧.agrees s t top front l.levels same is };
}
