//! Sixteen levels, one below the other.
use crate::found::Found;
use crate::four::FourLevels;
use crate::level::Level;
use crate::prefix::Prefix;
use crate::row_list::RowList;
use std::alloc::{AllocError, Global};

/// Sixteen levels, one below the other.
///
/// A proof spells out all levels of a type at each call; here it is done once for these.
pub struct SixteenLevels<T: Level> {
    levels: FourLevels<FourLevels<FourLevels<FourLevels<T>>>>,
}

impl<T: Level> Drop for SixteenLevels<T> {
    fn drop(self) {
        let SixteenLevels { levels: _ } = self;
    }
}

impl<T: Level> Level for SixteenLevels<T> {
    ghost holds = { λ s top front l. ⟦<FourLevels<FourLevels<FourLevels<FourLevels<T>>>> as Level>⟧.holds s top front l.levels };

    fn empty() -> SixteenLevels<T> {
        SixteenLevels {
            levels: Level::empty(),
        }
    }

    fn of_rows(
        alloc: Global,
        top: u8,
        address: u128,
        rows: RowList,
    ) -> Result<SixteenLevels<T>, AllocError> {
        Ok(SixteenLevels {
            levels: Level::of_rows(alloc, top, address, rows)?,
        })
    }

    fn shared(&self) -> Result<SixteenLevels<T>, AllocError> {
        Ok(SixteenLevels {
            levels: self.levels.shared()?,
        })
    }

    fn longest(&self, top: u8, address: u128) -> Option<Found> {
        self.levels.longest(top, address)
    }

    fn replace(
        &mut self,
        alloc: Global,
        top: u8,
        prefix: Prefix,
        sign: Option<bool>,
    ) -> Result<(), AllocError> {
        self.levels.replace(alloc, top, prefix, sign)
    }

    ghost agrees = { λ s t top front l same is. ⟦<FourLevels<FourLevels<FourLevels<FourLevels<T>>>> as Level>⟧.agrees s t top front l.levels same is };
}
