//! Four levels, one below the other.
use crate::branch::Branch;
use crate::found::Found;
use crate::level::Level;
use crate::prefix::Prefix;
use crate::row_list::RowList;
use std::alloc::{AllocError, Global};

/// Four levels, one below the other.
///
/// A proof spells out all levels of a type at each call; here it is done once for these.
pub struct FourLevels<T: Level> {
    levels: Branch<Branch<Branch<Branch<T>>>>,
}

impl<T: Level> Drop for FourLevels<T> {
    fn drop(self) {
        let FourLevels { levels: _ } = self;
    }
}

impl<T: Level> Level for FourLevels<T> {
    ghost holds = { λ s top front l. ⟦<Branch<Branch<Branch<Branch<T>>>> as Level>⟧.holds s top front l.levels };

    fn empty() -> FourLevels<T> {
        FourLevels {
            levels: Level::empty(),
        }
    }

    fn of_rows(
        alloc: Global,
        top: u8,
        address: u128,
        rows: RowList,
    ) -> Result<FourLevels<T>, AllocError> {
        Ok(FourLevels {
            levels: Level::of_rows(alloc, top, address, rows)?,
        })
    }

    fn shared(&self) -> Result<FourLevels<T>, AllocError> {
        Ok(FourLevels {
            levels: self.levels.shared()?,
        })
    }

    fn longest(&self, top: u8, address: u128) -> Option<Found> {
        self.levels.longest(top, address)
    }

    fn replace(
        &mut self,
        alloc: Global,
        top: u8,
        prefix: Prefix,
        sign: Option<bool>,
    ) -> Result<(), AllocError> {
        self.levels.replace(alloc, top, prefix, sign)
    }

    ghost agrees = { λ s t top front l same is. ⟦<Branch<Branch<Branch<Branch<T>>>> as Level>⟧.agrees s t top front l.levels same is };
}
