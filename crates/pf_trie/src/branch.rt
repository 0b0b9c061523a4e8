//! Branches: a page of rows, or a fork once they are too many for it.
ghost use Rattle.std.specs.{Prelude.{ℕ, ◌+◌, ◌/◌, ◌^◌, ◌<◌, ◌≤◌, IfOk, OnOk}, Arc.arc_value};
ghost use Rattle.pf_trie.specs.{Prefixes.{AllSigns, with_sign}, Rows.AreRows, Forks.{IsBranch, IsFork}};
ghost use Rattle.pf_trie.specs.Agreeing.{branch_agrees};
ghost use Rattle.pf_trie.specs.declared.slot.TheConstants.{SLOTS};

use crate::fork::Fork;
use crate::found::Found;
use crate::level::Level;
use crate::page::Page;
use crate::prefix::Prefix;
use crate::row_list::RowList;
use crate::slot::SLOT_BITS;
use std::alloc::{AllocError, Global};
use std::sync::Arc;

/// Signs in a page or, if its rows are too many, in a fork, which all tries share that hold it.
pub struct Branch<T: Level> {
    // where there is a fork the page says nothing
    page: Page,
    fork: Option<Arc<Fork<T>>>,
}

impl<T: Level> Drop for Branch<T> {
    fn drop(self) {
        let Branch { page: _, fork: _ } = self;
    }
}

// Replaces the sign at a prefix in a fork: others that hold it keep it as it was, by a copy. `AllocError`: nothing says which signs it holds then.
fn replace_in_fork<T: Level>(
    alloc: Global,
    fork: &mut Arc<Fork<T>>,
    at: u8,
    prefix: Prefix,
    sign: Option<bool>,
) -> Result<(), AllocError>
    requires at { at ≤ 124 }
    requires free { prefix.free < 128 }
    ensures { OnOk result ((s : AllSigns) → prefix.free < at + SLOT_BITS → IsFork T.holds s at (prefix.address / 2 ^ at / SLOTS) (arc_value fork.old) → IsFork T.holds (with_sign s prefix sign) at (prefix.address / 2 ^ at / SLOTS) (arc_value fork.new)) }
{
    if let Some(own) = Arc::get_mut(fork) {
        return own.replace(alloc, at, prefix, sign);
    }
    let mut copy = fork.copied(alloc)?;
    copy.replace(alloc, at, prefix, sign)?;
    *fork = Arc::new(alloc, copy)?;
    Ok(())
}

impl<T: Level> Branch<T> {
    // The branch of this page.
    fn of_page(page: Page) -> Branch<T>
        ensures { (s : AllSigns) (top front : ℕ) → AreRows s top front page → IsBranch T.holds s top front result.page result.fork }
    {
        Branch { page, fork: None }
    }

    // The branch of a page that may have too many rows, whose addresses begin as this one does. `AllocError`: nothing is left of the page.
    fn of_any_page(
        alloc: Global,
        top: u8,
        address: u128,
        page: Page,
    ) -> Result<Branch<T>, AllocError>
        requires { top ≤ 128 }
        ensures { IfOk result (λ b. (s : AllSigns) → AreRows s top (address / 2 ^ top) page → IsBranch T.holds s top (address / 2 ^ top) b.page b.fork) }
    {
        if page.fits() {
            return Ok(Branch::of_page(page));
        }
        Branch::of_rows(alloc, top, address, page.own_rows(alloc)?)
    }
}

impl<T: Level> Level for Branch<T> {
    ghost holds = { λ s top front b. IsBranch T.holds s top front b.page b.fork };

    fn empty() -> Branch<T> {
        Branch::of_page(Page::none())
    }

    fn of_rows(
        alloc: Global,
        top: u8,
        address: u128,
        rows: RowList,
    ) -> Result<Branch<T>, AllocError> {
        if rows.fit_page() || top < SLOT_BITS {
            return Ok(Branch::of_page(Page::of(alloc, rows)?));
        }
        let fork = Fork::of(alloc, top - SLOT_BITS, address, rows)?;
        Ok(Branch {
            page: Page::none(),
            fork: Some(Arc::new(alloc, fork)?),
        })
    }

    fn shared(&self) -> Result<Branch<T>, AllocError> {
        match &self.fork {
            Some(fork) => Ok(Branch {
                page: Page::none(),
                fork: Some(Arc::try_clone(fork)?),
            }),
            None => Ok(Branch::of_page(self.page.another()?)),
        }
    }

    fn longest(&self, top: u8, address: u128) -> Option<Found> {
        match &self.fork {
            Some(fork) => fork.longest(top.saturating_sub(SLOT_BITS), address),
            None => self.page.found(address),
        }
    }

    fn replace(
        &mut self,
        alloc: Global,
        top: u8,
        prefix: Prefix,
        sign: Option<bool>,
    ) -> Result<(), AllocError> {
        if let Some(fork) = &mut self.fork {
            return replace_in_fork(alloc, fork, top.saturating_sub(SLOT_BITS), prefix, sign);
        }
        self.page.edit(alloc, prefix, sign)?;
        if self.page.fits() {
            return Ok(());
        }
        let page = std::mem::replace(&mut self.page, Page::none());
        *self = Branch::of_any_page(alloc, top, prefix.address, page)?;
        Ok(())
    }

    ghost agrees = { λ s t top front b. branch_agrees T.holds T.agrees s t top front b.page b.fork };
}
