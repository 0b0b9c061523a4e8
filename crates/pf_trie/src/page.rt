//! Pages of rows.
ghost use Rattle.std.specs.Prelude.{◌≡◌, ℕ, ◌/◌, ◌^◌, ◌<◌, [], IfOk, OnOk};
ghost use Rattle.pf_trie.specs.{Prefixes.{AllSigns, Finds, with_sign}, Rows.{AreRows, HasSigns}};
ghost use Rattle.pf_trie.specs.Agreeing.{rows_agree};
ghost use Rattle.std.specs.Arc.{arc_value};

use crate::found::Found;
use crate::indexed::Indexed;
use crate::level::Level;
use crate::prefix::Prefix;
use crate::row_list::RowList;
use crate::signs::Signs;
use std::alloc::{AllocError, Global};
use std::marker::Model;
use std::sync::Arc;

/// Rows in order, which all tries share that hold the page. Contracts see the list of them.
#[derive(Drop)]
pub struct Page {
    rows: Option<Arc<Indexed>>,
}

impl Model for Page {
    ghost use Rattle.std.specs.Prelude.{List};
    ghost use Rattle.pf_trie.specs.declared.rows.Row.{Row};
    ghost use Rattle.pf_trie.specs.Pages.{shared_items};

    ghost Value = { List Row };

    ghost view = { λ p. shared_items p.rows };
}

// Rows for one owner: themselves where nobody else holds them, or else a copy with room for one more. `AllocError`: nothing is left of this
// owner's rows.
fn own(alloc: Global, rows: Arc<Indexed>) -> Result<Indexed, AllocError>
    ensures { IfOk result (λ own. own ≡ arc_value rows) }
{
    match Arc::try_unwrap(rows) {
        Ok(alone) => Ok(alone),
        Err(shared) => shared.copied(alloc),
    }
}

// Replaces the sign at a prefix in rows that nobody else holds, or takes it out. `AllocError`: they are gone.
fn edit_own(
    alloc: Global,
    rows: &mut Indexed,
    prefix: Prefix,
    sign: Option<bool>,
) -> Result<(), AllocError>
    requires { prefix.free < 128 }
    ensures { OnOk result ((s : AllSigns) (top front : ℕ) → AreRows s top front rows.old → prefix.free < top → prefix.address / 2 ^ top ≡ front → AreRows (with_sign s prefix sign) top front rows.new) }
{
    let own = std::mem::replace(rows, Indexed::none(alloc));
    *rows = own.edited(alloc, prefix, sign)?;
    Ok(())
}

// The same of rows that others may hold: these keep them as they were, by a copy. `AllocError`: nothing says which rows they are then.
fn edit_shared(
    alloc: Global,
    rows: &mut Arc<Indexed>,
    prefix: Prefix,
    sign: Option<bool>,
) -> Result<(), AllocError>
    requires { prefix.free < 128 }
    ensures { OnOk result ((s : AllSigns) (top front : ℕ) → AreRows s top front (arc_value rows.old) → prefix.free < top → prefix.address / 2 ^ top ≡ front → AreRows (with_sign s prefix sign) top front (arc_value rows.new)) }
{
    if let Some(own) = Arc::get_mut(rows) {
        return edit_own(alloc, own, prefix, sign);
    }
    let copy = rows.copied_and_edited(alloc, prefix, sign)?;
    *rows = Arc::new(alloc, copy)?;
    Ok(())
}

impl Page {
    /// Its rows for one owner: themselves where nobody else holds them, or else a copy with room for one more. `AllocError`: nothing is left
    /// of the page.
    pub(crate) fn own_rows(self, alloc: Global) -> Result<RowList, AllocError>
        ensures { IfOk result (λ rows. rows ≡ self) }
    {
        let Page { rows } = self;
        match rows {
            Some(rows) => Ok(own(alloc, rows)?.into_rows()),
            None => Ok(RowList::none(alloc)),
        }
    }

    /// No rows. It takes no memory.
    pub(crate) fn none() -> Page
        ensures { result ≡ [] }
    {
        Page { rows: None }
    }

    /// The page of these rows. `AllocError`: nothing is left of them.
    pub(crate) fn of(alloc: Global, rows: RowList) -> Result<Page, AllocError>
        ensures { IfOk result (λ p. p ≡ rows) }
    {
        Page::holding(alloc, Indexed::of(rows))
    }

    // The page of rows with their index. `AllocError`: nothing is left of them.
    fn holding(alloc: Global, rows: Indexed) -> Result<Page, AllocError>
        ensures { IfOk result (λ p. p ≡ rows) }
    {
        if rows.rows().len() == 0 {
            return Ok(Page::none());
        }
        Ok(Page {
            rows: Some(Arc::new(alloc, rows)?),
        })
    }

    /// Whether its rows are few enough for one page.
    pub(crate) fn fits(&self) -> bool {
        match &self.rows {
            Some(rows) => rows.rows().fit_page(),
            None => true,
        }
    }

    /// Replaces the sign at a prefix, or takes it out. Rows that nobody else holds are changed in place. `AllocError`: nothing says which rows
    /// it has then.
    pub(crate) fn edit(
        &mut self,
        alloc: Global,
        prefix: Prefix,
        sign: Option<bool>,
    ) -> Result<(), AllocError>
        requires { prefix.free < 128 }
        ensures { OnOk result ((s : AllSigns) (top front : ℕ) → AreRows s top front self.old → prefix.free < top → prefix.address / 2 ^ top ≡ front → AreRows (with_sign s prefix sign) top front self.new) }
    {
        if let Some(rows) = &mut self.rows {
            edit_shared(alloc, rows, prefix, sign)?;
            self.let_go();
            return Ok(());
        }
        let none = Indexed::none(alloc);
        *self = Page::holding(alloc, none.edited(alloc, prefix, sign)?)?;
        Ok(())
    }

    // Holds no memory where there are no rows.
    fn let_go(&mut self)
        ensures { self.new ≡ self.old }
    {
        let is_empty = match &self.rows {
            Some(rows) => rows.rows().len() == 0,
            None => false,
        };
        if is_empty {
            *self = Page::none();
        }
    }

    /// The same rows, shared and not copied. `AllocError`: they can't have another owner.
    pub(crate) fn another(&self) -> Result<Page, AllocError>
        ensures { IfOk result (λ p. p ≡ self.now) }
    {
        match &self.rows {
            Some(rows) => Ok(Page {
                rows: Some(Arc::try_clone(rows)?),
            }),
            None => Ok(Page::none()),
        }
    }

    // The signs of an address's prefixes.
    fn signs(&self, address: u128) -> Signs
        ensures { (s : AllSigns) (top front : ℕ) → AreRows s top front self.now → address / 2 ^ top ≡ front → HasSigns s 0 top address result }
    {
        match &self.rows {
            Some(rows) => rows.signs(address),
            None => Signs::none(),
        }
    }

    /// The sign of the longest prefix that contains an address. It takes no memory.
    pub(crate) fn found(&self, address: u128) -> Option<Found>
        ensures { (s : AllSigns) (top front : ℕ) → AreRows s top front self.now → address / 2 ^ top ≡ front → Finds s 0 top address result }
    {
        self.signs(address).longest()
    }
}

impl Level for Page {
    ghost holds = { λ s top front p. AreRows s top front p };

    fn empty() -> Page {
        Page::none()
    }

    fn of_rows(alloc: Global, _top: u8, _address: u128, rows: RowList) -> Result<Page, AllocError> {
        Page::of(alloc, rows)
    }

    fn shared(&self) -> Result<Page, AllocError> {
        self.another()
    }

    fn longest(&self, _top: u8, address: u128) -> Option<Found> {
        self.found(address)
    }

    fn replace(
        &mut self,
        alloc: Global,
        _top: u8,
        prefix: Prefix,
        sign: Option<bool>,
    ) -> Result<(), AllocError> {
        self.edit(alloc, prefix, sign)
    }

    ghost agrees = { λ s t top front p. rows_agree s t top front p };
}
