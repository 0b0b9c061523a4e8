//! Pages over parts that are there already, from the leaves up.
ghost use Rattle.std.specs.Prelude.{◌≡◌, ◌++◌, map, IfOk};
ghost use Rattle.pf_map.specs.MapParts.{joined};

use crate::entry::Holder;
use crate::level::{Level, PAGE_LIMIT};
use crate::page::Page;
use crate::part::Part;
use crate::slot::Slot;
use pf_key::Key;
use std::alloc::{AllocError, Global};

/// These entries in pages, in order, each page but the last with as many as it may have. `AllocError`: nothing is made.
pub(crate) fn leaves<K: Key, V: Drop, E: Holder<K, V>, L: Page<K, V, E>>(
    alloc: Global,
    entries: &[E],
) -> Result<Vec<Slot<K, V, E, L>>, AllocError>
    ensures { IfOk result (λ v. joined v.items ≡ map E.pair entries.now) }
{
    let mut pages = Vec::with_capacity(alloc, entries.len() / PAGE_LIMIT + 1)?;
    let mut rest = entries;
    while !rest.is_empty() {
        let (page, others) = rest.split_at(rest.len().min(PAGE_LIMIT));
        pages.push(Slot::new(L::of_entries(alloc, page)?))?;
        rest = others;
    }
    Ok(pages)
}

// The pages, and behind them one of these parts if there are any.
fn with_page<K: Key, V: Drop, E: Holder<K, V>, P: Part<K, V, E>>(
    alloc: Global,
    mut pages: Vec<Slot<K, V, E, Level<K, V, E, P>>>,
    page: Vec<Slot<K, V, E, P>>,
) -> Result<Vec<Slot<K, V, E, Level<K, V, E, P>>>, AllocError>
    ensures { IfOk result (λ v. joined v.items ≡ joined pages.items ++ joined page.items) }
{
    if page.is_empty() {
        return Ok(pages);
    }
    pages.push(Slot::new(Level::of(alloc, page)?))?;
    Ok(pages)
}

/// These pages in pages, likewise. `AllocError`: nothing is left of them.
pub(crate) fn middles<K: Key, V: Drop, E: Holder<K, V>, P: Part<K, V, E>>(
    alloc: Global,
    parts: Vec<Slot<K, V, E, P>>,
) -> Result<Vec<Slot<K, V, E, Level<K, V, E, P>>>, AllocError>
    ensures { IfOk result (λ v. joined v.items ≡ joined parts.items) }
{
    let mut pages = Vec::with_capacity(alloc, parts.len() / PAGE_LIMIT + 1)?;
    let mut page = Vec::with_capacity(alloc, PAGE_LIMIT)?;
    for part in parts {
        page.push(part)?;
        if page.len() == PAGE_LIMIT {
            pages = with_page(alloc, pages, page)?;
            page = Vec::with_capacity(alloc, PAGE_LIMIT)?;
        }
    }
    let pages = with_page(alloc, pages, page)?;
    Ok(pages)
}
