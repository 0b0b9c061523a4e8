//! Signs that a trie is to be made of.
ghost use Rattle.std.specs.Prelude.{◌≡◌, ℕ, ◌≤◌, Some, None, IfOk};
ghost use Rattle.pf_trie.specs.{Prefixes.{AllSigns, with_sign}, Tries.IsDraft};

use crate::in_order::with_sign;
use crate::prefix::Prefix;
use crate::row_list::RowList;
use std::alloc::{AllocError, Global};
use std::marker::Model;

/// Signs at prefixes, before a trie is made of them: few steps for each prefix where they come in the order of their first addresses, and
/// wider ones first.
#[derive(Drop)]
pub struct Draft {
    all: Option<bool>,
    rows: RowList,
}

impl Model for Draft {
    ghost use Rattle.std.specs.Prelude.{List, Bool, Option};
    ghost use Rattle.pf_trie.specs.declared.rows.Row.{Row};

    ghost Value = { Option Bool × List Row };

    ghost view = { λ d. (d.all, d.rows) };
}

impl Draft {
    /// No signs. It takes no memory.
    pub fn none(alloc: Global) -> Draft
        ensures { (s : AllSigns) → ((k n : ℕ) → s k n ≡ None) → IsDraft s result }
    {
        Draft {
            all: None,
            rows: RowList::none(alloc),
        }
    }

    /// With a sign at a prefix, in the place of one that it has. `AllocError`: nothing is left of it.
    pub fn with(self, alloc: Global, prefix: Prefix, sign: bool) -> Result<Draft, AllocError>
        requires { prefix.free ≤ 128 }
        ensures { IfOk result (λ d. (s : AllSigns) → IsDraft s self → IsDraft (with_sign s prefix (Some sign)) d) }
    {
        let Draft { all, rows } = self;
        if prefix.free == 128 {
            return Ok(Draft {
                all: Some(sign),
                rows,
            });
        }
        Ok(Draft {
            all,
            rows: with_sign(alloc, rows, prefix, sign)?,
        })
    }

    /// The sign of the prefix that contains all addresses, and rows with those of all others.
    pub(crate) fn parts(self) -> (Option<bool>, RowList)
        ensures { result ≡ self }
    {
        let Draft { all, rows } = self;
        (all, rows)
    }
}
