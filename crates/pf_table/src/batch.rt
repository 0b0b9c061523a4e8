//! Gathers the entries of an edit before the table is looked at.
ghost use Rattle.std.specs.Prelude.{◌≡◌, All, IfOk};
ghost use Rattle.pf_addr.specs.{Address.IsNetwork, Refusing.Refuses};
ghost use Rattle.pf_table.specs.declared.refusal.TableRefusal.TheVariants.{Memory};
ghost use Rattle.pf_table.specs.Edits.{replaced, conflict_refusal};

use crate::change::{is_sign, sign_of, with_entry};
use crate::entry::Entry;
use crate::entry_map::EntryMap;
use crate::refusal::TableRefusal;
use std::alloc::Global;

/// The networks that the entries of an edit name, with their signs. Refuses with `Conflict` or `Memory`.
pub(crate) fn gather(alloc: Global, entries: &[Entry]) -> Result<EntryMap, TableRefusal>
    ensures refused { Refuses Memory result (conflict_refusal entries.now) }
    ensures named { IfOk result (λ m. m ≡ replaced entries.now) }
    ensures networks { IfOk result (λ _. All (λ x. IsNetwork x.0) entries.now) }
{
    let mut named = EntryMap::empty();
    for (at, entry) in entries.iter().enumerate() {
        let there = sign_of(&named, entry.net());
        if is_sign(!entry.is_negated(), there) {
            return Err(TableRefusal::Conflict { at });
        }
        named = with_entry(alloc, named, there, entry)?;
    }
    Ok(named)
}
