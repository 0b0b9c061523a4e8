//! Rows in fewer bytes.
ghost use Rattle.std.specs.Prelude.{◌≡◌, ◌*◌, ◌^◌, IfNone, IfSome};
ghost use Rattle.pf_trie.specs.NarrowRows.{IsNarrow};

use crate::rows::Row;
use crate::signs::Signs;
use std::marker::Model;

/// How many of an address's last bits a narrow row leaves out. Definitions cite it.
pub(crate) const LEFT_OUT: u8 = 96;

/// A row in 12 bytes, where others have 48: its address ends with 96 zeros, and its signs are those of prefixes that leave these bits free.
/// Where the addresses of IPv4 are the first bits of longer ones, each row of theirs is such. Contracts see the row.
#[derive(Clone, Copy)]
pub struct NarrowRow {
    first: u32,
    plain: u32,
    negated: u32,
}

impl Model for NarrowRow {
    ghost use Rattle.pf_trie.specs.declared.rows.Row.{Row};
    ghost use Rattle.pf_trie.specs.NarrowRows.{widened, narrowed, narrowed-widened};

    ghost Value = { Row };

    ghost view = { widened };

    ghost inverse = { narrowed };

    ghost inverse_ok = { λ r _. narrowed-widened r };
}

// A number with that many zeros behind it.
fn widened(number: u32) -> u128
    ensures { result ≡ number * 2 ^ LEFT_OUT }
{
    u128::from(number) << LEFT_OUT
}

impl NarrowRow {
    /// The row.
    pub(crate) fn row(self) -> Row
        ensures { result ≡ self }
    {
        Row {
            first: widened(self.first),
            signs: Signs {
                plain: widened(self.plain),
                negated: widened(self.negated),
            },
        }
    }

    /// This row, if it is such a row.
    #[tactic(auto, using(crate::proofs::LastZeros::whole), unfolding(crate::specs::NarrowRows::IsNarrow))]
    pub(crate) fn of(row: Row) -> Option<NarrowRow>
        ensures row { IfSome result (λ narrow. narrow ≡ row) }
        ensures wide { IfNone result (¬ IsNarrow row) }
    {
        let narrow = NarrowRow {
            first: (row.first >> LEFT_OUT) as u32,
            plain: (row.signs.plain >> LEFT_OUT) as u32,
            negated: (row.signs.negated >> LEFT_OUT) as u32,
        };
        let Row { first, signs } = narrow.row();
        if first != row.first
            || signs.plain != row.signs.plain
            || signs.negated != row.signs.negated
        {
            return None;
        }
        Some(narrow)
    }
}
