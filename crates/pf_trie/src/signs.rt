//! The signs of the prefixes of one address.
ghost use Rattle.std.specs.Prelude.{◌≡◌, ℕ, ◌<◌, ◌==◌, nat_le, cond, None};
ghost use Rattle.pf_trie.specs.Signs.{sign_of, below_of, IsShortest};

use crate::found::Found;

/// The signs of an address's prefixes, by how many bits each leaves free, fewer than 128. Where both bits are set the sign is plain.
#[derive(Clone, Copy)]
pub struct Signs {
    /// A bit for each prefix that has an entry that isn't negated.
    pub plain: u128,
    /// A bit for each prefix that has a negated entry.
    pub negated: u128,
}

impl Signs {
    /// No prefix has a sign.
    pub(crate) fn none() -> Signs
        ensures { (k : ℕ) → sign_of result k ≡ None }
    {
        Signs {
            plain: 0,
            negated: 0,
        }
    }

    /// These, and at one prefix this sign or none.
    pub(crate) fn with(self, free: u8, sign: Option<bool>) -> Signs
        requires { free < 128 }
        ensures { (k : ℕ) → sign_of result k ≡ cond (k == free) sign (sign_of self k) }
    {
        let bit = 1u128 << free;
        match sign {
            Some(false) => Signs {
                plain: self.plain | bit,
                negated: self.negated & !bit,
            },
            Some(true) => Signs {
                plain: self.plain & !bit,
                negated: self.negated | bit,
            },
            None => Signs {
                plain: self.plain & !bit,
                negated: self.negated & !bit,
            },
        }
    }

    /// Those of the prefixes that leave at least so many bits free.
    pub(crate) fn from(self, least: u8) -> Signs
        ensures { (k : ℕ) → sign_of result k ≡ cond (nat_le least k) (sign_of self k) None }
    {
        if least >= 128 {
            return Signs::none();
        }
        Signs {
            plain: self.plain >> least << least,
            negated: self.negated >> least << least,
        }
    }

    /// Those of the prefixes that leave fewer bits free.
    pub(crate) fn below(self, most: u8) -> Signs
        requires { most < 128 }
        ensures { result ≡ below_of most self }
    {
        let mask = (1u128 << most) - 1;
        Signs {
            plain: self.plain & mask,
            negated: self.negated & mask,
        }
    }

    /// The sign of the longest prefix that has one, and how many bits it leaves free.
    pub(crate) fn longest(self) -> Option<Found>
        ensures { IsShortest self result }
    {
        let any = self.plain | self.negated;
        if any == 0 {
            return None;
        }
        let free = any.trailing_zeros() as u8;
        Some(Found {
            free,
            sign: self.plain >> free & 1 == 0,
        })
    }
}
