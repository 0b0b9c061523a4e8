//! Entries in bytes.
ghost use Rattle.std.specs.Prelude.{◌≡◌, ◌++◌, ◌∷◌, [], replicate, OnOk};
ghost use Rattle.pf_form.specs.Bytes.Forms.{back, number, onto};

use crate::entry::Entry;
use pf_addr::{Addr, Net, push_addr, read_addr, read_family};
use pf_form::bytes::{
    Fault, Fitting, Layout, Ordered, Rest, Undecoded, expect, push_bytes, read_flag, read_u8,
};
use pf_key::Key;
use std::alloc::{AllocError, Global};

/// 20 bytes: the family, 4 or 6; the prefix length; 1 if it is negated, else 0; a zero; and the network's first address in 16 bytes,
/// big-endian, an IPv4 address in the first four. It is the same in each version.
///
/// Bytes that aren't an entry's fail where they go wrong; host bits that aren't zero and a prefix longer than an address fail at the first
/// byte. It takes no memory.
impl Layout for Entry {
    ghost use Rattle.pf_table.specs.EntryForms.{EntryShape, entry, plain_entry, entry_before};

    ghost shape = { EntryShape };

    ghost form = { λ version. entry };

    ghost plain = { plain_entry };

    ghost before = { entry_before };

    #[tactic(auto, unfolding(crate::specs::EntryForms::entry))]
    fn read<'a>(_alloc: Global, _version: u8, from: &mut Rest<'a>) -> Result<Entry, Undecoded> {
        let left = from.len();
        let family = read_family(from)?;
        let length = read_u8(from)?;
        let is_negated = read_flag(from)?;
        expect(from, &[0])?;
        let first = read_addr(family, from)?;
        match Net::starting_at(first, length) {
            Some(net) => Ok(Entry::new(net, is_negated)),
            None => Err(Undecoded::Fault(Fault::Bad(left))),
        }
    }

    #[tactic(auto, unfolding(crate::specs::EntryForms::entry, pf_addr::specs::NetForms::family, pf_form::specs::Bytes::Codes::below))]
    fn write(&self, _version: u8, out: &mut Vec<u8>) -> Result<(), AllocError> {
        let net = self.net();
        let (length, negated) = (net.prefix_len(), u8::from(self.is_negated()));
        match net.addr() {
            Addr::V4(address) => push_v4(out, length, negated, address),
            addr => {
                push_front(out, net.family().number(), length, negated)?;
                push_addr(out, addr)
            }
        }
    }
}

// Appends three numbers of one byte each, and a zero, in one push: a snapshot has tens of thousands of entries.
#[tactic(auto, using(crate::proofs::Written::four_pushed))]
fn push_front(out: &mut Vec<u8>, family: u8, length: u8, negated: u8) -> Result<(), AllocError>
    ensures { OnOk result (out.new.items
        ≡ onto (number 1) negated (onto (number 1) length (onto (number 1) family out.old.items)) ++ 0 ∷ []) }
{
    push_bytes(out, &[family, length, negated, 0])
}

// Appends an entry of IPv4 in one push.
#[tactic(auto, unfolding(pf_form::specs::Bytes::BasicForms::number_bytes), using(crate::proofs::Written::entry_pushed))]
fn push_v4(out: &mut Vec<u8>, length: u8, negated: u8, address: u32) -> Result<(), AllocError>
    ensures { OnOk result (out.new.items ≡ onto (back (number 4) (replicate 12 0)) address
        (onto (number 1) negated (onto (number 1) length (onto (number 1) 4 out.old.items)) ++ 0 ∷ [])) }
{
    let a = address.to_be_bytes();
    push_bytes(
        out,
        &[
            4, length, negated, 0, a[0], a[1], a[2], a[3], 0, 0, 0, 0, 0, 0, 0, 0, 0, 0, 0, 0,
        ],
    )
}

impl Fitting for Entry {
    #[tactic(auto, using(crate::specs::Laws::EntryForms::entry_fits))]
    fn fits(&self, _version: u8) {
        // the contract of `net` says that the network is one
        let _net = self.net();
    }
}

impl Ordered for Entry {
    #[tactic(auto, using(crate::specs::Laws::EntryForms::entry_again))]
    fn comes_before(&self, other: &Entry) -> bool {
        self.net().order(&other.net()).is_lt()
    }
}
