//! Laws of networks and of texts. Each function's contract is the law; its body does nothing.
ghost use Rattle.std.specs.Prelude.{◌≡◌, ◌↔◌, ℕ, ◌^◌, ◌<◌, ◌≤◌, true, List, Ok};
ghost use Rattle.pf_addr.specs.declared.{addr.Addr.Addr, addr.TheConstants.{V4_BITS, V6_BITS}, ipv6_text.TheConstants.{GROUPS, GROUP_DIGITS}};
ghost use Rattle.pf_addr.specs.declared.reading.TheConstants.{NUMBER_DIGITS};
ghost use Rattle.pf_addr.specs.Address.{PlainNet, width, family_of, network_from, contains, IsAddr, BeginsAs, Agree};
ghost use Rattle.pf_addr.specs.{FaultCases.{IsAddrFault, IsNetFault}, Grammar.{SpellsAddr, SpellsNet}, Reading.{addr_at, net_at}};
ghost use Rattle.pf_addr.specs.{Spelling.{addr_text, net_text}, Laws.Spelling.{IsNetwork, IsNetWord}};
ghost use Rattle.pf_addr.specs.NetForms.{family, family_byte, address_in, first_number, is_network, network_at};
ghost use Rattle.pf_form.specs.{Form.FaultsFound.TellsFaults, Bytes.Forms.Fits};

use crate::addr::Addr;

/// A network contains exactly the addresses of its family whose first bits are its own, bit by bit.
#[tactic(auto, using(crate::specs::Laws::Bits::contains_by_bits, crate::specs::Laws::Bits::network_agrees))]
pub fn networks_contain_by_bits()
    ensures bits { (net : PlainNet) (a : Addr) → IsNetwork net → IsAddr a → (contains net a ≡ true) ↔ BeginsAs net a }
    // the network of an address and a length contains the addresses that share its first `len` bits
    ensures shared { (a b : Addr) (len : ℕ) → len ≤ width (family_of b) → IsAddr a → IsAddr b
        → (contains (network_from b len) a ≡ true) ↔ Agree len a b }
{}

/// The text written for an address spells it.
#[tactic(auto, using(crate::specs::Laws::Spelling::addr_text_spells))]
pub fn written_addr_is_read_again()
    ensures { (a : Addr) → IsAddr a → SpellsAddr (addr_text a) a }
{}

/// The text written for a network spells it.
#[tactic(auto, using(crate::specs::Laws::Spelling::net_text_spells))]
pub fn written_net_is_read_again()
    ensures { (net : PlainNet) → IsNetwork net → SpellsNet (net_text net) net }
{}

/// An address is read from a text exactly where the text spells it. So a text spells at most one address.
#[tactic(auto, using(crate::specs::Laws::Reading::addr_found, crate::specs::Laws::Reading::addr_only))]
pub fn addrs_are_read_as_spelled()
    ensures read { (text : List ℕ) (a : Addr) → addr_at text ≡ Ok a → SpellsAddr text a }
    ensures spelled { (text : List ℕ) (a : Addr) → SpellsAddr text a → addr_at text ≡ Ok a }
{}

/// A network is read from a text exactly where the text spells it. So a text spells at most one network.
#[tactic(auto, using(crate::specs::Laws::Reading::net_found, crate::specs::Laws::Reading::net_only))]
pub fn nets_are_read_as_spelled()
    ensures read { (text : List ℕ) (net : PlainNet) → net_at text ≡ Ok net → SpellsNet text net }
    ensures spelled { (text : List ℕ) (net : PlainNet) → SpellsNet text net → net_at text ≡ Ok net }
{}

/// Two addresses with the same text are the same address.
#[tactic(auto, using(crate::specs::Laws::Spelling::own_addr_text))]
pub fn addrs_have_texts_of_their_own()
    ensures { (a b : Addr) → IsAddr a → IsAddr b → addr_text a ≡ addr_text b → a ≡ b }
{}

/// Two networks with the same text are the same network.
pub fn nets_have_texts_of_their_own()
    ensures { (a b : PlainNet) → IsNetwork a → IsNetwork b → net_text a ≡ net_text b → a ≡ b }
{}

/// A network's text is one word: 1 to 43 bytes, each a digit, a letter from a to f, a dot, a colon or a slash.
#[tactic(auto, using(crate::specs::Laws::Spelling::net_text_is_word))]
pub fn net_text_is_one_word()
    ensures { (net : PlainNet) → IsNetwork net → IsNetWord 43 (net_text net) }
{}

/// A text that isn't an address is refused for the one fault that it has, by cases on the text.
#[tactic(auto, using(crate::proofs::FaultsReported::addr_reported))]
pub fn faults_of_addrs_are_reported()
    ensures { TellsFaults addr_at IsAddrFault }
{}

/// A text that isn't a network is refused for the one fault that it has, by cases on the text.
#[tactic(auto, using(crate::proofs::FaultsReported::net_faults_reported))]
pub fn faults_of_nets_are_reported()
    ensures { TellsFaults net_at IsNetFault }
{}

/// How many bits, digits and groups addresses have.
pub fn sizes_are_these()
    ensures v4 { V4_BITS ≡ 32 }
    ensures v6 { V6_BITS ≡ 128 }
    ensures groups { GROUPS ≡ 8 }
    ensures group_digits { GROUP_DIGITS ≡ 4 }
    ensures number_digits { NUMBER_DIGITS ≡ 3 }
{}

/// Each network can be written in bytes, and is read back from them: its family, its prefix length, and its first address.
#[tactic(auto, using(crate::specs::Laws::NetForms::family_fits, crate::specs::Laws::NetForms::length_fits, crate::specs::Laws::NetForms::address_fits, crate::specs::Laws::NetForms::network_is, crate::specs::Laws::NetForms::network_again))]
pub fn networks_have_bytes_of_their_own()
    ensures family { (n : PlainNet) → Fits family (family_byte n.family) }
    ensures length { (n : PlainNet) → IsNetwork n → n.len < 256 }
    ensures address { (n : PlainNet) → IsNetwork n → Fits (address_in (family_byte n.family)) (first_number n) }
    ensures within { (n : PlainNet) → IsNetwork n → is_network (family_byte n.family) n.len (first_number n) ≡ true }
    ensures again { (n : PlainNet) → network_at (family_byte n.family) n.len (first_number n) ≡ n }
{}
