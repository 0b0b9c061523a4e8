//! Laws of words. Each function does nothing; its contract is what is proved.
ghost use Rattle.std.specs.Prelude.{◌≡◌, ℕ, List, Ok};
ghost use Rattle.pf_form.specs.Form.Words.{Word};
ghost use Rattle.pf_rule.specs.declared.{value.port_words.PortStart.PortStart, value.interface.TheConstants.INTERFACE_LIMIT};
ghost use Rattle.pf_rule.specs.declared.{value.label.TheConstants.LABEL_LIMIT, value.values.TheConstants.{PROTOCOL_DIGITS, PORT_DIGITS}};
ghost use Rattle.pf_rule.specs.declared.value.protocol.TheConstants.Protocol as protocols;
ghost use Rattle.pf_rule.specs.{Value.Values.{SpellsProtocol, protocol_of, SpellsLabel, label_of}, Value.Ports.{SpellsStart, start_of}};

/// A word is read as a protocol exactly where it spells its name or its number.
pub fn protocol_words_are_read_as_spelled()
    ensures read { (w : Word) (n : ℕ) → protocol_of w ≡ Ok n → SpellsProtocol w n }
    ensures spelled { (w : Word) (n : ℕ) → SpellsProtocol w n → protocol_of w ≡ Ok n }
{}

/// A word is read as a label exactly if it spells it: with or without double quotes.
#[tactic(auto, using(crate::specs::Laws::Value::Labels::label_found, crate::specs::Laws::Value::Labels::label_only))]
pub fn label_words_are_read_as_spelled()
    ensures read { (w : Word) (l : List ℕ) → label_of w ≡ Ok l → SpellsLabel w l }
    ensures spelled { (w : Word) (l : List ℕ) → SpellsLabel w l → label_of w ≡ Ok l }
{}

/// The first word of a port test is read exactly where it spells a number, a unary operator joined to one, or a range with its
/// boundaries.
#[tactic(auto, using(crate::specs::Laws::Value::Reading::start_found, crate::specs::Laws::Value::Reading::start_only))]
pub fn port_words_are_read_as_spelled()
    ensures read { (w : Word) (s : PortStart) → start_of w ≡ Ok s → SpellsStart w s }
    ensures spelled { (w : Word) (s : PortStart) → SpellsStart w s → start_of w ≡ Ok s }
{}

/// The numbers of the protocols that have names, and how long names of interfaces, labels, and numbers of protocols and ports may be.
pub fn limits_are_these()
    ensures interface { INTERFACE_LIMIT ≡ 15 }
    ensures label { LABEL_LIMIT ≡ 63 }
    ensures protocol_digits { PROTOCOL_DIGITS ≡ 3 }
    ensures port_digits { PORT_DIGITS ≡ 5 }
    ensures protocols { (protocols.ICMP ≡ 1) × (protocols.TCP ≡ 6) × (protocols.UDP ≡ 17) × (protocols.ICMP6 ≡ 58) }
{}
