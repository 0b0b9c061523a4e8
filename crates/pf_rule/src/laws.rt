//! Laws of texts and of matches. Each function does nothing; its contract is what is proved.
ghost use Rattle.std.specs.Prelude.{◌≡◌, ◌↔◌, ℕ, List, Result, Ok};
ghost use Rattle.pf_form.specs.declared.form.fault.Kind.{Kind};
ghost use Rattle.pf_form.specs.{Form.Forms.{Spells, RefusedAt, read_all}, Form.Words.{Word, words_of}};
ghost use Rattle.pf_rule.specs.declared.fault.Mistake.{Mistake};
ghost use Rattle.pf_rule.specs.{Rules.{PlainRule, IsRule}, Packets.{PlainPacket, IsPacket}};
ghost use Rattle.pf_rule.specs.{Laws.Matching.{HostAsksNoTable, RuleAsksNoTable}, RuleGrammar.rule, PacketGrammar.packet};
ghost use Rattle.pf_rule.specs.RuleText.{canonical, rule_text};

/// A rule's text consists of the rule's canonical words, which spell the rule; so it is read back as that rule.
#[tactic(auto, using(crate::specs::Laws::RuleText::texts_of_rules))]
pub fn what_is_written_is_read_again()
    ensures words { (r : PlainRule) → IsRule r → words_of (rule_text r) ≡ canonical r }
    ensures spelled { (r : PlainRule) → IsRule r → Spells rule (Ok r) (canonical r) }
    ensures read { (r : PlainRule) → IsRule r → read_all rule (words_of (rule_text r)) ≡ Ok (Ok r) }
{}

/// Two different rules have different texts.
pub fn different_rules_have_different_texts()
    ensures { (r s : PlainRule) → IsRule r → IsRule s → rule_text r ≡ rule_text s → r ≡ s }
{}

/// What a text spells is a rule or a packet. So a rule is exactly what some text spells.
#[tactic(auto, using(crate::proofs::Kept::rule_kept, crate::proofs::Kept::packet_kept))]
pub fn what_is_spelled_is_kept()
    ensures rules { (r : PlainRule) (ws : List Word) → Spells rule (Ok r) ws → IsRule r }
    ensures packets { (p : PlainPacket) (ws : List Word) → Spells packet (Ok p) ws → IsPacket p }
{}

/// A text that is refused at a word is refused at one place only, and with one kind of refusal.
pub fn a_refusal_is_one()
    ensures rules { (ws : List Word) (m n : ℕ) (j k : Kind) →
        RefusedAt (Result PlainRule Mistake) rule ws m j → RefusedAt (Result PlainRule Mistake) rule ws n k → (m ≡ n) × (j ≡ k) }
    ensures packets { (ws : List Word) (m n : ℕ) (j k : Kind) →
        RefusedAt (Result PlainPacket Mistake) packet ws m j → RefusedAt (Result PlainPacket Mistake) packet ws n k → (m ≡ n) × (j ≡ k) }
{}

/// Words are read as a rule, a packet or a mistake exactly where they spell it. So they spell at most one.
pub fn rules_and_packets_are_read_as_spelled()
    ensures rules { (ws : List Word) (r : Result PlainRule Mistake) → (read_all rule ws ≡ Ok r) ↔ Spells rule r ws }
    ensures packets { (ws : List Word) (p : Result PlainPacket Mistake) → (read_all packet ws ≡ Ok p) ↔ Spells packet p ws }
{}

/// What tables say makes no difference to a host that isn't a table, nor to a rule without such hosts.
#[tactic(auto, using(crate::proofs::Untabled::host_asks_none, crate::proofs::Untabled::rule_asks_none))]
pub fn hosts_without_tables_ask_none()
    ensures hosts { HostAsksNoTable }
    ensures rules { RuleAsksNoTable }
{}
