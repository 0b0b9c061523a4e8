//! Filter rules.
ghost use Rattle.std.specs.Prelude.{◌≡◌, [], unwrap_or};
ghost use Rattle.pf_form.specs.{Form.Readers.Moves, Form.Words.{words_of, texts}};
ghost use Rattle.pf_rule.specs.{RuleGrammar.{rule, agreed, one_family, agreeing, passes, decides, effect_of}, Refusals.{IsAnswer, reading}, Rules.{PlainRule, IsRule, ends_hold, matches}, KeptRules.labelled, Matching.{ports_hold, networks_hold, tables_hold}};

use crate::fault::{Mistake, TextFault, tell};
use crate::host::{Host, TableAnswers, read_ends};
use crate::packet::Packet;
use crate::rule_words::{RuleStart, read_label, read_opening, read_state};
use crate::value::{
    Direction, Interface, Label, PortTest, Protocol, is_wanted, ports_fit, read_direction,
    read_family, read_interface, read_protocol, takes_port,
};
use pf_addr::Family;
use pf_addr::path::Reference;
use pf_form::form::{WordFault, Words, takes, words};
use std::alloc::Global;
use std::marker::Model;

/// What a rule that decides does with a packet.
#[derive(Clone, Copy, Debug, PartialEq, Eq)]
pub enum Action {
    /// Lets it pass, and keeps state unless the rule's state option says otherwise.
    Pass { keeps_state: bool },
    /// Drops it.
    Block,
}

/// What a matching rule does.
#[derive(Clone, Copy)]
pub enum Effect {
    /// It decides about the packet.
    Decide(Action),
    /// The rulesets that this names are evaluated in its place (`anchor`; pf.conf(5), ANCHORS). The rule itself decides nothing.
    Evaluate(Reference),
}

/// What a rule says (pf.conf(5), PACKET FILTERING and PARAMETERS). Contracts see a [`Rule`] as these fields (`PlainRule`), each as they
/// see its type. A missing test holds for every packet, and a rule matches if all its tests hold.
#[derive(Clone, Copy)]
pub(crate) struct RuleParts {
    /// The addresses that a packet must come from (`from`).
    pub(crate) source: Host,
    /// The addresses that a packet must go to (`to`).
    pub(crate) destination: Host,
    /// What a match does (`pass`, `block`, `anchor`).
    pub(crate) effect: Effect,
    /// The interface that a packet must go through (`on`), by its name of 1 to 15 bytes.
    pub(crate) interface: Option<Interface>,
    /// The ports that a packet must come from (`port`). Only a rule with TCP or UDP tests ports.
    pub(crate) source_port: Option<PortTest>,
    /// The ports that a packet must go to, as `source_port`.
    pub(crate) destination_port: Option<PortTest>,
    /// The direction that a packet must have (`in`, `out`).
    pub(crate) direction: Option<Direction>,
    /// Whether a match of the rule ends the evaluation (`quick`).
    pub(crate) quick: bool,
    /// The family that a packet's addresses must have (`inet`, `inet6`): the one written, or that of a host's network.
    pub(crate) family: Option<Family>,
    /// The protocol that a packet must have (`proto`), as its number, 1 to 255.
    pub(crate) protocol: Option<Protocol>,
    /// The label (`label`). It isn't a test, and an anchor rule has none.
    pub(crate) label: Option<Label>,
}

/// What a match does, and the rule's label.
///
/// Only an anchor rule has a reference, and only a rule that decides has a label, so they share one place: a rule with a label is no
/// larger than one without, and copying it doesn't allocate.
#[derive(Clone, Copy)]
pub(crate) enum LabelledEffect {
    /// It decides, and has no label.
    Plain(Action),
    /// It decides, and has one.
    Labelled(Label, Action),
    /// The named rulesets are evaluated in its place.
    Anchor(Reference),
}

/// A filter rule (pf.conf(5), PACKET FILTERING). A rule is exactly what some text spells. The widest fields come first, so that no
/// padding is lost between them.
#[derive(Clone, Copy)]
pub struct Rule {
    source: Host,
    destination: Host,
    effect: LabelledEffect,
    interface: Option<Interface>,
    source_port: Option<PortTest>,
    destination_port: Option<PortTest>,
    direction: Option<Direction>,
    quick: bool,
    family: Option<Family>,
    protocol: Option<Protocol>,
}

// A label takes no room in a rule: this is as large as a rule without one.
const _: () = prove!(size_of::<Rule>() == 240);

impl Model for Rule {
    ghost use Rattle.pf_rule.specs.Rules.{PlainRule};
    ghost use Rattle.pf_rule.specs.KeptRules.{rule_kept, IsKept, inside_of, inside_of-kept};

    ghost Value = { PlainRule };

    ghost view = { rule_kept };

    ghost invariant = { IsKept };

    ghost inverse = { inside_of };

    ghost inverse_ok = { inside_of-kept };
}

impl RuleStart {
    /// Whether a rule that begins so is a pass rule; no other has a state option.
    fn passes(&self) -> bool
        ensures { result ≡ passes self.now }
    {
        matches!(self, RuleStart::Pass)
    }

    /// Whether a rule that begins like this decides; no other has a label.
    fn decides(&self) -> bool
        ensures { result ≡ decides self.now }
    {
        !matches!(self, RuleStart::Anchor(_))
    }

    /// What a match with the rule does, given whether it keeps state.
    fn effect(&self, keeps_state: bool) -> Effect
        ensures { result ≡ effect_of self.now keeps_state }
    {
        match self {
            RuleStart::Pass => Effect::Decide(Action::Pass { keeps_state }),
            RuleStart::Block => Effect::Decide(Action::Block),
            RuleStart::Anchor(reference) => Effect::Evaluate(*reference),
        }
    }
}

impl Rule {
    /// The rule with these parts.
    pub(crate) fn of(parts: RuleParts) -> Rule
        requires { IsRule parts }
        ensures { result ≡ parts }
    {
        Rule {
            source: parts.source,
            destination: parts.destination,
            effect: labelled(parts.effect, parts.label),
            interface: parts.interface,
            source_port: parts.source_port,
            destination_port: parts.destination_port,
            direction: parts.direction,
            quick: parts.quick,
            family: parts.family,
            protocol: parts.protocol,
        }
    }

    /// Reads a rule from the front of the remaining words. Doesn't allocate.
    ///
    /// A refusal is at the first word at which no rule's text can continue. Its kind is the one that [`Rule::parse`] names, and it says
    /// how many words were left, including the one at fault. Which words remain after a refusal is unspecified. If there are two
    /// mistakes, different families come first.
    #[tactic(auto, unfolding(crate::specs::RuleGrammar::rule))]
    pub fn read<'a>(words: &mut Words<'a>) -> Result<Result<Rule, Mistake>, WordFault>
        ensures { Moves rule result words.old.now words.new.now }
    {
        let opening = read_opening(words)?;
        let direction = read_direction(words);
        let quick = takes(words, b"quick");
        let interface = read_interface(words)?;
        let family = read_family(words);
        let protocol = read_protocol(words)?;
        let ends = read_ends(words)?;
        let keeps_state = read_state(opening.passes(), words)?;
        let label = read_label(opening.decides(), words)?;
        let parts = agreeing(RuleParts {
            effect: opening.effect(keeps_state),
            direction,
            quick,
            interface,
            family,
            protocol,
            source: ends.0.0,
            source_port: ends.0.1,
            destination: ends.1.0,
            destination_port: ends.1.1,
            label,
        });
        match parts {
            Ok(parts) => Ok(Ok(Rule::of(parts))),
            Err(mistake) => Ok(Err(mistake)),
        }
    }

    /// Reads a rule from its text: words separated by blanks.
    ///
    /// `at` is the number of the first word at which no rule's text can continue, from 0, or the number of words if one is missing.
    /// [`TextFault::NameTooLong`] is for an interface of more than 15 bytes, a table of more than 31, a label of more than 63 and a
    /// reference past its limits, [`TextFault::BadProto`] for a word that must be a protocol, [`TextFault::BadWord`] for any other.
    /// [`TextFault::MixedFamily`] and then [`TextFault::PortNeedsProto`] are found after the last word. [`TextFault::Memory`] means that
    /// there was no memory for the list of words.
    #[tactic(auto, using(crate::proofs::TextAnswers::is_answer_rule))]
    pub fn parse(alloc: Global, text: &str) -> Result<Rule, TextFault>
        ensures { IsAnswer PlainRule rule (words_of text.now) result }
    {
        let words = words(alloc, text.as_bytes())?;
        Rule::read_all(&words)
    }

    #[tactic(auto, unfolding(crate::specs::Refusals::reading))]
    fn read_all<'a>(words: Words<'a>) -> Result<Rule, TextFault>
        ensures { result ≡ reading rule (texts words.now) }
    {
        let mut rest = words;
        let read = Rule::read(&mut rest);
        tell(read, rest, words.len())
    }

    /// Whether all of the rule's tests hold for the packet, by what these tables say. Doesn't allocate, unless the tables do. A table is
    /// asked only if all other tests hold.
    pub fn matches<T: TableAnswers>(&self, tables: &T, packet: &Packet) -> bool
        ensures { result ≡ matches (T.says tables.now) self.now packet.now }
    {
        is_wanted(&self.direction, &packet.direction())
            && is_wanted(&self.interface, packet.interface())
            && is_wanted(&self.family, &packet.source().family())
            && is_wanted(&self.protocol, &packet.protocol())
            && ends_hold(self, tables, packet)
    }

    /// What a match with the rule does.
    pub fn effect(&self) -> Effect
        ensures effect { result ≡ self.now.effect }
        // what every rule maintains
        ensures kept { IsRule self.now }
    {
        match self.effect {
            LabelledEffect::Plain(action) | LabelledEffect::Labelled(_, action) => {
                Effect::Decide(action)
            }
            LabelledEffect::Anchor(reference) => Effect::Evaluate(reference),
        }
    }

    /// The rule's label, an empty text if it has none. It isn't a test: it is for whoever lists the rules.
    pub fn label(&self) -> &str
        ensures { result.now ≡ unwrap_or self.now.label [] }
    {
        match &self.effect {
            LabelledEffect::Labelled(label, _) => text_of(label),
            LabelledEffect::Plain(_) | LabelledEffect::Anchor(_) => "",
        }
    }

    /// The label, if the rule has one.
    pub(crate) fn own_label(&self) -> Option<Label>
        ensures { result ≡ self.now.label }
    {
        match self.effect {
            LabelledEffect::Labelled(label, _) => Some(label),
            LabelledEffect::Plain(_) | LabelledEffect::Anchor(_) => None,
        }
    }

    /// Whether the rule is quick (`quick`): a match that decides ends the evaluation. An anchor rule decides nothing itself; a quick one
    /// ends the evaluation if some rule within matched.
    pub fn is_quick(&self) -> bool
        ensures { result ≡ self.now.quick }
    {
        self.quick
    }

    /// The direction of the packets that the rule matches, if it tests it.
    pub fn direction(&self) -> Option<Direction>
        ensures { result ≡ self.now.direction }
    {
        self.direction
    }

    /// The interface of the packets that the rule matches, if it tests it.
    pub fn interface(&self) -> Option<Interface>
        ensures { result ≡ self.now.interface }
    {
        self.interface
    }

    /// The family of the packets that the rule matches, if it tests it: the one written or that of a host's network.
    pub fn family(&self) -> Option<Family>
        ensures { result ≡ self.now.family }
    {
        self.family
    }

    /// The protocol of the packets that the rule matches, if it tests it.
    pub fn protocol(&self) -> Option<Protocol>
        ensures { result ≡ self.now.protocol }
    {
        self.protocol
    }

    /// The addresses that packets may come from.
    pub fn source(&self) -> Host
        ensures { result ≡ self.now.source }
    {
        self.source
    }

    /// The test of the port that packets come from, if there is one.
    pub fn source_port(&self) -> Option<PortTest>
        ensures { result ≡ self.now.source_port }
    {
        self.source_port
    }

    /// The addresses that packets may go to.
    pub fn destination(&self) -> Host
        ensures { result ≡ self.now.destination }
    {
        self.destination
    }

    /// The test of the port that packets go to, if there is one.
    pub fn destination_port(&self) -> Option<PortTest>
        ensures { result ≡ self.now.destination_port }
    {
        self.destination_port
    }
}

/// An effect with its rule's label, if it decides.
fn labelled(effect: Effect, label: Option<Label>) -> LabelledEffect
    ensures { result ≡ labelled effect label }
{
    match effect {
        Effect::Decide(action) => match label {
            Some(label) => LabelledEffect::Labelled(label, action),
            None => LabelledEffect::Plain(action),
        },
        Effect::Evaluate(reference) => LabelledEffect::Anchor(reference),
    }
}

/// A label as text.
fn text_of(label: &Label) -> &str
    ensures { result.now ≡ label.now }
{
    let bytes = label.as_bytes();
    match str::from_utf8(bytes) {
        Ok(text) => text,
        Err(_) => "",
    }
}

/// The family of both, unless they differ. Either may be missing.
fn agreed(first: Option<Family>, second: Option<Family>) -> Option<Option<Family>>
    ensures { result ≡ agreed first second }
{
    match (first, second) {
        (None, family) | (family, None) => Some(family),
        (Some(f), Some(g)) if f == g => Some(first),
        _ => None,
    }
}

/// The one family of a rule: the one written or that of a host's network.
fn one_family(written: Option<Family>, source: Host, destination: Host) -> Option<Option<Family>>
    ensures { result ≡ one_family written source destination }
{
    let family = agreed(written, source.family())?;
    agreed(family, destination.family())
}

/// The parts with their one family, unless they make a mistake.
fn agreeing(parts: RuleParts) -> Result<RuleParts, Mistake>
    ensures { result ≡ agreeing parts }
{
    let Some(family) = one_family(parts.family, parts.source, parts.destination) else {
        return Err(Mistake::MixedFamily);
    };
    if !ports_fit(parts.protocol, parts.source_port, parts.destination_port) {
        return Err(Mistake::PortNeedsProto);
    }
    let mut parts = parts;
    parts.family = family;
    Ok(parts)
}

/// Whether a packet's addresses and ports are among those of the rule's two ends. Ports are tested first; tables, the most costly, last.
#[tactic(auto, using(crate::specs::Matching::ends_in_turn))]
fn ends_hold<T: TableAnswers>(rule: &Rule, tables: &T, packet: &Packet) -> bool
    ensures { result ≡ ends_hold (T.says tables.now) rule.now packet.now }
{
    ports_hold(rule, packet) && networks_hold(rule, packet) && tables_hold(rule, tables, packet)
}

fn ports_hold(rule: &Rule, packet: &Packet) -> bool
    ensures { result ≡ ports_hold rule.now packet.now }
{
    takes_port(rule.source_port, packet.source_port())
        && takes_port(rule.destination_port, packet.destination_port())
}

fn networks_hold(rule: &Rule, packet: &Packet) -> bool
    ensures { result ≡ networks_hold rule.now packet.now }
{
    rule.source.network_holds(packet.source())
        && rule.destination.network_holds(packet.destination())
}

fn tables_hold<T: TableAnswers>(rule: &Rule, tables: &T, packet: &Packet) -> bool
    ensures { result ≡ tables_hold (T.says tables.now) rule.now packet.now }
{
    rule.source.table_holds(tables, packet.source())
        && rule.destination.table_holds(tables, packet.destination())
}
