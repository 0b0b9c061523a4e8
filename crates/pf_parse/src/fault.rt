//! What is wrong with a file, and what is noted of it, at its place.
ghost use Rattle.std.specs.Prelude.{◌≡◌};
ghost use Rattle.pf_parse.specs.declared.fault.Stop.TheVariants.{Memory};
ghost use Rattle.pf_parse.specs.Stops.{fault_at, stop_of};

use pf_tokens::{Bytes, Items, Place};
use std::alloc::{AllocError, AllocFailed};
use std::fmt::{self, Debug, Display, Formatter, Write};
use std::marker::Model;
use thiserror::Error;

/// Why a word of pf.conf(5) isn't there.
#[derive(Clone, Copy, Debug, PartialEq, Eq)]
pub enum Reason {
    Translation,
    InterfaceAddress,
    NoSuchRules,
    Routing,
    Routes,
    Owner,
    Fingerprint,
    TypeOfService,
    Priority,
    IcmpType,
    Fragment,
    Chance,
    Tag,
    NegatedInterface,
    MainAlone,
}

/// The text that a user is told.
impl Display for Reason {
    fn fmt<W: Write>(&self, f: &mut Formatter<W>) -> fmt::Result {
        let text = match self {
            Reason::Translation => "addresses aren't translated here",
            Reason::InterfaceAddress => "addresses of interfaces aren't known here",
            Reason::NoSuchRules => "FreeBSD 13 has no such rules",
            Reason::Routing => "packets aren't routed here",
            Reason::Routes => "there are no routes here",
            Reason::Owner => "packets have no owner here",
            Reason::Fingerprint => "packets have no fingerprint here",
            Reason::TypeOfService => "packets have no type of service here",
            Reason::Priority => "packets have no priority here",
            Reason::IcmpType => "packets have no ICMP type here",
            Reason::Fragment => "packets are whole here",
            Reason::Chance => "no verdict is left to chance here",
            Reason::Tag => "packets have no tags here",
            Reason::NegatedInterface => "an interface can't be negated",
            Reason::MainAlone => "it stands in the main file alone",
        };
        write!(f, "{text}")
    }
}

impl std::error::Error for Reason {}

/// What is left out of a lenient reading. Its text is how a user is told of it.
#[derive(Debug, Drop, Error)]
pub enum LeftOut {
    #[error("{0}")]
    Word(Bytes),
    #[error("set {0}")]
    Setting(Bytes),
    #[error("set skip on {0}")]
    Skip(Bytes),
    #[error("set prio")]
    Priority,
    #[error("{0} state")]
    State(Bytes),
    #[error("the list of state options")]
    StateOptions,
    #[error("label \"{0}\"")]
    Label(Bytes),
    #[error("flags {0}/{1}")]
    Flags(Bytes, Bytes),
}

/// What a lenient reading makes of something that it leaves out.
#[derive(Drop)]
struct Effect<'a>(&'a LeftOut);

impl Display for Effect<'_> {
    fn fmt<W: Write>(&self, f: &mut Formatter<W>) -> fmt::Result {
        match self.0 {
            LeftOut::State(_) => write!(f, "is taken as keep state"),
            LeftOut::Label(_) => write!(f, "is left out"),
            LeftOut::Skip(name) => {
                write!(f, "is taken as the rule pass quick on {name} all no state")
            }
            LeftOut::Word(_)
            | LeftOut::Setting(_)
            | LeftOut::Priority
            | LeftOut::StateOptions
            | LeftOut::Flags(_, _) => write!(f, "has no effect here"),
        }
    }
}

/// What is wrong.
#[derive(Drop)]
pub enum Mistake {
    Token(pf_tokens::Mistake),
    Refused(Bytes, Reason),
    NoFirstPacket(Bytes, Bytes),
    LeftOut(LeftOut),
    Order,
    LineEnds,
    Misplaced(Bytes),
    EmptyList,
    InnerList,
    NewlineAfterComma,
    AnyInList,
    DeepList,
    LongInterface,
    Interface(Bytes),
    LongTableName,
    TableName(Bytes),
    LongLabel,
    ProtocolNumber,
    Protocol(Bytes),
    Zeros,
    PortNumber,
    Port(Bytes),
    Colon,
    Address(Bytes),
    AddressRange,
    TableInTable,
    TwoStates,
    TwoLabels,
    TwoFlags,
    KeepOnBlock,
    StateOfAnchor,
    NeverTrue(Bytes, Bytes),
    FlagsWithoutTcp,
    UnquotedPath,
    ReservedAnchor,
    LongPath,
    Path(Bytes),
    PathOfBraces,
    AfterBrace,
    UnnamedAnchor,
    Lists(pf_lists::Mistake),
    ManyRules,
    RulesTwice(Bytes),
    ManyRulesets,
    TableTwice(Bytes),
    OtherSign,
    ManyEntries,
    LongCommit,
}

/// What the text of a mistake is made of.
#[derive(Drop)]
enum Text<'a> {
    /// All of it.
    Plain(&'static str),
    /// What comes before a name, the name, and what comes behind it.
    Named(&'static str, &'a Bytes, &'static str),
    /// The same with flags of others.
    Flags(&'static str, &'a Bytes, &'a Bytes, &'static str),
    Refused(&'a Bytes, Reason),
    LeftOut(&'a LeftOut),
    Token(&'a pf_tokens::Mistake),
    Lists(&'a pf_lists::Mistake),
}

impl Mistake {
    /// What a user is told. Texts are of few kinds, so that the proof of what writes them is short.
    fn text(&self) -> Text<'_> {
        match self {
            Mistake::Token(mistake) => Text::Token(mistake),
            Mistake::Refused(word, reason) => Text::Refused(word, *reason),
            Mistake::NoFirstPacket(flags, of) => Text::Flags(
                "'flags' isn't there: no connection's first packet has ",
                flags,
                of,
                "",
            ),
            Mistake::LeftOut(what) => Text::LeftOut(what),
            Mistake::Order => Text::Plain(
                "rules must be in order: options, normalization, queueing, translation, filtering",
            ),
            Mistake::LineEnds => Text::Plain("the line ends too early"),
            Mistake::Misplaced(name) => Text::Named("'", name, "' can't stand here"),
            Mistake::EmptyList => Text::Plain("a list is empty"),
            Mistake::InnerList => Text::Plain("a list can't stand within this list"),
            Mistake::NewlineAfterComma => Text::Plain(
                "behind a comma a line goes on by a backslash alone",
            ),
            Mistake::AnyInList => Text::Plain(
                "'any' can't stand in a list: pfctl leaves it out there",
            ),
            Mistake::DeepList => Text::Plain("lists are nested 8 deep at most"),
            Mistake::LongInterface => Text::Plain("an interface's name has 15 bytes at most"),
            Mistake::Interface(name) => Text::Named("'", name, "' is no interface's name"),
            Mistake::LongTableName => Text::Plain("a table's name has 31 bytes at most"),
            Mistake::TableName(name) => Text::Named("'", name, "' is no table's name"),
            Mistake::LongLabel => Text::Plain("a label has 63 bytes at most"),
            Mistake::ProtocolNumber => Text::Plain("a protocol is a number from 1 to 255"),
            Mistake::Protocol(name) => Text::Named("'", name, "' is no protocol known here"),
            Mistake::Zeros => Text::Plain("a number has no zeros in front"),
            Mistake::PortNumber => Text::Plain("a port is a number from 0 to 65535"),
            Mistake::Port(name) => Text::Named(
                "'",
                name,
                "' is no port, and no service known here",
            ),
            Mistake::Colon => Text::Plain("':' can't stand with another operator"),
            Mistake::Address(name) => Text::Named(
                "'",
                name,
                "' is no address: names of hosts and interfaces aren't there",
            ),
            Mistake::AddressRange => Text::Plain("ranges of addresses aren't there"),
            Mistake::TableInTable => Text::Plain("a table can't stand in a table"),
            Mistake::TwoStates => Text::Plain("a rule has one state option"),
            Mistake::TwoLabels => Text::Plain("a rule has one label"),
            Mistake::TwoFlags => Text::Plain("a rule has flags once"),
            Mistake::KeepOnBlock => Text::Plain("keep state on a block rule doesn't make sense"),
            Mistake::StateOfAnchor => Text::Plain("an anchor rule has no state option"),
            Mistake::NeverTrue(flags, of) => Text::Flags("flags ", flags, of, " are never true"),
            Mistake::FlagsWithoutTcp => Text::Plain("flags apply to tcp alone"),
            Mistake::UnquotedPath => Text::Plain("a path with '/' stands in quotes"),
            Mistake::ReservedAnchor => Text::Plain(
                "names of anchors that begin with '_' are reserved",
            ),
            Mistake::LongPath => Text::Plain("an anchor's path is too long"),
            Mistake::Path(name) => Text::Named("'", name, "' is no anchor's path"),
            Mistake::PathOfBraces => Text::Plain("rules in braces have a name without '/'"),
            Mistake::AfterBrace => Text::Plain("a new line has to begin behind '{'"),
            Mistake::UnnamedAnchor => Text::Plain(
                "an anchor without rules in braces has to have a name",
            ),
            Mistake::Lists(mistake) => Text::Lists(mistake),
            Mistake::ManyRules => Text::Plain("a ruleset has 1,024 rules at most"),
            Mistake::RulesTwice(name) => Text::Named("anchor ", name, " has rules twice"),
            Mistake::ManyRulesets => Text::Plain("a commit has 64 rulesets at most"),
            Mistake::TableTwice(name) => Text::Named("table <", name, "> is defined twice"),
            Mistake::OtherSign => Text::Plain("its network stands before it with the other sign"),
            Mistake::ManyEntries => Text::Plain("a table has 65,536 entries at most"),
            Mistake::LongCommit => Text::Plain("the commit doesn't fit a line of 4,096 bytes"),
        }
    }
}

/// The text that a user is told.
impl Display for Mistake {
    fn fmt<W: Write>(&self, f: &mut Formatter<W>) -> fmt::Result {
        match self.text() {
            Text::Plain(text) => write!(f, "{text}"),
            Text::Named(before, name, following) => write!(f, "{before}{name}{following}"),
            Text::Flags(before, flags, of, following) => write!(
                f,
                "{before}{flags}/{of}{following}"
            ),
            Text::Refused(word, reason) => write!(f, "'{word}' isn't there: {reason}"),
            Text::LeftOut(what) => {
                let effect = Effect(what);
                write!(f, "{what} isn't there; with --lenient it {effect}")
            }
            Text::Token(mistake) => write!(f, "{mistake}"),
            Text::Lists(mistake) => write!(f, "{mistake}"),
        }
    }
}

impl std::error::Error for Mistake {}

/// Its text, which tells one from the others.
impl Debug for Mistake {
    fn fmt<W: Write>(&self, f: &mut Formatter<W>) -> fmt::Result {
        write!(f, "{self}")
    }
}

/// The mistake of a fault, as it is handed on: whatever does so needn't know all the mistakes that there are, which keeps its proof short.
/// Contracts see the mistake.
#[derive(Debug, Drop)]
pub struct Cause {
    mistake: Mistake,
}

impl Model for Cause {
    ghost use Rattle.pf_parse.specs.declared.fault.Mistake.{Mistake};

    ghost Value = { Mistake };

    ghost view = { λ cause. cause.mistake };
}

impl From<Mistake> for Cause {
    ghost from_gives = { λ mistake cause. cause ≡ mistake };

    fn from(mistake: Mistake) -> Cause {
        Cause { mistake }
    }
}

impl Cause {
    /// What is wrong.
    pub fn mistake(&self) -> &Mistake
        ensures { result.now ≡ self.now }
    {
        &self.mistake
    }
}

/// The text of the mistake.
impl Display for Cause {
    fn fmt<W: Write>(&self, f: &mut Formatter<W>) -> fmt::Result {
        let mistake = &self.mistake;
        write!(f, "{mistake}")
    }
}

/// What is noted of a file that is taken.
#[derive(Debug, Drop, Error)]
pub enum Remark {
    #[error("{0} {effect}", effect = Effect(.0))]
    LeftOut(LeftOut),
    #[error("{0} is taken as one interface's name, not as a group")]
    NoGroup(Bytes),
}

/// Something at a place of a file.
#[derive(Debug, Drop)]
pub struct At<T: Drop> {
    pub place: Place,
    pub is: T,
}

/// Why a part of a file isn't read.
#[derive(Debug, Drop)]
pub enum Stop {
    Faulty(At<Cause>),
    /// It names this file, which isn't given.
    Needs(Bytes),
    Memory,
}

/// A fault at a place.
pub fn refusal(place: Place, mistake: Mistake) -> Stop
    ensures { result ≡ fault_at place mistake }
{
    let is = Cause::from(mistake);
    Stop::Faulty(At { place, is })
}

impl From<pf_tokens::TokenStop> for Stop {
    ghost from_gives = { λ stop result. result ≡ stop_of stop };

    fn from(stop: pf_tokens::TokenStop) -> Stop {
        match stop {
            pf_tokens::TokenStop::Faulty(fault) => refusal(
                fault.place,
                Mistake::Token(fault.mistake),
            ),
            pf_tokens::TokenStop::Needs(name) => Stop::Needs(name),
            pf_tokens::TokenStop::Memory => Stop::Memory,
        }
    }
}

impl From<AllocError> for Stop {
    ghost from_gives = { λ _ result. result ≡ Memory };

    fn from(_e: AllocError) -> Stop {
        Stop::Memory
    }
}

impl<T: Drop> From<AllocFailed<T>> for Stop {
    ghost from_gives = { λ _ result. result ≡ Memory };

    fn from(_e: AllocFailed<T>) -> Stop {
        Stop::Memory
    }
}
