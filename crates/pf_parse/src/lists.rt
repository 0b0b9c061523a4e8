//! Lists in braces, and what stands in them.
ghost use Rattle.std.specs.Prelude.{◌≡◌, ◌++◌, decimal, Some, IfOk, OnOk, Ok};
ghost use Rattle.pf_parse.specs.{Stops.{Gives, TellsStop, fault_at}, Reading.{Takes, TakesOn}, Values.{shown_as, protocol_of, protocol_words, operand, port_range, port_words, net_at_place}};
ghost use Rattle.pf_parse.specs.Lists.{begin_list, list_goes_on, item_more, listed_item, list, no_list, table_name, ends_in_digit, noted_group, not_negated, interface_checked, table_checked, interface, interfaces, protocol, text_of_operator, one_port, two_ports, or_same, operator, compared, between, ranged, port, tested, all_tested, table_word, table_host, named_host, with_slash, address, no_range, net_host, other_host, host, not_any, listed_hosts, hosts_in, host_list, hosts};

use crate::fault::{Mistake, Reason, Remark, Stop, refusal};
use crate::parser::{Parser, words_of};
use pf_addr::Net;
use pf_addr::path::{Name, TableName};
use pf_form::form::Kind as NameFault;
use pf_lists::{Host, Words};
use pf_tokens::{Bytes, Items, Place, Token};
use pf_values::{
    Mistake as NoValue, PortNumbers, net, port_or_range, protocol_named, protocol_numbered,
    single_port,
};
use std::alloc::{AllocError, Global};

/// How deep lists of hosts are nested.
const LIST_LIMIT: u32 = 8;
/// The most bytes of an interface's name.
const INTERFACE_BYTES: usize = 15;

/// What is tested by one of these or a list of them.
#[derive(Clone, Copy)]
pub(crate) enum Tested {
    Protocol,
    Port,
}

/// The operator of a test of one port.
#[derive(Clone, Copy)]
enum Operator {
    Same,
    Other,
    Less,
    LessOrSame,
    More,
    MoreOrSame,
}

impl Operator {
    fn text(self) -> &'static [u8]
        ensures { result.now ≡ text_of_operator self }
    {
        match self {
            Operator::Same => b"=",
            Operator::Other => b"!=",
            Operator::Less => b"<",
            Operator::LessOrSame => b"<=",
            Operator::More => b">",
            Operator::MoreOrSame => b">=",
        }
    }
}

/// The fault of a text that is no value, which a user is shown as this.
fn no_value(alloc: Global, place: Place, mistake: NoValue, shown: &[u8]) -> Stop
    ensures { TellsStop result (fault_at place (shown_as shown.now mistake)) }
{
    let Ok(shown) = Items::copied(alloc, shown) else {
        return Stop::Memory;
    };
    let mistake = match mistake {
        NoValue::Zeros => Mistake::Zeros,
        NoValue::ProtocolNumber => Mistake::ProtocolNumber,
        NoValue::Protocol => Mistake::Protocol(shown),
        NoValue::PortNumber => Mistake::PortNumber,
        NoValue::Port => Mistake::Port(shown),
        NoValue::Colon => Mistake::Colon,
        NoValue::Address => Mistake::Address(shown),
    };
    refusal(place, mistake)
}

/// A number in decimal digits.
fn decimal(alloc: Global, number: u16) -> Result<Bytes, AllocError>
    ensures { IfOk result (λ b. b ≡ decimal number) }
{
    let text = format!(in alloc; "{number}")?;
    Items::copied(alloc, text.as_bytes())
}

/// The protocol that a token is, as a number or as a name.
fn protocol_of(alloc: Global, token: &Token, is_number: bool) -> Result<u16, Stop>
    ensures { Gives result (protocol_of token.now is_number) }
{
    let text = token.bytes(alloc)?;
    let found = if is_number {
        protocol_numbered(text.as_slice())
    } else {
        protocol_named(text.as_slice())
    };
    match found {
        Ok(number) => Ok(number),
        Err(mistake) => Err(no_value(alloc, token.place, mistake, text.as_slice())),
    }
}

/// The words of a test of a protocol.
fn protocol_words(alloc: Global, number: u16) -> Result<Words, AllocError>
    ensures { IfOk result (λ ws. ws ≡ protocol_words number) }
{
    let number = decimal(alloc, number)?;
    words_of(alloc, &[b"proto", number.as_slice()])
}

/// The port that a token is where an operator stands.
fn operand(alloc: Global, token: &Token) -> Result<u16, Stop>
    ensures { Gives result (operand token.now) }
{
    let text = token.bytes(alloc)?;
    match single_port(text.as_slice()) {
        Ok(number) => Ok(number),
        Err(mistake) => Err(no_value(alloc, token.place, mistake, text.as_slice())),
    }
}

/// The words of a test of one port.
fn one_port(alloc: Global, operator: Operator, number: u16) -> Result<Words, AllocError>
    ensures { IfOk result (λ ws. ws ≡ one_port operator number) }
{
    let number = decimal(alloc, number)?;
    words_of(alloc, &[b"port", operator.text(), number.as_slice()])
}

/// The words of a test of ports with an operator between two.
fn two_ports(alloc: Global, first: u16, operator: &[u8], last: u16) -> Result<Words, AllocError>
    ensures { IfOk result (λ ws. ws ≡ two_ports first operator.now last) }
{
    let first = decimal(alloc, first)?;
    let last = decimal(alloc, last)?;
    words_of(
        alloc,
        &[b"port", first.as_slice(), operator, last.as_slice()],
    )
}

/// The words of a test of a range of ports.
fn port_range(alloc: Global, first: u16, last: u16) -> Result<Words, AllocError>
    ensures { IfOk result (λ ws. ws ≡ port_range first last) }
{
    let range = format!(in alloc; "{first}:{last}")?;
    words_of(alloc, &[b"port", range.as_bytes()])
}

/// The words of a test of a port, or of a range with a colon, that this token is.
fn port_words(alloc: Global, token: &Token) -> Result<Words, Stop>
    ensures { Gives result (port_words token.now) }
{
    let text = token.bytes(alloc)?;
    match port_or_range(text.as_slice()) {
        Ok(PortNumbers::One(number)) => Ok(one_port(alloc, Operator::Same, number)?),
        Ok(PortNumbers::Range(first, last)) => Ok(port_range(alloc, first, last)?),
        Err(mistake) => Err(no_value(alloc, token.place, mistake, text.as_slice())),
    }
}

/// The network that a text spells; a user is shown this if it spells none.
pub(crate) fn net_of(alloc: Global, place: Place, text: &[u8], shown: &[u8]) -> Result<Net, Stop>
    ensures { Gives result (net_at_place place text.now shown.now) }
{
    match net(text) {
        Ok(net) => Ok(net),
        Err(mistake) => Err(no_value(alloc, place, mistake, shown)),
    }
}

/// Checks that a token can name an interface.
fn check_interface(alloc: Global, token: &Token) -> Result<(), Stop>
    ensures { Gives result (interface_checked token.now) }
{
    let name = token.bytes(alloc)?;
    match Name::<INTERFACE_BYTES>::from_ascii(name.as_slice()) {
        Ok(_) => Ok(()),
        Err(NameFault::NameTooLong) => Err(refusal(token.place, Mistake::LongInterface)),
        Err(_) => Err(refusal(token.place, Mistake::Interface(name))),
    }
}

/// Checks that a token can name a table.
fn check_table(alloc: Global, token: &Token) -> Result<(), Stop>
    ensures { Gives result (table_checked token.now) }
{
    let name = token.bytes(alloc)?;
    match TableName::from_ascii(name.as_slice()) {
        Ok(_) => Ok(()),
        Err(NameFault::NameTooLong) => Err(refusal(token.place, Mistake::LongTableName)),
        Err(_) => Err(refusal(token.place, Mistake::TableName(name))),
    }
}

/// Whether the last byte of a name is a digit.
fn ends_in_digit(name: &[u8]) -> bool
    ensures { result ≡ ends_in_digit name.now }
{
    match name.last() {
        Some(last) => last.is_ascii_digit(),
        None => false,
    }
}

/// These two texts with a slash between them.
fn with_slash(alloc: Global, address: &Token, length: &Token) -> Result<Bytes, AllocError>
    ensures { IfOk result (λ text. text ≡ with_slash address.now length.now) }
{
    let (address, length) = (address.bytes(alloc)?, length.bytes(alloc)?);
    let mut text = Vec::from_slice(alloc, address.as_slice())?;
    text.push(b'/')?;
    text.extend_from_slice(length.as_slice())?;
    Ok(Items::of(text))
}

/// A table's name in angles.
fn table_word(alloc: Global, name: &Token) -> Result<Bytes, AllocError>
    ensures { IfOk result (λ word. word ≡ table_word name.now) }
{
    let bytes = name.bytes(alloc)?;
    let mut word = Vec::from_slice(alloc, b"<")?;
    word.extend_from_slice(bytes.as_slice())?;
    word.push(b'>')?;
    Ok(Items::of(word))
}

/// The host that a table of this name is.
fn table_host(alloc: Global, name: &Token, is_negated: bool) -> Result<Host, AllocError>
    ensures { IfOk result (λ h. h ≡ table_host name.now is_negated) }
{
    Ok(Host {
        place: name.place,
        word: table_word(alloc, name)?,
        net: None,
        is_negated,
    })
}

/// Appends hosts to others.
fn append(hosts: &mut Items<Host>, more: Items<Host>) -> Result<(), AllocError>
    ensures { OnOk result (hosts.new ≡ hosts.old ++ more) }
{
    for host in more.into_items() {
        hosts.push(host)?;
    }
    Ok(())
}

impl Parser<'_> {
    /// What comes behind a list's open brace: not its end.
    #[tactic(auto, unfolding(crate::specs::Lists::begin_list))]
    fn begin_list(&mut self) -> Result<(), Stop>
        ensures { Takes result self.new (begin_list self.old) }
    {
        self.skip_newlines();
        if self.next_is_symbol(b"}") {
            return Err(refusal(self.place(), Mistake::EmptyList));
        }
        Ok(())
    }

    /// Takes what comes behind an item, and returns whether another one follows.
    #[tactic(auto, unfolding(crate::specs::Lists::list_goes_on))]
    fn list_goes_on(&mut self) -> Result<bool, Stop>
        ensures { Takes result self.new (list_goes_on self.old) }
    {
        self.skip_newlines();
        if self.takes_symbol(b"}") {
            return Ok(false);
        }
        if self.takes_symbol(b",") && self.next_is_newline() {
            return Err(refusal(self.place(), Mistake::NewlineAfterComma));
        }
        Ok(true)
    }

    /// Checks that no list comes next.
    #[tactic(auto, unfolding(crate::specs::Lists::no_list))]
    fn check_no_list(&self) -> Result<(), Stop>
        ensures { Takes result self.now (no_list self.now) }
    {
        if self.next_is_symbol(b"{") {
            return Err(refusal(self.place(), Mistake::InnerList));
        }
        Ok(())
    }

    // ---- interfaces

    /// An interface's name.
    #[tactic(auto, unfolding(crate::specs::Lists::interface))]
    fn interface(&mut self) -> Result<Token, Stop>
        ensures { Takes result self.new (interface self.old) }
    {
        self.check_not_negated()?;
        let token = self.string()?;
        check_interface(self.alloc(), &token)?;
        self.note_group(&token)?;
        Ok(token)
    }

    #[tactic(auto, unfolding(crate::specs::Lists::not_negated))]
    fn check_not_negated(&self) -> Result<(), Stop>
        ensures { Takes result self.now (not_negated self.now) }
    {
        if self.next_is_symbol(b"!") {
            return Err(self.refused(Reason::NegatedInterface));
        }
        Ok(())
    }

    /// Notes a name that might be a group's.
    #[tactic(auto, unfolding(crate::specs::Lists::noted_group))]
    fn note_group(&mut self, token: &Token) -> Result<(), Stop>
        ensures { Takes result self.new (noted_group token.now self.old) }
    {
        let name = token.bytes(self.alloc())?;
        if ends_in_digit(name.as_slice()) {
            return Ok(());
        }
        self.note(token.place, Remark::NoGroup(name))
    }

    /// Appends an interface, and returns whether another one follows.
    fn interface_more(&mut self, list: &mut Items<Token>) -> Result<bool, Stop>
        ensures { TakesOn result list.new self.new (item_more (listed_item interface) list.old self.old) }
    {
        self.check_no_list()?;
        list.push(self.interface()?)?;
        self.list_goes_on()
    }

    /// The interfaces of a list, whose open brace came.
    #[tactic(auto, using(crate::proofs::Turns::turn_on, crate::proofs::Turns::turn_ends, crate::proofs::Turns::no_turn))]
    fn interface_list(&mut self) -> Result<Items<Token>, Stop>
        ensures { Takes result self.new (list (listed_item interface) self.old) }
    {
        self.begin_list()?;
        let mut list = Items::new(self.alloc());
        for _ in 0..self.turns() {
            if !self.interface_more(&mut list)? {
                return Ok(list);
            }
        }
        Err(self.unexpected())
    }

    /// One interface, or a list of them.
    #[tactic(auto, unfolding(crate::specs::Lists::interfaces))]
    pub(crate) fn interfaces(&mut self) -> Result<Items<Token>, Stop>
        ensures { Takes result self.new (interfaces self.old) }
    {
        if self.takes_symbol(b"{") {
            return self.interface_list();
        }
        let mut list = Items::new(self.alloc());
        list.push(self.interface()?)?;
        Ok(list)
    }

    // ---- protocols and ports

    /// A protocol, as the words that it adds to a rule.
    #[tactic(auto, unfolding(crate::specs::Lists::protocol))]
    fn protocol(&mut self) -> Result<Words, Stop>
        ensures { Takes result self.new (protocol self.old) }
    {
        let token = self.value()?;
        let number = protocol_of(self.alloc(), &token, token.is_number())?;
        Ok(protocol_words(self.alloc(), number)?)
    }

    /// The operator of a test of one port, if one comes next.
    #[tactic(auto, unfolding(crate::specs::Lists::operator))]
    fn operator(&mut self) -> Result<Option<Operator>, Stop>
        ensures { Takes result self.new (operator self.old) }
    {
        if self.takes_symbol(b"=") {
            return Ok(Some(Operator::Same));
        }
        if self.takes_symbol(b"!") {
            self.expect_symbol(b"=")?;
            return Ok(Some(Operator::Other));
        }
        if self.takes_symbol(b"<") {
            return Ok(Some(self.or_same(Operator::Less, Operator::LessOrSame)));
        }
        if self.takes_symbol(b">") {
            return Ok(Some(self.or_same(Operator::More, Operator::MoreOrSame)));
        }
        Ok(None)
    }

    /// The second of two operators if `=` comes next, else the first.
    fn or_same(&mut self, alone: Operator, with_same: Operator) -> Operator
        ensures { or_same alone with_same self.old ≡ Ok (Some result, self.new) }
    {
        if self.takes_symbol(b"=") {
            with_same
        } else {
            alone
        }
    }

    /// What stands behind the operator of a test of one port, as the test's words.
    #[tactic(auto, unfolding(crate::specs::Lists::compared))]
    fn compared(&mut self, operator: Operator) -> Result<Words, Stop>
        ensures { Takes result self.new (compared operator self.old) }
    {
        let token = self.value()?;
        let number = operand(self.alloc(), &token)?;
        Ok(one_port(self.alloc(), operator, number)?)
    }

    /// What stands behind this port and an operator between two, as the words of their test.
    #[tactic(auto, unfolding(crate::specs::Lists::between))]
    fn between(&mut self, first: &Token, operator: &[u8]) -> Result<Words, Stop>
        ensures { Takes result self.new (between first.now operator.now self.old) }
    {
        let first = operand(self.alloc(), first)?;
        let second = self.value()?;
        let last = operand(self.alloc(), &second)?;
        Ok(two_ports(self.alloc(), first, operator, last)?)
    }

    /// A test of ports that begins with a port.
    #[tactic(auto, unfolding(crate::specs::Lists::ranged))]
    fn ranged(&mut self) -> Result<Words, Stop>
        ensures { Takes result self.new (ranged self.old) }
    {
        let token = self.value()?;
        if self.takes_symbol(b"><") {
            return self.between(&token, b"><");
        }
        if self.takes_symbol(b"<>") {
            return self.between(&token, b"<>");
        }
        port_words(self.alloc(), &token)
    }

    /// A test of a port, as the words that it adds to a rule.
    #[tactic(auto, unfolding(crate::specs::Lists::port))]
    fn port(&mut self) -> Result<Words, Stop>
        ensures { Takes result self.new (port self.old) }
    {
        match self.operator()? {
            Some(operator) => self.compared(operator),
            None => self.ranged(),
        }
    }

    /// One of what is tested, as the words that it adds to a rule.
    #[tactic(auto, unfolding(crate::specs::Lists::tested))]
    fn one_tested(&mut self, what: Tested) -> Result<Words, Stop>
        ensures { Takes result self.new (tested what self.old) }
    {
        match what {
            Tested::Protocol => self.protocol(),
            Tested::Port => self.port(),
        }
    }

    /// Appends one of what is tested, and returns whether another one follows.
    fn tested_more(&mut self, what: Tested, list: &mut Items<Words>) -> Result<bool, Stop>
        ensures { TakesOn result list.new self.new (item_more (listed_item (tested what)) list.old self.old) }
    {
        self.check_no_list()?;
        list.push(self.one_tested(what)?)?;
        self.list_goes_on()
    }

    /// What a list tests, whose open brace came.
    #[tactic(auto, using(crate::proofs::Turns::turn_on, crate::proofs::Turns::turn_ends, crate::proofs::Turns::no_turn))]
    fn tested_list(&mut self, what: Tested) -> Result<Items<Words>, Stop>
        ensures { Takes result self.new (list (listed_item (tested what)) self.old) }
    {
        self.begin_list()?;
        let mut list = Items::new(self.alloc());
        for _ in 0..self.turns() {
            if !self.tested_more(what, &mut list)? {
                return Ok(list);
            }
        }
        Err(self.unexpected())
    }

    /// One of what is tested, or a list of them.
    #[tactic(auto, unfolding(crate::specs::Lists::all_tested))]
    pub(crate) fn tested(&mut self, what: Tested) -> Result<Items<Words>, Stop>
        ensures { Takes result self.new (all_tested what self.old) }
    {
        if self.takes_symbol(b"{") {
            return self.tested_list(what);
        }
        let mut list = Items::new(self.alloc());
        list.push(self.one_tested(what)?)?;
        Ok(list)
    }

    // ---- hosts

    /// A table's name.
    #[tactic(auto, unfolding(crate::specs::Lists::table_name))]
    pub(crate) fn table_name(&mut self) -> Result<Token, Stop>
        ensures { Takes result self.new (table_name self.old) }
    {
        let token = self.string()?;
        check_table(self.alloc(), &token)?;
        Ok(token)
    }

    /// A table, whose `<` came.
    #[tactic(auto, unfolding(crate::specs::Lists::named_host))]
    fn named_host(&mut self, is_negated: bool) -> Result<Host, Stop>
        ensures { Takes result self.new (named_host is_negated self.old) }
    {
        let name = self.table_name()?;
        self.expect_symbol(b">")?;
        Ok(table_host(self.alloc(), &name, is_negated)?)
    }

    /// An address that begins with this token, with the length behind a slash if there is one.
    #[tactic(auto, unfolding(crate::specs::Lists::address))]
    fn address(&mut self, token: &Token) -> Result<Bytes, Stop>
        ensures { Takes result self.new (address token.now self.old) }
    {
        let alloc = self.alloc();
        if !self.takes_symbol(b"/") {
            return Ok(token.bytes(alloc)?);
        }
        if !self.next().is_number() {
            return Err(self.unexpected());
        }
        let length = self.token()?;
        Ok(with_slash(alloc, token, &length)?)
    }

    #[tactic(auto, unfolding(crate::specs::Lists::no_range))]
    fn check_no_range(&self) -> Result<(), Stop>
        ensures { Takes result self.now (no_range self.now) }
    {
        if self.next_is_symbol(b"-") {
            return Err(refusal(self.place(), Mistake::AddressRange));
        }
        Ok(())
    }

    /// A network.
    #[tactic(auto, unfolding(crate::specs::Lists::net_host))]
    fn net_host(&mut self, is_negated: bool) -> Result<Host, Stop>
        ensures { Takes result self.new (net_host is_negated self.old) }
    {
        let token = self.value()?;
        let text = self.address(&token)?;
        self.check_no_range()?;
        let net = net_of(self.alloc(), token.place, text.as_slice(), text.as_slice())?;
        Ok(Host {
            place: token.place,
            word: text,
            net: Some(net),
            is_negated,
        })
    }

    /// A host that is no table.
    #[tactic(auto, unfolding(crate::specs::Lists::other_host))]
    fn other_host(&mut self, is_negated: bool) -> Result<Host, Stop>
        ensures { Takes result self.new (other_host is_negated self.old) }
    {
        if self.next_is_symbol(b"(") {
            return Err(self.refused(Reason::InterfaceAddress));
        }
        if self.next_is_word(b"self") {
            return Err(self.unexpected());
        }
        self.net_host(is_negated)
    }

    /// A table or a network, perhaps negated.
    #[tactic(auto, unfolding(crate::specs::Lists::host))]
    fn host(&mut self) -> Result<Host, Stop>
        ensures { Takes result self.new (host self.old) }
    {
        let is_negated = self.takes_symbol(b"!");
        if self.takes_symbol(b"<") {
            return self.named_host(is_negated);
        }
        self.other_host(is_negated)
    }

    #[tactic(auto, unfolding(crate::specs::Lists::not_any))]
    fn check_not_any(&self) -> Result<(), Stop>
        ensures { Takes result self.now (not_any self.now) }
    {
        if self.next_is_word(b"any") {
            return Err(refusal(self.place(), Mistake::AnyInList));
        }
        Ok(())
    }

    /// Appends a host, or those of a list that is so deep at most, and returns whether another one follows.
    #[cycle(hosts)]
    fn hosts_more(&mut self, deep: u32, hosts: &mut Items<Host>) -> Result<bool, Stop>
        ensures { TakesOn result hosts.new self.new (item_more (listed_hosts (hosts_in deep)) hosts.old self.old) }
    {
        self.check_not_any()?;
        if self.next_is_symbol(b"{") {
            append(hosts, self.host_list(deep)?)?;
        } else {
            hosts.push(self.host()?)?;
        }
        self.list_goes_on()
    }

    /// The hosts of a list, whose open brace comes next. Lists are so deep in it at most.
    #[cycle(hosts)]
    #[tactic(auto, using(crate::proofs::Turns::turn_on, crate::proofs::Turns::turn_ends, crate::proofs::Turns::no_turn, crate::proofs::Turns::hosts_begun))]
    fn host_list(&mut self, deep: u32) -> Result<Items<Host>, Stop>
        ensures { Takes result self.new (hosts_in deep self.old) }
    {
        if deep == 0 {
            return Err(refusal(self.place(), Mistake::DeepList));
        }
        self.take();
        self.begin_list()?;
        let mut hosts = Items::new(self.alloc());
        for _ in 0..self.turns() {
            if !self.hosts_more(deep - 1, &mut hosts)? {
                return Ok(hosts);
            }
        }
        Err(self.unexpected())
    }

    /// The hosts of a list, whose open brace comes next.
    pub(crate) fn listed_hosts(&mut self) -> Result<Items<Host>, Stop>
        ensures { Takes result self.new (host_list self.old) }
    {
        self.host_list(LIST_LIMIT)
    }

    /// One host, or a list of hosts.
    #[tactic(auto, unfolding(crate::specs::Lists::hosts))]
    pub(crate) fn hosts(&mut self) -> Result<Items<Host>, Stop>
        ensures { Takes result self.new (hosts self.old) }
    {
        if self.next_is_symbol(b"{") {
            return self.listed_hosts();
        }
        let mut hosts = Items::new(self.alloc());
        hosts.push(self.host()?)?;
        Ok(hosts)
    }
}
