//! The lines of a file.
ghost use Rattle.std.specs.{Prelude.{◌≡◌, ◌&&◌, IfOk}, List.list_any};
ghost use Rattle.pf_tokens.specs.Words.{has_text, is_word};
ghost use Rattle.pf_parse.specs.{Stops.Gives, Reading.{Takes, TakesOn}};
ghost use Rattle.pf_parse.specs.Lines.{rule_opening, rule_of, rule, entry_of, entries_of, listed, is_left_out_of_table, table_part, parts_more, table_parts, keep_table, name_in_angles, table, keep_load, loaded_path, loaded_file, load, skip_rule, keep_skip, skip_one, skip_each, in_main, skip, set_order, require_order, holds, set_option, is_setting, setting, set_line, is_left_out_line, left_out_line, no_line, is_rule, rule_or_anchor, filtering, line, line_in_braces, any_line, all_closed, line_more, lines, parsed};

use crate::anchors::Named;
use crate::criteria::{interface_word, no_tests};
use crate::fault::{At, LeftOut, Mistake, Reason, Remark, Stop, refusal};
use crate::openings::{Direction, opening};
use crate::parser::{Mode, Parser, Rank, words_of};
use crate::tree::{Entries, Entry, Load, Product, Start, Table, Tree};
use pf_lists::{Host, Words};
use pf_tokens::{Bytes, Items, Place, Token};
use std::alloc::{AllocError, Global};

/// What can be set (pf.conf(5), OPTIONS).
const SETTINGS: [&[u8]; 15] = [
    b"block-policy",
    b"debug",
    b"fail-policy",
    b"fingerprints",
    b"hostid",
    b"keepcounters",
    b"limit",
    b"loginterface",
    b"optimization",
    b"require-order",
    b"ruleset-optimization",
    b"skip",
    b"state-defaults",
    b"state-policy",
    b"timeout",
];

/// Settings that say what holds anyway.
const HOLDS: [(&[u8], &[u8]); 3] = [
    (b"block-policy", b"drop"),
    (b"state-policy", b"floating"),
    (b"ruleset-optimization", b"none"),
];

/// What a file has, and what is noted of it, in the order of its text.
#[derive(Drop)]
pub struct Parsed {
    pub tree: Tree,
    pub notes: Items<At<Remark>>,
}

/// What the lines of a file have whose tokens are these. `is_main` says whether its rules are the main ruleset's.
///
/// `Stop::Faulty`: the first fault that is met by reading on; `Stop::Memory`: out of memory.
pub fn parse(alloc: Global, tokens: &[Token], mode: Mode, is_main: bool) -> Result<Parsed, Stop>
    ensures { Gives result (parsed tokens.now mode is_main) }
{
    let mut parser = Parser::new(alloc, tokens, mode, is_main);
    parser.lines()?;
    let Parser { tree, notes, .. } = parser;
    Ok(Parsed { tree, notes })
}

/// Whether a token is one of these words.
fn is_among(words: &[&[u8]], token: &Token) -> bool
    ensures { result ≡ list_any (λ word. is_word word.now token.now) words.now }
{
    words.iter().any(|word| token.is_word(word))
}

/// Whether it can be set.
#[tactic(auto, unfolding(crate::specs::Lines::is_setting))]
fn is_setting(token: &Token) -> bool
    ensures { result ≡ is_setting token.now }
{
    is_among(&SETTINGS, token)
}

/// Whether a setting with this value is in a table.
fn says(table: &[(&[u8], &[u8])], option: &Token, value: &Token) -> bool
    ensures { result ≡ list_any (λ row. has_text row.0.now option.now && has_text row.1.now value.now) table.now }
{
    table
        .iter()
        .any(|row| option.has_text(row.0) && value.has_text(row.1))
}

/// Whether a setting with this value says what holds anyway.
#[tactic(auto, unfolding(crate::specs::Lines::holds))]
fn holds(option: &Token, value: &Token) -> bool
    ensures { result ≡ holds option.now value.now }
{
    says(&HOLDS, option, value)
}

/// Whether a line that begins so is left out.
fn is_left_out_line(token: &Token) -> bool
    ensures { result ≡ is_left_out_line token.now }
{
    token.is_word(b"scrub") || token.is_word(b"altq") || token.is_word(b"queue")
}

/// Whether a line that begins so is a pass or block rule.
fn is_rule(token: &Token) -> bool
    ensures { result ≡ is_rule token.now }
{
    token.is_word(b"pass") || token.is_word(b"block")
}

/// Whether such a part of a table's line is left out.
fn is_left_out_of_table(token: &Token) -> bool
    ensures { result ≡ is_left_out_of_table token.now }
{
    token.is_word(b"const") || token.is_word(b"counters")
}

/// The words with which a rule begins.
fn rule_opening(
    alloc: Global,
    word: &[u8],
    direction: Option<Direction>,
    quick: bool,
) -> Result<Words, AllocError>
    ensures { IfOk result (λ words. words ≡ rule_opening word.now direction quick) }
{
    opening(alloc, &[word], direction, quick)
}

/// The rule that stands for a skipped interface.
fn skip_rule(alloc: Global, interface: &Token) -> Result<Product, AllocError>
    ensures { IfOk result (λ p. p ≡ skip_rule interface.now) }
{
    let mut interfaces = Items::new(alloc);
    interfaces.push(interface_word(alloc, interface)?)?;
    let mut tests = no_tests(alloc)?;
    tests.interfaces = interfaces;
    let opening = words_of(alloc, &[b"pass", b"quick"])?;
    let closing = words_of(alloc, &[b"no", b"state"])?;
    Product::of(alloc, interface.place, opening, tests, closing)
}

/// The entries of a table that hosts are.
#[tactic(auto, using(crate::proofs::InTurn::entries_on, crate::proofs::InTurn::entries_stop, crate::proofs::InTurn::entries_end))]
fn entries_of(alloc: Global, hosts: &[Host]) -> Result<Items<Entry>, Stop>
    ensures { Gives result (entries_of hosts.now) }
{
    let mut entries = Items::new(alloc);
    for host in hosts {
        let entry = entry_of(host)?;
        entries.push(entry)?;
    }
    Ok(entries)
}

/// The entry of a table that a host is.
fn entry_of(host: &Host) -> Result<Entry, Stop>
    ensures { result ≡ entry_of host.now host.now.net }
{
    let (place, is_negated) = (host.place, host.is_negated);
    match host.net {
        Some(net) => Ok(Entry {
            place,
            net,
            is_negated,
        }),
        None => Err(refusal(place, Mistake::TableInTable)),
    }
}

impl Parser<'_> {
    /// All lines of a file.
    #[tactic(auto, using(crate::proofs::InTurn::lines_on, crate::proofs::InTurn::lines_end, crate::proofs::InTurn::lines_past))]
    fn lines(&mut self) -> Result<(), Stop>
        ensures { Takes result self.new (lines self.old) }
    {
        for _ in 0..self.turns() {
            if !self.lines_more()? {
                return self.check_closed();
            }
        }
        Err(self.unexpected())
    }

    /// Takes a line, and returns whether there was one.
    fn lines_more(&mut self) -> Result<bool, Stop>
        ensures { Takes result self.new (line_more self.old) }
    {
        if self.is_at_end() {
            return Ok(false);
        }
        self.any_line()?;
        Ok(true)
    }

    /// Checks that no braces are open.
    #[tactic(auto, unfolding(crate::specs::Lines::all_closed))]
    fn check_closed(&self) -> Result<(), Stop>
        ensures { Takes result self.now (all_closed self.now) }
    {
        if self.within() == 0 {
            return Ok(());
        }
        Err(self.unexpected())
    }

    #[tactic(auto, unfolding(crate::specs::Lines::any_line, crate::specs::Reading::token))]
    fn any_line(&mut self) -> Result<(), Stop>
        ensures { Takes result self.new (any_line self.old) }
    {
        if self.next_is_newline() {
            self.take();
            return Ok(());
        }
        if self.within() == 0 {
            return self.line();
        }
        self.line_in_braces()
    }

    /// A line outside braces.
    #[tactic(auto, unfolding(crate::specs::Lines::line))]
    fn line(&mut self) -> Result<(), Stop>
        ensures { Takes result self.new (line self.old) }
    {
        if self.next_is_word(b"set") {
            return self.set_line();
        }
        if is_left_out_line(self.next()) {
            return self.left_out_line();
        }
        if self.next_is_word(b"no") {
            return self.no_line();
        }
        if self.next_is_word(b"table") {
            return self.table();
        }
        if self.next_is_word(b"load") {
            return self.load();
        }
        self.filtering()?;
        self.rule_or_anchor()
    }

    /// A line in braces: a rule, an anchor or the end.
    #[tactic(auto, unfolding(crate::specs::Lines::line_in_braces))]
    fn line_in_braces(&mut self) -> Result<(), Stop>
        ensures { Takes result self.new (line_in_braces self.old) }
    {
        if self.next_is_symbol(b"}") {
            return self.close_braces();
        }
        self.rule_or_anchor()
    }

    #[tactic(auto, unfolding(crate::specs::Lines::rule_or_anchor))]
    fn rule_or_anchor(&mut self) -> Result<(), Stop>
        ensures { Takes result self.new (rule_or_anchor self.old) }
    {
        if is_rule(self.next()) {
            return self.rule();
        }
        if self.next_is_word(b"anchor") {
            return self.anchor();
        }
        Err(self.unexpected())
    }

    /// Checks that a rule can come next, if one does.
    #[tactic(auto, unfolding(crate::specs::Lines::filtering))]
    fn filtering(&mut self) -> Result<(), Stop>
        ensures { Takes result self.new (filtering self.old) }
    {
        if is_rule(self.next()) || self.next_is_word(b"anchor") {
            return self.in_order(self.place(), Rank::Filtering);
        }
        Ok(())
    }

    // ---- lines that are left out

    /// A line that begins with `no`.
    #[tactic(auto, unfolding(crate::specs::Lines::no_line, crate::specs::Reading::token))]
    fn no_line(&mut self) -> Result<(), Stop>
        ensures { Takes result self.new (no_line self.old) }
    {
        self.take();
        if self.next_is_word(b"scrub") {
            return self.left_out_line();
        }
        Err(self.unexpected())
    }

    #[tactic(auto, unfolding(crate::specs::Lines::left_out_line))]
    fn left_out_line(&mut self) -> Result<(), Stop>
        ensures { Takes result self.new (left_out_line self.old) }
    {
        let place = self.place();
        let rank = if self.next_is_word(b"scrub") {
            Rank::Normalization
        } else {
            Rank::Queueing
        };
        let word = self.text()?;
        self.in_order(place, rank)?;
        self.leave_out(place, LeftOut::Word(word))?;
        self.skip_line()
    }

    // ---- "set"

    #[tactic(auto, unfolding(crate::specs::Lines::set_line, crate::specs::Reading::token))]
    fn set_line(&mut self) -> Result<(), Stop>
        ensures { Takes result self.new (set_line self.old) }
    {
        self.in_order(self.place(), Rank::Options)?;
        self.take();
        let option = self.setting()?;
        self.set_option(&option)
    }

    /// The name of what can be set.
    #[tactic(auto, unfolding(crate::specs::Lines::setting))]
    fn setting(&mut self) -> Result<Token, Stop>
        ensures { Takes result self.new (setting self.old) }
    {
        if !is_setting(self.next()) {
            return Err(self.unexpected());
        }
        self.token()
    }

    /// What is set, behind its name.
    #[tactic(auto, unfolding(crate::specs::Lines::set_option, crate::specs::Reading::token))]
    fn set_option(&mut self, option: &Token) -> Result<(), Stop>
        ensures { Takes result self.new (set_option option.now self.old) }
    {
        if option.is_word(b"skip") {
            return self.skip_interfaces(option);
        }
        if option.is_word(b"require-order") {
            return self.require_order();
        }
        if holds(option, self.next()) {
            self.take();
            return self.end_line();
        }
        let name = option.bytes(self.alloc())?;
        self.leave_out(option.place, LeftOut::Setting(name))?;
        self.skip_line()
    }

    #[tactic(auto, unfolding(crate::specs::Lines::require_order))]
    fn require_order(&mut self) -> Result<(), Stop>
        ensures { Takes result self.new (require_order self.old) }
    {
        if self.takes_word(b"yes") {
            return self.set_order(true);
        }
        self.expect_word(b"no")?;
        self.set_order(false)
    }

    /// Sets whether the order of lines matters, at a line's end.
    #[tactic(auto, unfolding(crate::specs::Lines::order_matters, crate::specs::Lines::set_order))]
    fn set_order(&mut self, is_ordered: bool) -> Result<(), Stop>
        ensures { Takes result self.new (set_order is_ordered self.old) }
    {
        self.is_ordered = is_ordered;
        self.end_line()
    }

    /// Interfaces that are skipped, behind `set skip`.
    #[tactic(auto, unfolding(crate::specs::Lines::skip))]
    fn skip_interfaces(&mut self, option: &Token) -> Result<(), Stop>
        ensures { Takes result self.new (skip option.now self.old) }
    {
        self.check_main(option)?;
        self.expect_word(b"on")?;
        let interfaces = self.interfaces()?;
        self.skip_each(interfaces.as_slice())?;
        self.end_line()
    }

    /// Checks that the file's rules are the main ruleset's.
    #[tactic(auto, unfolding(crate::specs::Lines::in_main))]
    fn check_main(&self, option: &Token) -> Result<(), Stop>
        ensures { Takes result self.now (in_main option.now self.now) }
    {
        if self.is_main {
            return Ok(());
        }
        let word = option.bytes(self.alloc())?;
        Err(refusal(option.place, Mistake::Refused(word, Reason::MainAlone)))
    }

    fn skip_each(&mut self, interfaces: &[Token]) -> Result<(), Stop>
        ensures { Takes result self.new (skip_each interfaces.now self.old) }
    {
        for interface in interfaces {
            self.skip_one(interface)?;
        }
        Ok(())
    }

    #[tactic(auto, unfolding(crate::specs::Lines::skip_one))]
    fn skip_one(&mut self, interface: &Token) -> Result<(), Stop>
        ensures { Takes result self.new (skip_one interface.now self.old) }
    {
        let name = interface.bytes(self.alloc())?;
        self.leave_out(interface.place, LeftOut::Skip(name))?;
        let rule = skip_rule(self.alloc(), interface)?;
        self.keep_skip(rule)
    }

    #[tactic(auto, unfolding(crate::specs::Lines::keep_skip))]
    fn keep_skip(&mut self, rule: Product) -> Result<(), Stop>
        ensures { Takes result self.new (keep_skip rule self.old) }
    {
        self.tree.skips.push(rule)?;
        Ok(())
    }

    // ---- "table"

    /// A table's line, whose first word comes next.
    #[tactic(auto, unfolding(crate::specs::Lines::table, crate::specs::Reading::token))]
    fn table(&mut self) -> Result<(), Stop>
        ensures { Takes result self.new (table self.old) }
    {
        self.take();
        let name = self.name_in_angles()?;
        let sources = self.table_parts()?;
        self.end_line()?;
        let place = name.place;
        let name = name.bytes(self.alloc())?;
        self.keep_table(Table {
            place,
            name,
            sources,
        })
    }

    /// A table's name between `<` and `>`.
    #[tactic(auto, unfolding(crate::specs::Lines::name_in_angles))]
    fn name_in_angles(&mut self) -> Result<Token, Stop>
        ensures { Takes result self.new (name_in_angles self.old) }
    {
        self.expect_symbol(b"<")?;
        let name = self.table_name()?;
        self.expect_symbol(b">")?;
        Ok(name)
    }

    #[tactic(auto, unfolding(crate::specs::Lines::keep_table))]
    fn keep_table(&mut self, table: Table) -> Result<(), Stop>
        ensures { Takes result self.new (keep_table table self.old) }
    {
        self.tree.tables.push(table)?;
        Ok(())
    }

    /// All parts of a table's line.
    #[tactic(auto, using(crate::proofs::Turns::turn_on, crate::proofs::Turns::turn_ends, crate::proofs::Turns::no_turn))]
    fn table_parts(&mut self) -> Result<Items<Entries>, Stop>
        ensures { Takes result self.new (table_parts self.old) }
    {
        let mut sources = Items::new(self.alloc());
        for _ in 0..self.turns() {
            if !self.parts_more(&mut sources)? {
                return Ok(sources);
            }
        }
        Err(self.unexpected())
    }

    /// Takes a part, and returns whether there was one.
    fn parts_more(&mut self, sources: &mut Items<Entries>) -> Result<bool, Stop>
        ensures { TakesOn result sources.new self.new (parts_more sources.old self.old) }
    {
        if self.next_is_newline() {
            return Ok(false);
        }
        if let Some(source) = self.table_part()? {
            sources.push(source)?;
        }
        Ok(true)
    }

    /// A part of a table's line: where entries come from, or what says nothing.
    #[tactic(auto, unfolding(crate::specs::Lines::table_part, crate::specs::Reading::token))]
    fn table_part(&mut self) -> Result<Option<Entries>, Stop>
        ensures { Takes result self.new (table_part self.old) }
    {
        if self.next_is_word(b"persist") {
            self.take();
            return Ok(None);
        }
        if is_left_out_of_table(self.next()) {
            self.leave_out_next()?;
            return Ok(None);
        }
        if self.next_is_word(b"file") {
            self.take();
            return Ok(Some(Entries::File(self.string()?)));
        }
        if self.next_is_symbol(b"{") {
            return Ok(Some(Entries::Listed(self.entries()?)));
        }
        Err(self.unexpected())
    }

    /// The entries of a list, whose open brace comes next. It may be empty.
    #[tactic(auto, unfolding(crate::specs::Lines::listed, crate::specs::Reading::token))]
    fn entries(&mut self) -> Result<Items<Entry>, Stop>
        ensures { Takes result self.new (listed self.old) }
    {
        if self.next_is_empty_list() {
            self.take();
            self.skip_newlines();
            self.take();
            return Ok(Items::new(self.alloc()));
        }
        let hosts = self.listed_hosts()?;
        entries_of(self.alloc(), hosts.as_slice())
    }

    // ---- "load anchor"

    /// A line that loads an anchor, whose first word comes next.
    #[tactic(auto, unfolding(crate::specs::Lines::load, crate::specs::Reading::token))]
    fn load(&mut self) -> Result<(), Stop>
        ensures { Takes result self.new (load self.old) }
    {
        let place = self.take_place();
        let path = self.loaded_path()?;
        let file = self.loaded_file()?;
        self.keep_load(Load { place, path, file })
    }

    /// The path of the ruleset that a line loads.
    #[tactic(auto, unfolding(crate::specs::Lines::loaded_path))]
    fn loaded_path(&mut self) -> Result<Bytes, Stop>
        ensures { Takes result self.new (loaded_path self.old) }
    {
        self.expect_word(b"anchor")?;
        let name = self.anchor_name(Named::Path)?;
        Ok(name.bytes(self.alloc())?)
    }

    /// The file from which a line loads it, at the line's end.
    #[tactic(auto, unfolding(crate::specs::Lines::loaded_file))]
    fn loaded_file(&mut self) -> Result<Token, Stop>
        ensures { Takes result self.new (loaded_file self.old) }
    {
        self.expect_word(b"from")?;
        let file = self.string()?;
        self.end_line()?;
        Ok(file)
    }

    #[tactic(auto, unfolding(crate::specs::Lines::keep_load))]
    fn keep_load(&mut self, load: Load) -> Result<(), Stop>
        ensures { Takes result self.new (keep_load load self.old) }
    {
        self.tree.loads.push(load)?;
        Ok(())
    }

    // ---- "pass" and "block"

    /// A pass or block rule, whose first word comes next.
    #[tactic(auto, unfolding(crate::specs::Lines::rule, crate::specs::Reading::token))]
    fn rule(&mut self) -> Result<(), Stop>
        ensures { Takes result self.new (rule self.old) }
    {
        let blocks = self.next_is_word(b"block");
        let place = self.take_place();
        if blocks {
            self.block_policy()?;
            return self.rule_of(Start::Block, b"block", place);
        }
        self.rule_of(Start::Pass, b"pass", place)
    }

    /// A rule that begins so at this place, behind what it does.
    #[tactic(auto, unfolding(crate::specs::Lines::rule_of))]
    fn rule_of(&mut self, start: Start, word: &[u8], place: Place) -> Result<(), Stop>
        ensures { Takes result self.new (rule_of start word.now place self.old) }
    {
        let direction = self.direction();
        let quick = self.log_and_quick()?;
        let opening = rule_opening(self.alloc(), word, direction, quick)?;
        let (tests, closing) = self.tests_and_options(start)?;
        self.end_line()?;
        let product = Product::of(self.alloc(), place, opening, tests, closing)?;
        self.keep_rule(self.within, product)
    }
}
