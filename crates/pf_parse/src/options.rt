//! The options behind a rule's tests.
ghost use Rattle.std.specs.{Prelude.{◌≡◌, ◌++◌, ◌&&◌, IfOk, codes}, List.{list_all, list_any}};
ghost use Rattle.pf_tokens.specs.Words.{is_word, is_symbol};
ghost use Rattle.pf_parse.specs.Reading.{Takes, TakesTo, TakesOn, next, second};
ghost use Rattle.pf_parse.specs.Options.{is_flag, is_syn, is_within, is_first_packet, is_tcp, is_state, state_options, kept, state, label_of, label, letters, flags_of, set_flags, written_flags, flags, skip_string, queue_name, queue, tag, named_priority, priority_value, priority, unexpected_option, left_out_option, option, options_more, said, label_words, state_words, closing, tests_and_options};

use crate::fault::{LeftOut, Mistake, Stop, refusal};
use crate::parser::{Parser, words_of};
use crate::tree::{Start, Tests};
use pf_addr::path::Name;
use pf_lists::Words;
use pf_tokens::{Bytes, Items, Place, Token};
use std::alloc::{AllocError, Global};

/// The most bytes of a label.
const LABEL_BYTES: usize = 63;

/// What the options of a rule say, and which of them came.
#[derive(Drop)]
struct Options {
    keeps: bool,
    label: Option<Bytes>,
    has_state: bool,
    has_label: bool,
    has_flags: bool,
}

impl Parser<'_> {
    /// What a rule tests, and the words that its options add to it.
    #[tactic(auto, unfolding(crate::specs::Options::tests_and_options))]
    pub(crate) fn tests_and_options(&mut self, start: Start) -> Result<(Tests, Words), Stop>
        ensures { Takes result self.new (tests_and_options start self.old) }
    {
        let tests = self.tests()?;
        let closing = self.closing(start, &tests)?;
        Ok((tests, closing))
    }

    /// The words that a rule's options add to it.
    #[tactic(auto, unfolding(crate::specs::Options::closing))]
    fn closing(&mut self, start: Start, tests: &Tests) -> Result<Words, Stop>
        ensures { Takes result self.new (closing start tests.now self.old) }
    {
        let options = self.options(start, tests)?;
        Ok(closing_words(self.alloc(), start, options.keeps, options.label)?)
    }

    /// All options of a rule.
    #[tactic(auto, using(crate::proofs::Turns::turn_on, crate::proofs::Turns::turn_ends, crate::proofs::Turns::no_turn))]
    fn options(&mut self, start: Start, tests: &Tests) -> Result<Options, Stop>
        ensures { Takes result self.new (said start tests.now self.old) }
    {
        let mut options = Options {
            keeps: true,
            label: None,
            has_state: false,
            has_label: false,
            has_flags: false,
        };
        for _ in 0..self.turns() {
            if !self.options_more(start, tests, &mut options)? {
                return Ok(options);
            }
        }
        Err(self.unexpected())
    }

    /// Takes an option, and returns whether there was one.
    fn options_more(
        &mut self,
        start: Start,
        tests: &Tests,
        options: &mut Options,
    ) -> Result<bool, Stop>
        ensures { TakesOn result options.new self.new (options_more start tests.now options.old self.old) }
    {
        if self.next_is_newline() || self.next_is_symbol(b"{") {
            return Ok(false);
        }
        self.option(start, tests, options)?;
        Ok(true)
    }

    /// One option.
    #[tactic(auto, unfolding(crate::specs::Options::option))]
    fn option(&mut self, start: Start, tests: &Tests, options: &mut Options) -> Result<(), Stop>
        ensures { TakesTo result options.new self.new (option start tests.now options.old self.old) }
    {
        if is_state(self.next()) {
            return self.state(start, options);
        }
        if self.next_is_word(b"label") {
            return self.label(start, options);
        }
        if self.next_is_word(b"flags") {
            return self.flags(tests, options);
        }
        self.left_out_option()
    }

    // ---- state

    /// A state option, which comes next.
    #[tactic(auto, unfolding(crate::specs::Options::state))]
    fn state(&mut self, start: Start, options: &mut Options) -> Result<(), Stop>
        ensures { TakesTo result options.new self.new (state start options.old self.old) }
    {
        let token = self.token()?;
        if start == Start::Anchor {
            return Err(refusal(token.place, Mistake::StateOfAnchor));
        }
        if options.has_state {
            return Err(refusal(token.place, Mistake::TwoStates));
        }
        self.expect_word(b"state")?;
        options.keeps = self.keeps(start, &token)?;
        options.has_state = true;
        Ok(())
    }

    /// Whether a state option with this first word keeps state.
    #[tactic(auto, unfolding(crate::specs::Options::kept))]
    fn keeps(&mut self, start: Start, token: &Token) -> Result<bool, Stop>
        ensures { Takes result self.new (kept start token.now self.old) }
    {
        if token.is_word(b"no") {
            return Ok(false);
        }
        if start == Start::Block {
            return Err(refusal(token.place, Mistake::KeepOnBlock));
        }
        if !token.is_word(b"keep") {
            let word = token.bytes(self.alloc())?;
            self.leave_out(token.place, LeftOut::State(word))?;
        }
        self.state_options()?;
        Ok(true)
    }

    /// Leaves out the list of state options, if it comes next.
    #[tactic(auto, unfolding(crate::specs::Options::state_options))]
    fn state_options(&mut self) -> Result<(), Stop>
        ensures { Takes result self.new (state_options self.old) }
    {
        if !self.next_is_symbol(b"(") {
            return Ok(());
        }
        self.leave_out(self.place(), LeftOut::StateOptions)?;
        self.skip_parentheses()
    }

    // ---- labels

    /// A label, whose first word comes next.
    #[tactic(auto, unfolding(crate::specs::Options::label, crate::specs::Reading::token))]
    fn label(&mut self, start: Start, options: &mut Options) -> Result<(), Stop>
        ensures { TakesTo result options.new self.new (label start options.old self.old) }
    {
        let place = self.take_place();
        if options.has_label {
            return Err(refusal(place, Mistake::TwoLabels));
        }
        let text = self.string()?;
        options.label = self.label_of(start, place, &text)?;
        options.has_label = true;
        Ok(())
    }

    /// The label with this text, if it isn't left out.
    #[tactic(auto, unfolding(crate::specs::Options::label_of))]
    fn label_of(&mut self, start: Start, place: Place, text: &Token) -> Result<Option<Bytes>, Stop>
        ensures { Takes result self.new (label_of start place text.now self.old) }
    {
        let label = text.bytes(self.alloc())?;
        if label.len() > LABEL_BYTES {
            return Err(refusal(text.place, Mistake::LongLabel));
        }
        if start == Start::Anchor || Name::<LABEL_BYTES>::from_ascii(label.as_slice()).is_err() {
            self.leave_out(place, LeftOut::Label(label))?;
            return Ok(None);
        }
        Ok(Some(label))
    }

    // ---- flags

    /// Flags, whose first word comes next.
    #[tactic(auto, unfolding(crate::specs::Options::flags, crate::specs::Reading::token))]
    fn flags(&mut self, tests: &Tests, options: &mut Options) -> Result<(), Stop>
        ensures { TakesTo result options.new self.new (flags tests.now options.old self.old) }
    {
        let place = self.take_place();
        if options.has_flags {
            return Err(refusal(place, Mistake::TwoFlags));
        }
        if !self.takes_word(b"any") {
            self.written_flags(place, tests)?;
        }
        options.has_flags = true;
        Ok(())
    }

    /// Flags by their letters, behind their first word at this place.
    #[tactic(auto, unfolding(crate::specs::Options::written_flags))]
    fn written_flags(&mut self, place: Place, tests: &Tests) -> Result<(), Stop>
        ensures { Takes result self.new (written_flags place tests.now self.old) }
    {
        let set = self.set_flags()?;
        self.expect_symbol(b"/")?;
        let of = self.letters()?;
        self.flags_of(place, tests, set, of)
    }

    /// The flags that are to be set.
    #[tactic(auto, unfolding(crate::specs::Options::set_flags))]
    fn set_flags(&mut self) -> Result<Bytes, Stop>
        ensures { Takes result self.new (set_flags self.old) }
    {
        if self.next_is_symbol(b"/") {
            return Ok(Items::new(self.alloc()));
        }
        self.letters()
    }

    /// Letters of flags.
    #[tactic(auto, unfolding(crate::specs::Options::letters))]
    fn letters(&mut self) -> Result<Bytes, Stop>
        ensures { Takes result self.new (letters self.old) }
    {
        let token = self.string()?;
        let letters = token.bytes(self.alloc())?;
        if has_flags_alone(letters.as_slice()) {
            return Ok(letters);
        }
        Err(refusal(token.place, Mistake::Misplaced(letters)))
    }

    /// Leaves out flags that a connection's first packet has: these of those.
    #[tactic(auto, unfolding(crate::specs::Options::flags_of))]
    fn flags_of(&mut self, place: Place, tests: &Tests, set: Bytes, of: Bytes) -> Result<(), Stop>
        ensures { Takes result self.new (flags_of place tests.now set of self.old) }
    {
        if !is_within(set.as_slice(), of.as_slice()) {
            return Err(refusal(place, Mistake::NeverTrue(set, of)));
        }
        if !is_first_packet(set.as_slice(), of.as_slice()) {
            return Err(refusal(place, Mistake::NoFirstPacket(set, of)));
        }
        if !tests_tcp(tests) {
            return Err(refusal(place, Mistake::FlagsWithoutTcp));
        }
        self.leave_out(place, LeftOut::Flags(set, of))
    }

    // ---- what is left out

    /// An option that is left out.
    #[tactic(auto, unfolding(crate::specs::Options::left_out_option))]
    fn left_out_option(&mut self) -> Result<(), Stop>
        ensures { Takes result self.new (left_out_option self.old) }
    {
        if self.next_is_word(b"allow-opts") {
            return self.leave_out_next();
        }
        if self.next_is_word(b"queue") {
            return self.queue();
        }
        if self.next_is_word(b"tag") {
            return self.tag();
        }
        if self.next_is_word(b"set") {
            return self.priority();
        }
        self.unexpected_option()
    }

    #[tactic(auto, unfolding(crate::specs::Options::queue))]
    fn queue(&mut self) -> Result<(), Stop>
        ensures { Takes result self.new (queue self.old) }
    {
        self.leave_out_next()?;
        self.queue_name()
    }

    #[tactic(auto, unfolding(crate::specs::Options::tag))]
    fn tag(&mut self) -> Result<(), Stop>
        ensures { Takes result self.new (tag self.old) }
    {
        self.leave_out_next()?;
        self.skip_string()
    }

    #[tactic(auto, unfolding(crate::specs::Options::skip_string))]
    fn skip_string(&mut self) -> Result<(), Stop>
        ensures { Takes result self.new (skip_string self.old) }
    {
        self.string()?;
        Ok(())
    }

    #[tactic(auto, unfolding(crate::specs::Options::queue_name))]
    fn queue_name(&mut self) -> Result<(), Stop>
        ensures { Takes result self.new (queue_name self.old) }
    {
        if self.next_is_symbol(b"(") {
            return self.skip_parentheses();
        }
        self.skip_string()
    }

    /// `set`, which comes next, and what stands behind it.
    #[tactic(auto, unfolding(crate::specs::Options::priority, crate::specs::Reading::token))]
    fn priority(&mut self) -> Result<(), Stop>
        ensures { Takes result self.new (priority self.old) }
    {
        let place = self.take_place();
        self.named_priority()?;
        self.leave_out(place, LeftOut::Priority)?;
        self.priority_value()
    }

    #[tactic(auto, unfolding(crate::specs::Options::named_priority))]
    fn named_priority(&mut self) -> Result<(), Stop>
        ensures { Takes result self.new (named_priority self.old) }
    {
        if self.next_is_symbol(b"(") {
            return Ok(());
        }
        self.expect_word(b"prio")
    }

    #[tactic(auto, unfolding(crate::specs::Options::priority_value))]
    fn priority_value(&mut self) -> Result<(), Stop>
        ensures { Takes result self.new (priority_value self.old) }
    {
        if self.next_is_symbol(b"(") {
            return self.skip_parentheses();
        }
        self.value()?;
        Ok(())
    }

    /// Whether a `tagged` with a `!` before it comes next.
    fn next_is_negated_tag(&self) -> bool
        ensures { result ≡ is_symbol (codes "!") (next self.now) && is_word (codes "tagged") (second self.now) }
    {
        self.next_is_symbol(b"!") && self.second().is_word(b"tagged")
    }

    /// The fault of what is no option. `tagged` is refused behind a `!`, too.
    #[tactic(auto, unfolding(crate::specs::Options::unexpected_option, crate::specs::Reading::token))]
    fn unexpected_option(&mut self) -> Result<(), Stop>
        ensures { Takes result self.new (unexpected_option self.old) }
    {
        if !self.next_is_negated_tag() {
            return Err(self.unexpected());
        }
        self.take();
        Err(self.unexpected())
    }
}

/// Whether this is the first word of a state option.
fn is_state(token: &Token) -> bool
    ensures { result ≡ is_state token.now }
{
    token.is_word(b"keep")
        || token.is_word(b"modulate")
        || token.is_word(b"synproxy")
        || token.is_word(b"no")
}

/// The words that a state option and a label add to a rule.
fn closing_words(
    alloc: Global,
    start: Start,
    keeps: bool,
    label: Option<Bytes>,
) -> Result<Words, AllocError>
    ensures { IfOk result (λ words. words ≡ state_words start keeps ++ label_words label) }
{
    let mut words = match start {
        Start::Pass if keeps => words_of(alloc, &[b"keep", b"state"])?,
        Start::Pass => words_of(alloc, &[b"no", b"state"])?,
        Start::Block | Start::Anchor => Items::new(alloc),
    };
    if let Some(label) = label {
        words.push(Items::copied(alloc, b"label")?)?;
        words.push(label)?;
    }
    Ok(words)
}

/// The letter of a flag.
fn is_flag(byte: u8) -> bool
    ensures { result ≡ is_flag byte }
{
    b"FSRPAUEW".contains(&byte)
}

fn has_flags_alone(letters: &[u8]) -> bool
    ensures { result ≡ list_all is_flag letters.now }
{
    letters.iter().all(|byte| is_flag(*byte))
}

/// Whether each of these is one of those.
fn is_within(set: &[u8], of: &[u8]) -> bool
    ensures { result ≡ is_within set.now of.now }
{
    set.iter().all(|flag| of.contains(flag))
}

fn is_syn(flag: u8) -> bool
    ensures { result ≡ is_syn flag }
{
    flag == b'S'
}

fn has_syn(flags: &[u8]) -> bool
    ensures { result ≡ list_any is_syn flags.now }
{
    flags.iter().any(|flag| is_syn(*flag))
}

fn has_syn_alone(flags: &[u8]) -> bool
    ensures { result ≡ list_all is_syn flags.now }
{
    flags.iter().all(|flag| is_syn(*flag))
}

/// Whether the first packet of a connection, which is a SYN alone, has these of those flags.
fn is_first_packet(set: &[u8], of: &[u8]) -> bool
    ensures { result ≡ is_first_packet set.now of.now }
{
    has_syn_alone(set)
        && if set.is_empty() {
            !has_syn(of)
        } else {
            has_syn(of)
        }
}

/// Whether an item of the tested protocols tests none, or TCP.
fn is_tcp(words: &Words) -> bool
    ensures { result ≡ is_tcp words.now }
{
    match words.as_slice() {
        [] => true,
        [_, number] => number.as_slice() == b"6".as_slice(),
        _ => false,
    }
}

/// Whether no protocol is tested, or TCP is among those that are.
fn tests_tcp(tests: &Tests) -> bool
    ensures { result ≡ list_any is_tcp tests.now.protocols }
{
    tests.protocols.as_slice().iter().any(|words| is_tcp(words))
}
