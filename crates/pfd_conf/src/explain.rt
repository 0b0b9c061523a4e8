//! The rules that match a packet.
ghost use Rattle.std.specs.Prelude.{◌≡◌, Ok, IfOk, IfErr};
ghost use Rattle.pf_addr.specs.Writing.{Continues, Writes};
ghost use Rattle.pf_form.specs.Form.Words.{words_of};
ghost use Rattle.pf_rule.specs.{PacketGrammar.packet, Refusals.reading};
ghost use Rattle.pfd_conf.specs.Explaining.{joined, IsExplained, RefusesPacket, note_text, verdict_line, explained_text, line_of_match, lines_of_matches};

use crate::case::{Matched, Traced, passes, read_packet, rules_that_match};
use crate::fault::Fault;
use crate::firewall::{Decided, Firewall, Origins, ruleset_at};
use crate::outcomes::mistake_of;
use crate::report::written;
use pf_addr::write_more;
use pf_anchor::RuleVerdict;
use pf_form::form::words;
use pf_rule::Packet;
use std::alloc::{AllocError, Global};
use std::io::{self, Write};

impl Origins<'_> {
    /// Writes the line of a rule that matches, if the file has it.
    fn write_match<W: Write>(
        &self,
        out: &mut W,
        so_far: io::Result<()>,
        matched: &Matched,
    ) -> io::Result<()>
        ensures { Continues so_far (W.contents out.old) result (W.contents out.new)
            (line_of_match self.now.files self.now.rulesets matched.now) }
    {
        let number = matched.number;
        match ruleset_at(self.rulesets(), &matched.path) {
            Some(within) => self.write_line(out, so_far, Decided { within, number }),
            None => write_more(out, so_far, b""),
        }
    }

    /// Writes the lines of rules that match.
    fn write_matches<W: Write>(
        &self,
        out: &mut W,
        begun: io::Result<()>,
        matched: &[Matched],
    ) -> io::Result<()>
        ensures { Continues begun (W.contents out.old) result (W.contents out.new)
            (lines_of_matches self.now.files self.now.rulesets matched.now) }
    {
        let mut so_far = begun;
        for rule in matched {
            so_far = self.write_match(out, so_far, rule);
        }
        so_far
    }

    /// Writes a verdict, and where the rule is written that decides.
    fn write_verdict<W: Write>(
        &self,
        out: &mut W,
        so_far: io::Result<()>,
        verdict: &RuleVerdict,
    ) -> io::Result<()>
        ensures { Continues so_far (W.contents out.old) result (W.contents out.new) (verdict_line self.now verdict.now) }
    {
        let decided = self.decided(verdict);
        let so_far = self.write_got(out, so_far, passes(verdict), decided);
        write_more(out, so_far, b"\n")
    }
}

impl Firewall {
    /// Writes the rules that match a packet, and the verdict on it.
    fn write_explained<W: Write>(
        &self,
        out: &mut W,
        packet: &Packet,
        traced: &Traced,
    ) -> io::Result<()>
        ensures { Writes result (W.contents out.old) (W.contents out.new) (explained_text self.now packet.now traced.now) }
    {
        let so_far = self.origins().write_matches(out, Ok(()), &traced.matched);
        let so_far = write_more(out, so_far, note(traced.is_whole));
        self.origins()
            .write_verdict(out, so_far, &self.config.judge(packet))
    }

    /// Writes each rule whose tests hold for the packet with these words, in the order in which they are looked at; and the verdict.
    ///
    /// `Fault::Packet`: the words are no packet, and nothing is written. `Fault::Output`: a front of that was written. Past 4,096 rules
    /// that match the rest isn't written, but for the verdict.
    pub fn explain<W: Write>(&self, alloc: Global, out: &mut W, texts: &[&str]) -> Result<(), Fault>
        ensures { IsExplained self.now (joined texts.now) result (W.contents out.old) (W.contents out.new) }
    {
        let packet = packet_in(alloc, texts)?;
        let traced = rules_that_match(alloc, &self.config, &packet)?;
        written(self.write_explained(out, &packet, &traced))?;
        written(out.flush())
    }
}

/// What is said where not all rules that match are listed.
fn note(is_whole: bool) -> &'static [u8]
    ensures { result.now ≡ note_text is_whole }
{
    if is_whole {
        b""
    } else {
        b"more than 4,096 rules match: the others aren't listed\n"
    }
}

/// The texts, each with a space behind it.
fn joined(alloc: Global, texts: &[&str]) -> Result<Vec<u8>, AllocError>
    ensures { IfOk result (λ v. v.items ≡ joined texts.now) }
{
    let mut text = Vec::new(alloc);
    for part in texts {
        text.extend_from_slice(part.as_bytes())?;
        text.push(b' ')?;
    }
    Ok(text)
}

/// The packet whose words these texts have, one after another.
fn packet_in(alloc: Global, texts: &[&str]) -> Result<Packet, Fault>
    ensures read { IfOk result (λ p. reading packet (words_of (joined texts.now)) ≡ Ok p) }
    ensures refused { IfErr result (RefusesPacket (joined texts.now)) }
{
    let text = joined(alloc, texts)?;
    let words = words(alloc, &text)?;
    match read_packet(&words) {
        Ok(packet) => Ok(packet),
        Err(fault) => Err(Fault::Packet(mistake_of(alloc, &words, fault)?)),
    }
}
