//! The canonical text of a rule.
ghost use Rattle.std.specs.{Prelude.{◌≡◌, ◌≢◌, IfErr}, IoError.error_kind};
ghost use Rattle.pf_addr.specs.Writing.{Writes, Continues};
ghost use Rattle.pf_rule.specs.Value.Spacing.{spaced};
ghost use Rattle.pf_rule.specs.RuleText.{effect_word, reference_words, quick_words, state_words, label_words, rule_text};

use crate::host::write_ends;
use crate::rule::{Action, Effect, Rule};
use crate::value::{Label, direction_text, family_text, write_interface, write_protocol};
use pf_addr::{write_more, write_text};
use std::io::{self, ErrorKind, Write};

impl Rule {
    /// Writes the rule's text: its words separated by one space, in the grammar's order, as `pass in quick on em0 inet proto tcp from
    /// 10.0.0.0/8 to any keep state`. Doesn't allocate.
    ///
    /// Returns the writer's first error, except that a write that a signal interrupts is tried again; then some first bytes of the text
    /// have been written.
    pub fn write<W: Write>(&self, out: &mut W) -> io::Result<()>
        ensures text { Writes result (W.contents out.old) (W.contents out.new) (rule_text self.now) }
        ensures retried { IfErr result (λ e. error_kind e ≢ ErrorKind.Interrupted) }
    {
        let so_far = write_text(out, effect_text(self.effect()));
        let so_far = write_reference(out, so_far, self.effect());
        let so_far = write_more(out, so_far, direction_text(self.direction()));
        let so_far = write_more(out, so_far, quick_text(self.is_quick()));
        let so_far = write_interface(out, so_far, self.interface());
        let so_far = write_more(out, so_far, family_text(self.family()));
        let so_far = write_protocol(out, so_far, self.protocol());
        let source = (self.source(), self.source_port());
        let destination = (self.destination(), self.destination_port());
        let so_far = write_ends(out, so_far, source, destination);
        let so_far = write_more(out, so_far, state_text(self.effect()));
        write_label(out, so_far, self.own_label())
    }
}

fn effect_text(effect: Effect) -> &'static [u8]
    ensures { result.now ≡ effect_word effect }
{
    match effect {
        Effect::Decide(Action::Pass { .. }) => b"pass",
        Effect::Decide(Action::Block) => b"block",
        Effect::Evaluate(_) => b"anchor",
    }
}

// The texts of the parts after the first word, with a space before each word.

fn quick_text(quick: bool) -> &'static [u8]
    ensures { result.now ≡ spaced (quick_words quick) }
{
    if quick { b" quick" } else { b"" }
}

fn state_text(effect: Effect) -> &'static [u8]
    ensures { result.now ≡ spaced (state_words effect) }
{
    match effect {
        Effect::Decide(Action::Pass { keeps_state: true }) => b" keep state",
        Effect::Decide(Action::Pass { keeps_state: false }) => b" no state",
        Effect::Decide(Action::Block) | Effect::Evaluate(_) => b"",
    }
}

/// Writes what an anchor rule names, in quotes.
#[tactic(auto, using(crate::specs::Value::Spacing::continuing))]
fn write_reference<W: Write>(out: &mut W, so_far: io::Result<()>, effect: Effect) -> io::Result<()>
    ensures { Continues so_far (W.contents out.old) result (W.contents out.new) (spaced (reference_words effect)) }
{
    let Effect::Evaluate(reference) = effect else {
        return write_more(out, so_far, b"");
    };
    let so_far = write_more(out, so_far, b" \"");
    let so_far = write_more(out, so_far, reference.names());
    let end: &[u8] = if reference.is_wildcard() {
        b"/*\""
    } else {
        b"\""
    };
    write_more(out, so_far, end)
}

/// Writes a label, in quotes.
#[tactic(auto, using(crate::specs::Value::Spacing::continuing))]
fn write_label<W: Write>(
    out: &mut W,
    so_far: io::Result<()>,
    label: Option<Label>,
) -> io::Result<()>
    ensures { Continues so_far (W.contents out.old) result (W.contents out.new) (spaced (label_words label)) }
{
    let Some(label) = label else {
        return write_more(out, so_far, b"");
    };
    let so_far = write_more(out, so_far, b" label \"");
    let so_far = write_more(out, so_far, label.as_bytes());
    write_more(out, so_far, b"\"")
}
