//! What judges by the published copies.
ghost use Rattle.std.specs.Prelude.{◌≡◌, ◌<◌, ◌≤◌, length, IfOk, IfSome, OnErr, MatchOption};
ghost use mathlib.Core.List.{IsPrefix};
ghost use Rattle.left_right.specs.Sides.{view};
ghost use Rattle.pf_core.specs.Durable.Changes.{after, verdict};
ghost use Rattle.pf_view.specs.Past.Pasts.{all_acked};
ghost use Rattle.pf_view.specs.Seers.{JudgesBy, learns};

use crate::law::{Law, Seeing, Sight};
use crate::past::{Front, Naming};
use crate::shown::Shown;
use crate::token::Token;
use core::mem::replace_with;
use left_right::reader::Reader;
use pf_core::Verdict;
use pf_rule::Packet;
use std::marker::Model;

/// The published copies gave no entry, for example after their shower was dropped, or one with fewer changes than the seer had learnt.
#[derive(Clone, Copy, Debug, PartialEq, Eq)]
pub struct Gone;

pub(crate) type CopyReader<J> = Reader<Shown, Sight, Law<J>>;

/// A worker's own way into the published copies. Contracts see what it saw and what it learnt, both of them fronts of the history whose
/// changes were all acknowledged, and which copies it judges by (`PlainSeer`).
#[derive(Drop)]
pub struct Seer<J: Naming> {
    reader: CopyReader<J>,
    // the changes of the copy by which it judged last, which are the most that it saw, or else what it was given when it was made
    saw: Front<J>,
    // the most that it learnt
    learnt: Token<J>,
}

impl<J: Naming> Model for Seer<J> {
    ghost use Rattle.std.specs.Prelude.{◌≡◌};
    ghost use Rattle.pf_view.specs.Past.Pasts.{all_acked};
    ghost use Rattle.pf_view.specs.Seers.{PlainSeer, HoldsSight};

    ghost Value = { PlainSeer };

    ghost view = { λ s. record { seen = s.saw.front; learnt = s.learnt; copies = s.reader.place.table_id } };

    ghost invariant = { λ s. (s.saw ≡ all_acked s.saw.front) × HoldsSight s.reader.place.me.0.client s.learnt s.saw.front };
}

impl<J: Naming> Seer<J> {
    // A seer that was given this token: that is all that it saw, and all that it learnt.
    pub(crate) fn informed(reader: CopyReader<J>, token: Token<J>) -> Seer<J>
        ensures seen { result.seen ≡ token }
        ensures learnt { result.learnt ≡ token }
        ensures copies { JudgesBy reader.place.table_id result }
    {
        Seer {
            reader,
            saw: token.front(),
            learnt: token,
        }
    }

    /// What happens to a packet by the copy that is shown: what the opening gave after a front of the history. This front begins with all
    /// that this seer saw and with all that it learnt, and each change of it is acknowledged. It takes no lock, no memory and no handle,
    /// and waits for nobody. `Gone`: it judged nothing, and what it saw and learnt stays.
    pub fn judge(&mut self, packet: &Packet) -> Result<Verdict, Gone>
        ensures verdict { IfOk result (λ v. v ≡ verdict (after J.base self.new.seen) packet.now) }
        ensures seen { IsPrefix self.old.seen self.new.seen }
        ensures learnt { IfOk result (λ _. IsPrefix self.old.learnt self.new.seen) }
        ensures gone { OnErr result (self.new.seen ≡ self.old.seen) }
        ensures same { self.new.learnt ≡ self.old.learnt }
    {
        let floor = self.learnt.count();
        let looked = replace_with(&mut self.reader, packet, |reader, packet| {
            judged::<J>(reader, floor, packet)
        });
        let Some((saw, verdict)) = looked else {
            return Err(Gone);
        };
        self.learnt.begins(&saw);
        self.saw = saw;
        Ok(verdict)
    }

    /// Learns a token, if it has more changes than what was learnt before: from now on each verdict is by a front that begins with the
    /// token's changes.
    pub fn learn(&mut self, token: &Token<J>)
        ensures learnt { self.new ≡ learns token.now self.old }
        ensures begins { IsPrefix token.now self.new.learnt }
        ensures kept { IsPrefix self.old.learnt self.new.learnt }
    {
        if self.learnt.count() < token.count() {
            self.learnt.begins(&token.front());
            self.learnt = token.again();
        } else {
            token.begins(&self.learnt.front());
        }
    }

    /// The front that it saw.
    pub fn seen(&self) -> Front<J>
        ensures { result ≡ all_acked self.now.seen }
    {
        self.saw.again()
    }

    /// The front that it learnt.
    pub fn learnt(&self) -> Front<J>
        ensures { result ≡ all_acked self.now.learnt }
    {
        self.learnt.front()
    }
}

// Judges by the copy of one entry, and returns the front that it saw. `None`: it got no copy, or one with too few changes.
fn judged<J: Naming>(
    reader: CopyReader<J>,
    floor: usize,
    packet: &Packet,
) -> (CopyReader<J>, Option<(Front<J>, Verdict)>)
    ensures front { IfSome result.1 (λ looked. looked.0 ≡ all_acked (view result.0.place)) }
    ensures verdict { IfSome result.1 (λ looked. looked.1 ≡ verdict (after J.base (view result.0.place)) packet.now) }
    ensures enough { IfSome result.1 (λ looked. floor ≤ length (view result.0.place)) }
    ensures seen { IsPrefix (view reader.place) (view result.0.place) }
{
    match reader.enter_as::<Seeing<J>>() {
        Ok(reading) => {
            let saw = reading.get().front.again().named::<J>();
            let verdict = judged_by(reading.get(), floor, packet);
            (reading.leave(), verdict.map(|verdict| (saw, verdict)))
        }
        Err(reader) => (reader, None),
    }
}

// The verdict of a copy, if it has this many changes.
fn judged_by(shown: &Shown, floor: usize, packet: &Packet) -> Option<Verdict>
    ensures { MatchOption result (length shown.now.changes < floor)
        (λ v. (v ≡ verdict shown.now.durable packet.now) × (floor ≤ length shown.now.changes)) }
{
    if shown.changes.len() < floor {
        return None;
    }
    Some(shown.durable.verdict(packet))
}
