//! What a worker does with the receipt of a reply.
ghost use Rattle.std.specs.{Prelude.{◌≡◌, IfOk, OnErr}, Option.ForSome};
ghost use mathlib.Core.List.{IsPrefix};
ghost use Rattle.pf_core.specs.Durable.Changes.{after, verdict};
ghost use Rattle.pf_book.specs.Receipts.{learns_from};

use crate::chapter::Chapter;
use crate::receipt::Receipt;
use pf_core::Verdict;
use pf_rule::Packet;
use pf_view::{Gone, Seer};

/// Learns what a receipt says: if it is of an `Applied`, each later verdict is by a front that begins with the receipt's.
pub fn learn_from<J: Chapter>(seer: &mut Seer<J>, receipt: &Receipt<J>)
    ensures learnt { seer.new ≡ learns_from receipt.now.token seer.old }
    ensures reported { ForSome receipt.now.token (λ t. IsPrefix t seer.new.learnt) }
    ensures kept { IsPrefix seer.old.learnt seer.new.learnt }
{
    if let Some(token) = receipt.token() {
        seer.learn(token);
    } else {
        // reading it makes the seer's invariant known here
        let _ = seer.learnt();
    }
}

/// Learns what a receipt says, and judges. The verdict is by a front of the history that begins with all that this seer saw and learnt
/// before, and after `Applied` with the whole history at that reply, whose last change is the reply's. `Gone`: it judged nothing and saw
/// nothing new, but has learnt what the receipt says.
pub fn judge_after<J: Chapter>(
    seer: &mut Seer<J>,
    receipt: &Receipt<J>,
    packet: &Packet,
) -> Result<Verdict, Gone>
    ensures verdict { IfOk result (λ v. v ≡ verdict (after J.base seer.new.seen) packet.now) }
    ensures reported { IfOk result (λ _. ForSome receipt.now.token (λ t. IsPrefix t seer.new.seen)) }
    ensures learnt { IfOk result (λ _. IsPrefix seer.old.learnt seer.new.seen) }
    ensures seen { IsPrefix seer.old.seen seer.new.seen }
    ensures knows { seer.new.learnt ≡ (learns_from receipt.now.token seer.old).learnt }
    ensures knows_token { ForSome receipt.now.token (λ t. IsPrefix t seer.new.learnt) }
    ensures kept { IsPrefix seer.old.learnt seer.new.learnt }
    ensures gone { OnErr result (seer.new.seen ≡ seer.old.seen) }
{
    learn_from(seer, receipt);
    seer.judge(packet)
}
