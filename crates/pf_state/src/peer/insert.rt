//! An insert's record in bytes.

use crate::flow::Flow;
use crate::layouts::push_flow;
use crate::peer::record::{Insert, InsertFields};
use pf_form::bytes::{Layout, Rest, Undecoded, push_u32, push_u64, read_u32, read_u64};
use std::alloc::{AllocError, Global};

impl Layout for Insert {
    ghost use Rattle.std.specs.Prelude.{true};
    ghost use Rattle.pf_state.specs.Peer.Records.{InsertShape, insert_form, plain_insert};

    ghost shape = { InsertShape };

    ghost form = { λ version. insert_form };

    ghost plain = { plain_insert };

    ghost before = { λ a b. true };

    #[tactic(auto, unfolding(crate::specs::Peer::Records::insert_form))]
    fn read<'a>(alloc: Global, version: u8, from: &mut Rest<'a>) -> Result<Insert, Undecoded> {
        let id = read_u64(from)?;
        let creator = read_u32(from)?;
        let generation = read_u32(from)?;
        let flow = Flow::read(alloc, version, from)?;
        let rule = read_u32(from)?;
        let anchor = read_u32(from)?;
        Ok(Insert::new(InsertFields {
            id,
            creator,
            generation,
            direction: flow.direction(),
            protocol: flow.protocol(),
            source: flow.source(),
            destination: flow.destination(),
            source_port: flow.source_port(),
            destination_port: flow.destination_port(),
            rule,
            anchor,
        }))
    }

    #[tactic(auto, unfolding(crate::specs::Peer::Records::insert_form))]
    fn write(&self, _version: u8, out: &mut Vec<u8>) -> Result<(), AllocError> {
        let fields = *self.fields();
        push_u64(out, fields.id)?;
        push_u32(out, fields.creator)?;
        push_u32(out, fields.generation)?;
        push_flow(out, &self.flow())?;
        push_u32(out, fields.rule)?;
        push_u32(out, fields.anchor)
    }
}
