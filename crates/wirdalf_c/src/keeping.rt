//! Keeps what was made for C.
ghost use Rattle.std.specs.Prelude.{◌≡◌, ◌⊎◌, Ok, Err, Some, IfOk, IfErr};
ghost use Rattle.pf_core.specs.Durable.Changes.{PlainDurable};
ghost use Rattle.wirdalf_c.specs.declared.fault.ReadFault.TheVariants.{Memory};
ghost use Rattle.wirdalf_c.specs.Answers.{IsKept};

use crate::configuration::Configuration;
use crate::fault::{OK, ReadFault};
use crate::holding::Holding;
use crate::loose::Loose;
use pf_core::Durable;
use std::alloc::{AllocError, Global};

/// Puts what was made where C wants it, or says why it wasn't made; out of memory for its box, too. Returns what C gets.
pub fn keep(
    alloc: Global,
    made: Result<Durable, ReadFault>,
    config: &mut Configuration,
    place: &mut u64,
) -> u32
    ensures { IsKept made config.old config.new result place.new ⊎ IsKept (Err Memory) config.old config.new result place.new }
{
    match boxed(alloc, made) {
        Ok(held) => keep_box(held, config),
        Err(fault) => {
            *place = fault.place();
            fault.code()
        }
    }
}

/// Puts what is in a box where C wants it.
pub fn keep_box(held: Box<Holding>, config: &mut Configuration) -> u32
    ensures held { config.new.held ≡ Some held.value }
    ensures code { result ≡ OK }
{
    *config = Configuration::of(Loose::of(held));
    OK
}

// In a box of its own.
fn boxed(alloc: Global, made: Result<Durable, ReadFault>) -> Result<Box<Holding>, ReadFault>
    ensures ok { IfOk result (λ b. made ≡ Ok b.value) }
    ensures err { IfErr result (λ e. (made ≡ Err e) ⊎ (e ≡ Memory)) }
{
    match Box::new(alloc, Holding::of(made?)) {
        Ok(held) => Ok(held),
        Err(_) => Err(ReadFault::Memory),
    }
}

/// The same once more: the rulesets, tables and states are shared.
pub fn shared(durable: &Durable) -> Result<Durable, ReadFault>
    ensures ok { IfOk result (λ d. d ≡ durable.now) }
    ensures err { IfErr result (λ e. e ≡ Memory) }
{
    match durable.in_epoch(durable.epoch()) {
        Ok(durable) => Ok(durable),
        Err(AllocError) => Err(ReadFault::Memory),
    }
}
