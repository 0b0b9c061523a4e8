//! A configuration of lines.
ghost use Rattle.std.specs.Prelude.{◌≡◌, ◌≢◌, Some, Ok, Err, IfOk, IfErr, OnOk};
ghost use Rattle.pf_core.specs.declared.reply.Refusal.TheVariants as refusals;
ghost use Rattle.pf_line.specs.declared.request.Request.TheVariants.{Run};
ghost use Rattle.wirdalf_c.specs.declared.lines.LineRefusal.TheVariants.{Refused, Memory};
ghost use Rattle.wirdalf_c.specs.Lines.{AreMade, Comes, Runs, done_by, first, lines_of, makes};

use crate::holding::Holding;
use pf_core::{Command, Core, Durable, ReadyStep, Refusal, TableEdit, Transaction};
use pf_line::{Request, parse_line};
use std::alloc::{AllocError, Global};
use std::sync::Arc;

/// Why a line isn't done.
#[derive(Clone, Copy)]
pub enum LineRefusal {
    /// `pfd` refuses it like this.
    Refused(Refusal),
    /// It asks something, but nothing of which configurations are made.
    Unfit,
    /// Out of memory.
    Memory,
}

/// The first line that isn't done.
#[derive(Clone, Copy)]
pub struct LineFault {
    /// Its number, from 1.
    pub line: u64,
    /// Why it isn't done.
    pub why: LineRefusal,
}

/// What is kept after these lines, each done in turn as `pfd` does it, from nothing on. The commands of which configurations are made are
/// `begin`, `add`, `define`, `extend`, `commit` and `tset`; another is `Unfit`.
pub fn read_lines(alloc: Global, text: &[u8]) -> Result<Box<Holding>, LineFault>
    ensures made { IfOk result (λ held. AreMade text.now (Ok held.value)) }
    ensures refused { IfErr result (λ fault. AreMade text.now (Err fault)) }
{
    let Ok(mut core) = nothing(alloc) else {
        return Err(no_memory());
    };
    do_lines(alloc, &mut core, text)?;
    match boxed(alloc, core.durable()) {
        Ok(held) => Ok(held),
        Err(AllocError) => Err(no_memory()),
    }
}

// The same once more, in a box of its own: the rulesets and tables are shared.
fn boxed(alloc: Global, durable: &Durable) -> Result<Box<Holding>, AllocError>
    ensures { IfOk result (λ held. held.value ≡ durable.now) }
{
    let again = durable.in_epoch(durable.epoch())?;
    match Box::new(alloc, Holding::of(again)) {
        Ok(held) => Ok(held),
        Err(_) => Err(AllocError),
    }
}

// That memory ran out before the first line, or after the last.
fn no_memory() -> LineFault
    ensures { result.why ≡ Memory }
{
    LineFault {
        line: 0,
        why: LineRefusal::Memory,
    }
}

// The core with which lines begin.
fn nothing(alloc: Global) -> Result<Core, AllocError>
    ensures { IfOk result (λ core. core ≡ first) }
{
    let durable = Durable::empty(alloc, 1)?;
    match Arc::new(alloc, durable) {
        Ok(durable) => Ok(Core::new(alloc, durable)),
        Err(_) => Err(AllocError),
    }
}

// Does the lines of a text in turn, up to the first that isn't done.
fn do_lines(alloc: Global, core: &mut Core, text: &[u8]) -> Result<(), LineFault>
    ensures done { OnOk result (Runs core.old 1 (lines_of text.now) (Ok core.new.durable)) }
    ensures refused { IfErr result (λ fault. fault.why ≢ Memory → Runs core.old 1 (lines_of text.now) (Err fault)) }
{
    let mut number = 0;
    for line in text.split(|b| *b == b'\n') {
        number += 1;
        if let Err(why) = do_line(alloc, core, line) {
            return Err(LineFault { line: number, why });
        }
    }
    Ok(())
}

// Does one line. If it isn't done, the core is as before.
fn do_line(alloc: Global, core: &mut Core, line: &[u8]) -> Result<(), LineRefusal>
    ensures done { OnOk result (Comes core.old line.now (Ok core.new)) }
    ensures refused { IfErr result (λ why. why ≢ Memory → Comes core.old line.now (Err why)) }
{
    match parse_line(alloc, line) {
        Ok(None) => Ok(()),
        Ok(Some(request)) => do_request(core, &request),
        Err(refusal) => Err(line_refusal(refusal)),
    }
}

// Does what a line asks, if configurations are made of such. If it isn't done, the core is as before.
fn do_request(core: &mut Core, request: &Request) -> Result<(), LineRefusal>
    ensures done { OnOk result (done_by core.old (Ok (Some request.now)) ≡ Ok core.new) }
    ensures refused { IfErr result (λ why. why ≢ Memory → done_by core.old (Ok (Some request.now)) ≡ Err why) }
{
    match request {
        Request::Run(command) => do_command(core, command),
        Request::ShowStatus | Request::ShowAnchors(_) => Err(LineRefusal::Unfit),
    }
}

// Whether configurations are made of such commands.
fn makes(command: &Command) -> bool
    ensures { result ≡ makes command.now }
{
    match command {
        Command::Transact(transaction) => !matches!(transaction, Transaction::Rollback(_)),
        Command::Edit(edit) => matches!(edit, TableEdit::Set { .. }),
        _ => false,
    }
}

// Does a command, if configurations are made of such. If it isn't done, the core is as before.
fn do_command(core: &mut Core, command: &Command) -> Result<(), LineRefusal>
    ensures done { OnOk result (done_by core.old (Ok (Some (Run command.now))) ≡ Ok core.new) }
    ensures refused { IfErr result (λ why. why ≢ Memory → done_by core.old (Ok (Some (Run command.now))) ≡ Err why) }
{
    if !makes(command) {
        return Err(LineRefusal::Unfit);
    }
    match core.step_ready(command) {
        Ok(ReadyStep::Done(_)) => Ok(()),
        Ok(ReadyStep::OfHistory(_)) => Ok(()),
        Ok(ReadyStep::Wants(_, next, _)) => {
            core.accept(next);
            Ok(())
        }
        Err(refusal) => Err(line_refusal(refusal)),
    }
}

// That `pfd` refuses a line like this.
fn line_refusal(refusal: Refusal) -> LineRefusal
    ensures memory { refusal ≡ refusals.Memory → result ≡ Memory }
    ensures refused { result ≢ Memory → result ≡ Refused refusal }
{
    match refusal {
        Refusal::Memory => LineRefusal::Memory,
        _ => LineRefusal::Refused(refusal),
    }
}
