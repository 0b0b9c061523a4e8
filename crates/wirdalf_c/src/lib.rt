//! The library in C: what a control plane keeps, for a packet path. `include/wirdalf.h` declares what is exported here, and
//! `man/wirdalf.3` is its manual.
//!
//! It knows no session, no Book and no file: C gives bytes. The modules:
//!
//! - `loose`: a box as its pointer; `configuration`: what C holds, [`Configuration`](configuration::Configuration). These two alone follow
//!   pointers, in five functions of a line or two that are proved by hand.
//! - `record`: the structs that C gives and gets; `interface`, `packet`: which packet one of them says; `verdict`: a verdict as another.
//! - `holding`: what a configuration holds.
//! - `fault`, `image`: what the bytes of a disk hold, or why not; `lines`, `line_fault`: what lines make, or which isn't done;
//!   `keeping`: what was made is put where C wants it.
//! - `judging`: what a configuration says.
//!
//! Each export calls functions of these modules, and states their clauses. Read `specs/Answers.antt` first, then `specs/Packets.antt`,
//! `specs/Verdicts.antt` and `specs/Lines.antt`.
//!
//! Proved: what is read is what the image holds (`pf_store`), and each fault tells what is true of the bytes; what lines make is what
//! `pf_core` makes of the commands that they say (`pf_line`), and a fault tells the first that isn't done; a verdict is that of `pf_core` on
//! the packet that the struct says, in each of its fields, and a struct that says none blocks; an array is judged like each of it; a
//! configuration stays as it was through each call, a copy holds the same, and either may go to another thread. Each export assumes that C
//! keeps to the head of `include/wirdalf.h`. What is in C is only tested (`bench/clib`, `examples/try-all`).
#![tactic(auto)]

mod configuration;
mod fault;
mod holding;
mod image;
mod interface;
mod judging;
mod keeping;
mod line_fault;
mod lines;
mod loose;
mod packet;
mod record;
mod verdict;

ghost use Rattle.std.specs.Prelude.{◌≡◌, ◌<◌, ◌≤◌, ℕ, length, min, slice_get, IsSome, IfSome};
ghost use Rattle.pf_core.specs.Durable.Changes.{main_sum};
ghost use Rattle.wirdalf_c.specs.Answers.{AreCounts, IsCopied, IsJudged, IsLined, IsRead, IsTested};

use configuration::Configuration;
use image::read_image;
use judging::{count, judge, judge_many, test};
use keeping::{keep, keep_box, shared};
use line_fault::tell_fault;
use lines::read_lines;
use record::{CountsRecord, FaultRecord, PacketRecord, VERSION, VerdictRecord};
use std::alloc::Global;

/// The version of this library, as the header's `WIRDALF_VERSION` says that of the header.
#[unsafe(no_mangle)]
pub extern "C" fn wirdalf_version() -> u32
    ensures { result ≡ VERSION }
{
    VERSION
}

/// What these bytes hold, in a configuration that held nothing. If it isn't `OK`, the configuration is as it was, and the place that the
/// fault names is written, or 0.
#[unsafe(no_mangle)]
#[tactic(auto, using(crate::proofs::Kept::read_answered))]
pub extern "C" fn wirdalf_read(
    alloc: Global,
    bytes: &[u8],
    config: &mut Configuration,
    place: &mut u64,
) -> u32
    ensures { IsRead bytes.now config.old config.new result place.new }
{
    keep(alloc, read_image(alloc, bytes), config, place)
}

/// What lines make, in a configuration that held nothing. If it isn't `OK`, the configuration is as it was, and the fault is written.
#[unsafe(no_mangle)]
pub extern "C" fn wirdalf_lines(
    alloc: Global,
    text: &[u8],
    config: &mut Configuration,
    fault: &mut FaultRecord,
) -> u32
    ensures { IsLined text.now config.old config.new result fault.new }
{
    match read_lines(alloc, text) {
        Ok(held) => keep_box(held, config),
        Err(first) => tell_fault(alloc, first, fault),
    }
}

/// The same once more, in a configuration that held nothing: `OK` or `MEMORY`.
#[unsafe(no_mangle)]
pub extern "C" fn wirdalf_clone(
    alloc: Global,
    config: &mut Configuration,
    copy: &mut Configuration,
) -> u32
    requires { IsSome config.old.held }
    ensures copied { IfSome config.old.held (λ d. IsCopied d copy.old copy.new result) }
    ensures same { config.new ≡ config.old }
{
    let mut place = 0;
    keep(alloc, shared(config.lend().durable()), copy, &mut place)
}

/// Lets a configuration go.
#[unsafe(no_mangle)]
pub extern "C" fn wirdalf_free(alloc: Global, config: Configuration)
    requires { IsSome config.held }
{
    let _gone = config.into_loose(alloc).into_box();
}

/// What happens to a packet.
#[unsafe(no_mangle)]
pub extern "C" fn wirdalf_judge(
    config: &mut Configuration,
    packet: &PacketRecord,
    verdict: &mut VerdictRecord,
)
    requires { IsSome config.old.held }
    ensures judged { IfSome config.old.held (λ d. IsJudged d packet.now verdict.new) }
    ensures same { config.new ≡ config.old }
{
    judge(config.lend(), packet, verdict);
}

/// What happens to each of these packets, as many as there is room for. Returns how many were judged.
#[unsafe(no_mangle)]
pub extern "C" fn wirdalf_judge_many(
    config: &mut Configuration,
    packets: &[PacketRecord],
    verdicts: &mut [VerdictRecord],
) -> usize
    requires { IsSome config.old.held }
    ensures count { result ≡ min (length packets.now) (length verdicts.old) }
    ensures judged { IfSome config.old.held (λ d. (i : ℕ) → i < result
        → IfSome (slice_get packets.now i) (λ p. IfSome (slice_get verdicts.new i) (λ v. IsJudged d p v))) }
    ensures rest { (i : ℕ) → result ≤ i → slice_get verdicts.new i ≡ slice_get verdicts.old i }
    ensures same { config.new ≡ config.old }
{
    judge_many(config.lend(), packets, verdicts)
}

/// Which entry of a table decides on an address.
#[unsafe(no_mangle)]
pub extern "C" fn wirdalf_test(
    config: &mut Configuration,
    path: &[u8],
    table: &[u8],
    family: u8,
    address: &[u8; 16],
    prefix_length: &mut u8,
) -> u32
    requires { IsSome config.old.held }
    ensures tested { IfSome config.old.held (λ d. IsTested d path.now table.now family address.now prefix_length.old
        prefix_length.new result) }
    ensures same { config.new ≡ config.old }
{
    test(
        config.lend().durable(),
        path,
        table,
        family,
        *address,
        prefix_length,
    )
}

/// The MD5 checksum of the main rules.
#[unsafe(no_mangle)]
pub extern "C" fn wirdalf_sum(config: &mut Configuration, sum: &mut [u8; 16])
    requires { IsSome config.old.held }
    ensures sum { IfSome config.old.held (λ d. sum.new ≡ main_sum d) }
    ensures same { config.new ≡ config.old }
{
    *sum = config.lend().durable().sum();
}

/// The tick.
#[unsafe(no_mangle)]
pub extern "C" fn wirdalf_tick(config: &mut Configuration) -> u64
    requires { IsSome config.old.held }
    ensures value { IfSome config.old.held (λ d. result ≡ d.tick) }
    ensures same { config.new ≡ config.old }
{
    config.lend().durable().tick()
}

/// How much is held.
#[unsafe(no_mangle)]
pub extern "C" fn wirdalf_counts(config: &mut Configuration, counts: &mut CountsRecord)
    requires { IsSome config.old.held }
    ensures counts { IfSome config.old.held (λ d. AreCounts d counts.new) }
    ensures same { config.new ≡ config.old }
{
    count(config.lend().durable(), counts);
}
