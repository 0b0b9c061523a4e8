//! The texts of the two ends of a packet's way, with a space before each word.
ghost use Rattle.std.specs.Prelude.{◌≡◌};
ghost use Rattle.pf_addr.specs.Writing.{Continues};
ghost use Rattle.pf_rule.specs.{Value.Spacing.spaced, Host.Hosts.host_words, Host.Ends.{from_to_words, ends_words}};
ghost use Rattle.pf_rule.specs.Laws.Host.Ends.{end_text};

use crate::host::ends::End;
use crate::host::host::Host;
use crate::value::write_port;
use pf_addr::{write_more, write_more_net};
use std::io::{self, Write};

/// Writes the two ends of a packet's way after what was written so far.
pub fn write_ends<W: Write>(
    out: &mut W,
    so_far: io::Result<()>,
    source: End,
    destination: End,
) -> io::Result<()>
    ensures { Continues so_far (W.contents out.old) result (W.contents out.new) (spaced (ends_words source destination)) }
{
    match (source, destination) {
        ((Host::Any, None), (Host::Any, None)) => write_more(out, so_far, b" all"),
        _ => write_from_to(out, so_far, source, destination),
    }
}

fn write_from_to<W: Write>(
    out: &mut W,
    so_far: io::Result<()>,
    source: End,
    destination: End,
) -> io::Result<()>
    ensures { Continues so_far (W.contents out.old) result (W.contents out.new) (spaced (from_to_words source destination)) }
{
    let so_far = write_more(out, so_far, b" from");
    let so_far = write_end(out, so_far, source);
    let so_far = write_more(out, so_far, b" to");
    write_end(out, so_far, destination)
}

#[tactic(auto, using(crate::specs::Value::Spacing::continuing))]
fn write_end<W: Write>(out: &mut W, so_far: io::Result<()>, end: End) -> io::Result<()>
    ensures { Continues so_far (W.contents out.old) result (W.contents out.new) (end_text end) }
{
    let so_far = write_host(out, so_far, end.0);
    write_port(out, so_far, end.1)
}

#[tactic(auto, using(crate::specs::Value::Spacing::continuing))]
fn write_host<W: Write>(out: &mut W, so_far: io::Result<()>, host: Host) -> io::Result<()>
    ensures { Continues so_far (W.contents out.old) result (W.contents out.new) (spaced (host_words host)) }
{
    match host {
        Host::Any => write_more(out, so_far, b" any"),
        Host::Net { net, is_negated } => {
            if is_negated {
                let so_far = write_more(out, so_far, b" ! ");
                return write_more_net(out, so_far, net);
            }
            let so_far = write_more(out, so_far, b" ");
            write_more_net(out, so_far, net)
        }
        Host::Table { name, is_negated } => {
            let front: &[u8] = if is_negated { b" ! <" } else { b" <" };
            let so_far = write_more(out, so_far, front);
            let so_far = write_more(out, so_far, name.as_bytes());
            write_more(out, so_far, b">")
        }
    }
}
