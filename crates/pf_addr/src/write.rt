//! Writing addresses, networks and numbers as text.
//!
//! A call that fails has written some first bytes of its text, and nothing else. None of these calls allocates.
ghost use Rattle.std.specs.Prelude.{◌≡◌, ◌≢◌, ◌+◌, ◌<◌, ◌≤◌, ◌^◌, ◌/◌, ◌%◌, ℕ, List, [], ◌∷◌, ◌++◌, length, map, take, decimal, IfErr};
ghost use Rattle.std.specs.Prelude.{IfOk, OnErr};
ghost use Rattle.std.specs.{Char.digit_char, Io.WritesAtMost, Io.KnownBytes.{Appends, Keeps}, IoError.error_kind, List.join_with_byte};
ghost use Rattle.std.specs.Net.Text.{hex, leading_zero_digits};
ghost use Rattle.pf_addr.specs.declared.addr.Addr.TheVariants as Addr;
ghost use Rattle.pf_addr.specs.{Spelling.{addr_text, net_text, length_text, group_text}, Writing.{Writes, Wrote, Continues}};

use crate::addr::Addr;
use crate::net::Net;
use itoa::Buffer;
use std::io::{self, ErrorKind, Write};

/// Writes the text.
///
/// Returns the writer's first error, except that a write that a signal interrupts is tried again, or an error of the kind `WriteZero` if
/// the writer takes no byte.
pub fn write_text<W: Write>(out: &mut W, text: &[u8]) -> io::Result<()>
    ensures text { Writes result (W.contents out.old) (W.contents out.new) text.now }
    ensures retried { IfErr result (λ e. error_kind e ≢ ErrorKind.Interrupted) }
{
    let mut written = 0;
    while written < text.len() {
        match write_some(out, &text[written..]) {
            Ok(0) => {
                let message = "the writer takes no byte";
                return Err(io::Error::new(ErrorKind::WriteZero, message));
            }
            Ok(n) => written += n,
            Err(e) => return Err(e),
        }
    }
    Ok(())
}

/// One write, tried again if a signal interrupts it.
fn write_some<W: Write>(out: &mut W, text: &[u8]) -> io::Result<usize>
    ensures bound { WritesAtMost result text.now }
    ensures ok { IfOk result (λ n. Appends (W.contents out.old) (W.contents out.new) (take n text.now)) }
    ensures err { OnErr result (Keeps (W.contents out.old) (W.contents out.new)) }
    ensures retried { IfErr result (λ e. error_kind e ≢ ErrorKind.Interrupted) }
{
    for _ in 0..u64::MAX {
        match out.write(text) {
            Ok(n) => return Ok(n),
            Err(e) => {
                if e.kind() != ErrorKind::Interrupted {
                    return Err(e);
                }
            }
        }
    }
    let message = "each write was interrupted";
    Err(io::Error::new(ErrorKind::TimedOut, message))
}

/// Writes an address: V4 as four decimal numbers between dots, V6 as eight groups between colons, in lower-case hexadecimal without
/// leading zeros (RFC 4291 section 2.2, form 1). Errors as in [`write_text`].
#[tactic(auto, using(crate::specs::Writing::after_nothing))]
pub fn write_addr<W: Write>(out: &mut W, addr: Addr) -> io::Result<()>
    ensures { Wrote result (W.contents out.old) (W.contents out.new) (addr_text addr) }
{
    write_more_addr(out, Ok(()), addr)
}

/// Writes a network: its first address and, unless that is its only one, a slash and how many bits its addresses share. Errors as in
/// [`write_text`].
#[tactic(auto, using(crate::specs::Writing::after_nothing))]
pub fn write_net<W: Write>(out: &mut W, net: Net) -> io::Result<()>
    ensures { Wrote result (W.contents out.old) (W.contents out.new) (net_text net) }
{
    write_more_net(out, Ok(()), net)
}

// Several texts in a row. Each call takes the result of those before it, so that only the last result needs checking.

/// Writes the text after what was written so far. If that failed, returns its error and writes nothing. Its own errors are those of
/// [`write_text`].
pub fn write_more<W: Write>(out: &mut W, so_far: io::Result<()>, text: &[u8]) -> io::Result<()>
    ensures { Continues so_far (W.contents out.old) result (W.contents out.new) text.now }
{
    match so_far {
        Ok(()) => write_text(out, text),
        Err(e) => Err(e),
    }
}

/// The same for a number in decimal digits.
pub fn write_more_number<W: Write>(
    out: &mut W,
    so_far: io::Result<()>,
    number: u64,
) -> io::Result<()>
    ensures { Continues so_far (W.contents out.old) result (W.contents out.new) (decimal number) }
{
    let mut buffer = Buffer::new();
    write_more(out, so_far, buffer.format(number).as_bytes())
}

/// The same for a network, written as by [`write_net`].
pub fn write_more_net<W: Write>(out: &mut W, so_far: io::Result<()>, net: Net) -> io::Result<()>
    ensures { Continues so_far (W.contents out.old) result (W.contents out.new) (net_text net) }
{
    let so_far = write_more_addr(out, so_far, net.addr());
    write_more_len(out, so_far, net)
}

fn write_more_len<W: Write>(out: &mut W, so_far: io::Result<()>, net: Net) -> io::Result<()>
    ensures { Continues so_far (W.contents out.old) result (W.contents out.new) (length_text net) }
{
    if net.prefix_len() == net.family().width() {
        return write_more(out, so_far, b"");
    }
    let so_far = write_more(out, so_far, b"/");
    write_more_number(out, so_far, u64::from(net.prefix_len()))
}

fn write_more_addr<W: Write>(out: &mut W, so_far: io::Result<()>, addr: Addr) -> io::Result<()>
    ensures { Continues so_far (W.contents out.old) result (W.contents out.new) (addr_text addr) }
{
    match addr {
        Addr::V4(number) => write_v4(out, so_far, number),
        Addr::V6(number) => write_v6(out, so_far, number),
    }
}

fn write_v4<W: Write>(out: &mut W, so_far: io::Result<()>, number: u32) -> io::Result<()>
    ensures { Continues so_far (W.contents out.old) result (W.contents out.new) (addr_text (Addr.V4 number)) }
{
    let [a, b, c, d] = number.to_be_bytes();
    let first = write_more_number(out, so_far, u64::from(a));
    let dot = write_more(out, first, b".");
    let second = write_more_number(out, dot, u64::from(b));
    let dot = write_more(out, second, b".");
    let third = write_more_number(out, dot, u64::from(c));
    let dot = write_more(out, third, b".");
    write_more_number(out, dot, u64::from(d))
}

fn write_v6<W: Write>(out: &mut W, so_far: io::Result<()>, number: u128) -> io::Result<()>
    ensures { Continues so_far (W.contents out.old) result (W.contents out.new) (addr_text (Addr.V6 number)) }
{
    let mut so_far = write_group(out, so_far, group(number, 112));
    for end in [96, 80, 64, 48, 32, 16, 0] {
        so_far = write_more(out, so_far, b":");
        so_far = write_group(out, so_far, group(number, end));
    }
    so_far
}

/// Writes 16 bits in hexadecimal.
#[tactic(auto, unfolding(std::specs::Net::Text::hex))]
fn write_group<W: Write>(out: &mut W, so_far: io::Result<()>, group: u16) -> io::Result<()>
    ensures { Continues so_far (W.contents out.old) result (W.contents out.new) (hex group) }
{
    let digits = [
        hex_digit(group / 0x1000),
        hex_digit(group / 0x100 % 16),
        hex_digit(group / 0x10 % 16),
        hex_digit(group % 16),
    ];
    write_more(out, so_far, &digits[leading_zeros(group)..])
}

/// How many of the first three of a group's four digits are leading zeros.
fn leading_zeros(group: u16) -> usize
    ensures value { result ≡ leading_zero_digits group }
    ensures few { result ≤ 3 }
{
    if group >= 0x1000 {
        0
    } else if group >= 0x100 {
        1
    } else if group >= 0x10 {
        2
    } else {
        3
    }
}

fn hex_digit(digit: u16) -> u8
    requires { digit < 16 }
    ensures { result ≡ digit_char digit }
{
    if digit < 10 {
        b'0' + digit as u8
    } else {
        b'a' + (digit - 10) as u8
    }
}

/// The 16 bits that end `end` bits before the number's end.
fn group(number: u128, end: u8) -> u16
    requires { end < 128 }
    ensures { result ≡ number / 2 ^ end % 2 ^ 16 }
{
    ((number >> end) % 0x1_0000) as u16
}
