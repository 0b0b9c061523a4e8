//! The forms of hosts with their port tests, which are parts of the forms of rules.
ghost use Rattle.std.specs.Prelude.{◌≡◌, ◌∷◌, ◌++◌, []};
ghost use Rattle.byteorder.specs.Endian.{big_bytes};
ghost use Rattle.pf_form.specs.Bytes.Codes.{flag_byte};
ghost use Rattle.pf_rule.specs.{Bytes.addr_bytes, Host.Hosts.is_negated};
ghost use Rattle.pf_rule.specs.Sum.Forms.{address_bytes, comparison_byte, filled, first_port, host_form, kind_byte, length_byte};
ghost use Rattle.pf_rule.specs.Sum.Forms.{range_byte, second_port, table_name, test_byte};

use crate::sum::field::filled;
use crate::{Comparison, Host, PortRange, PortTest};
use byteorder::{BigEndian, ByteOrder};
use pf_addr::Addr;

/// How many bytes the form of a host with its port test has.
pub(crate) const HOST_FORM: usize = 56;

const KINDS: usize = 4;

const PORTS: usize = 4;

const ADDRESS_FIELD: usize = 16;

pub(crate) const TABLE_FIELD: usize = 32;

/// The form of a host with its port test.
#[tactic(auto, unfolding(crate::specs::Sum::Forms::host_form))]
pub(crate) fn host_bytes(host: &Host, port: Option<PortTest>) -> [u8; HOST_FORM]
    ensures { result ≡ host_form host.now port }
{
    let mut form = [0; HOST_FORM];
    let (kinds, rest) = form.split_at_mut(KINDS);
    let (ports, rest) = rest.split_at_mut(PORTS);
    let (address, table) = rest.split_at_mut(ADDRESS_FIELD);
    kinds.copy_from_slice(&kinds_of(host, port));
    ports.copy_from_slice(&port_bytes(port));
    address.copy_from_slice(&address_field(host));
    table.copy_from_slice(&table_field(host));
    form
}

// The kind, the sign, the network's prefix length and the port test.
fn kinds_of(host: &Host, port: Option<PortTest>) -> [u8; KINDS]
    ensures { result ≡ kind_byte host.now ∷ flag_byte (is_negated host.now) ∷ length_byte host.now ∷ test_byte port ∷ [] }
{
    [
        kind_byte(host),
        u8::from(is_negated(host)),
        length_byte(host),
        test_byte(port),
    ]
}

fn kind_byte(host: &Host) -> u8
    ensures { result ≡ kind_byte host.now }
{
    match host {
        Host::Any => 0,
        Host::Net { .. } => 1,
        Host::Table { .. } => 2,
    }
}

fn is_negated(host: &Host) -> bool
    ensures { result ≡ is_negated host.now }
{
    match host {
        Host::Any => false,
        Host::Net { is_negated, .. } | Host::Table { is_negated, .. } => *is_negated,
    }
}

// The prefix length of the host's network.
fn length_byte(host: &Host) -> u8
    ensures { result ≡ length_byte host.now }
{
    match host {
        Host::Net { net, .. } => net.prefix_len(),
        Host::Any | Host::Table { .. } => 0,
    }
}

fn test_byte(port: Option<PortTest>) -> u8
    ensures { result ≡ test_byte port }
{
    match port {
        None => 0,
        Some(PortTest::Compared { operator, .. }) => comparison_byte(operator),
        Some(PortTest::Ranged { range, .. }) => range_byte(range),
    }
}

fn comparison_byte(operator: Comparison) -> u8
    ensures { result ≡ comparison_byte operator }
{
    match operator {
        Comparison::Equal => 1,
        Comparison::NotEqual => 2,
        Comparison::Less => 3,
        Comparison::AtMost => 4,
        Comparison::Greater => 5,
        Comparison::AtLeast => 6,
    }
}

fn range_byte(range: PortRange) -> u8
    ensures { result ≡ range_byte range }
{
    match range {
        PortRange::Including => 7,
        PortRange::Excluding => 8,
        PortRange::Except => 9,
    }
}

// The two numbers of the test.
fn port_bytes(port: Option<PortTest>) -> [u8; PORTS]
    ensures { result ≡ big_bytes 2 (first_port port) ++ big_bytes 2 (second_port port) }
{
    let (first, second) = match port {
        None => (0, 0),
        Some(PortTest::Compared { port, .. }) => (port, 0),
        Some(PortTest::Ranged { first, last, .. }) => (first, last),
    };
    let mut bytes = [0; PORTS];
    BigEndian::write_u16(&mut bytes, first);
    BigEndian::write_u16(&mut bytes[2..], second);
    bytes
}

// The first address of the host's network.
fn address_field(host: &Host) -> [u8; ADDRESS_FIELD]
    ensures { result ≡ address_bytes host.now }
{
    match host {
        Host::Net { net, .. } => addr_bytes(net.addr()),
        Host::Any | Host::Table { .. } => [0; ADDRESS_FIELD],
    }
}

fn addr_bytes(address: Addr) -> [u8; ADDRESS_FIELD]
    ensures { result ≡ addr_bytes address }
{
    let mut bytes = [0; ADDRESS_FIELD];
    match address {
        Addr::V4(number) => BigEndian::write_u32(&mut bytes, number),
        Addr::V6(number) => BigEndian::write_u128(&mut bytes, number),
    }
    bytes
}

fn table_field(host: &Host) -> [u8; TABLE_FIELD]
    ensures { result ≡ filled 32 (table_name host.now) }
{
    match host {
        Host::Table { name, .. } => filled(name.as_bytes()),
        Host::Any | Host::Net { .. } => filled(b""),
    }
}
