//! Reading the forms of hosts with their port tests. Each fails if bytes are missing or can't be where they are.
ghost use Rattle.std.specs.Prelude.{◌≡◌, ◌<◌, ◌≤◌, false, IfOk, IfSome, Some, None};
ghost use Rattle.pf_addr.specs.{Address.IsNetwork, NetForms.first_number, Path.Names.IsTableName};
ghost use Rattle.pf_form.specs.Bytes.{Codes.flag_byte, Names.filled, Readers.Reads};
ghost use Rattle.pf_rule.specs.{Value.Ports.IsPortTest, Rules.HostFits, Sum.Forms.{comparison_byte, range_byte}};
ghost use Rattle.pf_rule.specs.Sum.Layouts.{port_test, plain_test, network_end, table_end, end, plain_end, plain_family};

use crate::host::End;
use crate::sum::host_form::TABLE_FIELD;
use crate::{Comparison, Host, PortRange, PortTest, TableName};
use pf_addr::path::read_name;
use pf_addr::{Family, Net, read_addr};
use pf_form::bytes::{
    Fault, Rest, Undecoded, expect, read_below, read_flag, read_u8, read_u16, takes,
};

/// The operator for a number from 1 to 6.
fn comparison_of(test: u8) -> Comparison
    requires some { 0 < test }
    requires below { test < 7 }
    ensures { comparison_byte result ≡ test }
{
    match test {
        1 => Comparison::Equal,
        2 => Comparison::NotEqual,
        3 => Comparison::Less,
        4 => Comparison::AtMost,
        5 => Comparison::Greater,
        _ => Comparison::AtLeast,
    }
}

/// The range for a number from 7 to 9.
fn range_of(test: u8) -> PortRange
    requires from { 7 ≤ test }
    requires below { test < 10 }
    ensures { range_byte result ≡ test }
{
    match test {
        7 => PortRange::Including,
        8 => PortRange::Excluding,
        _ => PortRange::Except,
    }
}

/// The test of a port; always none if ports can't be tested.
#[tactic(auto, unfolding(crate::specs::Sum::Layouts::port_test))]
fn read_test<'a>(ports: bool, from: &mut Rest<'a>) -> Result<Option<PortTest>, Undecoded>
    ensures read { Reads plain_test (port_test ports) result from.old.now from.new.now }
    ensures kept { IfOk result (λ p. IfSome p IsPortTest) }
    ensures none { IfOk result (λ p. ports ≡ false → p ≡ None) }
{
    let test = read_below(if ports { 10 } else { 1 }, from)?;
    if test == 0 {
        expect(from, &[0; 4])?;
        return Ok(None);
    }
    let first = read_u16(from)?;
    if test < 7 {
        expect(from, &[0, 0])?;
        let operator = comparison_of(test);
        return Ok(Some(PortTest::Compared {
            operator,
            port: first,
        }));
    }
    let last = read_u16(from)?;
    let range = range_of(test);
    Ok(Some(PortTest::Ranged { range, first, last }))
}

/// A network in a rule of this family; fails if the rule has no family.
#[tactic(auto, unfolding(crate::specs::Sum::Layouts::network_end))]
fn read_network_end<'a>(
    ports: bool,
    family: Option<Family>,
    from: &mut Rest<'a>,
) -> Result<(Net, bool, Option<PortTest>), Undecoded>
    ensures read { Reads (λ e. (flag_byte e.1, (e.0.len, (plain_test e.2, first_number e.0)))) (network_end ports (plain_family family))
        result from.old.now from.new.now }
    ensures kept { IfOk result (λ e. (family ≡ Some e.0.family) × IsNetwork e.0) }
    ensures port { IfOk result (λ e. IfSome e.2 IsPortTest) }
    ensures none { IfOk result (λ e. ports ≡ false → e.2 ≡ None) }
{
    let left = from.len();
    let Some(family) = family else {
        return Err(Undecoded::Fault(Fault::Bad(left)));
    };
    let is_negated = read_flag(from)?;
    let length = read_u8(from)?;
    let port = read_test(ports, from)?;
    let first = read_addr(family, from)?;
    expect(from, &[0; 32])?;
    let Some(net) = Net::starting_at(first, length) else {
        return Err(Undecoded::Fault(Fault::Bad(left)));
    };
    // `family` promises that this is a network
    let _family = net.family();
    Ok((net, is_negated, port))
}

/// A table.
#[tactic(auto, unfolding(crate::specs::Sum::Layouts::table_end))]
fn read_table_end<'a>(
    ports: bool,
    from: &mut Rest<'a>,
) -> Result<(TableName, bool, Option<PortTest>), Undecoded>
    ensures read { Reads (λ e. (flag_byte e.1, (plain_test e.2, filled 32 e.0))) (table_end ports) result from.old.now from.new.now }
    ensures kept { IfOk result (λ e. IsTableName e.0) }
    ensures port { IfOk result (λ e. IfSome e.2 IsPortTest) }
    ensures none { IfOk result (λ e. ports ≡ false → e.2 ≡ None) }
{
    let is_negated = read_flag(from)?;
    expect(from, &[0])?;
    let port = read_test(ports, from)?;
    expect(from, &[0; 16])?;
    let name: TableName = read_name(TABLE_FIELD, from)?;
    // `as_bytes` promises that this is a name
    let _bytes = name.as_bytes();
    Ok((name, is_negated, port))
}

/// A host in a rule of this family, and the test of its port if ports can be tested.
#[tactic(auto, unfolding(crate::specs::Sum::Layouts::end))]
pub(crate) fn read_end<'a>(
    ports: bool,
    family: Option<Family>,
    from: &mut Rest<'a>,
) -> Result<End, Undecoded>
    ensures read { Reads (λ e. plain_end e.0 e.1) (end ports (plain_family family)) result from.old.now from.new.now }
    ensures kept { IfOk result (λ e. HostFits family e.0) }
    ensures port { IfOk result (λ e. IfSome e.1 IsPortTest) }
    ensures none { IfOk result (λ e. ports ≡ false → e.1 ≡ None) }
{
    if takes(from, 0)? {
        expect(from, &[0, 0])?;
        let port = read_test(ports, from)?;
        expect(from, &[0; 48])?;
        return Ok((Host::Any, port));
    }
    if takes(from, 1)? {
        let (net, is_negated, port) = read_network_end(ports, family, from)?;
        return Ok((Host::Net { net, is_negated }, port));
    }
    expect(from, &[2])?;
    let (name, is_negated, port) = read_table_end(ports, from)?;
    Ok((Host::Table { name, is_negated }, port))
}
