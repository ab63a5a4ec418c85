//! The values of a rule's options (ipfw(8)).

ghost use Rattle.std.specs.Prelude.{◌≡◌, [], IfOk};
ghost use Rattle.std.specs.Option.{ok_or};
ghost use Rattle.fws_num.specs.Pieces.{pieces_of};
ghost use Rattle.fws_net.specs.Ports.{ports_of};
ghost use Rattle.fws_net.specs.Reading.{CauseGiven};
ghost use Rattle.fws_net.specs.Routes.{IsSound};
ghost use Rattle.fws_ipfw.specs.Values.{bare_meaning, meaning_of, with_types};

use crate::flags::read_flags;
use crate::numbers::read_counted;
use fws_ipfw::TestOption;
use fws_iv::Ivs;
use fws_net::{Cause, Lang, Lit, ReadFault, Site, Test, read_ports};
use fws_num::{Memory, Text, pieces, read_dec};
use fws_rules::{demand, positive, read_interfaces};
use std::alloc::Global;

/// SYN and ACK.
const SYN_ACK: u8 = 18;

/// SYN.
const SYN: u8 = 2;

/// RST and ACK.
const RST_ACK: u8 = 20;

/// The literal of an option that has no value; none for one that has a value.
pub(crate) fn bare_meaning(option: TestOption) -> Option<Lit>
    ensures { result ≡ bare_meaning option }
{
    match option {
        TestOption::In => Some(Lit {
            not: true,
            test: Test::Outward,
        }),
        TestOption::Out => Some(positive(Test::Outward)),
        TestOption::Setup => Some(positive(Test::Flags {
            mask: SYN_ACK,
            want: SYN,
        })),
        TestOption::Established => Some(positive(Test::AnyFlag(RST_ACK))),
        _ => None,
    }
}

/// The types of the items; none where an item is no type.
fn types_of(alloc: Global, items: &[Text]) -> Result<Option<Ivs>, Memory>
    ensures { IfOk result (λ o. o ≡ with_types [] items.now) }
{
    let mut set = Ivs::none(alloc);
    for item in items {
        match read_dec(item.as_slice(), 255) {
            Some(n) => set = set.with_range(alloc, n as u32, n as u32)?,
            None => return Ok(None),
        }
    }
    Ok(Some(set))
}

/// The ICMP types of a list.
fn read_types(alloc: Global, text: &[u8]) -> Result<Ivs, ReadFault>
    ensures { CauseGiven result (ok_or (with_types [] (pieces_of 44 text.now)) Cause.Syntax) }
{
    let items = pieces(alloc, b',', text)?;
    demand(types_of(alloc, items.as_slice())?)
}

/// The ports of a list.
fn read_port_list(alloc: Global, text: &[u8]) -> Result<Ivs, ReadFault>
    ensures { CauseGiven result (ok_or (ports_of 45 text.now) Cause.Syntax) }
{
    demand(read_ports(alloc, b'-', text)?)
}

/// The literal of an option with its value.
pub(crate) fn read_meaning(
    alloc: Global,
    site: &Site,
    option: TestOption,
    text: &[u8],
) -> Result<Lit, ReadFault>
    requires { IsSound site.now }
    ensures { CauseGiven result (meaning_of site.now option text.now) }
{
    match option {
        TestOption::Recv => {
            let set = read_interfaces(alloc, site, Lang::Ipfw, b'*', text)?;
            Ok(positive(Test::Recv(set)))
        }
        TestOption::Xmit => {
            let set = read_interfaces(alloc, site, Lang::Ipfw, b'*', text)?;
            Ok(positive(Test::Xmit(set)))
        }
        TestOption::Via => {
            let set = read_interfaces(alloc, site, Lang::Ipfw, b'*', text)?;
            Ok(positive(Test::Via(set)))
        }
        TestOption::TcpFlags => read_flags(alloc, text),
        TestOption::IcmpTypes => Ok(positive(Test::Icmp(read_types(alloc, text)?))),
        TestOption::SourcePort => Ok(positive(Test::Sport(read_port_list(alloc, text)?))),
        TestOption::DestinationPort => Ok(positive(Test::Dport(read_port_list(alloc, text)?))),
        TestOption::Tagged => match read_counted(text, 65534) {
            Some(tag) => Ok(positive(Test::Tag(tag))),
            None => Err(ReadFault::Bad(Cause::Syntax)),
        },
        TestOption::In | TestOption::Out | TestOption::Setup | TestOption::Established => {
            Err(ReadFault::Bad(Cause::Syntax))
        }
    }
}
