//! The values of a rule's options (iptables(8), iptables-extensions(8)).

ghost use Rattle.std.specs.Prelude.{◌≡◌};
ghost use Rattle.fws_net.specs.Reading.{CauseGiven};
ghost use Rattle.fws_net.specs.Routes.{IsSound};
ghost use Rattle.fws_ipt.specs.Values.{mark_meaning, meaning_of};
ghost use Rattle.fws_ipt_read.specs.Sets.{SetGiven, set_meaning_of, set_test};

use crate::addresses::{read_range_set, read_type_set};
use crate::icmp_types::read_icmp_type;
use crate::marks::read_mark;
use crate::ports::{read_port_list, read_port_set};
use crate::states::read_states;
use fws_ipt::TestOption;
use fws_iv::Ivs;
use fws_net::{Cause, Lang, Lit, ReadFault, Site, Test};
use fws_rules::{positive, read_interfaces};
use std::alloc::Global;

/// The set of an option that has one.
fn read_set(alloc: Global, site: &Site, option: TestOption, text: &[u8]) -> Result<Ivs, ReadFault>
    requires { IsSound site.now }
    ensures { SetGiven result (set_meaning_of site.now option text.now) }
{
    match option {
        TestOption::InInterface | TestOption::OutInterface => {
            read_interfaces(alloc, site, Lang::Iptables, b'+', text)
        }
        TestOption::SourcePort | TestOption::DestinationPort => read_port_set(alloc, text),
        TestOption::SourcePorts | TestOption::DestinationPorts => read_port_list(alloc, text),
        TestOption::SourceRange | TestOption::DestinationRange => read_range_set(alloc, text),
        TestOption::SourceType | TestOption::DestinationType => read_type_set(alloc, site, text),
        _ => Err(ReadFault::Bad(Cause::Syntax)),
    }
}

/// The test of an option's set; an option that has none tests nothing.
fn set_test(option: TestOption, set: Ivs) -> Test
    ensures { result ≡ set_test option set }
{
    match option {
        TestOption::InInterface => Test::Recv(set),
        TestOption::OutInterface => Test::Xmit(set),
        TestOption::SourcePort | TestOption::SourcePorts => Test::Sport(set),
        TestOption::DestinationPort | TestOption::DestinationPorts => Test::Dport(set),
        TestOption::SourceRange | TestOption::SourceType => Test::Src(set),
        TestOption::DestinationRange | TestOption::DestinationType => Test::Dst(set),
        _ => Test::Never,
    }
}

/// The literal of an option with a set.
fn set_meaning(
    alloc: Global,
    site: &Site,
    option: TestOption,
    text: &[u8],
) -> Result<Option<Lit>, ReadFault>
    requires { IsSound site.now }
    ensures { CauseGiven result (set_meaning_of site.now option text.now (set_test option)) }
{
    let set = read_set(alloc, site, option, text)?;
    Ok(Some(positive(set_test(option, set))))
}

/// The literal of a mark.
fn mark_meaning(text: &[u8]) -> Result<Option<Lit>, ReadFault>
    ensures { CauseGiven result (mark_meaning text.now) }
{
    let mark = read_mark(text)?;
    Ok(Some(positive(Test::Tag(mark))))
}

/// The literal of an option with one value; none where it holds of every packet. `-s`, `-d`, `-p`,
/// `--tcp-flags` and `--syn` have steps of their own.
pub(crate) fn read_meaning(
    alloc: Global,
    site: &Site,
    option: TestOption,
    text: &[u8],
) -> Result<Option<Lit>, ReadFault>
    requires { IsSound site.now }
    ensures { CauseGiven result (meaning_of site.now option text.now) }
{
    match option {
        TestOption::Source
        | TestOption::Destination
        | TestOption::Protocol
        | TestOption::TcpFlags
        | TestOption::Syn => Err(ReadFault::Bad(Cause::Syntax)),
        TestOption::IcmpType => read_icmp_type(alloc, text),
        TestOption::State | TestOption::ConnectionState => read_states(alloc, text),
        TestOption::Mark => mark_meaning(text),
        _ => set_meaning(alloc, site, option, text),
    }
}
