//! A translation behind `ip nat inside source` (Cisco IOS).

ghost use Rattle.std.specs.Prelude.{◌≡◌, OnOk};
ghost use Rattle.fws_net.specs.Causes.{judged, words_read};
ghost use Rattle.fws_net.specs.Reading.{CauseGiven, StepGiven, and_then};
ghost use Rattle.fws_net.specs.Routes.{IsSound};
ghost use Rattle.fws_ios.specs.NatText.{early_end, extendable_step, fresh_nat, global_interface_step, global_port_step, global_step, inner_step, interface_addr, interface_step, kind_step, local_port_step, local_step, may_end, nat_expected, nat_made, nat_of, nat_step, overload_step, pool_name_step, port_protocol, source_step, static_step, with_address, with_global, with_list};

use crate::keywords::{misplaced, misspelled};
use crate::pools::Pools;
use fws_ios::{IosNat, NatDraft, NatExpects};
use fws_net::{Cause, End, Lang, ReadFault, Site, entry_named, face_addr};
use fws_num::{Memory, Text, Word, read_port, read_quad, value_named};
use fws_rules::{demand, is};
use std::alloc::Global;

/// A translation ahead of its first word.
fn fresh_nat(alloc: Global) -> NatDraft
    ensures { result ≡ fresh_nat }
{
    NatDraft {
        expects: NatExpects::Kind,
        list: Text::new(alloc),
        nat: None,
    }
}

/// Takes `list` or `static`.
fn kind_step(d: &mut NatDraft, text: &[u8]) -> Result<(), ReadFault>
    ensures { StepGiven result d.new (kind_step text.now d.old) }
{
    if is(text, b"list") {
        d.expects = NatExpects::List;
        return Ok(());
    }
    if is(text, b"static") {
        d.expects = NatExpects::Static;
        return Ok(());
    }
    Err(ReadFault::Bad(Cause::LeftOut))
}

/// Notes the list whose packets are translated.
fn with_list(alloc: Global, d: &mut NatDraft, name: &[u8]) -> Result<(), Memory>
    ensures { OnOk result (d.new ≡ with_list name.now d.old) }
{
    d.list = Text::of(alloc, name)?;
    d.expects = NatExpects::Source;
    Ok(())
}

/// Takes `interface` or `pool`.
fn source_step(d: &mut NatDraft, text: &[u8]) -> Result<(), ReadFault>
    ensures { StepGiven result d.new (source_step text.now d.old) }
{
    if is(text, b"interface") {
        d.expects = NatExpects::Interface;
        return Ok(());
    }
    if is(text, b"pool") {
        d.expects = NatExpects::Pool;
        return Ok(());
    }
    Err(ReadFault::Bad(misplaced(text)))
}

/// Notes the address that what the list permits gets.
fn with_address(alloc: Global, d: &mut NatDraft, addr: u32) -> Result<(), Memory>
    ensures { OnOk result (d.new ≡ with_address addr d.old) }
{
    let list = d.list.copy(alloc)?;
    d.nat = Some(IosNat::List { list, addr });
    d.expects = NatExpects::Overload;
    Ok(())
}

/// The first address of the interface.
fn interface_addr(site: &Site, text: &[u8]) -> Result<u32, ReadFault>
    requires { IsSound site.now }
    ensures { CauseGiven result (interface_addr site.now text.now) }
{
    match entry_named(site, Lang::Ios, text) {
        Some(entry) => Ok(face_addr(site, entry)),
        None => Err(ReadFault::Bad(Cause::NoInterface)),
    }
}

/// Takes the name of the interface whose address is written.
fn interface_step(
    alloc: Global,
    site: &Site,
    d: &mut NatDraft,
    text: &[u8],
) -> Result<(), ReadFault>
    requires { IsSound site.now }
    ensures { StepGiven result d.new (interface_step site.now text.now d.old) }
{
    let addr = interface_addr(site, text)?;
    with_address(alloc, d, addr)?;
    Ok(())
}

/// Takes the name of the pool whose address is written.
fn pool_name_step(
    alloc: Global,
    pools: &Pools,
    d: &mut NatDraft,
    name: &Text,
) -> Result<(), ReadFault>
    ensures { StepGiven result d.new (pool_name_step pools.now name.now d.old) }
{
    match pools.address_of(name) {
        Some(addr) => {
            with_address(alloc, d, addr)?;
            Ok(())
        }
        None => Err(ReadFault::Bad(Cause::NoName)),
    }
}

/// Takes `overload`.
fn overload_step(d: &mut NatDraft, text: &[u8]) -> Result<(), ReadFault>
    ensures { StepGiven result d.new (overload_step text.now d.old) }
{
    if !is(text, b"overload") {
        return Err(ReadFault::Bad(misplaced(text)));
    }
    d.expects = NatExpects::Nothing;
    Ok(())
}

/// Protocols whose ports are translated.
const PORT_PROTOCOLS: [(&[u8], u8); 2] = [(b"tcp", 6), (b"udp", 17)];

/// The protocol whose ports are translated.
#[tactic(auto, unfolding(fws_ios::specs::NatText::port_protocol))]
fn port_protocol(text: &[u8]) -> Option<u8>
    ensures { result ≡ port_protocol text.now }
{
    value_named(&PORT_PROTOCOLS, text)
}

/// Takes an inner address without ports.
fn inner_step(d: &mut NatDraft, text: &[u8]) -> Result<(), ReadFault>
    ensures { StepGiven result d.new (inner_step text.now d.old) }
{
    match read_quad(text) {
        Some(addr) => {
            d.expects = NatExpects::Global(None, End::host(addr, None));
            Ok(())
        }
        None => Err(ReadFault::Bad(Cause::Syntax)),
    }
}

/// Takes a protocol, or an inner address without ports. Whole networks are left out.
fn static_step(d: &mut NatDraft, text: &[u8]) -> Result<(), ReadFault>
    ensures { StepGiven result d.new (static_step text.now d.old) }
{
    if is(text, b"network") {
        return Err(ReadFault::Bad(Cause::LeftOut));
    }
    match port_protocol(text) {
        Some(proto) => {
            d.expects = NatExpects::Local(proto);
            Ok(())
        }
        None => inner_step(d, text),
    }
}

/// Takes the inner address of a port.
fn local_step(d: &mut NatDraft, proto: u8, text: &[u8]) -> Result<(), ReadFault>
    ensures { StepGiven result d.new (local_step proto text.now d.old) }
{
    match read_quad(text) {
        Some(addr) => {
            d.expects = NatExpects::LocalPort(proto, addr);
            Ok(())
        }
        None => Err(ReadFault::Bad(Cause::Syntax)),
    }
}

/// Takes the port at an inner address.
fn local_port_step(d: &mut NatDraft, proto: u8, addr: u32, text: &[u8]) -> Result<(), ReadFault>
    ensures { StepGiven result d.new (local_port_step proto addr text.now d.old) }
{
    match read_port(text) {
        Some(port) => {
            d.expects = NatExpects::Global(Some(proto), End::host(addr, Some(port)));
            Ok(())
        }
        None => Err(ReadFault::Bad(Cause::Syntax)),
    }
}

/// Notes an outer address, behind which a port stands where the inner end has one.
fn with_global(d: &mut NatDraft, proto: Option<u8>, local: End, addr: u32)
    ensures { d.new ≡ with_global proto local addr d.old }
{
    match proto {
        None => {
            d.nat = Some(IosNat::Static {
                proto: None,
                local,
                global: End::host(addr, None),
            });
            d.expects = NatExpects::Extendable;
        }
        Some(proto) => d.expects = NatExpects::GlobalPort(proto, local, addr),
    }
}

/// Takes an outer address, or `interface` for that of one.
fn global_step(
    d: &mut NatDraft,
    proto: Option<u8>,
    local: End,
    text: &[u8],
) -> Result<(), ReadFault>
    ensures { StepGiven result d.new (global_step proto local text.now d.old) }
{
    if is(text, b"interface") {
        d.expects = NatExpects::GlobalInterface(proto, local);
        return Ok(());
    }
    match read_quad(text) {
        Some(addr) => {
            with_global(d, proto, local, addr);
            Ok(())
        }
        None => Err(ReadFault::Bad(misspelled(text))),
    }
}

/// Takes the name of the interface with the outer address.
fn global_interface_step(
    site: &Site,
    d: &mut NatDraft,
    proto: Option<u8>,
    local: End,
    text: &[u8],
) -> Result<(), ReadFault>
    requires { IsSound site.now }
    ensures { StepGiven result d.new (global_interface_step site.now proto local text.now d.old) }
{
    let addr = interface_addr(site, text)?;
    with_global(d, proto, local, addr);
    Ok(())
}

/// Takes the port at an outer address.
fn global_port_step(
    d: &mut NatDraft,
    proto: u8,
    local: End,
    addr: u32,
    text: &[u8],
) -> Result<(), ReadFault>
    ensures { StepGiven result d.new (global_port_step proto local addr text.now d.old) }
{
    let Some(port) = read_port(text) else {
        return Err(ReadFault::Bad(Cause::Syntax));
    };
    d.nat = Some(IosNat::Static {
        proto: Some(proto),
        local,
        global: End::host(addr, Some(port)),
    });
    d.expects = NatExpects::Extendable;
    Ok(())
}

/// Takes `extendable`.
fn extendable_step(d: &mut NatDraft, text: &[u8]) -> Result<(), ReadFault>
    ensures { StepGiven result d.new (extendable_step text.now d.old) }
{
    if !is(text, b"extendable") {
        return Err(ReadFault::Bad(misplaced(text)));
    }
    d.expects = NatExpects::Nothing;
    Ok(())
}

/// Takes a word, by what it is taken for.
fn nat_expected(
    alloc: Global,
    site: &Site,
    pools: &Pools,
    expects: NatExpects,
    d: &mut NatDraft,
    name: &Text,
) -> Result<(), ReadFault>
    requires { IsSound site.now }
    ensures { StepGiven result d.new (nat_expected site.now pools.now expects name.now d.old) }
{
    let text = name.as_slice();
    match expects {
        NatExpects::Kind => kind_step(d, text),
        NatExpects::List => Ok(with_list(alloc, d, text)?),
        NatExpects::Source => source_step(d, text),
        NatExpects::Interface => interface_step(alloc, site, d, text),
        NatExpects::Pool => pool_name_step(alloc, pools, d, name),
        NatExpects::Overload => overload_step(d, text),
        NatExpects::Static => static_step(d, text),
        NatExpects::Local(proto) => local_step(d, proto, text),
        NatExpects::LocalPort(proto, addr) => local_port_step(d, proto, addr, text),
        NatExpects::Global(proto, local) => global_step(d, proto, local, text),
        NatExpects::GlobalInterface(proto, local) => {
            global_interface_step(site, d, proto, local, text)
        }
        NatExpects::GlobalPort(proto, local, addr) => {
            global_port_step(d, proto, local, addr, text)
        }
        NatExpects::Extendable => extendable_step(d, text),
        NatExpects::Nothing => Err(ReadFault::Bad(Cause::Syntax)),
    }
}

/// Takes a word. One with a bad byte or an open quote is refused, whatever it would be.
fn take_word(
    alloc: Global,
    site: &Site,
    pools: &Pools,
    d: &mut NatDraft,
    word: &Word,
) -> Result<(), ReadFault>
    requires { IsSound site.now }
    ensures { StepGiven result d.new (judged word.now (nat_step site.now pools.now d.old word.now)) }
{
    if !word.is_sound() {
        return Err(ReadFault::Bad(Cause::Syntax));
    }
    nat_expected(alloc, site, pools, d.expects, d, &word.text)
}

/// Takes the words of a translation, up to the first that is refused.
fn take_words(
    alloc: Global,
    site: &Site,
    pools: &Pools,
    d: &mut NatDraft,
    words: &[Word],
) -> Result<(), ReadFault>
    requires { IsSound site.now }
    ensures { StepGiven result d.new (words_read (nat_step site.now pools.now) d.old words.now) }
{
    for word in words {
        take_word(alloc, site, pools, d, word)?;
    }
    Ok(())
}

/// Why a line is refused that ends ahead of this. Ahead of `overload` it is left out.
fn early_end(expects: NatExpects) -> Cause
    ensures { result ≡ early_end expects }
{
    match expects {
        NatExpects::Overload => Cause::LeftOut,
        _ => Cause::Syntax,
    }
}

/// Whether the line may end here.
fn may_end(expects: NatExpects) -> bool
    ensures { result ≡ may_end expects }
{
    matches!(expects, NatExpects::Extendable | NatExpects::Nothing)
}

/// The translation of what was read of it, unless it is refused.
fn nat_made(d: &mut NatDraft) -> Result<IosNat, ReadFault>
    ensures { CauseGiven result (nat_made d.old) }
{
    if may_end(d.expects) {
        demand(d.nat.take())
    } else {
        Err(ReadFault::Bad(early_end(d.expects)))
    }
}

/// The translation of a draft and of these words behind it.
fn nat_behind(
    alloc: Global,
    site: &Site,
    pools: &Pools,
    d: &mut NatDraft,
    words: &[Word],
) -> Result<IosNat, ReadFault>
    requires { IsSound site.now }
    ensures { CauseGiven result (and_then (words_read (nat_step site.now pools.now) d.old words.now) nat_made) }
{
    take_words(alloc, site, pools, d, words)?;
    nat_made(d)
}

/// The translation of these words, which stand behind `ip nat inside source`, among the pools that the text defines.
pub(crate) fn nat_of(
    alloc: Global,
    site: &Site,
    pools: &Pools,
    words: &[Word],
) -> Result<IosNat, ReadFault>
    requires { IsSound site.now }
    ensures { CauseGiven result (nat_of site.now pools.now words.now) }
{
    let mut d = fresh_nat(alloc);
    nat_behind(alloc, site, pools, &mut d, words)
}
