//! An instance behind its number (ipfw(8)).

ghost use Rattle.std.specs.Prelude.{◌≡◌, map, OnOk, IfOk};
ghost use Rattle.std.specs.List.{list_any};
ghost use Rattle.fws_net.specs.Causes.{judged, words_read};
ghost use Rattle.fws_net.specs.Reading.{CauseGiven, StepGiven, and_then};
ghost use Rattle.fws_net.specs.Routes.{IsSound};
ghost use Rattle.fws_ipfw.specs.NatText.{address_and_port, alias_begun, alias_step, fresh_nat, interface_step, is_option_next, local_address_step, local_end_step, nat_checks, nat_drawn, nat_expected_step, nat_made, nat_of, nat_once, nat_option, nat_option_step, nat_step, port_protocol, public_addr, public_address_step, public_end, public_end_step, redirect_made, redirect_protocol_step, redirected_port, takes_alias, with_alias, with_redirect};

use crate::keywords::{misplaced, nat_word};
use fws_ipfw::{IpfwNat, NatDraft, NatExpects, NatWord, Redirect, RedirectDraft};
use fws_net::{Cause, Checks, End, Lang, ReadFault, Site, entry_named, face_addr};
use fws_num::{
    Items, Memory, Text, Word, read_port, read_ports_between, read_quad, split_once, value_named,
};
use fws_rules::{demand, is_given};
use std::alloc::Global;

/// An instance ahead of its first option.
fn fresh_nat(alloc: Global) -> NatDraft
    ensures { result ≡ fresh_nat }
{
    NatDraft {
        expects: NatExpects::Option,
        given: Items::new(alloc),
        alias: None,
        redirects: Items::new(alloc),
    }
}

/// Notes an option that may come once.
fn once(alloc: Global, d: &mut NatDraft, text: &[u8]) -> Result<(), ReadFault>
    ensures { StepGiven result d.new (nat_once text.now d.old) }
{
    if is_given(d.given.as_slice(), text) {
        return Err(ReadFault::Bad(Cause::Syntax));
    }
    d.given.put(Text::of(alloc, text)?)?;
    Ok(())
}

/// Takes `ip` or `if`, of which one may come once.
fn begin_alias(d: &mut NatDraft, next: NatExpects) -> Result<(), ReadFault>
    ensures { StepGiven result d.new (alias_begun next d.old) }
{
    if d.alias.is_some() {
        return Err(ReadFault::Bad(Cause::Syntax));
    }
    d.expects = next;
    Ok(())
}

/// Takes an option.
fn nat_option(alloc: Global, d: &mut NatDraft, text: &[u8], word: NatWord) -> Result<(), ReadFault>
    ensures { StepGiven result d.new (nat_option text.now word d.old) }
{
    match word {
        NatWord::Address => begin_alias(d, NatExpects::Address),
        NatWord::Interface => begin_alias(d, NatExpects::Interface),
        NatWord::Plain => once(alloc, d, text),
        NatWord::RedirectPort => {
            d.expects = NatExpects::Protocol;
            Ok(())
        }
        NatWord::RedirectAddress => {
            d.expects = NatExpects::LocalAddress;
            Ok(())
        }
    }
}

/// Takes a word where an option may stand.
fn nat_option_step(alloc: Global, d: &mut NatDraft, text: &[u8]) -> Result<(), ReadFault>
    ensures { StepGiven result d.new (nat_option_step text.now d.old) }
{
    match nat_word(text) {
        Some(word) => nat_option(alloc, d, text, word),
        None => Err(ReadFault::Bad(misplaced(text))),
    }
}

/// Notes the address of the instance.
fn with_alias(d: &mut NatDraft, addr: u32)
    ensures { d.new ≡ with_alias addr d.old }
{
    d.alias = Some(addr);
    d.expects = NatExpects::Option;
}

/// Takes the address behind `ip`.
fn alias_step(d: &mut NatDraft, text: &[u8]) -> Result<(), ReadFault>
    ensures { StepGiven result d.new (alias_step text.now d.old) }
{
    match read_quad(text) {
        Some(addr) => {
            with_alias(d, addr);
            Ok(())
        }
        None => Err(ReadFault::Bad(Cause::Syntax)),
    }
}

/// Takes the name behind `if`: the address is the interface's first.
fn interface_step(site: &Site, d: &mut NatDraft, text: &[u8]) -> Result<(), ReadFault>
    requires { IsSound site.now }
    ensures { StepGiven result d.new (interface_step site.now text.now d.old) }
{
    match entry_named(site, Lang::Ipfw, text) {
        Some(entry) => {
            with_alias(d, face_addr(site, entry));
            Ok(())
        }
        None => Err(ReadFault::Bad(Cause::NoInterface)),
    }
}

/// Protocols whose ports are redirected.
const PORT_PROTOCOLS: [(&[u8], u8); 2] = [(b"tcp", 6), (b"udp", 17)];

/// The protocol whose ports are redirected.
#[tactic(auto, unfolding(fws_ipfw::specs::NatText::port_protocol))]
fn port_protocol(text: &[u8]) -> Option<u8>
    ensures { result ≡ port_protocol text.now }
{
    value_named(&PORT_PROTOCOLS, text)
}

/// Takes the protocol behind `redirect_port`.
fn redirect_protocol_step(d: &mut NatDraft, text: &[u8]) -> Result<(), ReadFault>
    ensures { StepGiven result d.new (redirect_protocol_step text.now d.old) }
{
    let Some(proto) = port_protocol(text) else {
        return Err(ReadFault::Bad(Cause::Syntax));
    };
    d.expects = NatExpects::LocalEnd(proto);
    Ok(())
}

/// A port; a range of ports is left out.
fn read_redirected_port(text: &[u8]) -> Result<u16, ReadFault>
    ensures { CauseGiven result (redirected_port text.now) }
{
    match read_port(text) {
        Some(port) => Ok(port),
        None => {
            if read_ports_between(b'-', text).is_some() {
                Err(ReadFault::Bad(Cause::LeftOut))
            } else {
                Err(ReadFault::Bad(Cause::Syntax))
            }
        }
    }
}

/// An address and a port, which stood on both sides of a colon.
fn read_address_and_port(front: &[u8], back: &[u8]) -> Result<(u32, u16), ReadFault>
    ensures { CauseGiven result (address_and_port (front.now, back.now)) }
{
    let Some(addr) = read_quad(front) else {
        return Err(ReadFault::Bad(Cause::Syntax));
    };
    let port = read_redirected_port(back)?;
    Ok((addr, port))
}

/// Takes the inner end of a redirect of ports.
fn local_end_step(d: &mut NatDraft, proto: u8, text: &[u8]) -> Result<(), ReadFault>
    ensures { StepGiven result d.new (local_end_step proto text.now d.old) }
{
    let Some((front, back)) = split_once(text, b':') else {
        return Err(ReadFault::Bad(Cause::Syntax));
    };
    let (addr, port) = read_address_and_port(front, back)?;
    d.expects = NatExpects::PublicEnd(proto, End::host(addr, Some(port)));
    Ok(())
}

/// Puts a redirect behind the others.
fn with_redirect(d: &mut NatDraft, redirect: RedirectDraft) -> Result<(), Memory>
    ensures { OnOk result (d.new ≡ with_redirect redirect d.old) }
{
    d.redirects.put(redirect)?;
    d.expects = NatExpects::Option;
    Ok(())
}

/// An outer address, which is left out where it is 0.0.0.0.
fn public_addr(addr: u32) -> Result<u32, ReadFault>
    ensures { CauseGiven result (public_addr addr) }
{
    if addr == 0 {
        Err(ReadFault::Bad(Cause::LeftOut))
    } else {
        Ok(addr)
    }
}

/// An outer end: a port, and maybe an address before it.
fn read_public_end(text: &[u8]) -> Result<(Option<u32>, u16), ReadFault>
    ensures { CauseGiven result (public_end text.now) }
{
    match split_once(text, b':') {
        Some((front, back)) => {
            let (addr, port) = read_address_and_port(front, back)?;
            let addr = public_addr(addr)?;
            Ok((Some(addr), port))
        }
        None => {
            let port = read_redirected_port(text)?;
            Ok((None, port))
        }
    }
}

/// Takes the outer end of a redirect of ports.
fn public_end_step(d: &mut NatDraft, proto: u8, local: End, text: &[u8]) -> Result<(), ReadFault>
    ensures { StepGiven result d.new (public_end_step proto local text.now d.old) }
{
    let (public, port) = read_public_end(text)?;
    let redirect = RedirectDraft {
        proto: Some(proto),
        local,
        public,
        port: Some(port),
    };
    with_redirect(d, redirect)?;
    Ok(())
}

/// Takes the inner address of a redirect.
fn local_address_step(d: &mut NatDraft, text: &[u8]) -> Result<(), ReadFault>
    ensures { StepGiven result d.new (local_address_step text.now d.old) }
{
    let Some(addr) = read_quad(text) else {
        return Err(ReadFault::Bad(Cause::Syntax));
    };
    d.expects = NatExpects::PublicAddress(End::host(addr, None));
    Ok(())
}

/// Takes the outer address of a redirect.
fn public_address_step(d: &mut NatDraft, local: End, text: &[u8]) -> Result<(), ReadFault>
    ensures { StepGiven result d.new (public_address_step local text.now d.old) }
{
    let addr = demand(read_quad(text))?;
    let addr = public_addr(addr)?;
    let redirect = RedirectDraft {
        proto: None,
        local,
        public: Some(addr),
        port: None,
    };
    with_redirect(d, redirect)?;
    Ok(())
}

/// Takes a word, by what it is taken for.
fn expected_step(
    alloc: Global,
    site: &Site,
    expects: NatExpects,
    d: &mut NatDraft,
    text: &[u8],
) -> Result<(), ReadFault>
    requires { IsSound site.now }
    ensures { StepGiven result d.new (nat_expected_step site.now expects text.now d.old) }
{
    match expects {
        NatExpects::Option => nat_option_step(alloc, d, text),
        NatExpects::Address => alias_step(d, text),
        NatExpects::Interface => interface_step(site, d, text),
        NatExpects::Protocol => redirect_protocol_step(d, text),
        NatExpects::LocalEnd(proto) => local_end_step(d, proto, text),
        NatExpects::PublicEnd(proto, local) => public_end_step(d, proto, local, text),
        NatExpects::LocalAddress => local_address_step(d, text),
        NatExpects::PublicAddress(local) => public_address_step(d, local, text),
    }
}

/// Takes a word. One with a bad byte or an open quote is refused, whatever it would be.
fn take_word(alloc: Global, site: &Site, d: &mut NatDraft, word: &Word) -> Result<(), ReadFault>
    requires { IsSound site.now }
    ensures { StepGiven result d.new (judged word.now (nat_step site.now d.old word.now)) }
{
    if !word.is_sound() {
        return Err(ReadFault::Bad(Cause::Syntax));
    }
    expected_step(alloc, site, d.expects, d, word.text.as_slice())
}

/// Takes the words of an instance, up to the first that is refused.
fn take_words(alloc: Global, site: &Site, d: &mut NatDraft, words: &[Word]) -> Result<(), ReadFault>
    requires { IsSound site.now }
    ensures { StepGiven result d.new (words_read (nat_step site.now) d.old words.now) }
{
    for word in words {
        take_word(alloc, site, d, word)?;
    }
    Ok(())
}

/// Whether an outer address is that of the instance.
fn takes_alias(redirects: &[RedirectDraft]) -> bool
    ensures { result ≡ list_any takes_alias redirects.now }
{
    redirects.iter().any(|redirect| redirect.public.is_none())
}

/// The checks of the whole line.
fn nat_checks(d: &NatDraft) -> Checks
    ensures { result ≡ nat_checks d.now }
{
    Checks {
        left_out: d.alias == Some(0) && takes_alias(d.redirects.as_slice()),
        backward: false,
        shape: d.alias.is_none(),
        expand: false,
    }
}

/// A redirect of an instance with this address.
fn redirect_made(alias: u32, redirect: &RedirectDraft) -> Redirect
    ensures { result ≡ redirect_made alias redirect.now }
{
    let addr = match redirect.public {
        Some(addr) => addr,
        None => alias,
    };
    Redirect {
        proto: redirect.proto,
        local: redirect.local,
        public: End::host(addr, redirect.port),
    }
}

/// The redirects of an instance with this address.
fn redirects_made(
    alloc: Global,
    alias: u32,
    drafts: &[RedirectDraft],
) -> Result<Items<Redirect>, Memory>
    ensures { IfOk result (λ all. all ≡ map (redirect_made alias) drafts.now) }
{
    let mut all = Items::new(alloc);
    for draft in drafts {
        all.put(redirect_made(alias, draft))?;
    }
    Ok(all)
}

/// The instance of what was read of it.
fn nat_drawn(alloc: Global, number: u32, d: &NatDraft) -> Result<IpfwNat, Memory>
    ensures { IfOk result (λ nat. nat ≡ nat_drawn number d.now) }
{
    let alias = match d.alias {
        Some(addr) => addr,
        None => 0,
    };
    Ok(IpfwNat {
        number,
        alias,
        redirects: redirects_made(alloc, alias, d.redirects.as_slice())?,
    })
}

/// The instance of what was read of it, unless it is refused.
fn make_nat(alloc: Global, number: u32, d: &NatDraft) -> Result<IpfwNat, ReadFault>
    ensures { CauseGiven result (nat_made number d.now) }
{
    if !matches!(d.expects, NatExpects::Option) {
        return Err(ReadFault::Bad(Cause::Syntax));
    }
    match nat_checks(d).first() {
        Some(cause) => Err(ReadFault::Bad(cause)),
        None => Ok(nat_drawn(alloc, number, d)?),
    }
}

/// The instance of a draft and of these words behind it.
fn nat_behind(
    alloc: Global,
    site: &Site,
    number: u32,
    d: &mut NatDraft,
    words: &[Word],
) -> Result<IpfwNat, ReadFault>
    requires { IsSound site.now }
    ensures { CauseGiven result (and_then (words_read (nat_step site.now) d.old words.now) (nat_made number)) }
{
    take_words(alloc, site, d, words)?;
    make_nat(alloc, number, d)
}

/// The instance of these words, which stand behind its number and `config`.
pub(crate) fn read_nat(
    alloc: Global,
    site: &Site,
    number: u32,
    words: &[Word],
) -> Result<IpfwNat, ReadFault>
    requires { IsSound site.now }
    ensures { CauseGiven result (nat_of site.now number words.now) }
{
    let mut d = fresh_nat(alloc);
    nat_behind(alloc, site, number, &mut d, words)
}
