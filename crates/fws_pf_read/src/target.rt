//! What a translation writes, behind its arrow.

ghost use Rattle.std.specs.Prelude.{◌≡◌, ◌&&◌, false, Err, codes, is_some, if◌then◌else◌};
ghost use Rattle.std.specs.Option.{option_map_or};
ghost use Rattle.std.specs.Str.{bytes_eq};
ghost use Rattle.fws_num.specs.Numbers.{split_once};
ghost use Rattle.fws_num.specs.Services.{port_of};
ghost use Rattle.fws_net.specs.Reading.{CauseGiven, FaultGiven, StepGiven};
ghost use Rattle.fws_net.specs.Routes.{IsSound};
ghost use Rattle.fws_pf.specs.declared.rule_draft.RuleDraft.{RuleDraft};
ghost use Rattle.fws_pf.specs.Drafts.{is};
ghost use Rattle.fws_pf.specs.TargetText.{bitmask_of, bitmask_step, ended_step, face_target, host_net, is_complete, is_port_range, kept_static, mapped, may_be_mapped, name_target, named_target, nat_targeted, network_target, rdr_targeted, target_at, target_end_step, target_name_step, target_port, target_port_step, target_step, target_word, targeted_by, targeted_step, with_port, with_target};
ghost use Rattle.fws_pf.specs.Values.{modified};
ghost use Rattle.fws_pf_read.specs.Views.{draft_of};
ghost use Rattle.fws_pf_read.specs.Written.{written_step};

use crate::draft::Draft;
use crate::keywords::misplaced;
use fws_net::{Cause, Lang, ReadFault, Site, entry_named, face_addr};
use fws_num::{Prefix, Word, read_port, read_ports_between, read_prefix, read_quad, split_once};
use fws_pf::{Expects, Target, Verb};
use fws_pf_words::{begins_with_digit, is_any_mark, is_mark, modified};
use fws_rules::is;

/// Takes what is written so far, and goes on.
pub(crate) fn put_target(d: &mut Draft, target: Target, next: Expects)
    ensures { draft_of d.new ≡ with_target target next (draft_of d.old) }
{
    d.target = Some(target);
    d.expects = next;
}

/// An address or a network, ahead of what stands behind it.
fn target_at(net: Prefix, is_face: bool) -> Target
    ensures { result ≡ target_at net is_face }
{
    Target {
        net,
        is_face,
        is_mapped: false,
        is_static: false,
        port: None,
    }
}

/// An address by itself.
fn host_net(addr: u32) -> Prefix
    ensures { result ≡ host_net addr }
{
    Prefix { addr, len: 32 }
}

/// The first address of an interface as what is written.
pub fn face_target(site: &Site, name: &[u8]) -> Result<Target, ReadFault>
    requires { IsSound site.now }
    ensures { CauseGiven result (face_target site.now name.now) }
{
    match entry_named(site, Lang::Pf, name) {
        Some(entry) => Ok(target_at(host_net(face_addr(site, entry)), true)),
        None => Err(ReadFault::Bad(Cause::NoInterface)),
    }
}

/// An interface by its name, behind which no colon stands.
fn named_target(site: &Site, text: &[u8]) -> Result<Target, ReadFault>
    requires { IsSound site.now }
    ensures { CauseGiven result (named_target site.now text.now) }
{
    match split_once(text, b':') {
        Some((_, behind)) => Err(ReadFault::Bad(modified(behind))),
        None => face_target(site, text),
    }
}

/// Takes a network, which is left out where it has every address.
fn network_target(d: &mut Draft, net: Prefix) -> Result<(), ReadFault>
    ensures { StepGiven result (draft_of d.new) (network_target net (draft_of d.old)) }
{
    if net.len == 0 {
        return Err(ReadFault::Bad(Cause::LeftOut));
    }
    put_target(d, target_at(net, false), Expects::Bitmask);
    Ok(())
}

/// Why a word is refused that begins with a digit, and is no network.
fn digits_fault(text: &[u8]) -> ReadFault
    ensures { FaultGiven {Y = RuleDraft} result (option_map_or (λ halves. Err (modified halves.1)) (split_once 58 text.now) (Err Cause.Syntax)) }
{
    match split_once(text, b':') {
        Some((_, behind)) => ReadFault::Bad(modified(behind)),
        None => ReadFault::Bad(Cause::Syntax),
    }
}

/// Takes the name of an interface.
fn name_target(site: &Site, text: &[u8], d: &mut Draft) -> Result<(), ReadFault>
    requires { IsSound site.now }
    ensures { StepGiven result (draft_of d.new) (name_target site.now text.now (draft_of d.old)) }
{
    if begins_with_digit(text) {
        return Err(digits_fault(text));
    }
    let target = named_target(site, text)?;
    put_target(d, target, Expects::Targeted);
    Ok(())
}

/// Takes an address, a network or the name of an interface.
fn target_word(site: &Site, text: &[u8], d: &mut Draft) -> Result<(), ReadFault>
    requires { IsSound site.now }
    ensures { StepGiven result (draft_of d.new) (target_word site.now text.now (draft_of d.old)) }
{
    if let Some(addr) = read_quad(text) {
        put_target(d, target_at(host_net(addr), false), Expects::Targeted);
        return Ok(());
    }
    match read_prefix(text) {
        Some(net) => network_target(d, net),
        None => name_target(site, text, d),
    }
}

/// Takes the word behind the arrow.
fn target_step(site: &Site, w: &Word, d: &mut Draft) -> Result<(), ReadFault>
    requires { IsSound site.now }
    ensures { StepGiven result (draft_of d.new) (target_step site.now w.now (draft_of d.old)) }
{
    if is_mark(w, b"(") {
        d.expects = Expects::TargetName;
        return Ok(());
    }
    if is_mark(w, b"{") {
        return Err(ReadFault::Bad(Cause::LeftOut));
    }
    if is_any_mark(w) {
        return Err(ReadFault::Bad(Cause::Syntax));
    }
    target_word(site, w.text.as_slice(), d)
}

/// Takes the name of an interface in parentheses.
fn target_name_step(site: &Site, w: &Word, d: &mut Draft) -> Result<(), ReadFault>
    requires { IsSound site.now }
    ensures { StepGiven result (draft_of d.new) (target_name_step site.now w.now (draft_of d.old)) }
{
    if is_any_mark(w) {
        return Err(ReadFault::Bad(Cause::Syntax));
    }
    let target = named_target(site, w.text.as_slice())?;
    put_target(d, target, Expects::TargetEnd);
    Ok(())
}

/// Takes the parenthesis behind the name of an interface.
fn target_end_step(w: &Word, d: &mut Draft) -> Result<(), ReadFault>
    ensures { StepGiven result (draft_of d.new) (target_end_step w.now (draft_of d.old)) }
{
    if !is_mark(w, b")") {
        return Err(ReadFault::Bad(Cause::Syntax));
    }
    d.expects = Expects::Targeted;
    Ok(())
}

/// The target with `bitmask` behind it.
pub fn mapped(target: Target) -> Target
    ensures { result ≡ mapped target }
{
    Target {
        is_mapped: true,
        ..target
    }
}

/// The target with `static-port` behind it.
pub fn kept_static(target: Target) -> Target
    ensures { result ≡ kept_static target }
{
    Target {
        is_static: true,
        ..target
    }
}

/// Takes `bitmask` behind a network that is written over the source; `static-port` may stand before it.
pub(crate) fn nat_bitmask(w: &Word, target: Target, d: &mut Draft) -> Result<(), ReadFault>
    ensures { StepGiven result (draft_of d.new) (bitmask_of Verb.Nat w.now (draft_of d.old) target) }
{
    if is(w.text.as_slice(), b"bitmask") {
        put_target(d, mapped(target), Expects::Targeted);
        return Ok(());
    }
    if is(w.text.as_slice(), b"static-port") && !target.is_static {
        put_target(d, kept_static(target), Expects::Bitmask);
        return Ok(());
    }
    Err(ReadFault::Bad(Cause::LeftOut))
}

/// Takes `bitmask` behind a network that is written over the destination.
pub(crate) fn rdr_bitmask(w: &Word, target: Target, d: &mut Draft) -> Result<(), ReadFault>
    ensures { StepGiven result (draft_of d.new) (bitmask_of Verb.Rdr w.now (draft_of d.old) target) }
{
    if is(w.text.as_slice(), b"bitmask") {
        put_target(d, mapped(target), Expects::Targeted);
        return Ok(());
    }
    Err(ReadFault::Bad(Cause::LeftOut))
}

/// Takes the word behind a network that is written, by the verb.
fn bitmask_of(w: &Word, target: Target, d: &mut Draft) -> Result<(), ReadFault>
    ensures { StepGiven result (draft_of d.new) (bitmask_of d.old.verb w.now (draft_of d.old) target) }
{
    match d.verb {
        Verb::Nat => nat_bitmask(w, target, d),
        Verb::Block | Verb::Pass | Verb::Rdr => rdr_bitmask(w, target, d),
    }
}

/// Takes the word behind a network that is written, which is left out without `bitmask`.
fn bitmask_step(w: &Word, d: &mut Draft) -> Result<(), ReadFault>
    ensures { StepGiven result (draft_of d.new) (bitmask_step w.now (draft_of d.old)) }
{
    match d.target {
        Some(target) => bitmask_of(w, target, d),
        None => Err(ReadFault::Bad(Cause::Syntax)),
    }
}

/// Whether `bitmask` may stand behind the target.
pub fn may_be_mapped(target: Target) -> bool
    ensures { result ≡ may_be_mapped target }
{
    !target.is_face && !target.is_mapped
}

/// Whether no more words may stand behind the source that is written.
fn is_complete(target: Target) -> bool
    ensures { result ≡ is_complete target }
{
    target.is_static && !may_be_mapped(target)
}

/// Why a word is refused behind a mapped network, which has no port.
fn mapped_cause(w: &Word) -> Cause
    ensures { result ≡ (if is w.now (codes "port") then Cause.LeftOut else Cause.Syntax) }
{
    if is(w.text.as_slice(), b"port") {
        Cause::LeftOut
    } else {
        Cause::Syntax
    }
}

/// Takes `port` or `bitmask` behind the destination that is written.
fn rdr_targeted(w: &Word, target: Target, d: &mut Draft) -> Result<(), ReadFault>
    ensures { StepGiven result (draft_of d.new) (rdr_targeted w.now (draft_of d.old) target) }
{
    if target.is_mapped {
        return Err(ReadFault::Bad(mapped_cause(w)));
    }
    if is(w.text.as_slice(), b"port") {
        d.expects = Expects::TargetPort;
        return Ok(());
    }
    if is(w.text.as_slice(), b"bitmask") && may_be_mapped(target) {
        put_target(d, mapped(target), Expects::Targeted);
        return Ok(());
    }
    Err(ReadFault::Bad(misplaced(w.text.as_slice())))
}

/// Takes `static-port` or `bitmask` behind the source that is written.
fn nat_targeted(w: &Word, target: Target, d: &mut Draft) -> Result<(), ReadFault>
    ensures { StepGiven result (draft_of d.new) (nat_targeted w.now (draft_of d.old) target) }
{
    if is(w.text.as_slice(), b"port") {
        return Err(ReadFault::Bad(Cause::LeftOut));
    }
    if is_complete(target) {
        return Err(ReadFault::Bad(Cause::Syntax));
    }
    if is(w.text.as_slice(), b"static-port") && !target.is_static {
        put_target(d, kept_static(target), Expects::Targeted);
        return Ok(());
    }
    if is(w.text.as_slice(), b"bitmask") && may_be_mapped(target) {
        put_target(d, mapped(target), Expects::Targeted);
        return Ok(());
    }
    Err(ReadFault::Bad(misplaced(w.text.as_slice())))
}

/// Takes a word behind what is written, by the verb.
fn targeted_by(w: &Word, target: Target, d: &mut Draft) -> Result<(), ReadFault>
    ensures { StepGiven result (draft_of d.new) (targeted_by d.old.verb w.now (draft_of d.old) target) }
{
    match d.verb {
        Verb::Nat => nat_targeted(w, target, d),
        Verb::Block | Verb::Pass | Verb::Rdr => rdr_targeted(w, target, d),
    }
}

/// Takes a word behind what is written.
fn targeted_step(w: &Word, d: &mut Draft) -> Result<(), ReadFault>
    ensures { StepGiven result (draft_of d.new) (targeted_step w.now (draft_of d.old)) }
{
    match d.target {
        Some(target) => targeted_by(w, target, d),
        None => Err(ReadFault::Bad(Cause::Syntax)),
    }
}

/// Whether it is a port with a colon and `*` behind it.
fn is_open_range(text: &[u8]) -> bool
    ensures { result ≡ option_map_or (λ halves. is_some (port_of halves.0) && bytes_eq halves.1 (codes "*")) (split_once 58 text.now) false }
{
    match split_once(text, b':') {
        Some((front, behind)) => read_port(front).is_some() && is(behind, b"*"),
        None => false,
    }
}

/// Whether it is a range of ports.
fn is_port_range(text: &[u8]) -> bool
    ensures { result ≡ is_port_range text.now }
{
    read_ports_between(b':', text).is_some() || is_open_range(text)
}

/// Why a word is refused that is no port.
fn port_cause(text: &[u8]) -> Cause
    ensures { result ≡ (if is_port_range text.now then Cause.LeftOut else Cause.Syntax) }
{
    if is_port_range(text) {
        Cause::LeftOut
    } else {
        Cause::Syntax
    }
}

/// The port of a destination.
fn read_target_port(text: &[u8]) -> Result<u16, ReadFault>
    ensures { CauseGiven result (target_port text.now) }
{
    match read_port(text) {
        Some(port) => Ok(port),
        None => Err(ReadFault::Bad(port_cause(text))),
    }
}

/// The target with a port.
fn with_port(port: u16, target: Target) -> Target
    ensures { result ≡ with_port port target }
{
    Target {
        port: Some(port),
        ..target
    }
}

/// Takes the port of the destination that is written.
fn target_port_step(w: &Word, d: &mut Draft) -> Result<(), ReadFault>
    ensures { StepGiven result (draft_of d.new) (target_port_step w.now (draft_of d.old)) }
{
    if is_any_mark(w) {
        return Err(ReadFault::Bad(Cause::Syntax));
    }
    let Some(target) = d.target else {
        return Err(ReadFault::Bad(Cause::Syntax));
    };
    let port = read_target_port(w.text.as_slice())?;
    put_target(d, with_port(port, target), Expects::Ended);
    Ok(())
}

/// Why a word is refused behind a port: ranges and `bitmask` are left out.
fn ended_fault(w: &Word) -> ReadFault
    ensures { (d : RuleDraft) → FaultGiven result (ended_step w.now d) }
{
    if is_mark(w, b"><") || is_mark(w, b"<>") || is(w.text.as_slice(), b"bitmask") {
        ReadFault::Bad(Cause::LeftOut)
    } else {
        ReadFault::Bad(Cause::Syntax)
    }
}

/// Takes a word behind the arrow, by what it is taken for.
pub(crate) fn written_step(
    site: &Site,
    expects: Expects,
    w: &Word,
    d: &mut Draft,
) -> Result<(), ReadFault>
    requires { IsSound site.now }
    ensures { StepGiven result (draft_of d.new) (written_step site.now expects w.now (draft_of d.old)) }
{
    match expects {
        Expects::Target => target_step(site, w, d),
        Expects::TargetName => target_name_step(site, w, d),
        Expects::TargetEnd => target_end_step(w, d),
        Expects::Bitmask => bitmask_step(w, d),
        Expects::Targeted => targeted_step(w, d),
        Expects::TargetPort => target_port_step(w, d),
        Expects::Ended => Err(ended_fault(w)),
        _ => Err(ReadFault::Bad(Cause::Syntax)),
    }
}
