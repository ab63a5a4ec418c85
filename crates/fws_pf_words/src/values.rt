//! Values and lists of values in braces (pf.conf(5)).

ghost use Rattle.std.specs.Prelude.{◌≡◌, if◌then◌else◌, IfOk, OnOk};
ghost use Rattle.std.specs.List.{list_any};
ghost use Rattle.std.specs.Str.{bytes_eq};
ghost use Rattle.fws_net.specs.Routes.{IsSound};
ghost use Rattle.fws_rules.specs.Literals.{one};
ghost use Rattle.fws_pf.specs.declared.value_draft.Part.TheVariants as parts;
ghost use Rattle.fws_pf.specs.Values.{after_part, alone, begin_step, behind_value, compared_ports, end_step, ended_value, face_name_step, first_step, has_ended, host_step, host_word, icmp_type_part, interface_part, is_any_mark, item_step, marks, may_be_empty, negating, next_step, no_mark, part_taken, plain_step, port_sign_step, port_step, port_taken, port_word, ports_by_ends, protocol_part, range_end_step, range_sign_step, table_name_step, value_expected_step, value_step, with_part};
ghost use Rattle.fws_pf_words.specs.Taken.{TakenGiven};

use crate::addresses::{face_name_part, host_part, range_part};
use crate::items::{icmp_type_part, interface_part, protocol_part};
use crate::ports::{compared_ports, operator_of, port_range_part, ports_by_ends};
use crate::setting::Setting;
use crate::statements::is_mark;
use fws_iv::one;
use fws_net::{Cause, ReadFault, Site};
use fws_num::{Memory, Word, read_port, read_quad};
use fws_pf::{Item, Operator, Part, ValueDraft, ValueExpects, ValueKind};
use fws_rules::{is, is_one_of};
use std::alloc::Global;

/// Punctuation outside quotes.
const MARKS: [&[u8]; 15] = [
    b"{", b"}", b"(", b")", b"<", b">", b",", b"=", b"!", b"->", b"><", b"<>", b"!=", b"<=", b">=",
];

/// What is expected behind a value: nothing more of it, or in a list what follows.
fn behind(in_list: bool) -> ValueExpects
    ensures { result ≡ (if in_list then ValueExpects.Next else ValueExpects.Nothing) }
{
    if in_list {
        ValueExpects::Next
    } else {
        ValueExpects::Nothing
    }
}

/// Puts a value behind the others.
fn with_part(d: &mut ValueDraft, part: Part) -> Result<(), Memory>
    ensures { OnOk result (d.new ≡ with_part part d.old) }
{
    d.items.put(Item {
        negated: d.negated,
        part,
    })?;
    d.negated = false;
    d.expects = behind(d.in_list);
    Ok(())
}

/// Whether the text is that of punctuation.
fn is_mark_text(text: &[u8]) -> bool
    ensures { result ≡ list_any (bytes_eq text.now) marks }
{
    if 2 < text.len() {
        return false;
    }
    is_one_of(&MARKS, text)
}

/// Whether the word is punctuation.
pub fn is_any_mark(w: &Word) -> bool
    ensures { result ≡ is_any_mark w.now }
{
    if w.quoted {
        return false;
    }
    is_mark_text(w.text.as_slice())
}

/// Takes an interface.
fn interface_step(
    alloc: Global,
    setting: &Setting,
    w: &Word,
    d: &mut ValueDraft,
) -> Result<bool, ReadFault>
    requires { IsSound setting.now.site }
    ensures { TakenGiven result d.new (no_mark w.now (part_taken (interface_part setting.now.site w.now.text) d.old)) }
{
    if is_any_mark(w) {
        return Err(ReadFault::Bad(Cause::Syntax));
    }
    let part = interface_part(alloc, setting.site(), w.text.as_slice())?;
    with_part(d, part)?;
    Ok(true)
}

/// Takes a protocol.
fn protocol_step(alloc: Global, w: &Word, d: &mut ValueDraft) -> Result<bool, ReadFault>
    ensures { TakenGiven result d.new (no_mark w.now (part_taken (protocol_part w.now.text) d.old)) }
{
    if is_any_mark(w) {
        return Err(ReadFault::Bad(Cause::Syntax));
    }
    let part = protocol_part(alloc, w.text.as_slice())?;
    with_part(d, part)?;
    Ok(true)
}

/// Takes a type of ICMP messages.
fn icmp_type_step(alloc: Global, w: &Word, d: &mut ValueDraft) -> Result<bool, ReadFault>
    ensures { TakenGiven result d.new (no_mark w.now (part_taken (icmp_type_part w.now.text) d.old)) }
{
    if is_any_mark(w) {
        return Err(ReadFault::Bad(Cause::Syntax));
    }
    let part = icmp_type_part(alloc, w.text.as_slice())?;
    with_part(d, part)?;
    Ok(true)
}

/// Takes addresses by a word, of which an address by itself may begin a range.
fn host_word(alloc: Global, site: &Site, text: &[u8], d: &mut ValueDraft) -> Result<bool, ReadFault>
    requires { IsSound site.now }
    ensures { TakenGiven result d.new (host_word site.now text.now d.old) }
{
    match read_quad(text) {
        Some(addr) => {
            d.expects = ValueExpects::RangeSign(addr);
            Ok(true)
        }
        None => {
            let part = host_part(alloc, site, text)?;
            with_part(d, part)?;
            Ok(true)
        }
    }
}

/// Takes addresses by a word, or goes on to the name of a table or of an interface.
fn host_step(
    alloc: Global,
    setting: &Setting,
    w: &Word,
    d: &mut ValueDraft,
) -> Result<bool, ReadFault>
    requires { IsSound setting.now.site }
    ensures { TakenGiven result d.new (host_step setting.now.site w.now d.old) }
{
    if is_mark(w, b"<") {
        d.expects = ValueExpects::TableName;
        return Ok(true);
    }
    if is_mark(w, b"(") {
        d.expects = ValueExpects::FaceName;
        return Ok(true);
    }
    if is_any_mark(w) {
        return Err(ReadFault::Bad(Cause::Syntax));
    }
    host_word(alloc, setting.site(), w.text.as_slice(), d)
}

/// Takes the name of a table.
fn table_name_step(
    alloc: Global,
    setting: &Setting,
    w: &Word,
    d: &mut ValueDraft,
) -> Result<bool, ReadFault>
    ensures { TakenGiven result d.new (table_name_step setting.now w.now d.old) }
{
    if is_any_mark(w) {
        return Err(ReadFault::Bad(Cause::Syntax));
    }
    if !setting.is_table(&w.text) {
        return Err(ReadFault::Bad(Cause::NoName));
    }
    with_part(d, Part::Table(w.text.copy(alloc)?))?;
    d.expects = ValueExpects::TableEnd;
    Ok(true)
}

/// Takes the name of an interface in parentheses.
fn face_name_step(
    alloc: Global,
    setting: &Setting,
    w: &Word,
    d: &mut ValueDraft,
) -> Result<bool, ReadFault>
    requires { IsSound setting.now.site }
    ensures { TakenGiven result d.new (face_name_step setting.now w.now d.old) }
{
    if is_any_mark(w) {
        return Err(ReadFault::Bad(Cause::Syntax));
    }
    let part = face_name_part(alloc, setting.site(), w.text.as_slice())?;
    with_part(d, part)?;
    d.expects = ValueExpects::FaceEnd;
    Ok(true)
}

/// Takes this punctuation, behind which the value has ended.
fn end_step(mark: &[u8], w: &Word, d: &mut ValueDraft) -> Result<bool, ReadFault>
    ensures { TakenGiven result d.new (end_step mark.now w.now d.old) }
{
    if !is_mark(w, mark) {
        return Err(ReadFault::Bad(Cause::Syntax));
    }
    d.expects = behind(d.in_list);
    Ok(true)
}

/// Takes the address with which a range ends.
fn range_end_step(alloc: Global, lo: u32, w: &Word, d: &mut ValueDraft) -> Result<bool, ReadFault>
    ensures { TakenGiven result d.new (range_end_step lo w.now d.old) }
{
    let part = range_part(alloc, lo, w.text.as_slice())?;
    with_part(d, part)?;
    Ok(true)
}

/// Takes a port, which may stand before `><` and `<>`, or a range of ports.
fn port_word(alloc: Global, text: &[u8], d: &mut ValueDraft) -> Result<bool, ReadFault>
    ensures { TakenGiven result d.new (port_word text.now d.old) }
{
    match read_port(text) {
        Some(n) => {
            d.expects = ValueExpects::PortSign(n);
            Ok(true)
        }
        None => {
            let part = port_range_part(alloc, text)?;
            with_part(d, part)?;
            Ok(true)
        }
    }
}

/// Takes an operator, a port or a range of ports.
fn port_step(alloc: Global, w: &Word, d: &mut ValueDraft) -> Result<bool, ReadFault>
    ensures { TakenGiven result d.new (port_step w.now d.old) }
{
    match operator_of(w) {
        Some(operator) => {
            d.expects = ValueExpects::Operand(operator);
            Ok(true)
        }
        None => {
            if is_any_mark(w) {
                return Err(ReadFault::Bad(Cause::Syntax));
            }
            port_word(alloc, w.text.as_slice(), d)
        }
    }
}

/// Takes the port that an operator compares with.
fn operand_step(
    alloc: Global,
    operator: Operator,
    w: &Word,
    d: &mut ValueDraft,
) -> Result<bool, ReadFault>
    ensures { TakenGiven result d.new (port_taken (compared_ports operator) w.now d.old) }
{
    match read_port(w.text.as_slice()) {
        Some(n) => {
            let set = compared_ports(alloc, operator, n)?;
            with_part(d, Part::Set(set))?;
            Ok(true)
        }
        None => Err(ReadFault::Bad(Cause::Syntax)),
    }
}

/// Takes the port behind `<>`, or else behind `><`.
fn port_end_step(
    alloc: Global,
    is_outside: bool,
    first: u16,
    w: &Word,
    d: &mut ValueDraft,
) -> Result<bool, ReadFault>
    ensures { TakenGiven result d.new (port_taken (ports_by_ends is_outside first) w.now d.old) }
{
    match read_port(w.text.as_slice()) {
        Some(n) => {
            let set = ports_by_ends(alloc, is_outside, first, n)?;
            with_part(d, Part::Set(set))?;
            Ok(true)
        }
        None => Err(ReadFault::Bad(Cause::Syntax)),
    }
}

/// Takes a value of a kind that isn't negated here.
fn plain_step(
    alloc: Global,
    setting: &Setting,
    w: &Word,
    d: &mut ValueDraft,
    kind: ValueKind,
) -> Result<bool, ReadFault>
    requires { IsSound setting.now.site }
    ensures { TakenGiven result d.new (plain_step setting.now w.now d.old kind) }
{
    match kind {
        ValueKind::Interface => interface_step(alloc, setting, w, d),
        ValueKind::Protocol => protocol_step(alloc, w, d),
        ValueKind::Host => host_step(alloc, setting, w, d),
        ValueKind::Member => host_step(alloc, setting, w, d),
        ValueKind::Port => port_step(alloc, w, d),
        ValueKind::IcmpType => icmp_type_step(alloc, w, d),
    }
}

/// Takes `!` ahead of a value of a kind.
fn negating(d: &mut ValueDraft, kind: ValueKind) -> Result<bool, ReadFault>
    ensures { TakenGiven result d.new (negating kind d.old) }
{
    match kind {
        ValueKind::Interface | ValueKind::Host => {
            d.negated = true;
            d.expects = ValueExpects::Negated;
            Ok(true)
        }
        ValueKind::Member => Err(ReadFault::Bad(Cause::LeftOut)),
        ValueKind::Protocol | ValueKind::Port | ValueKind::IcmpType => {
            Err(ReadFault::Bad(Cause::Syntax))
        }
    }
}

/// Takes a value of a list, or one that stands alone.
fn item_step(
    alloc: Global,
    setting: &Setting,
    w: &Word,
    d: &mut ValueDraft,
) -> Result<bool, ReadFault>
    requires { IsSound setting.now.site }
    ensures { TakenGiven result d.new (item_step setting.now w.now d.old) }
{
    let kind = d.kind;
    if is_mark(w, b"!") {
        return negating(d, kind);
    }
    plain_step(alloc, setting, w, d, kind)
}

/// Takes the brace before a list, or a value.
fn begin_step(
    alloc: Global,
    setting: &Setting,
    w: &Word,
    d: &mut ValueDraft,
) -> Result<bool, ReadFault>
    requires { IsSound setting.now.site }
    ensures { TakenGiven result d.new (begin_step setting.now w.now d.old) }
{
    if is_mark(w, b"{") {
        d.in_list = true;
        d.expects = ValueExpects::First;
        return Ok(true);
    }
    item_step(alloc, setting, w, d)
}

/// Whether a list of this kind may be empty.
fn may_be_empty(kind: ValueKind) -> bool
    ensures { result ≡ may_be_empty kind }
{
    match kind {
        ValueKind::Member => true,
        _ => false,
    }
}

/// Takes the first value of a list, or the brace behind an empty one.
fn first_step(
    alloc: Global,
    setting: &Setting,
    w: &Word,
    d: &mut ValueDraft,
) -> Result<bool, ReadFault>
    requires { IsSound setting.now.site }
    ensures { TakenGiven result d.new (first_step setting.now w.now d.old) }
{
    if is_mark(w, b"}") && may_be_empty(d.kind) {
        d.expects = ValueExpects::Nothing;
        return Ok(true);
    }
    item_step(alloc, setting, w, d)
}

/// Takes what stands behind a value of a list: a comma, the brace behind the list, or a further value.
fn next_step(
    alloc: Global,
    setting: &Setting,
    w: &Word,
    d: &mut ValueDraft,
) -> Result<bool, ReadFault>
    requires { IsSound setting.now.site }
    ensures { TakenGiven result d.new (next_step setting.now w.now d.old) }
{
    if is_mark(w, b",") {
        d.expects = ValueExpects::Item;
        return Ok(true);
    }
    if is_mark(w, b"}") {
        d.expects = ValueExpects::Nothing;
        return Ok(true);
    }
    item_step(alloc, setting, w, d)
}

/// Takes the word behind a value that has ended without knowing it.
fn after_number(
    alloc: Global,
    setting: &Setting,
    n: u32,
    w: &Word,
    d: &mut ValueDraft,
) -> Result<bool, ReadFault>
    requires { IsSound setting.now.site }
    ensures { TakenGiven result d.new (after_part setting.now (parts.Set (one n n)) w.now d.old) }
{
    with_part(d, Part::Set(one(alloc, n, n)?))?;
    if d.in_list {
        next_step(alloc, setting, w, d)
    } else {
        Ok(false)
    }
}

/// Takes `-` behind an address, or what stands behind a value.
fn range_sign_step(
    alloc: Global,
    setting: &Setting,
    addr: u32,
    w: &Word,
    d: &mut ValueDraft,
) -> Result<bool, ReadFault>
    requires { IsSound setting.now.site }
    ensures { TakenGiven result d.new (range_sign_step setting.now addr w.now d.old) }
{
    if is(w.text.as_slice(), b"-") {
        d.expects = ValueExpects::RangeEnd(addr);
        return Ok(true);
    }
    after_number(alloc, setting, addr, w, d)
}

/// Takes `><` or `<>` behind a port, or what stands behind a value.
fn port_sign_step(
    alloc: Global,
    setting: &Setting,
    n: u16,
    w: &Word,
    d: &mut ValueDraft,
) -> Result<bool, ReadFault>
    requires { IsSound setting.now.site }
    ensures { TakenGiven result d.new (port_sign_step setting.now n w.now d.old) }
{
    if is_mark(w, b"><") {
        d.expects = ValueExpects::PortEnd(false, n);
        return Ok(true);
    }
    if is_mark(w, b"<>") {
        d.expects = ValueExpects::PortEnd(true, n);
        return Ok(true);
    }
    after_number(alloc, setting, u32::from(n), w, d)
}

/// Takes a word of a value, and says so, or leaves the word behind one, which has ended then.
pub fn value_step(
    alloc: Global,
    setting: &Setting,
    w: &Word,
    d: &mut ValueDraft,
) -> Result<bool, ReadFault>
    requires { IsSound setting.now.site }
    ensures { TakenGiven result d.new (value_step setting.now w.now d.old) }
{
    match d.expects {
        ValueExpects::Value => begin_step(alloc, setting, w, d),
        ValueExpects::First => first_step(alloc, setting, w, d),
        ValueExpects::Item => item_step(alloc, setting, w, d),
        ValueExpects::Next => next_step(alloc, setting, w, d),
        ValueExpects::Negated => {
            let kind = d.kind;
            plain_step(alloc, setting, w, d, kind)
        }
        ValueExpects::TableName => table_name_step(alloc, setting, w, d),
        ValueExpects::TableEnd => end_step(b">", w, d),
        ValueExpects::FaceName => face_name_step(alloc, setting, w, d),
        ValueExpects::FaceEnd => end_step(b")", w, d),
        ValueExpects::RangeSign(addr) => range_sign_step(alloc, setting, addr, w, d),
        ValueExpects::RangeEnd(addr) => range_end_step(alloc, addr, w, d),
        ValueExpects::Operand(operator) => operand_step(alloc, operator, w, d),
        ValueExpects::PortSign(n) => port_sign_step(alloc, setting, n, w, d),
        ValueExpects::PortEnd(is_outside, n) => port_end_step(alloc, is_outside, n, w, d),
        ValueExpects::Nothing => Ok(false),
    }
}

/// Whether the value has ended.
pub fn has_ended(expects: ValueExpects) -> bool
    ensures { result ≡ has_ended expects }
{
    match expects {
        ValueExpects::Nothing => true,
        _ => false,
    }
}

/// The value with a number behind which nothing follows; none in a list.
fn alone(alloc: Global, n: u32, d: ValueDraft) -> Result<Option<ValueDraft>, Memory>
    ensures { IfOk result (λ o. o ≡ alone (parts.Set (one n n)) d) }
{
    if d.in_list {
        return Ok(None);
    }
    let mut ended = d;
    with_part(&mut ended, Part::Set(one(alloc, n, n)?))?;
    Ok(Some(ended))
}

/// The value where the statement ends; none where a word lacks. Fails if memory runs out.
pub fn ended_value(alloc: Global, d: ValueDraft) -> Result<Option<ValueDraft>, Memory>
    ensures { IfOk result (λ o. o ≡ ended_value d.expects d) }
{
    match d.expects {
        ValueExpects::Nothing => Ok(Some(d)),
        ValueExpects::RangeSign(addr) => alone(alloc, addr, d),
        ValueExpects::PortSign(n) => alone(alloc, u32::from(n), d),
        _ => Ok(None),
    }
}
