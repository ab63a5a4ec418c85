//! What is said of two policies, as a text.

ghost use Rattle.std.specs.Prelude.{◌≡◌, ◌∷◌, ◌++◌, IfOk, OnOk};
ghost use Rattle.std.specs.Fmt.{decimal};
ghost use Rattle.std.specs.List.{join_with_byte};
ghost use Rattle.fws_dead.specs.ComparisonText.{packet_words, ends_words, pair_words, colon_text, differing_text, comparison_text};
ghost use Rattle.fws_num.specs.Numbers.{dotted};
ghost use Rattle.fws_table.specs.TableText.{entry_name};

use crate::compare::{Compare, Pair};
use fws_net::{Fate, Packet, Rec, Site};
use fws_num::{Memory, Text, put_dec, put_quad};
use fws_trace::put_fate;
use std::alloc::Global;

/// Appends the name of an entry.
fn put_entry(out: &mut Text, site: &Site, entry: u8) -> Result<(), Memory>
    ensures { OnOk result (out.new ≡ out.old ++ entry_name site.now entry) }
{
    if entry == 0 {
        return out.put(b"host");
    }
    if entry == 1 {
        return out.put(b"lo");
    }
    match site.faces.as_slice().get(usize::from(entry) - 2) {
        Some(face) => out.put(face.name.as_slice()),
        None => Ok(()),
    }
}

/// Appends a number, behind a blank.
fn put_number(out: &mut Text, n: u64) -> Result<(), Memory>
    ensures { OnOk result (out.new ≡ out.old ++ 32 ∷ decimal n) }
{
    out.put(b" ")?;
    put_dec(out, n)?;
    Ok(())
}

/// Appends an address and a port, behind a blank.
fn put_host(out: &mut Text, addr: u32, port: u16) -> Result<(), Memory>
    ensures { OnOk result (out.new ≡ out.old ++ 32 ∷ (dotted addr ++ 32 ∷ decimal port)) }
{
    out.put(b" ")?;
    put_quad(out, addr)?;
    put_number(out, u64::from(port))?;
    Ok(())
}

/// Appends the words of a packet.
fn put_packet(out: &mut Text, site: &Site, p: Packet) -> Result<(), Memory>
    ensures { OnOk result (out.new ≡ out.old ++ join_with_byte 32 (packet_words site.now p)) }
{
    put_entry(out, site, p.entry)?;
    put_number(out, u64::from(p.proto))?;
    put_host(out, p.dst, p.dport)?;
    put_host(out, p.src, p.sport)?;
    put_number(out, u64::from(p.flags))?;
    put_number(out, u64::from(p.icmp))?;
    Ok(())
}

/// Appends the words of a packet of a connection.
fn put_established(out: &mut Text, site: &Site, p: Packet, r: Rec) -> Result<(), Memory>
    ensures { OnOk result (out.new ≡ out.old ++ join_with_byte 32 (packet_words site.now p ++ ends_words r)) }
{
    put_packet(out, site, p)?;
    put_host(out, r.rdst, r.rdport)?;
    put_host(out, r.rsrc, r.rsport)?;
    Ok(())
}

/// Appends the words of a packet with blanks between: eight, as a text of packets has them, and four more for the ends with which
/// its connection sends it, where it has one. Fails if memory runs out.
pub fn put_pair_words(
    out: &mut Text,
    site: &Site,
    packet: Packet,
    ends: Option<Rec>,
) -> Result<(), Memory>
    ensures { OnOk result (out.new ≡ out.old ++ join_with_byte 32 (pair_words site.now packet ends)) }
{
    match ends {
        None => put_packet(out, site, packet),
        Some(r) => put_established(out, site, packet, r),
    }
}

/// Appends a fate of a packet of this protocol, behind a colon.
fn put_behind_colon(out: &mut Text, proto: u8, fate: &Fate) -> Result<(), Memory>
    ensures { OnOk result (out.new ≡ out.old ++ colon_text proto fate.now) }
{
    out.put(b" : ")?;
    put_fate(out, proto, fate)
}

/// The line of a packet that has two fates.
fn differing_line(
    alloc: Global,
    site: &Site,
    at: &Pair,
    first: &Fate,
    second: &Fate,
) -> Result<Text, Memory>
    ensures { IfOk result (λ text. text ≡ differing_text site.now at.now first.now second.now) }
{
    let mut out = Text::new(alloc);
    out.put(b"differ ")?;
    put_pair_words(&mut out, site, at.packet, at.rec)?;
    put_behind_colon(&mut out, at.packet.proto, first)?;
    put_behind_colon(&mut out, at.packet.proto, second)?;
    out.put(b"\n")?;
    Ok(out)
}

/// The line of a comparison: `same`, or `differ`, the words of a packet, and its two fates as a trace has them, with ` : ` ahead of
/// each. Fails if memory runs out.
pub fn put_comparison(alloc: Global, site: &Site, comparison: &Compare) -> Result<Text, Memory>
    ensures { IfOk result (λ text. text ≡ comparison_text site.now comparison.now) }
{
    match comparison {
        Compare::Same => {
            let mut out = Text::new(alloc);
            out.put(b"same\n")?;
            Ok(out)
        }
        Compare::Differ { at, first, second } => differing_line(alloc, site, at, first, second),
    }
}
