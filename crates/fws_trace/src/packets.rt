//! Texts of packets.

ghost use Rattle.std.specs.Prelude.{◌≡◌, List, All, MatchResult, IfOk, IfSome};
ghost use Rattle.fws_num.specs.declared.word.Word.{Word};
ghost use Rattle.fws_net.specs.declared.site.Site.{Site};
ghost use Rattle.fws_net.specs.Routes.{IsSound};
ghost use Rattle.fws_net.specs.SiteLines.{entry_from};
ghost use Rattle.fws_trace.specs.Lines.{IsGiven, spelled_line};
ghost use Rattle.fws_trace.specs.PacketText.{spelled_entry, spelled_marks, spelled_from, spelled_packet, packets_of, IsOfSite};

use crate::answer::{LineAnswer, Malformed};
use crate::ends::{read_byte, read_tuple};
use crate::lines::{listed, put_spelled};
use fws_net::{LineFault, LineReader, Packet, Site, read_text};
use fws_num::{Comments, Items, Line, Word, are_sound, read_dec};
use std::alloc::Global;

/// The entry number of the host.
const HOST: u8 = 0;

/// The entry number of loopback.
const LOOPBACK: u8 = 1;

/// The entry number of the first interface.
const FIRST_FACE: u8 = 2;

/// The greatest value of the TCP flags.
const TOP_FLAGS: u64 = 63;

/// The entry number of the interface with this name in the site.
fn read_face(site: &Site, name: &[u8]) -> Option<u8>
    requires { IsSound site.now }
    ensures { result ≡ entry_from 2 site.now.faces name.now }
{
    let mut entry = FIRST_FACE;
    for face in site.faces.as_slice() {
        if face.name.as_slice() == name {
            return Some(entry);
        }
        entry += 1;
    }
    None
}

/// The entry number that a name stands for.
fn read_entry(site: &Site, name: &[u8]) -> Option<u8>
    requires { IsSound site.now }
    ensures { result ≡ spelled_entry site.now name.now }
{
    if name == b"host".as_slice() {
        return Some(HOST);
    }
    if name == b"lo".as_slice() {
        return Some(LOOPBACK);
    }
    read_face(site, name)
}

/// TCP flags and an ICMP type.
fn read_marks(flags: &Word, icmp: &Word) -> Option<(u8, u8)>
    ensures { result ≡ spelled_marks flags.now icmp.now }
{
    let flags = read_dec(flags.text.as_slice(), TOP_FLAGS)?;
    let icmp = read_byte(icmp)?;
    Some((flags as u8, icmp))
}

/// The packet from an entry, of the further words of its line.
fn read_from(entry: u8, words: &[Word]) -> Option<Packet>
    ensures { result ≡ spelled_from entry words.now }
{
    let [proto, dst, dport, src, sport, flags, icmp] = words else {
        return None;
    };
    let tuple = read_tuple(proto, dst, dport, src, sport)?;
    let (flags, icmp) = read_marks(flags, icmp)?;
    Some(Packet {
        entry,
        proto: tuple.proto,
        dst: tuple.dst,
        dport: tuple.dport,
        src: tuple.src,
        sport: tuple.sport,
        flags,
        icmp,
    })
}

/// The packet that the words of a line spell: those of which `read_packets` says what they are.
pub fn read_packet(site: &Site, words: &[Word]) -> Option<Packet>
    requires { IsSound site.now }
    ensures { result ≡ spelled_packet site.now words.now }
{
    let [entry, words @ ..] = words else {
        return None;
    };
    let entry = read_entry(site, entry.text.as_slice())?;
    read_from(entry, words)
}

/// The packet of a line whose words can be judged.
fn read_line(site: &Site, line: &Line) -> Option<Packet>
    requires { IsSound site.now }
    ensures { result ≡ spelled_line (spelled_packet site.now) line.now }
{
    if are_sound(line.words.as_slice()) {
        read_packet(site, line.words.as_slice())
    } else {
        None
    }
}

/// The packets of the lines so far.
#[derive(Drop)]
struct PacketReader {
    packets: Items<Packet>,
}

impl LineReader for PacketReader {
    type Context = Site;

    type State = Items<Packet>;

    type Cause = Malformed;

    type Output = Items<Packet>;

    ghost use Rattle.std.specs.Prelude.{Ok};
    ghost use Rattle.fws_net.specs.Routes.{IsSound};
    ghost use Rattle.fws_trace.specs.Lines.{line_step};
    ghost use Rattle.fws_trace.specs.PacketText.{spelled_packet};

    ghost state = { λ r. r.packets };

    ghost allows = { λ site. IsSound site };

    ghost step = { λ site packets line. line_step (spelled_packet site) packets line };

    ghost finished = { λ _ packets. Ok packets };

    fn take(
        &mut self,
        _alloc: Global,
        site: &Site,
        line: &Line,
    ) -> Result<(), LineFault<Malformed>> {
        put_spelled(&mut self.packets, read_line(site, line))
    }

    fn finish(self, _site: &Site) -> Result<Items<Packet>, LineFault<Malformed>> {
        Ok(self.packets)
    }
}

/// The packets that a text lists, one on each line that has words and isn't a comment. Its eight words are
/// the name of the entry (`host`, `lo` or that of an interface in the site), protocol, destination, its
/// port, source, its port, TCP flags up to 63 and ICMP type.
///
/// The answer `Refused` has the first line, counted from 1, that has another number of words, a word that
/// isn't spelled so or an entry that the site lacks. `Memory` comes only where memory is wanting or the
/// text has more than 2^32 - 2 lines.
pub fn read_packets(alloc: Global, text: &[u8], site: &Site) -> Result<Vec<Packet>, LineAnswer>
    requires { IsSound site.now }
    ensures given { MatchResult result (λ packets. packets_of text.now site.now ≡ Ok packets.items) (λ answer. IsGiven answer (packets_of text.now site.now)) }
    ensures of_site { IfOk result (λ packets. All (IsOfSite site.now) packets.items) }
{
    let reader = PacketReader {
        packets: Items::new(alloc),
    };
    listed(read_text(alloc, Comments::HashLine, reader, site, text))
}

/// Does nothing: the clause is a law. A packet that words spell is one of the site.
pub fn spelled_packets_are_of_site()
    ensures { (site : Site) (words : List Word) → IfSome (spelled_packet site words) (IsOfSite site) }
{}
