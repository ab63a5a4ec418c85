//! What is said of packets: what becomes of them, and the rules that they use.

ghost use Rattle.std.specs.Prelude.{◌≡◌, ℕ, ◌++◌, List, All, IfOk, OnOk};
ghost use Rattle.fws_flat.specs.Walk.{means};
ghost use Rattle.fws_ifcl.specs.declared.diagram.Spot.{Spot};
ghost use Rattle.fws_net.specs.declared.connection.Kind.{Kind};
ghost use Rattle.fws_net.specs.declared.connection.Tuple.{Tuple};
ghost use Rattle.fws_net.specs.declared.outcome.Outcome.{Outcome};
ghost use Rattle.fws_net.specs.declared.packet.Packet.{Packet};
ghost use Rattle.fws_net.specs.Connections.{class_of};
ghost use Rattle.fws_net.specs.Routes.{IsSound};
ghost use Rattle.fws_trace.specs.Classes.{class_in};
ghost use Rattle.fws_trace.specs.PacketText.{IsOfSite};
ghost use Rattle.fws_why.specs.Numbers.{AreNumbersOf};
ghost use Rattle.fws_why.specs.Walked.{IsWalkOf, used_of};
ghost use Rattle.fws_why.specs.WhyText.{packet_text, why_text};

use crate::lines::{put_line, put_places};
use crate::numbers::Numbers;
use fws_flat::Flat;
use fws_flat::model::{used_places, walk_packet};
use fws_ifcl::{Place, Spot};
use fws_net::{Conn, Kind, Packet, Site};
use fws_num::{Memory, Text};
use fws_trace::{Classes, classes_are_found_in_order};
use std::alloc::Global;

/// What packets are walked through, and how the rules are called that they use.
#[derive(Clone, Copy)]
struct Ground<'a> {
    site: &'a Site,
    code: &'a Flat,
    from: &'a [Option<Place>],
    numbers: &'a Numbers,
    labels: &'a [Text],
}

/// The classes against the connections.
fn classes_of(alloc: Global, conns: &[Conn]) -> Result<Classes, Memory>
    ensures { IfOk result (λ classes. (t : Tuple) → class_in classes t ≡ class_of conns.now t) }
{
    classes_are_found_in_order();
    let mut classes = Classes::none(alloc);
    for conn in conns {
        classes.add(conn)?;
    }
    Ok(classes)
}

/// Appends what is said of a packet of this class.
fn put_packet(
    alloc: Global,
    out: &mut Text,
    ground: &Ground,
    p: &Packet,
    kind: &Kind,
) -> Result<(), Memory>
    requires { IsSound ground.now.site.now }
    ensures { let g = ground.now in OnOk result ((spots : List Spot) → AreNumbersOf g.numbers.now spots
        → out.new ≡ out.old ++ packet_text (means g.code.now g.site.now) (used_of g.code.now g.from.now spots g.site.now) g.labels.now p.now kind.now) }
{
    let outcome = walk_packet(alloc, ground.code, ground.site, p, kind)?;
    put_line(out, p, kind, &outcome.fate(p, kind))?;
    let used = used_places(alloc, ground.code, ground.site, p, kind)?;
    put_places(
        out,
        ground.labels,
        ground.numbers,
        ground.from,
        used.as_slice(),
    )?;
    Ok(())
}

/// What is said of packets by the numbers at places.
fn said(alloc: Global, ground: &Ground, conns: &[Conn], packets: &[Packet]) -> Result<Text, Memory>
    requires { IsSound ground.now.site.now }
    ensures { let g = ground.now in IfOk result (λ text. (spots : List Spot) → AreNumbersOf g.numbers.now spots
        → text ≡ why_text (means g.code.now g.site.now) (used_of g.code.now g.from.now spots g.site.now) g.labels.now conns.now packets.now) }
{
    let classes = classes_of(alloc, conns)?;
    let mut out = Text::new(alloc);
    for p in packets {
        put_packet(alloc, &mut out, ground, p, &classes.class(p))?;
    }
    Ok(out)
}

/// Which rules decide: for each packet of the site the line of its trace by the code, with its class against the connections, and
/// then a line for each rule that its walk uses, in the order in which it comes to them: two blanks, the rule's number from 1, and
/// its label. A rule to which it comes twice has two lines. No packet changes the connections. The place for which an instruction
/// stands is given by `from`, and the rules that stand at a place by `spots`; both are looked up and not searched. The code is
/// walked twice for each packet: for what becomes of it, and for what it uses. Fails if memory runs out.
///
/// Where the code gives the packets of the site what another walk does, and tells of each the rules that this walk uses,
/// the text is that of the walk.
pub fn why(
    alloc: Global,
    site: &Site,
    code: &Flat,
    from: &[Option<Place>],
    spots: &[Spot],
    labels: &[Text],
    conns: &[Conn],
    packets: &[Packet],
) -> Result<Text, Memory>
    requires sound { IsSound site.now }
    requires of_site { All (IsOfSite site.now) packets.now }
    ensures text { IfOk result (λ text. text ≡ why_text (means code.now site.now) (used_of code.now from.now spots.now site.now) labels.now conns.now packets.now) }
    ensures walked { (walk : Packet → Kind → Outcome) (used : Packet → Kind → List ℕ) → IsWalkOf site.now code.now from.now spots.now walk used
        → IfOk result (λ text. text ≡ why_text walk used labels.now conns.now packets.now) }
{
    let numbers = Numbers::of(alloc, spots)?;
    let ground = Ground {
        site,
        code,
        from,
        numbers: &numbers,
        labels,
    };
    let text = said(alloc, &ground, conns, packets)?;
    Ok(text)
}
