//! The lines of a packet and of the rules that it uses.

ghost use Rattle.std.specs.Prelude.{◌≡◌, List, ◌++◌, OnOk};
ghost use Rattle.std.specs.List.{flat_map};
ghost use Rattle.fws_trace.specs.TraceText.{kind_text, line_text};
ghost use Rattle.fws_ifcl.specs.declared.diagram.Spot.{Spot};
ghost use Rattle.fws_ifcl.specs.Spots.{told as told_by_spots};
ghost use Rattle.fws_unfold.specs.Told.{told};
ghost use Rattle.fws_why.specs.Numbers.{AreNumbersOf, found_at, place_at};
ghost use Rattle.fws_why.specs.WhyText.{used_lines};

use crate::numbers::Numbers;
use fws_dead::put_rule_line;
use fws_ifcl::Place;
use fws_net::{Fate, Kind, Packet};
use fws_num::{Memory, Text};
use fws_trace::put_fate;

/// Appends the class of a packet.
fn put_kind(out: &mut Text, kind: &Kind) -> Result<(), Memory>
    ensures { OnOk result (out.new ≡ out.old ++ kind_text kind.now) }
{
    match kind {
        Kind::New => out.put(b"new"),
        Kind::Est(_) => out.put(b"est"),
    }
}

/// Appends the line of a packet of this class and fate, as a trace has it.
pub(crate) fn put_line(out: &mut Text, p: &Packet, kind: &Kind, fate: &Fate) -> Result<(), Memory>
    ensures { OnOk result (out.new ≡ out.old ++ line_text p.now kind.now fate.now) }
{
    put_kind(out, kind)?;
    out.put(b" ")?;
    put_fate(out, p.proto, fate)?;
    out.put(b"\n")?;
    Ok(())
}

/// Appends the lines of these rules, two blanks ahead of each.
fn put_numbers(out: &mut Text, labels: &[Text], numbers: &[u32]) -> Result<(), Memory>
    ensures { OnOk result (out.new ≡ out.old ++ used_lines labels.now numbers.now) }
{
    for n in numbers {
        out.put(b"  ")?;
        put_rule_line(out, labels, *n)?;
    }
    Ok(())
}

/// The place for which an instruction stands, if it does.
fn place_at(from: &[Option<Place>], n: u32) -> Option<Place>
    ensures { result ≡ place_at from.now n }
{
    match from.get(n as usize) {
        Some(place) => *place,
        None => None,
    }
}

/// Appends the lines of the rules at the place for which an instruction stands.
fn put_place(
    out: &mut Text,
    labels: &[Text],
    numbers: &Numbers,
    from: &[Option<Place>],
    n: u32,
) -> Result<(), Memory>
    ensures { OnOk result (out.new ≡ out.old ++ used_lines labels.now (found_at numbers.now from.now n)) }
{
    match place_at(from, n) {
        Some(place) => put_numbers(out, labels, numbers.find(place)),
        None => Ok(()),
    }
}

/// Appends the lines of the rules at the places for which these instructions stand.
fn put_each(
    out: &mut Text,
    labels: &[Text],
    numbers: &Numbers,
    from: &[Option<Place>],
    used: &[u32],
) -> Result<(), Memory>
    ensures { OnOk result (out.new ≡ out.old ++ flat_map (λ n. used_lines labels.now (found_at numbers.now from.now n)) used.now) }
{
    for n in used {
        put_place(out, labels, numbers, from, *n)?;
    }
    Ok(())
}

/// Appends the lines of the rules for which these instructions stand.
pub(crate) fn put_places(
    out: &mut Text,
    labels: &[Text],
    numbers: &Numbers,
    from: &[Option<Place>],
    used: &[u32],
) -> Result<(), Memory>
    ensures { OnOk result ((spots : List Spot) → AreNumbersOf numbers.now spots → out.new ≡ out.old ++ used_lines labels.now (told_by_spots spots (told from.now used.now))) }
{
    put_each(out, labels, numbers, from, used)?;
    Ok(())
}
