//! The lines of a table.

ghost use Rattle.std.specs.Prelude.{◌≡◌, ◌≤◌, [], ◌∷◌, ◌++◌, OnOk, take};
ghost use Rattle.std.specs.List.{join_with_byte};
ghost use Rattle.fws_net.specs.Points.{tops_of};
ghost use Rattle.fws_table.specs.TableText.{field_kinds, side_texts, shown_fields, state_text, row_text};

use crate::field::kind_of;
use crate::outcome_text::put_outcome;
use crate::side_text::put_side;
use fws_iv::Ivs;
use fws_net::{Outcome, Site, State};
use fws_num::{Memory, Text};

/// How many fields a row shows: 8 for a new packet, 12 for an established one.
fn shown_fields(state: State) -> usize
    ensures { result ≡ shown_fields state }
{
    match state {
        State::Fresh => 8,
        State::Est => 12,
    }
}

/// Appends the word for new or established packets.
pub(crate) fn put_state(out: &mut Text, state: State) -> Result<(), Memory>
    ensures { OnOk result (out.new ≡ out.old ++ state_text state) }
{
    match state {
        State::Fresh => out.put(b"new"),
        State::Est => out.put(b"est"),
    }
}

/// Appends the words of the first fields with blanks between.
fn put_sides(
    out: &mut Text,
    site: &Site,
    shown: usize,
    tops: &[u32; 12],
    sides: &[Ivs; 12],
) -> Result<(), Memory>
    requires { shown ≤ 12 }
    ensures { OnOk result (out.new ≡ out.old ++ join_with_byte 32 (take shown (side_texts site.now field_kinds tops.now sides.now))) }
{
    for field in 0..shown {
        if field > 0 {
            out.put(b" ")?;
        }
        put_side(out, site, kind_of(field), tops[field], &sides[field])?;
    }
    Ok(())
}

/// Appends the line of the row with these sides and this outcome. It is that of a table where the tops are the site's.
pub(crate) fn put_row(
    out: &mut Text,
    site: &Site,
    state: State,
    tops: &[u32; 12],
    sides: &[Ivs; 12],
    leaf: &Outcome,
) -> Result<(), Memory>
    ensures { OnOk result (tops.now ≡ tops_of site.now → out.new ≡ out.old ++ row_text site.now state (record { sides = sides.now; leaf = leaf.now })) }
{
    put_sides(out, site, shown_fields(state), tops, sides)?;
    out.put(b" : ")?;
    put_outcome(out, leaf)?;
    out.put(b"\n")
}
