//! The turns of a cut.

ghost use Rattle.std.specs.Prelude.{◌≡◌, ◌+◌, ◌<◌, [], ◌++◌, Some, take, drop, length, All, IfOk, OnOk, MatchOption};
ghost use Rattle.fws_ipfw_put_rules.specs.Pieces.{ArePieces, IsProper};
ghost use Rattle.fws_ipfw_put_rules.specs.Turns.{turns_for, AreCutTurns, AreKidTurns};
ghost use Rattle.fws_ipfw_put_rules.specs.declared.turn.Turn.{Turn};
ghost use Rattle.fws_tree_seen.specs.Shown.{seen_field};
ghost use Rattle.fws_tree_seen.specs.declared.field.PacketField.{PacketField};
ghost use Rattle.fws_print.specs.Appended.{Appends};

use crate::default::default_kid;
use crate::pieces::pieces;
use crate::turn::Turn;
use fws_net::Lit;
use fws_num::{Items, Memory};
use fws_tree::Kid;
use fws_tree_seen::{PacketField, Seen, packet_field};
use std::alloc::Global;

/// Appends a turn to the node for each literal. Fails if memory runs out.
pub(crate) fn put_literals(
    turns: &mut Items<Turn>,
    lits: Items<Lit>,
    node: u32,
) -> Result<(), Memory>
    ensures { OnOk result (turns.new ≡ turns.old ++ turns_for node lits) }
{
    for lit in lits.into_vec() {
        turns.put(Turn {
            lit: Some(lit),
            node,
        })?;
    }
    Ok(())
}

// Appends the turns to the nodes of kids for packets that hit their sets.
fn put_kids(
    alloc: Global,
    turns: &mut Items<Turn>,
    field: PacketField,
    kids: &[Kid],
) -> Result<(), Memory>
    requires { All (λ kid. IsProper field kid.set) kids.now }
    ensures { OnOk result (Appends turns.old turns.new (AreKidTurns (ArePieces field) kids.now)) }
{
    for kid in kids {
        let lits = pieces(alloc, field, &kid.set)?;
        put_literals(turns, lits, kid.node)?;
    }
    Ok(())
}

// The turns to the nodes of all kids but the one at this place.
fn other_turns(
    alloc: Global,
    field: PacketField,
    kids: &[Kid],
    at: usize,
) -> Result<Items<Turn>, Memory>
    requires within { at < length kids.now }
    requires proper { All (λ kid. IsProper field kid.set) kids.now }
    ensures { IfOk result (λ turns. AreKidTurns (ArePieces field) (take at kids.now ++ drop (at + 1) kids.now) turns) }
{
    let mut turns = Items::new(alloc);
    put_kids(alloc, &mut turns, field, &kids[..at])?;
    put_kids(alloc, &mut turns, field, &kids[at + 1..])?;
    Ok(turns)
}

// The same where a field is seen, and no turns where none is.
fn tests(
    alloc: Global,
    field: Option<PacketField>,
    kids: &[Kid],
    at: usize,
) -> Result<Items<Turn>, Memory>
    requires within { at < length kids.now }
    requires proper { (f : PacketField) → field ≡ Some f → All (λ kid. IsProper f kid.set) kids.now }
    ensures { IfOk result (λ turns. MatchOption field (turns ≡ []) (λ f. AreKidTurns (ArePieces f) (take at kids.now ++ drop (at + 1) kids.now) turns)) }
{
    match field {
        Some(f) => other_turns(alloc, f, kids, at),
        None => Ok(Items::new(alloc)),
    }
}

/// The turns of a cut: those of all kids but one, and last a turn without a literal for that one. Fails if memory runs out.
pub(crate) fn cut_turns(
    alloc: Global,
    seen: Seen,
    f: u8,
    kids: &[Kid],
) -> Result<Items<Turn>, Memory>
    requires some { 0 < length kids.now }
    requires proper { (field : PacketField) → seen_field seen f ≡ Some field → All (λ kid. IsProper field kid.set) kids.now }
    ensures { IfOk result (λ turns. AreCutTurns seen f kids.now turns) }
{
    let field = packet_field(seen, f);
    let at = default_kid(alloc, field, kids)?;
    let mut turns = tests(alloc, field, kids, at)?;
    turns.put(Turn {
        lit: None,
        node: kids[at].node,
    })?;
    Ok(turns)
}
