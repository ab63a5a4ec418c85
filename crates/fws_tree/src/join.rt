//! The cut of a field: pieces of its range that lead to one node become one kid.

ghost use Rattle.std.specs.Prelude.{◌≡◌, ◌⊎◌, ◌+◌, ◌<◌, ◌≤◌, ◌++◌, List, [], ◌∷◌, ℕ, suc, map, length, if◌then◌else◌, IfOk, OnOk, All, Contains};
ghost use Rattle.fws_tree.specs.Building.{AreDifferent, AreInRow, AreKidsTo, end_of, Extends, HasKid, IsArena};
ghost use Rattle.fws_tree.specs.Nodes.{tree_of};
ghost use Rattle.fws_tree.specs.Plain.{Plain, branch, IsReducedFrom};
ghost use Rattle.fws_tree.specs.Subtrees.{IsSubtree};

use crate::arena::{Arena, place_of};
use crate::node::{Kid, Node};
use fws_iv::one;
use fws_num::{Items, Memory};
use indexmap::IndexSet;
use std::alloc::Global;

/// The values from `lo` to `hi` of a field, and what is held there.
#[derive(Drop)]
pub(crate) struct Piece<T> {
    /// The least value.
    pub(crate) lo: u32,
    /// The greatest value.
    pub(crate) hi: u32,
    /// What holds of them.
    pub(crate) held: T,
}

/// Adds a piece, behind all that the kids have, to the kid of its node, or as a kid of its own.
/// `order` has the nodes of the kids.
fn add(
    alloc: Global,
    kids: &mut Vec<Kid>,
    order: &mut IndexSet<u32>,
    piece: &Piece<u32>,
) -> Result<(), Memory>
    requires whole { piece.now.lo ≤ piece.now.hi }
    requires kids { AreKidsTo piece.now.lo kids.old.items }
    requires order { order.old.keys ≡ map (λ k. k.node) kids.old.items }
    ensures kids { OnOk result (AreKidsTo (piece.now.hi + 1) kids.new.items) }
    ensures order { OnOk result (order.new.keys ≡ map (λ k. k.node) kids.new.items) }
    ensures different { AreDifferent order.new.keys }
    ensures kept { OnOk result ((n x : ℕ) → HasKid kids.old.items n x → HasKid kids.new.items n x) }
    ensures here { OnOk result ((x : ℕ) → piece.now.lo ≤ x → x ≤ piece.now.hi → HasKid kids.new.items piece.now.held x) }
    ensures named { OnOk result ((n : ℕ) → Contains order.new.keys n → Contains order.old.keys n ⊎ (n ≡ piece.now.held)) }
{
    let (at, is_new) = place_of(order, piece.held)?;
    if is_new {
        kids.push(Kid {
            set: one(alloc, piece.lo, piece.hi)?,
            node: piece.held,
        })?;
    } else {
        kids[at].set.extend(piece.lo, piece.hi)?;
    }
    Ok(())
}

/// The kids of the pieces: one for each node, ordered by their least values.
fn kids_of(alloc: Global, pieces: &[Piece<u32>]) -> Result<Items<Kid>, Memory>
    requires { AreInRow 0 pieces.now }
    ensures kids { IfOk result (λ ks. AreKidsTo (end_of 0 pieces.now) ks) }
    ensures different { IfOk result (λ ks. AreDifferent (map (λ k. k.node) ks)) }
    ensures goes { IfOk result (λ ks. All (λ p. (x : ℕ) → p.lo ≤ x → x ≤ p.hi → HasKid ks p.held x) pieces.now) }
    ensures named { IfOk result (λ ks. All (λ k. Contains (map (λ p. p.held) pieces.now) k.node) ks) }
{
    let mut kids = Vec::new(alloc);
    let mut order = IndexSet::new(alloc);
    for piece in pieces {
        add(alloc, &mut kids, &mut order, piece)?;
    }
    Ok(Items::from_vec(kids))
}

/// The number of the tree that cuts the field so that each piece leads to its node. Pieces of one
/// node become one kid; where all have one node there is no cut, and that node is the answer.
pub(crate) fn join(
    arena: &mut Arena,
    alloc: Global,
    field: u8,
    pieces: &[Piece<u32>],
) -> Result<u32, Memory>
    requires arena { IsArena arena.old }
    requires row { AreInRow 0 pieces.now }
    requires below { All (λ p. p.held < length arena.old) pieces.now }
    ensures arena { IsArena arena.new }
    ensures extends { Extends arena.old arena.new }
    ensures number { IfOk result (λ r. r < length arena.new) }
    ensures reduced { IfOk result (λ r. (top : ℕ) (tops : List ℕ) → end_of 0 pieces.now ≡ suc top → All (λ p. IsReducedFrom (suc field) tops (tree_of arena.old p.held)) pieces.now
        → IsReducedFrom field (top ∷ tops) (tree_of arena.new r)) }
    ensures branches { IfOk result (λ r. (tops : List ℕ) → All (λ p. IsReducedFrom (suc field) tops (tree_of arena.old p.held)) pieces.now
        → All (λ p. (x : ℕ) → p.lo ≤ x → x ≤ p.hi → branch field (tree_of arena.new r) x ≡ tree_of arena.old p.held) pieces.now) }
    ensures over { IfOk result (λ r. All (λ p. (u : Plain ℕ) → IsSubtree u (tree_of arena.old p.held) → IsSubtree u (tree_of arena.new r)) pieces.now) }
    ensures added { IfOk result (λ r. (k : ℕ) → length arena.old ≤ k → k < length arena.new → k ≡ r) }
{
    let kids = kids_of(alloc, pieces)?;
    let found = kids.as_slice();
    if found.len() == 1 {
        return Ok(found[0].node);
    }
    arena.intern(Node::Cut(field, kids))
}
