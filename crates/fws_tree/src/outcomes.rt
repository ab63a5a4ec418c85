//! Leaves that hold what a walk gives.

ghost use Rattle.std.specs.Prelude.{◌≡◌, ◌↔◌, IsTrue, IfOk};

use crate::leaf::Leaf;
use fws_net::{End, Outcome, Rewrite};
use fws_num::Memory;
use std::alloc::Global;

fn is_same_end(a: &End, b: &End) -> bool
    ensures { IsTrue result ↔ (a.now ≡ b.now) }
{
    a.addr == b.addr && a.len == b.len && a.port == b.port
}

fn is_same_end_or_none(a: &Option<End>, b: &Option<End>) -> bool
    ensures { IsTrue result ↔ (a.now ≡ b.now) }
{
    match (a, b) {
        (Some(x), Some(y)) => is_same_end(x, y),
        (None, None) => true,
        _ => false,
    }
}

fn is_same_rewrite(a: &Rewrite, b: &Rewrite) -> bool
    ensures { IsTrue result ↔ (a.now ≡ b.now) }
{
    is_same_end_or_none(&a.src, &b.src) && is_same_end_or_none(&a.dst, &b.dst)
}

impl Leaf for Outcome {
    ghost use Rattle.std.specs.Prelude.{refl};
    ghost use Rattle.std.proofs.Common.{ap};
    ghost use Rattle.std.proofs.lemmas.Bool.{false≢true};
    ghost use Rattle.fws_tree.specs.OutcomeEquality.{end_exact, rewrite_exact};
    ghost use Rattle.fws_net.specs.declared.outcome.Outcome.TheVariants.{Drop, Accept};

    fn same(&self, other: &Self) -> bool {
        match (self, other) {
            (Outcome::Accept(x), Outcome::Accept(y)) => is_same_rewrite(x, y),
            (Outcome::Drop, Outcome::Drop) => true,
            _ => false,
        }
    }

    fn copy(&self, _alloc: Global) -> Result<Self, Memory> {
        Ok(*self)
    }

    ghost exact = { elim [ Drop ↦ elim [ Drop ↦ λ h. refl | Accept w ↦ λ h. absurd (false≢true h) ] | Accept v ↦ elim [ Drop ↦ λ h. absurd (false≢true h) | Accept w ↦ λ h. ap Accept (rewrite_exact _ end_exact v w h) ] ] };
}
