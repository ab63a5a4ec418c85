//! What is decided on a packet in a chain.

ghost use Rattle.std.specs.Prelude.{◌≡◌, ◌↔◌, IsTrue, IfOk};

use fws_ipt::IptGo;
use fws_iv::Ivs;
use fws_num::Memory;
use fws_tree::Leaf;
use std::alloc::Global;

/// A decision on a packet. It is the leaf of a decision tree that is written as chains.
#[derive(Clone, Copy, Debug, PartialEq, Eq, PartialOrd, Ord, Hash)]
pub enum Verdict {
    /// The packet goes on.
    Accept,
    /// The packet is dropped.
    Drop,
    /// The packet gets this mark and goes on. The mark is the number of the chain that sets it.
    Mark(u32),
}

/// What a packet of some entries meets first.
#[derive(Drop)]
pub struct Branch {
    /// The entries.
    pub entries: Ivs,
    /// What a rule does to send a packet of these entries on its way through the chains.
    pub go: IptGo,
}

impl Leaf for Verdict {
    ghost use Rattle.std.specs.Prelude.{refl};
    ghost use Rattle.std.proofs.Common.{ap};
    ghost use Rattle.std.proofs.lemmas.Bool.{false≢true, eqb-true};
    ghost use Rattle.fws_ipt_put_chains.specs.declared.verdict.Verdict.TheVariants.{Accept, Drop, Mark};

    fn same(&self, other: &Self) -> bool {
        match (self, other) {
            (Verdict::Accept, Verdict::Accept) => true,
            (Verdict::Drop, Verdict::Drop) => true,
            (Verdict::Mark(v), Verdict::Mark(w)) => *v == *w,
            _ => false,
        }
    }

    fn copy(&self, _alloc: Global) -> Result<Self, Memory> {
        Ok(*self)
    }

    ghost exact = { elim [ Accept ↦ elim [ Accept ↦ λ h. refl | Drop ↦ λ h. absurd (false≢true h) | Mark w ↦ λ h. absurd (false≢true h) ] | Drop ↦ elim [ Accept ↦ λ h. absurd (false≢true h) | Drop ↦ λ h. refl | Mark w ↦ λ h. absurd (false≢true h) ] | Mark v ↦ elim [ Accept ↦ λ h. absurd (false≢true h) | Drop ↦ λ h. absurd (false≢true h) | Mark w ↦ λ h. ap Mark (eqb-true v w h) ] ] };
}
