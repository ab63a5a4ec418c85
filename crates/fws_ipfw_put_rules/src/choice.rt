//! What a rule of a list does with a packet, and where a list stands.

ghost use Rattle.std.specs.Prelude.{◌≡◌, ◌↔◌, IsTrue, IfOk};

use fws_num::Memory;
use fws_tree::Leaf;
use fws_tree_seen::Seen;
use std::alloc::Global;

/// What a rule does with a packet. It is the leaf of a decision tree that is written as a list.
#[derive(Clone, Copy, Debug, PartialEq, Eq, PartialOrd, Ord, Hash)]
pub enum Choice {
    /// The packet is dropped.
    Deny,
    /// The packet gets this tag, if any, and goes on; its connection is tracked.
    Allow(Option<u32>),
    /// The packet gets this tag, if any, and meets the rules from this number on.
    Skip(u32, Option<u32>),
}

/// Whose packets meet a list.
#[derive(Clone, Copy, Debug, PartialEq, Eq)]
pub enum Origin {
    /// Those that arrive.
    Arriving,
    /// Those of the host itself.
    Host,
}

/// Where a list stands, and what its rules see.
#[derive(Clone, Copy, Debug, PartialEq, Eq)]
pub struct Section {
    /// The number of its rules, from 1 to 65534.
    pub number: u32,
    /// Whether it is met on the out pass; else it is met on the in pass.
    pub outward: bool,
    /// Whose packets meet it.
    pub origin: Origin,
    /// What its rules see of a packet.
    pub seen: Seen,
}

// Whether the tags are the same.
fn is_same_tag(a: Option<u32>, b: Option<u32>) -> bool
    ensures { IsTrue result ↔ (a ≡ b) }
{
    match (a, b) {
        (Some(x), Some(y)) => x == y,
        (None, None) => true,
        _ => false,
    }
}

impl Leaf for Choice {
    ghost use Rattle.std.specs.Prelude.{refl, nat_eq};
    ghost use Rattle.std.proofs.Common.{ap};
    ghost use Rattle.std.proofs.lemmas.Bool.{false≢true, eqb-true};
    ghost use Rattle.fws_tree.specs.LeafEquality.{option_exact};
    ghost use Rattle.fws_ipfw_put_rules.specs.TagEquality.{with_tag_exact};
    ghost use Rattle.fws_ipfw_put_rules.specs.declared.choice.Choice.TheVariants.{Deny, Allow, Skip};

    fn same(&self, other: &Self) -> bool {
        match (self, other) {
            (Choice::Deny, Choice::Deny) => true,
            (Choice::Allow(v), Choice::Allow(w)) => is_same_tag(*v, *w),
            (Choice::Skip(n, v), Choice::Skip(m, w)) => *n == *m && is_same_tag(*v, *w),
            _ => false,
        }
    }

    fn copy(&self, _alloc: Global) -> Result<Self, Memory> {
        Ok(*self)
    }

    ghost exact = { elim [ Deny ↦ elim [ Deny ↦ λ h. refl | Allow w ↦ λ h. absurd (false≢true h) | Skip m w ↦ λ h. absurd (false≢true h) ] | Allow v ↦ elim [ Deny ↦ λ h. absurd (false≢true h) | Allow w ↦ λ h. ap Allow (option_exact nat_eq eqb-true v w h) | Skip m w ↦ λ h. absurd (false≢true h) ] | Skip n v ↦ elim [ Deny ↦ λ h. absurd (false≢true h) | Allow w ↦ λ h. absurd (false≢true h) | Skip m w ↦ λ h. with_tag_exact Skip n m v w h ] ] };
}
