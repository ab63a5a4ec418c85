//! Drafts as instructions at places of the whole code.

ghost use Rattle.std.specs.Prelude.{◌≡◌, ◌++◌, map, reverse, IfOk, OnOk};
ghost use Rattle.fws_ifcl.specs.declared.diagram.Place.{Place};
ghost use Rattle.fws_unfold.specs.declared.draft.Draft.{Draft};
ghost use Rattle.fws_unfold.specs.Blocks.{placed_act, placed};

use crate::draft::{Draft, DraftAct};
use fws_flat::{FlatAct, Ins};
use fws_ifcl::Place;
use fws_num::Memory;

/// A span of the code.
#[derive(Clone, Copy)]
pub(crate) struct Span {
    /// The place of its first instruction.
    pub(crate) first: u32,
    /// The place behind its last one.
    pub(crate) past: u32,
}

/// The act of a draft in code that ends at the place `past`.
fn placed_act(past: u32, act: DraftAct) -> FlatAct
    ensures { result ≡ placed_act past act }
{
    match act {
        DraftAct::Do(act) => act,
        DraftAct::Go(to) => FlatAct::Jump((past as usize).saturating_sub(to) as u32),
    }
}

/// Appends drafts, of which the last comes first, to code that ends then at the place `past`, and the
/// rules that they stand for to the rules of the code.
pub(crate) fn place_all(
    code: &mut Vec<Ins>,
    rules: &mut Vec<Option<Place>>,
    mut drafts: Vec<Draft>,
    past: u32,
) -> Result<(), Memory>
    ensures code { OnOk result (code.new.items ≡ code.old.items ++ map (placed past) (reverse drafts.items)) }
    ensures rules { OnOk result (rules.new.items ≡ rules.old.items ++ map (λ (draft : Draft). draft.rule) (reverse drafts.items)) }
{
    while let Some(draft) = drafts.pop() {
        code.push(Ins {
            cond: draft.cond,
            act: placed_act(past, draft.act),
        })?;
        rules.push(draft.rule)?;
    }
    Ok(())
}
