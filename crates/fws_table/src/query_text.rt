//! The text of a query.

ghost use Rattle.std.specs.Prelude.{◌≡◌, ◌++◌, ℕ, List, Some, IfOk, length};
ghost use Rattle.std.specs.List.{flat_map};
ghost use Rattle.fws_net.specs.Points.{tops_of};
ghost use Rattle.fws_tree.specs.Plain.{IsReduced, value};
ghost use Rattle.fws_box.specs.Sides.{IsWithin};
ghost use Rattle.fws_table.specs.QueryText.{is_verdict, asked_leaf, asked_value, held_rows, query_text, IsQuery};
ghost use Rattle.fws_table.specs.TableText.{row_text};
ghost use Rattle.fws_tree.specs.Rows.{paths_of};

use crate::ask::Ask;
use crate::held::{Count, Held};
use crate::lines::{Lines, head};
use fws_net::{Outcome, Site, State};
use fws_num::{Memory, Text};
use fws_tree::{Relabelling, Tree};
use std::alloc::Global;

// Whether the outcome is of the asked verdict.
fn is_verdict(verdict: Option<bool>, outcome: Outcome) -> bool
    ensures { result ≡ is_verdict verdict outcome }
{
    match (verdict, outcome) {
        (None, _) => true,
        (Some(accepted), Outcome::Drop) => !accepted,
        (Some(accepted), Outcome::Accept(_)) => accepted,
    }
}

// The outcome, if it is of the asked verdict.
fn asked_leaf(verdict: Option<bool>, outcome: Outcome) -> Option<Outcome>
    ensures { result ≡ asked_leaf verdict outcome }
{
    if is_verdict(verdict, outcome) {
        Some(outcome)
    } else {
        None
    }
}

// Outcomes of the asked verdict, and nothing in place of others.
#[derive(Clone, Copy)]
struct Asked {
    verdict: Option<bool>,
}

impl Relabelling<Outcome, Option<Outcome>> for Asked {
    ghost gives = { λ s outcome. asked_leaf s.verdict outcome };

    fn leaf(&self, _alloc: Global, outcome: &Outcome) -> Result<Option<Outcome>, Memory> {
        Ok(asked_leaf(self.verdict, *outcome))
    }
}

// The tree that has nothing off the asked sides and verdict, and elsewhere the outcomes of the given one.
fn changed_tree(
    alloc: Global,
    t: &Tree<Outcome>,
    ask: &Ask,
) -> Result<Tree<Option<Outcome>>, Memory>
    ensures tops { IfOk result (λ u. u.0 ≡ t.now.0) }
    ensures reduced { IfOk result (λ u. IsReduced u.0 u.1) }
    ensures value { IfOk result (λ u. (p : List ℕ) → IsWithin t.now.0 p → value u.1 p ≡ Some (asked_value ask.now p (value t.now.1 p))) }
{
    let by = Asked {
        verdict: ask.verdict,
    };
    let asked = t.relabel(alloc, &by)?;
    asked.restrict(alloc, &ask.sides, None)
}

// How many rows hold something.
fn held_count(alloc: Global, changed: &Tree<Option<Outcome>>) -> Result<u64, Memory>
    ensures { IfOk result (λ n. n ≡ length (held_rows (paths_of changed.now.0 changed.now.1))) }
{
    let mut held = Held {
        by: Count { count: 0 },
    };
    changed.each_row(alloc, &mut held)?;
    Ok(held.by.count)
}

// The lines of the rows that hold something, behind the text.
fn put_held(
    alloc: Global,
    out: Text,
    site: &Site,
    state: State,
    changed: &Tree<Option<Outcome>>,
) -> Result<Text, Memory>
    requires { changed.now.0 ≡ tops_of site.now }
    ensures { IfOk result (λ text. text ≡ out ++ flat_map (row_text site.now state) (held_rows (paths_of (tops_of site.now) changed.now.1))) }
{
    let tops = changed.tops();
    let mut held = Held {
        by: Lines {
            out,
            site,
            state,
            tops,
        },
    };
    changed.each_row(alloc, &mut held)?;
    Ok(held.by.out)
}

// The text of a query of which this is the changed tree.
fn query_text(
    alloc: Global,
    site: &Site,
    state: State,
    changed: &Tree<Option<Outcome>>,
) -> Result<Text, Memory>
    requires { changed.now.0 ≡ tops_of site.now }
    ensures { IfOk result (λ text. text ≡ query_text site.now state changed.now.1) }
{
    let count = held_count(alloc, changed)?;
    let out = head(alloc, b"query", state, count)?;
    put_held(alloc, out, site, state, changed)
}

/// The text of a query over the points of the site: a line that counts the rows, then a line for each path of the reduced tree that
/// has the outcomes of the given one within the asked sides and of the asked verdict. Paths without an outcome aren't written; the
/// lines are those of a table. The rows are counted, and then put one by one. Fails if memory runs out.
pub fn query(
    alloc: Global,
    site: &Site,
    state: State,
    t: &Tree<Outcome>,
    ask: &Ask,
) -> Result<Text, Memory>
    requires { t.now.0 ≡ tops_of site.now }
    ensures { IfOk result (IsQuery site.now state t.now.1 ask.now) }
{
    let changed = changed_tree(alloc, t, ask)?;
    query_text(alloc, site, state, &changed)
}
