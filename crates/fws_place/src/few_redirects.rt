//! Whether accepted new packets show few redirects, and which.

ghost use Rattle.std.specs.Prelude.{◌≡◌, ◌≢◌, ◌<◌, ◌≤◌, true, Some, length, take, slice_index_or, IfOk, All};
ghost use Rattle.fws_net.specs.declared.outcome.End.{End};
ghost use Rattle.fws_net.specs.declared.outcome.Outcome.TheVariants.{Accept};
ghost use Rattle.fws_net.specs.declared.outcome.Outcome.{Outcome};
ghost use Rattle.fws_net.specs.Routes.{IsSound};
ghost use Rattle.fws_place.specs.declared.clause.Clause.TheVariants.{FewRedirects};
ghost use Rattle.fws_place.specs.Counts.{AreDifferent, IsShown, new_rows};
ghost use Rattle.fws_place.specs.Fits.{Meets};
ghost use Rattle.fws_place.specs.Found.{IsSought};
ghost use Rattle.fws_place.specs.RowRedirects.{destination_of, AreGathered, AreRedirects, HaveSame, IsOfRow, IsOfRows, IsPassed, IsServed, HaveAllShown};
ghost use Rattle.fws_tree.specs.declared.row.Row.{Row};
ghost use Rattle.fws_tree.specs.Regular.{AreRegular};

use crate::breach::Pair;
use crate::first_true::leasts;
use crate::gathering::{MOST_REDIRECTS, gather};
use crate::point::packet_at;
use crate::redirect::Redirect;
use fws_box::Field;
use fws_iv::Ivs;
use fws_net::{End, Outcome, Site};
use fws_num::{Items, Memory};
use fws_tree::{Row, Tables};
use indexmap::IndexSet;
use std::alloc::Global;

/// What was gathered from rows.
#[derive(Drop)]
pub(crate) enum Collected {
    /// All redirects of the rows, which are few.
    Few(IndexSet<Redirect>),
    /// The place of the row with which there are too many.
    Many(usize),
}

// The destination that an outcome writes.
fn destination_of(outcome: &Outcome) -> Option<End>
    ensures { result ≡ destination_of outcome.now }
{
    match outcome {
        Outcome::Drop => None,
        Outcome::Accept(rewrite) => rewrite.dst,
    }
}

// Whether two sets are the same.
fn same_set(a: &Ivs, b: &Ivs) -> bool
    ensures { result ≡ true → a.now ≡ b.now }
{
    a.parts() == b.parts()
}

// Whether two destinations are the same.
fn same_destination(a: &Option<End>, b: &Option<End>) -> bool
    ensures { result ≡ true → a.now ≡ b.now }
{
    *a == *b
}

// Whether two rows have the same redirects, as far as is easily seen.
fn same_redirects(a: &Row<Outcome>, b: &Row<Outcome>) -> bool
    ensures { result ≡ true → HaveSame a.now b.now }
{
    same_destination(&destination_of(&a.leaf), &destination_of(&b.leaf))
        && same_set(
            &a.sides[Field::Proto as usize],
            &b.sides[Field::Proto as usize],
        )
        && same_set(&a.sides[Field::Dst as usize], &b.sides[Field::Dst as usize])
        && same_set(
            &a.sides[Field::Dport as usize],
            &b.sides[Field::Dport as usize],
        )
}

// Whether the row at a place has no redirects beside those of an earlier one.
fn brings_none(rows: &[Row<Outcome>], earlier: usize, at: usize) -> bool
    requires { at < length rows.now }
    ensures { result ≡ true → (row : Row Outcome) (r : Redirect) → IsOfRow (slice_index_or rows.now at row) r → IsOfRows (take at rows.now) r }
{
    match destination_of(&rows[at].leaf) {
        None => true,
        Some(_) => {
            if earlier < at {
                return same_redirects(&rows[earlier], &rows[at]);
            }
            false
        }
    }
}

// Gathers the redirects of one more row, and whether there are too many with it. Fails if memory runs out.
fn passes(met: &mut IndexSet<Redirect>, row: &Row<Outcome>) -> Result<bool, Memory>
    requires few { length met.old.keys ≤ 4096 }
    requires served { IsServed row.now }
    ensures { IfOk result (IsPassed row.now met.old.keys met.new.keys) }
{
    match destination_of(&row.leaf) {
        None => Ok(false),
        Some(local) => {
            if row.sides[Field::Dst as usize].has(0) {
                return Ok(true);
            }
            gather(
                met,
                local,
                &row.sides[Field::Dst as usize],
                &row.sides[Field::Proto as usize],
                &row.sides[Field::Dport as usize],
            )?;
            if met.len() > MOST_REDIRECTS {
                return Ok(true);
            }
            Ok(false)
        }
    }
}

// Gathers the redirects of the rows, until there are too many. Of a row with many the work is that of 4,097. Fails if memory runs
// out.
fn gathered(alloc: Global, rows: &[Row<Outcome>]) -> Result<Collected, Memory>
    requires { All IsServed rows.now }
    ensures { IfOk result (AreGathered rows.now) }
{
    let mut met = IndexSet::new(alloc);
    let mut last = 0;
    for (at, row) in rows.iter().enumerate() {
        if brings_none(rows, last, at) {
            continue;
        }
        last = at;
        if passes(&mut met, row)? {
            return Ok(Collected::Many(at));
        }
    }
    Ok(Collected::Few(met))
}

/// A packet of the row with which the rows for new packets first show more than 4,096 redirects or one with the public address
/// 0.0.0.0, if there is one. Fails if memory runs out.
pub(crate) fn few_redirects(
    alloc: Global,
    site: &Site,
    tables: &Tables,
) -> Result<Option<(Pair, Option<Pair>)>, Memory>
    requires sound { IsSound site.now }
    requires regular { AreRegular site.now tables.now }
    ensures { IfOk result (λ found. IsSought site.now tables.now FewRedirects found) }
{
    let _tops = tables.fresh.tops();
    let rows = tables.fresh.paths(alloc)?;
    match gathered(alloc, &rows)? {
        Collected::Few(_) => Ok(None),
        Collected::Many(at) => {
            let packet = packet_at(&leasts(&rows[at].sides));
            Ok(Some((Pair { packet, rec: None }, None)))
        }
    }
}

// The redirects of a set, in their order.
fn listed(alloc: Global, met: IndexSet<Redirect>) -> Result<Items<Redirect>, Memory>
    ensures { IfOk result (λ rs. rs ≡ met.keys) }
{
    let mut items = Items::new(alloc);
    for redirect in met {
        items.put(redirect)?;
    }
    Ok(items)
}

// The redirects that accepted new packets show, as a set. Fails if memory runs out.
fn all_redirects(alloc: Global, site: &Site, tables: &Tables) -> Result<IndexSet<Redirect>, Memory>
    requires sound { IsSound site.now }
    requires regular { AreRegular site.now tables.now }
    requires few { Meets site.now tables.now FewRedirects }
    ensures { IfOk result (λ met. AreRedirects site.now tables.now met.keys) }
{
    let _tops = tables.fresh.tops();
    let rows = tables.fresh.paths(alloc)?;
    match gathered(alloc, &rows)? {
        Collected::Few(met) => Ok(met),
        Collected::Many(_) => unreachable!(),
    }
}

/// The redirects that accepted new packets show, each once: at most 4,096, and none with the public address 0.0.0.0. Fails if
/// memory runs out.
pub fn redirects(alloc: Global, site: &Site, tables: &Tables) -> Result<Items<Redirect>, Memory>
    requires sound { IsSound site.now }
    requires regular { AreRegular site.now tables.now }
    requires few { Meets site.now tables.now FewRedirects }
    ensures shown { IfOk result (HaveAllShown site.now tables.now) }
    ensures sound { IfOk result (λ rs. All (IsShown site.now tables.now (new_rows tables.now)) rs) }
    ensures few { IfOk result (λ rs. length rs ≤ 4096) }
    ensures somewhere { IfOk result (λ rs. All (λ redirect. redirect.public.addr ≢ 0) rs) }
    ensures different { IfOk result (λ rs. AreDifferent rs) }
{
    let met = all_redirects(alloc, site, tables)?;
    listed(alloc, met)
}
