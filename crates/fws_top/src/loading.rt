//! How many rows the tables of code have, and how many systems can hold them.

ghost use Rattle.std.specs.Prelude.{◌≡◌, ◌≤◌, true, IfOk, if◌then◌else◌};
ghost use Rattle.fws_flat.specs.Soundness.{flat_ok};
ghost use Rattle.fws_net.specs.Points.{tops_of};
ghost use Rattle.fws_net.specs.Routes.{IsSound};
ghost use Rattle.fws_net.specs.SiteLaws.{IsOrderly};
ghost use Rattle.fws_place.specs.Fits.{Fits};
ghost use Rattle.fws_top.specs.Codes.{Does, DoesRegularly};
ghost use Rattle.fws_top.specs.Judged.{HasConfig};
ghost use Rattle.fws_top.specs.Loads.{IsHeldCount, IsLoad, IsWhether, all_targets, load_line, row_count};
ghost use Rattle.fws_top.specs.Walked.{AreTablesOf, Walk};
ghost use Rattle.fws_tree.specs.Regular.{AreRegular};

use crate::ios::Ios;
use crate::ipfw::Ipfw;
use crate::iptables::Iptables;
use crate::language::Language;
use crate::pf::Pf;
use crate::tables::tables;
use fws_flat::Flat;
use fws_net::{Outcome, ReadAnswer, Site};
use fws_num::{Memory, Text, put_dec};
use fws_place::{PlaceAnswer, breaches_refute_fits};
use fws_tree::{Tables, Tree};
use std::alloc::Global;

/// Reads a text again that spells a configuration.
fn read_again<L: Language>(alloc: Global, text: &[u8], site: &Site) -> Result<(), Memory>
    requires sound { IsSound site.now }
    requires spelled { HasConfig (L.spelled site.now) text.now }
{
    match L::read(alloc, text, site) {
        Ok(_) => Ok(()),
        Err(ReadAnswer::Memory) => Err(Memory),
        Err(ReadAnswer::Refused { .. }) => unreachable!(),
    }
}

/// Prints a configuration, and reads the text again.
fn print_and_read<L: Language>(alloc: Global, config: &L::Config, site: &Site) -> Result<(), Memory>
    requires sound { IsSound site.now }
    requires orderly { IsOrderly site.now }
    requires printable { L.printable site.now config.now ≡ true }
{
    let text = L::print(alloc, config, site)?;
    read_again::<L>(alloc, text.as_slice(), site)
}

/// Whether the system can hold the tables. If so, they are placed, printed and read again.
fn is_held<L: Language>(alloc: Global, site: &Site, tables: &Tables) -> Result<bool, Memory>
    requires sound { IsSound site.now }
    requires orderly { IsOrderly site.now }
    requires regular { AreRegular site.now tables.now }
    ensures { IfOk result (λ held. IsWhether held (Fits L.system site.now tables.now)) }
{
    breaches_refute_fits();
    match L::place(alloc, tables, site) {
        Ok(config) => {
            print_and_read::<L>(alloc, &config, site)?;
            Ok(true)
        }
        Err(PlaceAnswer::Unfit(_)) => Ok(false),
        Err(PlaceAnswer::Memory) => Err(Memory),
    }
}

fn one_if(held: bool) -> u64
    ensures value { result ≡ if held then 1 else 0 }
    ensures small { result ≤ 1 }
{
    if held { 1 } else { 0 }
}

/// The number of targets whose systems can hold the tables.
fn held_count(alloc: Global, site: &Site, tables: &Tables) -> Result<u64, Memory>
    requires sound { IsSound site.now }
    requires orderly { IsOrderly site.now }
    requires regular { AreRegular site.now tables.now }
    ensures { IfOk result (IsHeldCount site.now tables.now all_targets) }
{
    let iptables = is_held::<Iptables>(alloc, site, tables)?;
    let ipfw = is_held::<Ipfw>(alloc, site, tables)?;
    let pf = is_held::<Pf>(alloc, site, tables)?;
    let ios = is_held::<Ios>(alloc, site, tables)?;
    Ok(one_if(iptables) + one_if(ipfw) + one_if(pf) + one_if(ios))
}

/// The number of a table's rows, which are counted along the tree's nodes and not listed.
fn row_count(alloc: Global, site: &Site, tree: &Tree<Outcome>) -> Result<u64, Memory>
    requires { tree.now.0 ≡ tops_of site.now }
    ensures { IfOk result (λ n. n ≡ row_count site.now tree.now.1) }
{
    tree.row_count(alloc)
}

/// The line that says so of a policy of so many rules.
fn load_line(alloc: Global, n: u32, fresh: u64, est: u64, placed: u64) -> Result<Text, Memory>
    ensures { IfOk result (λ line. line ≡ load_line n fresh est placed) }
{
    let mut out = Text::new(alloc);
    out.put(b"load ")?;
    put_dec(&mut out, u64::from(n))?;
    out.put(b" new ")?;
    put_dec(&mut out, fresh)?;
    out.put(b" est ")?;
    put_dec(&mut out, est)?;
    out.put(b" placed ")?;
    put_dec(&mut out, placed)?;
    out.put(b"\n")?;
    Ok(out)
}

/// What tables come to, which are those of so many rules.
fn load_of(alloc: Global, n: u32, site: &Site, tables: &Tables) -> Result<Text, Memory>
    requires orderly { IsOrderly site.now }
    requires sound { IsSound site.now }
    requires regular { AreRegular site.now tables.now }
    requires fresh_tops { tables.now.fresh.0 ≡ tops_of site.now }
    requires est_tops { tables.now.est.0 ≡ tops_of site.now }
    ensures { (walk : Walk) → AreTablesOf site.now walk tables.now → IfOk result (IsLoad n site.now walk) }
{
    let fresh = row_count(alloc, site, &tables.fresh)?;
    let est = row_count(alloc, site, &tables.est)?;
    let placed = held_count(alloc, site, tables)?;
    load_line(alloc, n, fresh, est, placed)
}

/// What the tables of code come to, which is that of so many rules.
pub(crate) fn loaded(alloc: Global, n: u32, site: &Site, code: &Flat) -> Result<Text, Memory>
    requires orderly { IsOrderly site.now }
    requires sound { IsSound site.now }
    requires ok { flat_ok code.now ≡ true }
    requires regular { DoesRegularly code.now site.now }
    ensures { (walk : Walk) → Does code.now site.now walk → IfOk result (IsLoad n site.now walk) }
{
    let tables = tables(alloc, site, code)?;
    load_of(alloc, n, site, &tables)
}
