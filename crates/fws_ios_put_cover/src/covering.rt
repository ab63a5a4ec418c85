//! Entries that cover a set of packets within another.
//!
//! The idea: between a set that has to be matched and a wider one that may be, entries are free. A list that permits packets of
//! connections, say, needs to deny those that are never accepted, and does no harm where it denies more of what is dropped
//! anyway. So the entries are found from the rows of the needed set, each made as wide as the other set lets it be.
//!
//! One row at a time (`parts`): a row is a box, one set for each field. Entries ask for ports under TCP or UDP alone, and for
//! types under ICMP alone, so the box is cut by classes of protocols (`class`): with ports, with types, without either; or TCP
//! alone where ACK or RST is asked. Of each part the fields are dropped one after another, each where the part without it still
//! lies in the wider set (`widening`): ports and types first, then the protocol, then the addresses. What is left is written as
//! paths, a prefix or a range for each piece (`asking`), and a path that was met before isn't kept again (`kept`).
//!
//! What holds: each path lies in the wider set, as each part does after each step, which is tested and not argued: a restriction
//! of the wider set's tree to the part, that has to be true everywhere. And each row's packets are on the row's paths, since
//! parts only grow.
//!
//! The cost: rows times classes times the pieces of a part, and at most six tests of inclusion for each part, of which each
//! restricts the wider set's tree once.

ghost use Rattle.std.specs.Prelude.{◌≡◌, ◌++◌, ℕ, List, Some, true, IfOk, OnOk};
ghost use Rattle.fws_box.specs.Sides.{IsWithin};
ghost use Rattle.fws_net.specs.Points.{tops_of};
ghost use Rattle.fws_net.specs.Routes.{IsSound};
ghost use Rattle.fws_tree.specs.Plain.{value};
ghost use Rattle.fws_ios.specs.declared.config.IosEntry.{IosEntry};
ghost use Rattle.fws_ios_put_entries.specs.Seen.{IsListed};
ghost use Rattle.fws_ios_put_cover.specs.Covers.{ArePathsOver, IsCover, IsOfTcp};

use crate::entries::put_entries;
use crate::kept::listed;
use crate::parts::put_rows;
use fws_ios::IosEntry;
use fws_ios_put_entries::{Act, Path};
use fws_net::Site;
use fws_num::{Items, Memory};
use fws_tree::Tree;
use indexmap::IndexSet;
use std::alloc::Global;

// Paths that have the packets of the first set, and none outside the second one.
fn paths_over(
    alloc: Global,
    site: &Site,
    needed: &Tree<bool>,
    within: &Tree<bool>,
    established: bool,
) -> Result<Items<Path>, Memory>
    requires sound { IsSound site.now }
    requires needed_tops { needed.now.0 ≡ tops_of site.now }
    requires within_tops { within.now.0 ≡ tops_of site.now }
    requires needed_listed { IsListed (tops_of site.now) (value needed.now.1) }
    requires part { (x : List ℕ) → IsWithin (tops_of site.now) x → value needed.now.1 x ≡ Some true → value within.now.1 x ≡ Some true }
    requires tcp { established ≡ true → IsOfTcp site.now needed.now.1 }
    ensures { IfOk result (ArePathsOver site.now established needed.now.1 within.now.1) }
{
    let _tops = needed.tops();
    let rows = needed.paths(alloc)?;
    let mut kept = IndexSet::new(alloc);
    put_rows(alloc, &mut kept, within, site, &rows, established)?;
    listed(alloc, kept)
}

/// Appends entries that do this and that each packet of the first set meets, and none outside the second one; where `established`
/// is asked, each with ACK or RST. Fails if memory runs out.
pub fn put_cover(
    alloc: Global,
    entries: &mut Items<IosEntry>,
    site: &Site,
    needed: &Tree<bool>,
    within: &Tree<bool>,
    act: Act,
) -> Result<(), Memory>
    requires sound { IsSound site.now }
    requires needed_tops { needed.now.0 ≡ tops_of site.now }
    requires within_tops { within.now.0 ≡ tops_of site.now }
    requires needed_listed { IsListed (tops_of site.now) (value needed.now.1) }
    requires keeps { act.reflect ≡ true → act.permit ≡ true }
    requires part { (x : List ℕ) → IsWithin (tops_of site.now) x → value needed.now.1 x ≡ Some true → value within.now.1 x ≡ Some true }
    requires tcp { act.established ≡ true → IsOfTcp site.now needed.now.1 }
    ensures { OnOk result ((block : List IosEntry) × (entries.new ≡ entries.old ++ block) × IsCover site.now act needed.now.1 within.now.1 block) }
{
    let paths = paths_over(alloc, site, needed, within, act.established)?;
    put_entries(alloc, entries, paths.as_slice(), act)?;
    Ok(())
}
