//! The paths of rows.

ghost use Rattle.std.specs.Prelude.{◌≡◌, false, All, IfOk, OnOk};
ghost use Rattle.fws_net.specs.Points.{tops_of};
ghost use Rattle.fws_net.specs.Routes.{IsSound};
ghost use Rattle.fws_ios_put_cover.specs.Classes.{is_tcp};
ghost use Rattle.fws_ios_put_cover.specs.Inside.{AreClassPaths, AreFurther, HaveBox, HaveClass, HaveRows, IsFilledBox, IsGoodRow, LooksInside};

use crate::asking::paths_for;
use crate::boxes::part_of;
use crate::class::{Class, is_tcp};
use crate::kept::put_paths;
use crate::widening::widest;
use fws_box::Field;
use fws_ios_put_entries::Path;
use fws_iv::Ivs;
use fws_net::{Site, tops};
use fws_num::{Items, Memory};
use fws_tree::{Row, Tree};
use indexmap::IndexSet;
use std::alloc::Global;

// The paths of the packets of a class in a box.
fn class_paths(
    alloc: Global,
    within: &Tree<bool>,
    site: &Site,
    sides: &[Ivs; 12],
    class: Class,
) -> Result<Items<Path>, Memory>
    requires sound { IsSound site.now }
    requires tops { within.now.0 ≡ tops_of site.now }
    requires filled { IsFilledBox (tops_of site.now) sides.now }
    requires looks { LooksInside (tops_of site.now) within.now.1 sides.now }
    ensures { IfOk result (AreClassPaths site.now class within.now.1 sides.now) }
{
    let tops = tops(site);
    let part = part_of(alloc, &tops, sides, class)?;
    if part[Field::Proto as usize].is_empty() {
        return Ok(Items::new(alloc));
    }
    let wide = widest(alloc, within, &tops, part, is_tcp(class))?;
    paths_for(alloc, &wide)
}

// Keeps the paths of the packets of a class in a box.
fn put_class(
    alloc: Global,
    kept: &mut IndexSet<Path>,
    within: &Tree<bool>,
    site: &Site,
    sides: &[Ivs; 12],
    class: Class,
) -> Result<(), Memory>
    requires sound { IsSound site.now }
    requires tops { within.now.0 ≡ tops_of site.now }
    requires filled { IsFilledBox (tops_of site.now) sides.now }
    requires looks { LooksInside (tops_of site.now) within.now.1 sides.now }
    ensures { OnOk result (AreFurther site.now (is_tcp class) within.now.1 kept.old.keys kept.new.keys × HaveClass site.now class sides.now kept.new.keys) }
{
    let paths = class_paths(alloc, within, site, sides, class)?;
    put_paths(kept, paths.as_slice())?;
    Ok(())
}

// Keeps the paths of the packets of a box.
fn put_classes(
    alloc: Global,
    kept: &mut IndexSet<Path>,
    within: &Tree<bool>,
    site: &Site,
    sides: &[Ivs; 12],
) -> Result<(), Memory>
    requires sound { IsSound site.now }
    requires tops { within.now.0 ≡ tops_of site.now }
    requires filled { IsFilledBox (tops_of site.now) sides.now }
    requires looks { LooksInside (tops_of site.now) within.now.1 sides.now }
    ensures { OnOk result (AreFurther site.now false within.now.1 kept.old.keys kept.new.keys × HaveBox site.now false sides.now kept.new.keys) }
{
    put_class(alloc, kept, within, site, sides, Class::Ports)?;
    put_class(alloc, kept, within, site, sides, Class::Types)?;
    put_class(alloc, kept, within, site, sides, Class::Others)?;
    Ok(())
}

// Keeps the paths of the packets of a box; where `established` is asked, of those of TCP.
fn put_box(
    alloc: Global,
    kept: &mut IndexSet<Path>,
    within: &Tree<bool>,
    site: &Site,
    sides: &[Ivs; 12],
    established: bool,
) -> Result<(), Memory>
    requires sound { IsSound site.now }
    requires tops { within.now.0 ≡ tops_of site.now }
    requires filled { IsFilledBox (tops_of site.now) sides.now }
    requires looks { LooksInside (tops_of site.now) within.now.1 sides.now }
    ensures { OnOk result (AreFurther site.now established within.now.1 kept.old.keys kept.new.keys × HaveBox site.now established sides.now kept.new.keys) }
{
    if established {
        put_class(alloc, kept, within, site, sides, Class::Tcp)?;
        return Ok(());
    }
    put_classes(alloc, kept, within, site, sides)?;
    Ok(())
}

/// Keeps the paths of the packets of the rows that are true; where `established` is asked, of those of TCP. Fails if memory runs
/// out.
pub(crate) fn put_rows(
    alloc: Global,
    kept: &mut IndexSet<Path>,
    within: &Tree<bool>,
    site: &Site,
    rows: &[Row<bool>],
    established: bool,
) -> Result<(), Memory>
    requires sound { IsSound site.now }
    requires tops { within.now.0 ≡ tops_of site.now }
    requires good { All (IsGoodRow (tops_of site.now) within.now.1) rows.now }
    ensures { OnOk result (AreFurther site.now established within.now.1 kept.old.keys kept.new.keys × HaveRows site.now established rows.now kept.new.keys) }
{
    for row in rows {
        if row.leaf {
            put_box(alloc, kept, within, site, &row.sides, established)?;
        }
    }
    Ok(())
}
