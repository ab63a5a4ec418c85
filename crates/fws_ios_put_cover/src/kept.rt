//! Paths that are kept, each of them once.

ghost use Rattle.std.specs.Prelude.{◌≡◌, IfOk, OnOk};
ghost use Rattle.fws_ios_put_cover.specs.Steps.{AreKept};

use crate::exact::put_new;
use fws_ios_put_entries::Path;
use fws_num::{Items, Memory};
use indexmap::IndexSet;
use std::alloc::Global;

/// Keeps the paths behind those that are there. Fails if memory runs out.
pub(crate) fn put_paths(kept: &mut IndexSet<Path>, paths: &[Path]) -> Result<(), Memory>
    ensures { OnOk result (AreKept kept.old.keys kept.new.keys paths.now) }
{
    for path in paths {
        put_new(kept, *path)?;
    }
    Ok(())
}

/// The paths that were kept, in their order. Fails if memory runs out.
pub(crate) fn listed(alloc: Global, kept: IndexSet<Path>) -> Result<Items<Path>, Memory>
    ensures { IfOk result (λ paths. paths ≡ kept.keys) }
{
    let mut paths = Items::new(alloc);
    for path in kept {
        paths.put(path)?;
    }
    Ok(paths)
}
