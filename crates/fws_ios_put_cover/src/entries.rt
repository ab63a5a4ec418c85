//! Entries for paths.

ghost use Rattle.std.specs.Prelude.{◌≡◌, ◌++◌, true, List, All, OnOk};
ghost use Rattle.fws_ios.specs.declared.config.IosEntry.{IosEntry};
ghost use Rattle.fws_ios_put_cover.specs.Covers.{AreEntriesOf};
ghost use Rattle.fws_ios_put_cover.specs.Steps.{IsUsable};

use fws_ios::IosEntry;
use fws_ios_put_entries::{Act, Path, entry_of};
use fws_num::{Items, Memory};
use std::alloc::Global;

/// Appends an entry for each path. Fails if memory runs out.
pub(crate) fn put_entries(
    alloc: Global,
    entries: &mut Items<IosEntry>,
    paths: &[Path],
    act: Act,
) -> Result<(), Memory>
    requires keeps { act.reflect ≡ true → act.permit ≡ true }
    requires usable { All (IsUsable act.established) paths.now }
    ensures { OnOk result ((block : List IosEntry) × (entries.new ≡ entries.old ++ block) × AreEntriesOf act paths.now block) }
{
    for path in paths {
        entries.put(entry_of(alloc, act, *path)?)?;
    }
    Ok(())
}
