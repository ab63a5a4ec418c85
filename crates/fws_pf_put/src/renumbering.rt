//! Configurations whose tags are numbered by their first places in the text.

ghost use Rattle.std.specs.Prelude.{◌≡◌, IfOk};
ghost use Rattle.fws_pf_put.specs.Renumbered.{IsRenumbered, RenamedWalksAreSame};

use crate::gathering::tags_of;
use crate::names::{renamed_nats, renamed_rules, tag_names};
use fws_num::Memory;
use fws_pf::PfConfig;
use std::alloc::Global;

/// With other numbers for its tags a configuration does the same. The call does nothing: its contract is the law.
fn renamed_walks_are_same()
    ensures { RenamedWalksAreSame }
{}

/// A configuration that does the same, whose tags are numbered by their first places in the text. Fails if memory runs out.
pub(crate) fn renumbered(alloc: Global, c: &PfConfig) -> Result<PfConfig, Memory>
    ensures { IfOk result (IsRenumbered c.now) }
{
    renamed_walks_are_same();
    let tags = tags_of(alloc, c)?;
    let rdr = renamed_nats(alloc, &tags, c.rdr.as_slice())?;
    let nat = renamed_nats(alloc, &tags, c.nat.as_slice())?;
    let filter = renamed_rules(alloc, &tags, c.filter.as_slice())?;
    let names = tag_names(alloc, tags.len())?;
    Ok(PfConfig {
        skip: c.skip.copy(alloc)?,
        rdr,
        nat,
        filter,
        tags: names,
    })
}
