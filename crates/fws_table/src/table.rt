//! The table of a tree.

ghost use Rattle.std.specs.Prelude.{◌≡◌, IfOk};
ghost use Rattle.fws_net.specs.Points.{tops_of};
ghost use Rattle.fws_table.specs.TableText.{table_text};

use crate::lines::{Lines, head};
use fws_net::{Outcome, Site, State};
use fws_num::{Memory, Text};
use fws_tree::Tree;
use std::alloc::Global;

/// The text of the table of a tree over the points of the site: a line that counts the rows, then a line for each path, depth
/// first. Entries are listed by their names in the site, other values as decimals or dotted addresses, and `*` is the whole range
/// of a field. The rows are put one by one, as the tree has them, and none is kept. Fails if memory runs out.
pub fn put_table(
    alloc: Global,
    site: &Site,
    state: State,
    t: &Tree<Outcome>,
) -> Result<Text, Memory>
    requires { t.now.0 ≡ tops_of site.now }
    ensures { IfOk result (λ text. text ≡ table_text site.now state t.now.1) }
{
    let count = t.row_count(alloc)?;
    let out = head(alloc, b"table", state, count)?;
    let tops = t.tops();
    let mut lines = Lines {
        out,
        site,
        state,
        tops,
    };
    t.each_row(alloc, &mut lines)?;
    Ok(lines.out)
}
