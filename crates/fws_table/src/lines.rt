//! The rows of a tree put as lines, one by one.

ghost use Rattle.std.specs.Prelude.{◌≡◌, IfOk};
ghost use Rattle.fws_table.specs.TableText.{head_text};

use crate::row_text::{put_row, put_state};
use fws_iv::Ivs;
use fws_net::{Outcome, Site, State};
use fws_num::{Memory, Text, put_dec};
use fws_tree::TakesRows;
use std::alloc::Global;

/// The line that begins with the title and tells how many rows come behind it.
pub(crate) fn head(alloc: Global, title: &[u8], state: State, count: u64) -> Result<Text, Memory>
    ensures { IfOk result (λ text. text ≡ head_text title.now state count) }
{
    let mut out = Text::new(alloc);
    out.put(title)?;
    out.put(b" ")?;
    put_state(&mut out, state)?;
    out.put(b" ")?;
    put_dec(&mut out, count)?;
    out.put(b"\n")?;
    Ok(out)
}

/// A text to which each row that is taken adds its line.
#[derive(Drop)]
pub(crate) struct Lines<'a> {
    /// The text.
    pub(crate) out: Text,
    /// The site of the packets.
    pub(crate) site: &'a Site,
    /// Whether the packets are new or established.
    pub(crate) state: State,
    /// The greatest value of each field.
    pub(crate) tops: &'a [u32; 12],
}

impl TakesRows<Outcome> for Lines<'_> {
    ghost use Rattle.std.specs.Prelude.{◌≡◌, ◌++◌};
    ghost use Rattle.std.specs.List.{flat_map};
    ghost use Rattle.std.proofs.Common.{refl, ◌∙◌};
    ghost use Rattle.fws_net.specs.Points.{tops_of};
    ghost use Rattle.fws_table.specs.TableText.{row_text};
    ghost use Rattle.fws_table.specs.MoreLines.{no_lines, lines_behind};

    ghost took = { λ s t rows. (t.site.now ≡ s.site.now) × (t.state ≡ s.state) × (t.tops.now ≡ s.tops.now) × (s.tops.now ≡ tops_of s.site.now → t.out ≡ s.out ++ flat_map (row_text s.site.now s.state) rows) };

    fn take(&mut self, sides: &[Ivs; 12], leaf: &Outcome) -> Result<(), Memory> {
        put_row(&mut self.out, self.site, self.state, self.tops, sides, leaf)
    }

    ghost same = { λ s. (refl, refl, refl, λ fit. no_lines s.site.now s.state s.out) };

    ghost then = { λ s t u xs ys e f. (f.0 ∙ e.0, f.1 ∙ e.1, f.2 ∙ e.2, lines_behind s.site.now t.site.now s.state t.state s.tops.now t.tops.now s.out t.out u.out xs ys e.0 e.1 e.2 e.3 f.3) };
}
