//! Reads a text line by line.

ghost use Rattle.std.specs.Prelude.{◌≡◌, true, IfOk};
ghost use Rattle.fws_net.specs.Reading.{ReadGiven};
ghost use Rattle.fws_net.specs.Routes.{IsSound};
ghost use Rattle.fws_ipt.specs.FileText.{spelled};
ghost use Rattle.fws_ipt.specs.Soundness.{is_fitting};

use crate::lines::words_step;
use crate::progress::Progress;
use fws_ipt::{IptConfig, IptDraft, spelled_fits};
use fws_net::{Cause, LineReader, ReadAnswer, ReadFault, Site, read_text};
use fws_num::{Comments, Line};
use std::alloc::Global;

impl LineReader for Progress {
    type Context = Site;

    type State = IptDraft;

    type Cause = Cause;

    type Output = IptConfig;

    ghost use Rattle.fws_net.specs.Routes.{IsSound};
    ghost use Rattle.fws_ipt.specs.FileText.{line_step, ended};

    ghost state = { λ p. p };

    ghost allows = { λ site. IsSound site };

    ghost step = { λ site d line. line_step site d line };

    ghost finished = { λ site d. ended d };

    fn take(&mut self, alloc: Global, site: &Site, line: &Line) -> Result<(), ReadFault> {
        words_step(alloc, site, self, line.words.as_slice())
    }

    /// The configuration of what was read, unless the text ends within a table.
    fn finish(self, _site: &Site) -> Result<IptConfig, ReadFault> {
        if self.within().is_some() {
            return Err(ReadFault::Bad(Cause::Syntax));
        }
        Ok(self.into_config())
    }
}

/// The configuration that a text spells.
fn read_spelled(alloc: Global, text: &[u8], site: &Site) -> Result<IptConfig, ReadAnswer>
    requires { IsSound site.now }
    ensures { ReadGiven result (spelled site.now text.now) }
{
    read_text(alloc, Comments::HashLine, Progress::new(alloc), site, text)
}

/// The configuration that a text of iptables-save(8) spells on a site: the tables `filter`, `nat` and
/// `mangle` with their chains and rules, and `raw` and `security` without rules.
///
/// The answer `Refused` has the first line, counted from 1, that is refused, and the first cause that
/// its words give from left to right; the checks of a whole rule come behind its words.
///
/// - `Syntax`: a word isn't spelled as its place asks, has a byte outside 33 to 126 without quotes or
///   lacks its closing quote; a word or a value is missing; an option or a target is given twice; SNAT,
///   DNAT, NETMAP or MARK lacks the option that says what it writes; a chain is declared twice or without
///   a name, a table opened twice or within another, or a rule stands outside a table. At the number of
///   lines plus one: the text ends within a table.
/// - `LeftOut`: a word, a module, a target or a table that isn't read; the policy DROP in `nat`, `raw` or `security`; a chain
///   of the user's or a rule in `raw` or `security`; a target in a table that doesn't have it, NETMAP in a
///   chain of the user's or in a rule that doesn't name the addresses which it maps, a value that is well
///   spelled and not read, or a limit on a rule that doesn't log.
/// - `NoInterface`: an interface that the site doesn't have.
/// - `NoName`: a chain that no earlier line declares in the same table, or a jump to a built-in one.
/// - `Shape`: a test or a target of a rule asks for a protocol that its `-p` doesn't name.
///
/// `Backward` and `Expand` don't come. `Memory` comes only where memory is wanting, or where the text
/// has more than 2^32 - 2 lines or 2^32 chains.
pub fn read(alloc: Global, text: &[u8], site: &Site) -> Result<IptConfig, ReadAnswer>
    requires { IsSound site.now }
    ensures given { ReadGiven result (spelled site.now text.now) }
    ensures fits { IfOk result (λ config. is_fitting config ≡ true) }
{
    spelled_fits();
    let config = read_spelled(alloc, text, site)?;
    Ok(config)
}
