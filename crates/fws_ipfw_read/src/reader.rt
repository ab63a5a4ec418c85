//! Reads a text line by line.

ghost use Rattle.std.specs.Prelude.{◌≡◌};
ghost use Rattle.fws_net.specs.Reading.{ReadGiven, lines_ended};
ghost use Rattle.fws_net.specs.Routes.{IsSound};
ghost use Rattle.fws_ipfw.specs.FileText.{all_defined, ended, fresh_text, line_step, spelled};

use crate::instances::Known;
use crate::lines::{all_defined, words_step};
use crate::progress::Progress;
use fws_ipfw::{IpfwConfig, IpfwDraft};
use fws_net::{Cause, LineReader, ReadAnswer, ReadFault, Site, read_with};
use fws_num::{Comments, Line, Lines, read_lines};
use std::alloc::Global;

/// Where a text is read: at a site, and among the instances that its lines define.
#[derive(Clone, Copy)]
pub(crate) struct Setting<'a> {
    /// The site.
    pub site: &'a Site,
    /// The instances.
    pub known: &'a Known,
}

/// What was read of a text in a setting.
#[derive(Drop)]
struct Reader<'a> {
    setting: Setting<'a>,
    progress: Progress,
}

impl<'a> LineReader for Reader<'a> {
    type Context = Setting<'a>;

    type State = IpfwDraft;

    type Cause = Cause;

    type Output = IpfwConfig;

    ghost use Rattle.fws_net.specs.Routes.{IsSound};
    ghost use Rattle.fws_ipfw.specs.FileText.{line_step, ended};

    ghost state = { λ r. r.progress };

    ghost allows = { λ setting. IsSound setting.site.now };

    ghost step = { λ setting d line. line_step setting.site.now setting.known.now d line };

    ghost finished = { λ setting d. ended d };

    fn take(&mut self, alloc: Global, setting: &Setting<'a>, line: &Line) -> Result<(), ReadFault> {
        words_step(
            alloc,
            setting.site,
            setting.known,
            &mut self.progress,
            line.words.as_slice(),
        )
    }

    /// The configuration of what was read.
    fn finish(self, _setting: &Setting<'a>) -> Result<IpfwConfig, ReadFault> {
        Ok(self.progress.into_config()?)
    }
}

/// What lines spell at a site, among these instances.
fn read_among<'a>(
    alloc: Global,
    site: &'a Site,
    known: &'a Known,
    lines: &Lines,
) -> Result<IpfwConfig, ReadAnswer>
    requires { IsSound site.now }
    ensures { ReadGiven result (lines_ended (line_step site.now known.now) ended fresh_text lines.now) }
{
    let setting = Setting { site, known };
    let reader = Reader {
        setting,
        progress: Progress::new(alloc),
    };
    read_with(alloc, reader, &setting, lines)
}

/// What lines spell at a site, among the instances that they define.
fn read_all(alloc: Global, site: &Site, lines: &Lines) -> Result<IpfwConfig, ReadAnswer>
    requires { IsSound site.now }
    ensures { ReadGiven result (lines_ended (line_step site.now (all_defined site.now lines.now.lines)) ended fresh_text lines.now) }
{
    let known = all_defined(alloc, site, lines.lines.as_slice())?;
    read_among(alloc, site, &known, lines)
}

/// The configuration that an ipfw rule file spells on a site: what `ipfw list` prints, or lines of a script that add
/// rules and configure instances of address translation.
///
/// The answer `Refused` has the first line, counted from 1, that is refused, and the first cause that its words give from
/// left to right; the checks of a whole rule come behind its words.
///
/// - `Syntax`: a word isn't spelled as its place asks, has a byte outside 33 to 126 without quotes or lacks its closing
///   quote; a word or a value lacks; an option or an instance is given twice.
/// - `LeftOut`: a word that isn't read; a rule 65535 other than `65535 deny ip from any to any`, or that one behind `add`;
///   `flush` behind another line;
///   `keep-state` on an action other than allow, or of another flow than `:default`; a range of ports or the address
///   0.0.0.0 in a redirect.
/// - `NoInterface`: an interface that the site doesn't have.
/// - `NoName`: an instance that no line defines.
/// - `Backward`: `skipto` to a number that isn't greater than the rule's own.
/// - `Shape`: ports behind an address under another protocol than TCP and UDP; an instance without an address.
/// - `Expand`: the redirects of the instances that rules name, counted at each such rule, pass 200,000.
///
/// `Memory` comes only where memory is wanting, or where the text has more than 2^32 - 2 lines.
pub fn read(alloc: Global, text: &[u8], site: &Site) -> Result<IpfwConfig, ReadAnswer>
    requires { IsSound site.now }
    ensures { ReadGiven result (spelled site.now text.now) }
{
    let lines = read_lines(alloc, Comments::Ipfw, text)?;
    read_all(alloc, site, &lines)
}
