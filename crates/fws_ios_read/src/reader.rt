//! Reads a text line by line.

ghost use Rattle.std.specs.Prelude.{◌≡◌};
ghost use Rattle.fws_net.specs.Reading.{ReadGiven, lines_ended};
ghost use Rattle.fws_net.specs.Routes.{IsSound};
ghost use Rattle.fws_ios.specs.FileText.{all_defined, ended, fresh_text, line_step, spelled};

use crate::definitions::all_defined;
use crate::lines::line_step;
use crate::pools::Pools;
use crate::progress::Progress;
use fws_ios::{IosConfig, IosDraft};
use fws_net::{Cause, LineReader, ReadAnswer, ReadFault, Site, read_with};
use fws_num::{Comments, Line, Lines, read_lines};
use std::alloc::Global;

/// Where a text is read: at a site, and among the pools that its lines define.
#[derive(Clone, Copy)]
struct Setting<'a> {
    site: &'a Site,
    pools: &'a Pools,
}

/// What was read of a text in a setting.
#[derive(Drop)]
struct Reader<'a> {
    alloc: Global,
    setting: Setting<'a>,
    progress: Progress,
}

impl<'a> LineReader for Reader<'a> {
    type Context = Setting<'a>;

    type State = IosDraft;

    type Cause = Cause;

    type Output = IosConfig;

    ghost use Rattle.fws_net.specs.Routes.{IsSound};
    ghost use Rattle.fws_ios.specs.FileText.{line_step, ended};

    ghost state = { λ r. r.progress };

    ghost allows = { λ setting. IsSound setting.site.now };

    ghost step = { λ setting d line. line_step setting.site.now setting.pools.now d line };

    ghost finished = { λ setting d. ended d };

    fn take(&mut self, alloc: Global, setting: &Setting<'a>, line: &Line) -> Result<(), ReadFault> {
        line_step(alloc, setting.site, setting.pools, line, &mut self.progress)
    }

    /// The configuration of what was read.
    fn finish(self, _setting: &Setting<'a>) -> Result<IosConfig, ReadFault> {
        Ok(self.progress.into_config(self.alloc)?)
    }
}

/// What lines spell at a site, among these pools.
fn read_among<'a>(
    alloc: Global,
    site: &'a Site,
    pools: &'a Pools,
    lines: &Lines,
) -> Result<IosConfig, ReadAnswer>
    requires { IsSound site.now }
    ensures { ReadGiven result (lines_ended (line_step site.now pools.now) ended fresh_text lines.now) }
{
    let setting = Setting { site, pools };
    let reader = Reader {
        alloc,
        setting,
        progress: Progress::new(alloc),
    };
    read_with(alloc, reader, &setting, lines)
}

/// What lines spell at a site, among the pools that they define.
fn read_all(alloc: Global, site: &Site, lines: &Lines) -> Result<IosConfig, ReadAnswer>
    requires { IsSound site.now }
    ensures { ReadGiven result (lines_ended (line_step site.now (all_defined lines.now.lines)) ended fresh_text lines.now) }
{
    let pools = all_defined(alloc, lines.lines.as_slice())?;
    read_among(alloc, site, &pools, lines)
}

/// The configuration that a running configuration of Cisco IOS spells on a site: its access lists, where they are applied,
/// and its address translation. Lines that begin with another keyword are passed over.
///
/// The answer `Refused` has the first line, counted from 1, that is refused, and the first cause that its words give from
/// left to right; the checks of a whole entry come behind its words.
///
/// - `Syntax`: a word isn't spelled as its place asks, has a byte outside 33 to 126 without quotes or lacks its closing
///   quote; a word is missing; a second pool of one name.
/// - `LeftOut`: a word that isn't read, or that stands where it isn't; a translation of a list that ends ahead of
///   `overload`; a list with another number; a pool of more than one address; a line of zones, classes, policies,
///   inspection, IPv6 or the outside of address translation, and at an interface of the site one of policy routing,
///   verified sources or crypto maps.
/// - `NoInterface`: an interface that the site doesn't have, where a list is applied, which is put on a side, or whose
///   address is to be written.
/// - `NoName`: a pool that no line defines.
/// - `Shape`: a wildcard that isn't zeros followed by ones; ports, `established` or a type of ICMP without the protocols
///   that have them.
///
/// `Memory` comes only where memory is wanting, or where the text has more than 2^32 - 2 lines.
pub fn read(alloc: Global, text: &[u8], site: &Site) -> Result<IosConfig, ReadAnswer>
    requires { IsSound site.now }
    ensures { ReadGiven result (spelled site.now text.now) }
{
    let lines = read_lines(alloc, Comments::Ios, text)?;
    read_all(alloc, site, &lines)
}
