//! Reads a text statement by statement.

ghost use Rattle.std.specs.Prelude.{◌≡◌};
ghost use Rattle.fws_net.specs.Reading.{ReadGiven, lines_ended};
ghost use Rattle.fws_net.specs.Routes.{IsSound};
ghost use Rattle.fws_pfo.specs.FileText.{ended, fresh_text, line_step, spelled, spelled_by};

use crate::progress::Progress;
use crate::text::words_step;
use fws_net::{Cause, LineReader, ReadAnswer, ReadFault, Site, read_with};
use fws_num::{Line, Lines};
use fws_pf_read::all_tables;
use fws_pf_words::{Tables, read_statements};
use fws_pfo::{PfoConfig, PfoDraft};
use std::alloc::Global;

/// Where a text is read: at a site, and among the tables that its statements define.
#[derive(Clone, Copy)]
struct Ground<'a> {
    site: &'a Site,
    tables: &'a Tables,
}

/// What was read of a text on its ground.
#[derive(Drop)]
struct Reader<'a> {
    alloc: Global,
    ground: Ground<'a>,
    progress: Progress,
}

impl<'a> LineReader for Reader<'a> {
    type Context = Ground<'a>;

    type State = PfoDraft;

    type Cause = Cause;

    type Output = PfoConfig;

    ghost use Rattle.fws_net.specs.Routes.{IsSound};
    ghost use Rattle.fws_pfo.specs.FileText.{line_step, ended};

    ghost state = { λ r. r.progress };

    ghost allows = { λ ground. IsSound ground.site.now };

    ghost step = { λ ground t line. line_step ground.site.now ground.tables.now t line };

    ghost finished = { λ ground t. ended t };

    fn take(&mut self, alloc: Global, ground: &Ground<'a>, line: &Line) -> Result<(), ReadFault> {
        words_step(
            alloc,
            ground.site,
            ground.tables,
            line.words.as_slice(),
            &mut self.progress,
        )
    }

    /// The configuration of what was read.
    fn finish(self, _ground: &Ground<'a>) -> Result<PfoConfig, ReadFault> {
        Ok(self.progress.into_config(self.alloc)?)
    }
}

/// The configuration that statements spell on a site, among these tables.
fn read_among(
    alloc: Global,
    site: &Site,
    tables: &Tables,
    lines: &Lines,
) -> Result<PfoConfig, ReadAnswer>
    requires { IsSound site.now }
    ensures { ReadGiven result (lines_ended (line_step site.now tables.now) ended fresh_text lines.now) }
{
    let ground = Ground { site, tables };
    let reader = Reader {
        alloc,
        ground,
        progress: Progress::new(alloc),
    };
    let config = read_with(alloc, reader, &ground, lines)?;
    Ok(config)
}

/// The configuration that statements spell on a site.
fn read_lines(alloc: Global, site: &Site, lines: &Lines) -> Result<PfoConfig, ReadAnswer>
    requires { IsSound site.now }
    ensures { ReadGiven result (spelled_by site.now lines.now) }
{
    let tables = all_tables(alloc, site, lines.lines.as_slice())?;
    read_among(alloc, site, &tables, lines)
}

/// The configuration that a text of pf.conf(5) of OpenBSD spells on a site.
///
/// The answer `Refused` has the first line of the first statement that is refused, counted from 1, and the first cause that its
/// words give from left to right, macros replaced; the checks of a whole rule come behind its words.
///
/// - `Syntax`: a word isn't spelled as its place asks, has a byte outside 33 to 126 without quotes or lacks its closing quote; a
///   word or a value lacks; an option or a table is given twice.
/// - `LeftOut`: a word that isn't read, or that stands where it isn't; `nat-to` or `rdr-to` on `block`, or without `out` or `in`; `quick` or
///   state on `match`; a network that is written without `bitmask`, over other addresses than those of one network as large, or that
///   has every address.
/// - `NoInterface`: an interface that the site doesn't have.
/// - `NoName`: a macro that no definition ahead has, or a table that no statement defines.
/// - `Shape`: ports, flags or types of ICMP without the protocols that have them.
/// - `Expand`: a macro of more than 65,536 bytes; rules that statements with lists make pass 200,000; more than 255 different ends
///   of `pass` rules.
///
/// `Memory` comes only where memory is wanting, or where the text has more than 2^32 - 2 lines.
pub fn read(alloc: Global, text: &[u8], site: &Site) -> Result<PfoConfig, ReadAnswer>
    requires { IsSound site.now }
    ensures { ReadGiven result (spelled site.now text.now) }
{
    let lines = read_statements(alloc, text)?;
    read_lines(alloc, site, &lines)
}
