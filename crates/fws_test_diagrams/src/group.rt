//! Groups of cases: the packets that go through them, and the cases one behind the other.

ghost use Rattle.fws_net.specs.Routes.{IsSound};

use crate::cases::{Scene, Tally, packets_of};
use crate::rows::judge_code;
use crate::stop::Stop;
use crate::walks::judge_diagram;
use fws_net::{Site, read_site};
use fws_num::{Comments, Line, Memory, Text, put_dec, read_lines, value_named};
use std::alloc::Global;

/// What the cases of a group are.
#[derive(Clone, Copy)]
enum Kind {
    /// Diagrams.
    Diagrams,
    /// Flat codes.
    Codes,
}

/// The names of kinds.
const KINDS: [(&[u8], Kind); 2] = [(b"diagrams", Kind::Diagrams), (b"codes", Kind::Codes)];

impl Kind {
    /// Whether a line is a case's first one: `diagram NAME ..` or `code NAME ..`.
    fn begins(self, line: &Line) -> bool {
        match (self, line.words.as_slice()) {
            (Kind::Diagrams, [first, ..]) => first.is(b"diagram"),
            (Kind::Codes, [first, ..]) => first.is(b"code"),
            _ => false,
        }
    }
}

/// The lines ahead of the next case.
fn until_next(kind: Kind, lines: &[Line]) -> &[Line] {
    for at in 0..lines.len() {
        if kind.begins(&lines[at]) {
            return &lines[..at];
        }
    }
    lines
}

/// Tries the case of a first line and the lines behind it.
fn judge_case(
    alloc: Global,
    scene: &Scene,
    kind: Kind,
    tally: &mut Tally,
    head: &Line,
    lines: &[Line],
) -> Result<(), Stop>
    requires { IsSound scene.now.site.now }
{
    tally.cases = tally.cases.saturating_add(1);
    match kind {
        Kind::Diagrams => judge_diagram(alloc, scene, tally, head, lines),
        Kind::Codes => judge_code(alloc, scene, tally, head, lines),
    }
}

/// Tries each case of the lines.
fn judge_cases(
    alloc: Global,
    scene: &Scene,
    kind: Kind,
    tally: &mut Tally,
    lines: &[Line],
) -> Result<(), Stop>
    requires { IsSound scene.now.site.now }
{
    for at in 0..lines.len() {
        if let [head, rest @ ..] = &lines[at..] {
            if kind.begins(head) {
                judge_case(alloc, scene, kind, tally, head, until_next(kind, rest))?;
            }
        }
    }
    Ok(())
}

/// Adds a number and what it counts.
fn put_count(out: &mut Text, count: u64, what: &[u8]) -> Result<(), Memory> {
    out.put(b" ")?;
    put_dec(out, count)?;
    out.put(b" ")?;
    out.put(what)
}

/// Adds how many diagrams there were, and how many of their lines agree.
fn put_diagrams(out: &mut Text, tally: &Tally) -> Result<(), Memory> {
    put_count(out, tally.cases, b"diagrams,")?;
    put_count(out, tally.lines.saturating_sub(tally.differences), b"of")?;
    put_count(out, tally.lines, b"agree\n")
}

/// Adds how many codes there were, what was tried of them, and how much differs.
fn put_codes(out: &mut Text, tally: &Tally) -> Result<(), Memory> {
    put_count(out, tally.cases, b"codes,")?;
    put_count(out, tally.lines, b"packets,")?;
    put_count(out, tally.rows, b"rows,")?;
    put_count(out, tally.points, b"points,")?;
    put_count(out, tally.differences, b"differences\n")
}

/// Adds a line for each difference, and one with the counts.
fn put_tally(said: &mut Text, kind: Kind, name: &Text, tally: &Tally) -> Result<(), Memory> {
    said.put(tally.differing.as_slice())?;
    said.put(name.as_slice())?;
    said.put(b":")?;
    match kind {
        Kind::Diagrams => put_diagrams(said, tally),
        Kind::Codes => put_codes(said, tally),
    }
}

/// Tries the cases of lines in a scene, and adds what it found.
fn judge_scene(
    alloc: Global,
    said: &mut Text,
    kind: Kind,
    scene: &Scene,
    name: &Text,
    lines: &[Line],
) -> Result<(), Stop>
    requires { IsSound scene.now.site.now }
{
    let mut tally = Tally::new(alloc);
    judge_cases(alloc, scene, kind, &mut tally, lines)?;
    Ok(put_tally(said, kind, name, &tally)?)
}

/// Tries the cases of lines on a site, and adds what it found.
fn judge_lines(
    alloc: Global,
    said: &mut Text,
    kind: Kind,
    site: &Site,
    name: &Text,
    lines: &[Line],
) -> Result<(), Stop>
    requires { IsSound site.now }
{
    let packets = packets_of(alloc, site, lines)?;
    let scene = Scene {
        site,
        packets: packets.as_slice(),
    };
    judge_scene(alloc, said, kind, &scene, name, lines)
}

/// Tries the cases of a text on a site, and adds what it found.
fn judge_group(
    alloc: Global,
    said: &mut Text,
    kind: Kind,
    site: &Site,
    name: &Text,
    cases: &[u8],
) -> Result<(), Stop>
    requires { IsSound site.now }
{
    let read = read_lines(alloc, Comments::HashLine, cases)?;
    judge_lines(alloc, said, kind, site, name, read.lines.as_slice())
}

/// Tries the cases of this kind of a text on the site of another, and adds what it found.
pub fn judge_texts(
    alloc: Global,
    said: &mut Text,
    kind: &[u8],
    site: &[u8],
    name: &Text,
    cases: &[u8],
) -> Result<(), Stop> {
    let Some(kind) = value_named(&KINDS, kind) else {
        return Err(Stop::Malformed);
    };
    match read_site(alloc, site) {
        Ok(site) => judge_group(alloc, said, kind, &site, name, cases),
        Err(_) => Err(Stop::Malformed),
    }
}
