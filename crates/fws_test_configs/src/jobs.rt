//! Jobs: what the words of the command line ask for.

ghost use Rattle.fws_net.specs.Routes.{IsSound};

use crate::boxes::judge_boxes;
use crate::calls::Subject;
use crate::cases::{judge_calls, judge_lines, judge_saying, judge_sites, judge_texts};
use crate::judging::{Asked, Refused, verdict};
use crate::keeping::judge_keeping;
use crate::languages::language_of;
use crate::sites::is_spelled_so;
use crate::stop::Stop;
use crate::tracing::{Traced, judge_looked_up};
use fws_net::{Site, read_site};
use fws_num::{Text, value_named};
use std::alloc::Global;

/// What a job does.
#[derive(Clone, Copy)]
pub enum Job {
    /// Tries texts and lists.
    Lists,
    /// Tries boxes.
    Boxes,
    /// Tries calls, each case a line.
    Calls(Subject),
    /// Asks another site what cases say.
    Saying,
    /// Reads the text of a site after the edits of cases.
    Sites,
    /// Spells a site.
    Spelled,
    /// Reads cases as lines of a language behind an opening.
    Lines,
    /// Reads cases as texts of a language.
    Texts,
    /// Compares a configuration with the rows of a table.
    Table,
    /// Does so at another site.
    TableAt,
    /// Tries whether a configuration can be unfolded.
    Refusal,
    /// Compares the walks of packets with a trace.
    Trace,
    /// Compares what tables say of packets with a trace.
    LookedUp,
}

/// The names of jobs.
const JOBS: [(&[u8], Job); 17] = [
    (b"lists", Job::Lists),
    (b"boxes", Job::Boxes),
    (b"spellings", Job::Calls(Subject::Spellings)),
    (b"sets", Job::Calls(Subject::Sets)),
    (b"ranges", Job::Calls(Subject::Ranges)),
    (b"packets", Job::Calls(Subject::Packets)),
    (b"listing", Job::Calls(Subject::Listing)),
    (b"saying", Job::Saying),
    (b"sites", Job::Sites),
    (b"spelled", Job::Spelled),
    (b"lines", Job::Lines),
    (b"texts", Job::Texts),
    (b"table", Job::Table),
    (b"table-at", Job::TableAt),
    (b"refusal", Job::Refusal),
    (b"trace", Job::Trace),
    (b"looked-up", Job::LookedUp),
];

/// The job of this name.
pub fn job_named(name: &Text) -> Result<Job, Stop> {
    value_named(&JOBS, name.as_slice()).ok_or(Stop::Malformed)
}

impl Job {
    /// Which words stand behind the name of the job: `f` for each that names a file, and `w` for another one.
    pub fn words(self) -> &'static [u8] {
        match self {
            Job::Lists | Job::Boxes => b"",
            Job::Calls(_) => b"f",
            Job::Saying | Job::Sites | Job::Spelled => b"ff",
            Job::Texts => b"wf",
            Job::Lines | Job::Table => b"wff",
            Job::TableAt => b"fwff",
            Job::Refusal => b"wfww",
            Job::Trace => b"wffff",
            Job::LookedUp => b"fffff",
        }
    }
}

/// What is given for the word at a place behind the job's name: the bytes of its file, or the word itself.
fn at(given: &[Text], place: usize) -> &[u8] {
    match given.get(place) {
        Some(text) => text.as_slice(),
        None => b"",
    }
}

/// The texts of a trace, from a place on.
fn traced_at(given: &[Text], place: usize) -> Traced<'_> {
    Traced {
        connections: at(given, place),
        packets: at(given, place.saturating_add(1)),
        expected: at(given, place.saturating_add(2)),
    }
}

/// Judges the configuration of a text of the language of this name.
fn judge_config(
    alloc: Global,
    site: &Site,
    language: &[u8],
    text: &[u8],
    asked: &Asked,
) -> Result<Text, Stop>
    requires { IsSound site.now }
{
    language_of(language)?.judge(alloc, site, text, asked)
}

/// Judges it at the site of a text.
fn judge_config_at(
    alloc: Global,
    site: &[u8],
    language: &[u8],
    text: &[u8],
    asked: &Asked,
) -> Result<Text, Stop> {
    match read_site(alloc, site) {
        Ok(site) => judge_config(alloc, &site, language, text, asked),
        Err(_) => Err(Stop::Malformed),
    }
}

/// Does a job about configurations and tables.
fn do_walk(alloc: Global, site: &Site, job: Job, given: &[Text]) -> Result<Text, Stop>
    requires { IsSound site.now }
{
    match job {
        Job::Table => {
            let asked = Asked::Table(at(given, 2));
            judge_config(alloc, site, at(given, 0), at(given, 1), &asked)
        }
        Job::TableAt => {
            let asked = Asked::Table(at(given, 3));
            judge_config_at(alloc, at(given, 0), at(given, 1), at(given, 2), &asked)
        }
        Job::Refusal => {
            let asked = Asked::Refusal(Refused {
                what: at(given, 2),
                chain: at(given, 3),
            });
            judge_config(alloc, site, at(given, 0), at(given, 1), &asked)
        }
        Job::Trace => {
            let asked = Asked::Trace(traced_at(given, 2));
            judge_config(alloc, site, at(given, 0), at(given, 1), &asked)
        }
        _ => judge_looked_up(
            alloc,
            site,
            at(given, 0),
            at(given, 1),
            &traced_at(given, 2),
        ),
    }
}

/// Does a job, of which these are the words behind its name, and gives what it found.
pub fn do_job(alloc: Global, site: &Site, job: Job, given: &[Text]) -> Result<Text, Stop>
    requires { IsSound site.now }
{
    match job {
        Job::Lists => Ok(judge_keeping(alloc)?),
        Job::Boxes => judge_boxes(alloc),
        Job::Calls(subject) => judge_calls(alloc, site, subject, at(given, 0)),
        Job::Saying => judge_saying(alloc, at(given, 0), at(given, 1)),
        Job::Sites => judge_sites(alloc, site, at(given, 0), at(given, 1)),
        Job::Spelled => { Ok(verdict(alloc, is_spelled_so(alloc, at(given, 0), at(given, 1))?)?) }
        Job::Lines => {
            let language = language_of(at(given, 0))?;
            judge_lines(alloc, site, language, at(given, 1), at(given, 2))
        }
        Job::Texts => judge_texts(alloc, site, language_of(at(given, 0))?, at(given, 1)),
        Job::Table | Job::TableAt | Job::Refusal | Job::Trace | Job::LookedUp => {
            do_walk(alloc, site, job, given)
        }
    }
}
