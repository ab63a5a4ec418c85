//! Tables, traces and refusals of configurations, against the slow model, the diagram and the flat code.

ghost use Rattle.std.specs.Prelude.{◌≡◌, true};
ghost use Rattle.fws_ifcl.specs.Soundness.{ifcl_ok};
ghost use Rattle.fws_net.specs.Routes.{IsSound};

use crate::forms::Forms;
use crate::languages::Config;
use crate::sampling::{count, kind_of, packet_of, point_at};
use crate::stop::Stop;
use crate::table::{Row, Table, read_table};
use crate::tracing::{Traced, judge_trace};
use fws_ifcl::{Ifcl, ifcl_ok};
use fws_ipt::model::refusal;
use fws_ipt::{IptConfig, UnfoldRefusal};
use fws_net::Site;
use fws_num::{Memory, Text, put_dec};
use fws_unfold::{UnfoldAnswer, unfold};
use std::alloc::Global;

/// Why a diagram can't be unfolded, and at which chain; `none` stands for none.
#[derive(Clone, Copy)]
pub struct Refused<'a> {
    /// The reason: `loop`, `deep`, `long` or `none`.
    pub what: &'a [u8],
    /// The chain's name.
    pub chain: &'a [u8],
}

/// What is asked of a configuration.
#[derive(Clone, Copy)]
pub enum Asked<'a> {
    /// Whether its rows are those of the text of a table.
    Table(&'a [u8]),
    /// Whether it is refused so.
    Refusal(Refused<'a>),
    /// Whether packets come to what a trace says.
    Trace(Traced<'a>),
}

/// How many of the packets of a row have another outcome in some form than the row says.
fn differing(alloc: Global, site: &Site, forms: &Forms, est: bool, row: &Row) -> Result<u64, Memory>
    requires { IsSound site.now }
{
    let mut differ: u64 = 0;
    for index in 0..count(row) {
        let point = point_at(row, index);
        let found = forms.walk(alloc, site, &packet_of(&point), &kind_of(est, &point))?;
        if found != Some(row.outcome) {
            differ = differ.saturating_add(1);
        }
    }
    Ok(differ)
}

/// How many rows agree.
fn agreeing(
    alloc: Global,
    site: &Site,
    forms: &Forms,
    est: bool,
    rows: &[Row],
) -> Result<u64, Memory>
    requires { IsSound site.now }
{
    let mut agreeing: u64 = 0;
    for row in rows {
        if differing(alloc, site, forms, est, row)? == 0 {
            agreeing = agreeing.saturating_add(1);
        }
    }
    Ok(agreeing)
}

/// Says how many of so many rows agree.
fn said_of(alloc: Global, agreeing: u64, promised: u32) -> Result<Text, Memory> {
    let mut said = Text::new(alloc);
    put_dec(&mut said, agreeing)?;
    said.put(b" of ")?;
    put_dec(&mut said, u64::from(promised))?;
    said.put(b" rows agree")?;
    Ok(said)
}

/// Walks the packets at the ends of each row of a table, and says how many rows agree.
fn judge_rows(alloc: Global, site: &Site, forms: &Forms, table: &Table) -> Result<Text, Stop>
    requires { IsSound site.now }
{
    let rows = table.rows.as_slice();
    if rows.len() as u64 != u64::from(table.promised) {
        return Err(Stop::Malformed);
    }
    let agreeing = agreeing(alloc, site, forms, table.est, rows)?;
    Ok(said_of(alloc, agreeing, table.promised)?)
}

/// Walks the packets at the ends of each row of an expected table, and says how many rows agree.
fn judge_table(alloc: Global, site: &Site, forms: &Forms, expected: &[u8]) -> Result<Text, Stop>
    requires { IsSound site.now }
{
    let table = read_table(alloc, site, expected)?;
    judge_rows(alloc, site, forms, &table)
}

/// The name of the configuration's chain with this number.
fn config_chain(config: &IptConfig, chain: u32) -> &[u8] {
    match config.chains.as_slice().get(chain as usize) {
        Some(chain) => chain.name.as_slice(),
        None => b"",
    }
}

/// The name of the diagram's chain with this number.
fn diagram_chain(diagram: &Ifcl, chain: u32) -> &[u8] {
    match diagram.chains.as_slice().get(chain as usize) {
        Some(chain) => chain.name.as_slice(),
        None => b"",
    }
}

impl Refused<'_> {
    /// Whether this is the reason and the chain.
    fn is(&self, what: &[u8], chain: &[u8]) -> bool {
        self.what == what && self.chain == chain
    }

    /// Whether a configuration is refused so.
    fn is_config_so(&self, config: &IptConfig, found: Option<UnfoldRefusal>) -> bool {
        match found {
            None => self.what == b"none".as_slice(),
            Some(UnfoldRefusal::Loop(c)) => self.is(b"loop", config_chain(config, c)),
            Some(UnfoldRefusal::Deep(c)) => self.is(b"deep", config_chain(config, c)),
            Some(UnfoldRefusal::Long(c)) => self.is(b"long", config_chain(config, c)),
        }
    }

    /// Whether a configuration is refused so by the slow model; those of other systems than iptables, which have no chains,
    /// are refused for none.
    fn is_modelled(&self, alloc: Global, site: &Site, config: Config) -> Result<bool, Memory>
        requires { IsSound site.now }
    {
        match config {
            Config::Iptables(config) => {
                let found = refusal(alloc, site, config)?;
                Ok(self.is_config_so(config, found))
            }
            Config::Ipfw(_) | Config::Pf(_) | Config::Ios(_) => Ok(self.what == b"none".as_slice()),
        }
    }

    /// Whether a diagram is refused so.
    fn is_unfolded(&self, alloc: Global, diagram: &Ifcl) -> Result<bool, Memory>
        requires { ifcl_ok diagram.now ≡ true }
    {
        match unfold(alloc, diagram) {
            Ok(_) => Ok(self.what == b"none".as_slice()),
            Err(UnfoldAnswer::Loop(c)) => Ok(self.is(b"loop", diagram_chain(diagram, c))),
            Err(UnfoldAnswer::Deep(c)) => Ok(self.is(b"deep", diagram_chain(diagram, c))),
            Err(UnfoldAnswer::Long(c)) => Ok(self.is(b"long", diagram_chain(diagram, c))),
            Err(UnfoldAnswer::Memory) => Err(Memory),
        }
    }
}

/// Says whether something agrees.
pub fn verdict(alloc: Global, agrees: bool) -> Result<Text, Memory> {
    Text::of(alloc, if agrees { b"agrees" } else { b"differs" })
}

/// Says whether a configuration and its diagram are refused so.
fn judge_refusal(
    alloc: Global,
    site: &Site,
    config: Config,
    diagram: &Ifcl,
    refused: &Refused,
) -> Result<Text, Memory>
    requires sound { IsSound site.now }
    requires ok { ifcl_ok diagram.now ≡ true }
{
    let modelled = refused.is_modelled(alloc, site, config)?;
    let unfolded = refused.is_unfolded(alloc, diagram)?;
    verdict(alloc, modelled && unfolded)
}

/// Unfolds a diagram, and judges the walks of its configuration.
fn judge_walks(
    alloc: Global,
    site: &Site,
    config: Config,
    diagram: &Ifcl,
    asked: &Asked,
) -> Result<Text, Stop>
    requires sound { IsSound site.now }
    requires ok { ifcl_ok diagram.now ≡ true }
{
    match unfold(alloc, diagram) {
        Ok(flat) => {
            let forms = Forms {
                config,
                diagram,
                flat: &flat,
            };
            judge_forms(alloc, site, &forms, asked)
        }
        Err(UnfoldAnswer::Memory) => Err(Stop::Memory),
        Err(_) => Err(Stop::Malformed),
    }
}

/// Judges the walks of a configuration in its three forms.
fn judge_forms(alloc: Global, site: &Site, forms: &Forms, asked: &Asked) -> Result<Text, Stop>
    requires { IsSound site.now }
{
    match asked {
        Asked::Table(expected) => judge_table(alloc, site, forms, expected),
        Asked::Trace(traced) => judge_trace(alloc, site, forms, traced),
        Asked::Refusal(_) => Err(Stop::Malformed),
    }
}

/// Judges a configuration that was drawn.
pub fn judge_drawn(
    alloc: Global,
    site: &Site,
    config: Config,
    diagram: &Ifcl,
    asked: &Asked,
) -> Result<Text, Stop>
    requires { IsSound site.now }
{
    if !ifcl_ok(diagram) {
        return Err(Stop::Malformed);
    }
    match asked {
        Asked::Refusal(refused) => Ok(judge_refusal(alloc, site, config, diagram, refused)?),
        Asked::Table(_) | Asked::Trace(_) => judge_walks(alloc, site, config, diagram, asked),
    }
}
