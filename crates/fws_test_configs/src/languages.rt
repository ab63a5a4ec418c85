//! Languages of configurations: how texts of each are read and drawn, and how packets walk in them.

ghost use Rattle.std.specs.Prelude.{IfOk};
ghost use Rattle.fws_net.specs.Routes.{IsSound};
ghost use Rattle.fws_ipfw_ifcl.specs.Fitting.{IsDrawable};

use crate::judging::{Asked, judge_drawn};
use crate::stop::Stop;
use fws_ios::IosConfig;
use fws_ios::model::walk_packet as walk_ios;
use fws_ios_ifcl::to_ifcl as draw_ios;
use fws_ios_read::read as read_ios;
use fws_ipfw::IpfwConfig;
use fws_ipfw::model::walk_packet as walk_ipfw;
use fws_ipfw_ifcl::{spelled_diagrams, to_ifcl as draw_ipfw};
use fws_ipfw_read::read as read_ipfw;
use fws_ipt::IptConfig;
use fws_ipt::model::walk_packet as walk_ipt;
use fws_ipt_ifcl::to_ifcl as draw_ipt;
use fws_ipt_read::read as read_ipt;
use fws_net::{Kind, Outcome, Packet, ReadAnswer, Site};
use fws_num::{Memory, Text, value_named};
use fws_pf::PfConfig;
use fws_pf::model::walk_packet as walk_pf;
use fws_pf_ifcl::to_ifcl as draw_pf;
use fws_pf_read::read as read_pf;
use std::alloc::Global;

/// A language of configurations.
#[derive(Clone, Copy)]
pub enum Language {
    /// iptables, as iptables-save(8) writes it.
    Iptables,
    /// ipfw, as `ipfw list` and scripts write its rules (ipfw(8)).
    Ipfw,
    /// pf of FreeBSD, as pf.conf(5) writes its rules.
    Pf,
    /// Cisco IOS, as a running configuration writes access lists and NAT.
    Ios,
}

/// A configuration of one of the languages.
#[derive(Clone, Copy)]
pub enum Config<'a> {
    /// Of iptables.
    Iptables(&'a IptConfig),
    /// Of ipfw.
    Ipfw(&'a IpfwConfig),
    /// Of pf.
    Pf(&'a PfConfig),
    /// Of Cisco IOS.
    Ios(&'a IosConfig),
}

/// The names of languages.
const LANGUAGES: [(&[u8], Language); 4] = [
    (b"iptables", Language::Iptables),
    (b"ipfw", Language::Ipfw),
    (b"pf", Language::Pf),
    (b"ios", Language::Ios),
];

/// The language of this name.
pub fn language_of(word: &[u8]) -> Result<Language, Stop> {
    value_named(&LANGUAGES, word).ok_or(Stop::Malformed)
}

/// Reads a text of iptables, and gives how it is refused.
fn try_ipt(alloc: Global, site: &Site, text: &[u8]) -> Result<(), ReadAnswer>
    requires { IsSound site.now }
{
    match read_ipt(alloc, text, site) {
        Ok(_) => Ok(()),
        Err(answer) => Err(answer),
    }
}

/// Reads a text of ipfw, and gives how it is refused.
fn try_ipfw(alloc: Global, site: &Site, text: &[u8]) -> Result<(), ReadAnswer>
    requires { IsSound site.now }
{
    match read_ipfw(alloc, text, site) {
        Ok(_) => Ok(()),
        Err(answer) => Err(answer),
    }
}

/// Reads a text of pf, and gives how it is refused.
fn try_pf(alloc: Global, site: &Site, text: &[u8]) -> Result<(), ReadAnswer>
    requires { IsSound site.now }
{
    match read_pf(alloc, text, site) {
        Ok(_) => Ok(()),
        Err(answer) => Err(answer),
    }
}

/// Reads a text of Cisco IOS, and gives how it is refused.
fn try_ios(alloc: Global, site: &Site, text: &[u8]) -> Result<(), ReadAnswer>
    requires { IsSound site.now }
{
    match read_ios(alloc, text, site) {
        Ok(_) => Ok(()),
        Err(answer) => Err(answer),
    }
}

impl Language {
    /// Reads a text, and gives how it is refused.
    pub fn try_text(self, alloc: Global, site: &Site, text: &[u8]) -> Result<(), ReadAnswer>
        requires { IsSound site.now }
    {
        match self {
            Language::Iptables => try_ipt(alloc, site, text),
            Language::Ipfw => try_ipfw(alloc, site, text),
            Language::Pf => try_pf(alloc, site, text),
            Language::Ios => try_ios(alloc, site, text),
        }
    }

    /// Judges the configuration of a text.
    pub fn judge(self, alloc: Global, site: &Site, text: &[u8], asked: &Asked) -> Result<Text, Stop>
        requires { IsSound site.now }
    {
        match self {
            Language::Iptables => judge_ipt(alloc, site, text, asked),
            Language::Ipfw => judge_ipfw(alloc, site, text, asked),
            Language::Pf => judge_pf(alloc, site, text, asked),
            Language::Ios => judge_ios(alloc, site, text, asked),
        }
    }
}

/// Judges the configuration of a text of iptables.
fn judge_ipt(alloc: Global, site: &Site, text: &[u8], asked: &Asked) -> Result<Text, Stop>
    requires { IsSound site.now }
{
    match read_ipt(alloc, text, site) {
        Ok(config) => judge_read_ipt(alloc, site, &config, asked),
        Err(_) => Err(Stop::Malformed),
    }
}

/// Judges a configuration of iptables.
fn judge_read_ipt(
    alloc: Global,
    site: &Site,
    config: &IptConfig,
    asked: &Asked,
) -> Result<Text, Stop>
    requires { IsSound site.now }
{
    let diagram = draw_ipt(alloc, config, site)?;
    judge_drawn(alloc, site, Config::Iptables(config), &diagram, asked)
}

/// A configuration of ipfw that a text spells, which can be drawn.
fn drawable(alloc: Global, site: &Site, text: &[u8]) -> Result<IpfwConfig, ReadAnswer>
    requires { IsSound site.now }
    ensures { IfOk result (λ config. IsDrawable config) }
{
    spelled_diagrams();
    let config = read_ipfw(alloc, text, site)?;
    Ok(config)
}

/// Judges the configuration of a text of ipfw.
fn judge_ipfw(alloc: Global, site: &Site, text: &[u8], asked: &Asked) -> Result<Text, Stop>
    requires { IsSound site.now }
{
    match drawable(alloc, site, text) {
        Ok(config) => judge_read_ipfw(alloc, site, &config, asked),
        Err(_) => Err(Stop::Malformed),
    }
}

/// Judges a configuration of ipfw.
fn judge_read_ipfw(
    alloc: Global,
    site: &Site,
    config: &IpfwConfig,
    asked: &Asked,
) -> Result<Text, Stop>
    requires sound { IsSound site.now }
    requires drawable { IsDrawable config.now }
{
    let diagram = draw_ipfw(alloc, config, site)?;
    judge_drawn(alloc, site, Config::Ipfw(config), &diagram, asked)
}

/// Judges the configuration of a text of pf.
fn judge_pf(alloc: Global, site: &Site, text: &[u8], asked: &Asked) -> Result<Text, Stop>
    requires { IsSound site.now }
{
    match read_pf(alloc, text, site) {
        Ok(config) => judge_read_pf(alloc, site, &config, asked),
        Err(_) => Err(Stop::Malformed),
    }
}

/// Judges a configuration of pf.
fn judge_read_pf(alloc: Global, site: &Site, config: &PfConfig, asked: &Asked) -> Result<Text, Stop>
    requires { IsSound site.now }
{
    let diagram = draw_pf(alloc, config, site)?;
    judge_drawn(alloc, site, Config::Pf(config), &diagram, asked)
}

/// Judges the configuration of a text of Cisco IOS.
fn judge_ios(alloc: Global, site: &Site, text: &[u8], asked: &Asked) -> Result<Text, Stop>
    requires { IsSound site.now }
{
    match read_ios(alloc, text, site) {
        Ok(config) => judge_read_ios(alloc, site, &config, asked),
        Err(_) => Err(Stop::Malformed),
    }
}

/// Judges a configuration of Cisco IOS.
fn judge_read_ios(
    alloc: Global,
    site: &Site,
    config: &IosConfig,
    asked: &Asked,
) -> Result<Text, Stop>
    requires { IsSound site.now }
{
    let diagram = draw_ios(alloc, config, site)?;
    judge_drawn(alloc, site, Config::Ios(config), &diagram, asked)
}

/// What a configuration makes of a packet of a class, by the slow model.
pub fn walk_config(
    alloc: Global,
    config: Config,
    site: &Site,
    packet: &Packet,
    kind: &Kind,
) -> Result<Outcome, Memory>
    requires { IsSound site.now }
{
    match config {
        Config::Iptables(config) => walk_ipt(alloc, config, site, packet, kind),
        Config::Ipfw(config) => walk_ipfw(alloc, config, site, packet, kind),
        Config::Pf(config) => walk_pf(alloc, config, site, packet, kind),
        Config::Ios(config) => walk_ios(alloc, config, site, packet, kind),
    }
}
