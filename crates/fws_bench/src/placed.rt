//! The two diagrams of a file: that which is executed for tables, and that which tells which rules packets use.

ghost use Rattle.std.specs.Prelude.{◌≡◌, true, IfOk};
ghost use Rattle.fws_ifcl.specs.Soundness.{ifcl_ok};
ghost use Rattle.fws_ipfw_ifcl.specs.Fitting.{IsDrawable};
ghost use Rattle.fws_net.specs.Routes.{IsSound};

use crate::execution::read_file;
use crate::stop::Stop;
use fws_ifcl::Ifcl;
use fws_io::Shelf;
use fws_ios_ifcl::{places as place_ios, to_ifcl as draw_ios};
use fws_ios_read::read as read_ios;
use fws_ipfw::IpfwConfig;
use fws_ipfw_ifcl::{places as place_ipfw, spelled_diagrams, to_ifcl as draw_ipfw};
use fws_ipfw_read::read as read_ipfw;
use fws_ipt_ifcl::{places as place_ipt, to_ifcl as draw_ipt};
use fws_ipt_read::read as read_ipt;
use fws_net::{Site, read_site};
use fws_num::{Text, value_named};
use fws_pf_ifcl::{places as place_pf, to_ifcl as draw_pf};
use fws_pf_read::read as read_pf;
use fws_unfold::unfold;
use std::alloc::Global;

/// A language of configurations.
#[derive(Clone, Copy)]
enum Language {
    /// iptables.
    Iptables,
    /// ipfw.
    Ipfw,
    /// pf of FreeBSD.
    Pf,
    /// Cisco IOS.
    Ios,
}

/// The words for languages.
const LANGUAGES: [(&[u8], Language); 4] = [
    (b"iptables", Language::Iptables),
    (b"ipfw", Language::Ipfw),
    (b"pf", Language::Pf),
    (b"ios", Language::Ios),
];

/// How many instructions two diagrams unfold to.
fn count_unfolded(alloc: Global, drawn: &Ifcl, placed: &Ifcl) -> Result<[usize; 2], Stop>
    requires drawn { ifcl_ok drawn.now ≡ true }
    requires placed { ifcl_ok placed.now ≡ true }
{
    let first = unfold(alloc, drawn)?;
    let second = unfold(alloc, placed)?;
    Ok([first.code.len(), second.code.len()])
}

/// How many instructions the diagrams of a text of iptables unfold to.
fn count_ipt(alloc: Global, site: &Site, text: &[u8]) -> Result<[usize; 2], Stop>
    requires { IsSound site.now }
{
    let config = read_ipt(alloc, text, site)?;
    let drawn = draw_ipt(alloc, &config, site)?;
    let (placed, _) = place_ipt(alloc, &config, site)?;
    count_unfolded(alloc, &drawn, &placed)
}

/// A configuration of ipfw that a text spells, which can be drawn.
fn drawable(alloc: Global, site: &Site, text: &[u8]) -> Result<IpfwConfig, Stop>
    requires { IsSound site.now }
    ensures { IfOk result (λ config. IsDrawable config) }
{
    spelled_diagrams();
    let config = read_ipfw(alloc, text, site)?;
    Ok(config)
}

/// How many instructions the diagrams of a text of ipfw unfold to.
fn count_ipfw(alloc: Global, site: &Site, text: &[u8]) -> Result<[usize; 2], Stop>
    requires { IsSound site.now }
{
    let config = drawable(alloc, site, text)?;
    let drawn = draw_ipfw(alloc, &config, site)?;
    let (placed, _) = place_ipfw(alloc, &config, site)?;
    count_unfolded(alloc, &drawn, &placed)
}

/// How many instructions the diagrams of a text of pf unfold to.
fn count_pf(alloc: Global, site: &Site, text: &[u8]) -> Result<[usize; 2], Stop>
    requires { IsSound site.now }
{
    let config = read_pf(alloc, text, site)?;
    let drawn = draw_pf(alloc, &config, site)?;
    let (placed, _) = place_pf(alloc, &config, site)?;
    count_unfolded(alloc, &drawn, &placed)
}

/// How many instructions the diagrams of a text of Cisco IOS unfold to.
fn count_ios(alloc: Global, site: &Site, text: &[u8]) -> Result<[usize; 2], Stop>
    requires { IsSound site.now }
{
    let config = read_ios(alloc, text, site)?;
    let drawn = draw_ios(alloc, &config, site)?;
    let (placed, _) = place_ios(alloc, &config, site)?;
    count_unfolded(alloc, &drawn, &placed)
}

/// How many instructions the diagrams of a text unfold to.
fn count_of_text(
    alloc: Global,
    language: Language,
    site: &Site,
    text: &[u8],
) -> Result<[usize; 2], Stop>
    requires { IsSound site.now }
{
    match language {
        Language::Iptables => count_ipt(alloc, site, text),
        Language::Ipfw => count_ipfw(alloc, site, text),
        Language::Pf => count_pf(alloc, site, text),
        Language::Ios => count_ios(alloc, site, text),
    }
}

/// The same of a text at the site of another one.
fn count_at(
    alloc: Global,
    language: Language,
    site: &[u8],
    text: &[u8],
) -> Result<[usize; 2], Stop> {
    let site = read_site(alloc, site)?;
    count_of_text(alloc, language, &site, text)
}

/// How many instructions the diagram of a file unfolds to, and how many that which tells which rules are used.
pub fn count_placed<S: Shelf>(
    alloc: Global,
    shelf: &mut S,
    language: &Text,
    site: &Text,
    file: &Text,
) -> Result<[usize; 2], Stop> {
    let Some(language) = value_named(&LANGUAGES, language.as_slice()) else {
        return Err(Stop::Words);
    };
    let site = read_file(alloc, shelf, site)?;
    let text = read_file(alloc, shelf, file)?;
    count_at(alloc, language, site.as_slice(), text.as_slice())
}
