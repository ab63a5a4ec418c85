//! ipfw as a source and a target of policies.

use crate::language::Language;
use crate::source::Source;
use fws_flat::Flat;
use fws_ifcl::{Ifcl, Spot};
use fws_ipfw::IpfwConfig;
use fws_ipfw_ifcl::spelled_diagrams;
use fws_ipfw_print::labels_are_counted;
use fws_net::{ReadAnswer, Site};
use fws_num::{Memory, Text};
use fws_place::PlaceAnswer;
use fws_tree::Tables;
use std::alloc::Global;

/// ipfw, as `ipfw list` and scripts write its rules (ipfw(8)).
pub struct Ipfw;

impl Source for Ipfw {
    type Config = IpfwConfig;

    ghost use Rattle.fws_ipfw.specs.FileText.{spelled};
    ghost use Rattle.fws_ipfw.specs.Uses.{used};
    ghost use Rattle.fws_ipfw.specs.Walk.{walk};
    ghost use Rattle.fws_ipfw_print.specs.Labels.{labels_of};
    ghost use Rattle.fws_ipfw_put.specs.Placed.{tracks};
    ghost use Rattle.fws_top.specs.Judged.{ipfw_refusal};

    ghost spelled = { λ site text. spelled site text };

    ghost refusal = { λ site config. ipfw_refusal site config };

    ghost walk = { λ config site packet kind. walk config site packet kind };

    ghost tracks = { λ site config. tracks site config };

    ghost used = { λ config site packet kind. used config site packet kind };

    ghost labels = { λ config. labels_of config };

    fn read(alloc: Global, text: &[u8], site: &Site) -> Result<IpfwConfig, ReadAnswer> {
        fws_ipfw_read::read(alloc, text, site)
    }

    fn to_ifcl(alloc: Global, c: &IpfwConfig, site: &Site) -> Result<Ifcl, Memory> {
        spelled_diagrams();
        fws_ipfw_ifcl::to_ifcl(alloc, c, site)
    }

    fn places(alloc: Global, c: &IpfwConfig, site: &Site) -> Result<(Ifcl, Vec<Spot>), Memory> {
        spelled_diagrams();
        labels_are_counted();
        fws_ipfw_ifcl::places(alloc, c, site)
    }

    fn labels(alloc: Global, c: &IpfwConfig) -> Result<Vec<Text>, Memory> {
        fws_ipfw_print::labels(alloc, c)
    }

    fn tracks(c: &IpfwConfig, site: &Site) -> bool {
        fws_ipfw_put::tracks(c, site)
    }

    fn spelled_walks_are_regular() {
        fws_ipfw::spelled_walks_are_regular();
    }
}

impl Language for Ipfw {
    ghost use Rattle.fws_ipfw_print.specs.Printable.{is_printable};
    ghost use Rattle.fws_net.specs.declared.packet.Lang.TheVariants as langs;

    ghost system = { langs.Ipfw };

    ghost printable = { λ site config. is_printable site config };

    fn place(alloc: Global, t: &Tables, site: &Site) -> Result<IpfwConfig, PlaceAnswer> {
        fws_ipfw_put::place(alloc, t, site)
    }

    fn print(alloc: Global, c: &IpfwConfig, site: &Site) -> Result<Text, Memory> {
        fws_ipfw_print::print(alloc, c, site)
    }

    fn suggest(alloc: Global, t: &Tables, site: &Site, hints: &Flat) -> Result<Vec<Text>, Memory> {
        fws_ipfw_suggest::suggest(alloc, t, site, hints)
    }
}
