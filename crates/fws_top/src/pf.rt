//! pf of FreeBSD as a source and a target of policies.

use crate::language::Language;
use crate::source::Source;
use fws_flat::Flat;
use fws_ifcl::{Ifcl, Spot};
use fws_net::{ReadAnswer, Site};
use fws_num::{Memory, Text};
use fws_pf::PfConfig;
use fws_pf_print::labels_are_counted;
use fws_place::PlaceAnswer;
use fws_tree::Tables;
use std::alloc::Global;

/// pf of FreeBSD, as pf.conf(5) writes its rules.
pub struct Pf;

impl Source for Pf {
    type Config = PfConfig;

    ghost use Rattle.fws_pf.specs.FileText.{spelled};
    ghost use Rattle.fws_pf.specs.Uses.{used};
    ghost use Rattle.fws_pf.specs.Walk.{walk};
    ghost use Rattle.fws_pf_print.specs.Labels.{labels_of};
    ghost use Rattle.fws_pf_put.specs.Placed.{tracks};
    ghost use Rattle.fws_top.specs.Judged.{pf_refusal};

    ghost spelled = { λ site text. spelled site text };

    ghost refusal = { λ site config. pf_refusal site config };

    ghost walk = { λ config site packet kind. walk config site packet kind };

    ghost tracks = { λ site config. tracks site config };

    ghost used = { λ config site packet kind. used config site packet kind };

    ghost labels = { λ config. labels_of config };

    fn read(alloc: Global, text: &[u8], site: &Site) -> Result<PfConfig, ReadAnswer> {
        fws_pf_read::read(alloc, text, site)
    }

    fn to_ifcl(alloc: Global, c: &PfConfig, site: &Site) -> Result<Ifcl, Memory> {
        fws_pf_ifcl::to_ifcl(alloc, c, site)
    }

    fn places(alloc: Global, c: &PfConfig, site: &Site) -> Result<(Ifcl, Vec<Spot>), Memory> {
        labels_are_counted();
        fws_pf_ifcl::places(alloc, c, site)
    }

    fn labels(alloc: Global, c: &PfConfig) -> Result<Vec<Text>, Memory> {
        fws_pf_print::labels(alloc, c)
    }

    fn tracks(c: &PfConfig, site: &Site) -> bool {
        fws_pf_put::tracks(c, site)
    }

    fn spelled_walks_are_regular() {
        fws_pf::spelled_walks_are_regular();
    }
}

impl Language for Pf {
    ghost use Rattle.fws_net.specs.declared.packet.Lang.TheVariants as langs;
    ghost use Rattle.fws_pf_print.specs.Printable.{is_printable};

    ghost system = { langs.Pf };

    ghost printable = { λ site config. is_printable site config };

    fn place(alloc: Global, t: &Tables, site: &Site) -> Result<PfConfig, PlaceAnswer> {
        fws_pf_put::place(alloc, t, site)
    }

    fn print(alloc: Global, c: &PfConfig, site: &Site) -> Result<Text, Memory> {
        fws_pf_print::print(alloc, c, site)
    }

    fn suggest(alloc: Global, t: &Tables, site: &Site, hints: &Flat) -> Result<Vec<Text>, Memory> {
        fws_pf_suggest::suggest(alloc, t, site, hints)
    }
}
