//! iptables as a source and a target of policies.

use crate::language::Language;
use crate::source::Source;
use fws_flat::Flat;
use fws_ifcl::{Ifcl, Spot};
use fws_ipt::{IptConfig, unrefused_have_no_loop};
use fws_ipt_ifcl::spelled_diagrams;
use fws_ipt_print::labels_are_counted;
use fws_net::{ReadAnswer, Site};
use fws_num::{Memory, Text};
use fws_place::PlaceAnswer;
use fws_tree::Tables;
use std::alloc::Global;

/// iptables, as iptables-save(8) writes it.
pub struct Iptables;

impl Source for Iptables {
    type Config = IptConfig;

    ghost use Rattle.fws_ipt.specs.FileText.{spelled};
    ghost use Rattle.fws_ipt.specs.Uses.{used};
    ghost use Rattle.fws_ipt.specs.Walk.{walk};
    ghost use Rattle.fws_ipt_print.specs.Labels.{labels_of};
    ghost use Rattle.fws_ipt_put.specs.Placed.{tracks};
    ghost use Rattle.fws_top.specs.Judged.{ipt_refusal};

    ghost spelled = { λ site text. spelled site text };

    ghost refusal = { λ site config. ipt_refusal site config };

    ghost walk = { λ config site packet kind. walk config site packet kind };

    ghost tracks = { λ site config. tracks site config };

    ghost used = { λ config site packet kind. used config site packet kind };

    ghost labels = { λ config. labels_of config };

    fn read(alloc: Global, text: &[u8], site: &Site) -> Result<IptConfig, ReadAnswer> {
        fws_ipt_read::read(alloc, text, site)
    }

    fn to_ifcl(alloc: Global, c: &IptConfig, site: &Site) -> Result<Ifcl, Memory> {
        spelled_diagrams();
        unrefused_have_no_loop();
        fws_ipt_ifcl::to_ifcl(alloc, c, site)
    }

    fn places(alloc: Global, c: &IptConfig, site: &Site) -> Result<(Ifcl, Vec<Spot>), Memory> {
        spelled_diagrams();
        unrefused_have_no_loop();
        labels_are_counted();
        fws_ipt_ifcl::places(alloc, c, site)
    }

    fn labels(alloc: Global, c: &IptConfig) -> Result<Vec<Text>, Memory> {
        fws_ipt_print::labels(alloc, c)
    }

    fn tracks(c: &IptConfig, site: &Site) -> bool {
        fws_ipt_put::tracks(c, site)
    }

    fn spelled_walks_are_regular() {
        fws_ipt::spelled_walks_are_regular();
    }
}

impl Language for Iptables {
    ghost use Rattle.fws_ipt_print.specs.Printable.{is_printable};
    ghost use Rattle.fws_net.specs.declared.packet.Lang.TheVariants as langs;

    ghost system = { langs.Iptables };

    ghost printable = { λ site config. is_printable site config };

    fn place(alloc: Global, t: &Tables, site: &Site) -> Result<IptConfig, PlaceAnswer> {
        fws_ipt_put::place(alloc, t, site)
    }

    fn print(alloc: Global, c: &IptConfig, site: &Site) -> Result<Text, Memory> {
        fws_ipt_print::print(alloc, c, site)
    }

    fn suggest(alloc: Global, t: &Tables, site: &Site, hints: &Flat) -> Result<Vec<Text>, Memory> {
        fws_ipt_suggest::suggest(alloc, t, site, hints)
    }
}
