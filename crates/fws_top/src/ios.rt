//! Cisco IOS as a source and a target of policies.

use crate::language::Language;
use crate::source::Source;
use fws_flat::Flat;
use fws_ifcl::{Ifcl, Spot};
use fws_ios::IosConfig;
use fws_ios_print::labels_are_counted;
use fws_net::{ReadAnswer, Site};
use fws_num::{Memory, Text};
use fws_place::PlaceAnswer;
use fws_tree::Tables;
use std::alloc::Global;

/// Cisco IOS, as a running configuration writes access lists and NAT.
pub struct Ios;

impl Source for Ios {
    type Config = IosConfig;

    ghost use Rattle.fws_ios.specs.FileText.{spelled};
    ghost use Rattle.fws_ios.specs.Uses.{used};
    ghost use Rattle.fws_ios.specs.Walk.{walk};
    ghost use Rattle.fws_ios_print.specs.Labels.{labels_of};
    ghost use Rattle.fws_ios_put.specs.Placed.{tracks};
    ghost use Rattle.fws_top.specs.Judged.{ios_refusal};

    ghost spelled = { λ site text. spelled site text };

    ghost refusal = { λ site config. ios_refusal site config };

    ghost walk = { λ config site packet kind. walk config site packet kind };

    ghost tracks = { λ site config. tracks site config };

    ghost used = { λ config site packet kind. used config site packet kind };

    ghost labels = { λ config. labels_of config };

    fn read(alloc: Global, text: &[u8], site: &Site) -> Result<IosConfig, ReadAnswer> {
        fws_ios_read::read(alloc, text, site)
    }

    fn to_ifcl(alloc: Global, c: &IosConfig, site: &Site) -> Result<Ifcl, Memory> {
        fws_ios_ifcl::to_ifcl(alloc, c, site)
    }

    fn places(alloc: Global, c: &IosConfig, site: &Site) -> Result<(Ifcl, Vec<Spot>), Memory> {
        labels_are_counted();
        fws_ios_ifcl::places(alloc, c, site)
    }

    fn labels(alloc: Global, c: &IosConfig) -> Result<Vec<Text>, Memory> {
        fws_ios_print::labels(alloc, c)
    }

    fn tracks(c: &IosConfig, site: &Site) -> bool {
        fws_ios_put::tracks(c, site)
    }

    fn spelled_walks_are_regular() {
        fws_ios::spelled_walks_are_regular();
    }
}

impl Language for Ios {
    ghost use Rattle.fws_ios_print.specs.Printable.{is_printable};
    ghost use Rattle.fws_net.specs.declared.packet.Lang.TheVariants as langs;

    ghost system = { langs.Ios };

    ghost printable = { λ site config. is_printable site config };

    fn place(alloc: Global, t: &Tables, site: &Site) -> Result<IosConfig, PlaceAnswer> {
        fws_ios_put::place(alloc, t, site)
    }

    fn print(alloc: Global, c: &IosConfig, site: &Site) -> Result<Text, Memory> {
        fws_ios_print::print(alloc, c, site)
    }

    fn suggest(alloc: Global, t: &Tables, site: &Site, hints: &Flat) -> Result<Vec<Text>, Memory> {
        fws_ios_suggest::suggest(alloc, t, site, hints)
    }
}
