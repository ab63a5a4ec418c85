//! pf of OpenBSD as a source of policies.

use crate::source::Source;
use fws_ifcl::{Ifcl, Spot};
use fws_net::{ReadAnswer, Site};
use fws_num::{Memory, Text};
use fws_pfo::{PfoConfig, spelled_fits};
use std::alloc::Global;

/// pf of OpenBSD, as its pf.conf(5) writes its rules. No command asks for its rules: none has a label.
pub struct Openbsd;

impl Source for Openbsd {
    type Config = PfoConfig;

    ghost use Rattle.std.specs.Prelude.{[]};
    ghost use Rattle.fws_pfo.specs.FileText.{spelled};
    ghost use Rattle.fws_pfo.specs.Tracks.{tracks};
    ghost use Rattle.fws_pfo.specs.Walk.{walk};
    ghost use Rattle.fws_top.specs.Judged.{pfo_refusal};

    ghost spelled = { λ site text. spelled site text };

    ghost refusal = { λ site config. pfo_refusal site config };

    ghost walk = { λ config site packet kind. walk config site packet kind };

    ghost tracks = { λ site config. tracks site config };

    ghost used = { λ config site packet kind. [] };

    ghost labels = { λ config. [] };

    fn read(alloc: Global, text: &[u8], site: &Site) -> Result<PfoConfig, ReadAnswer> {
        fws_pfo_read::read(alloc, text, site)
    }

    fn to_ifcl(alloc: Global, c: &PfoConfig, site: &Site) -> Result<Ifcl, Memory> {
        spelled_fits();
        fws_pfo_ifcl::to_ifcl(alloc, c, site)
    }

    fn places(alloc: Global, c: &PfoConfig, site: &Site) -> Result<(Ifcl, Vec<Spot>), Memory> {
        let diagram = Openbsd::to_ifcl(alloc, c, site)?;
        Ok((diagram, Vec::new(alloc)))
    }

    fn labels(alloc: Global, _c: &PfoConfig) -> Result<Vec<Text>, Memory> {
        Ok(Vec::new(alloc))
    }

    fn tracks(c: &PfoConfig, site: &Site) -> bool {
        fws_pfo::tracks(c, site)
    }

    fn spelled_walks_are_regular() {
        fws_pfo::spelled_walks_are_regular();
    }
}
