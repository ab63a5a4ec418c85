//! The site at which texts are judged.

ghost use Rattle.fws_net.specs.Routes.{IsSound};

use fws_net::{Lang, Names, Site, SiteAnswer, read_site};
use fws_num::Memory;
use std::alloc::Global;

/// A site that was read.
#[derive(Drop)]
pub(crate) struct Ground {
    pub(crate) site: Site,
    ghost sound: { IsSound site },
}

/// The site of the bytes, if they spell one.
pub(crate) fn ground_of(alloc: Global, bytes: &[u8]) -> Result<Option<Ground>, Memory> {
    match read_site(alloc, bytes) {
        Ok(site) => Ok(Some(Ground { site })),
        Err(SiteAnswer::Memory) => Err(Memory),
        Err(SiteAnswer::Refused { line: _, cause: _ }) => Ok(None),
    }
}

/// A name in one of the systems.
pub(crate) fn name_in(names: &Names, system: Lang) -> &[u8] {
    match system {
        Lang::Iptables => names.ipt.as_slice(),
        Lang::Ipfw => names.ipfw.as_slice(),
        Lang::Pf => names.pf.as_slice(),
        Lang::Ios => names.ios.as_slice(),
    }
}

impl Ground {
    /// The name of the first interface in a system.
    pub(crate) fn first_name(&self, system: Lang) -> &[u8] {
        match self.site.faces.as_slice().first() {
            Some(face) => name_in(&face.names, system),
            None => &[],
        }
    }

    /// The name in tables of the interface with a name in a system, loopback among them.
    pub(crate) fn entry_of(&self, system: Lang, name: &[u8]) -> Option<&[u8]> {
        if name_in(&self.site.lo, system) == name {
            return Some(b"lo");
        }
        for face in self.site.faces.as_slice() {
            if name_in(&face.names, system) == name {
                return Some(face.name.as_slice());
            }
        }
        None
    }
}
