//! Packets that are accepted with a rewriting of a kind.

ghost use Rattle.std.specs.Prelude.{◌≡◌, nat_eq, true, Option, IfOk};
ghost use Rattle.std.specs.Option.{option_map_or};
ghost use Rattle.fws_net.specs.Points.{tops_of};
ghost use Rattle.fws_net.specs.Routes.{IsSound};
ghost use Rattle.fws_place.specs.Asked.{passes, IsSoughtPacket};
ghost use Rattle.fws_place.specs.Clauses.{IsAcceptedWith};
ghost use Rattle.fws_place.specs.Rewritings.{is_network, writes_source_port};
ghost use Rattle.fws_place.specs.Seen.{Tells};
ghost use Rattle.fws_tree.specs.Regular.{AreRegular};

use crate::breach::Pair;
use crate::naming::named_packet;
use fws_net::{End, Outcome, Rewrite, Site};
use fws_num::Memory;
use fws_tree::{Relabelling, Tables, Tree};
use std::alloc::Global;

/// What is asked of the rewriting of a packet that is accepted.
#[derive(Clone, Copy)]
pub(crate) enum Asked {
    /// A source is written.
    Source,
    /// The port of a source is written.
    SourcePort,
    /// A destination is written.
    Destination,
    /// Less than a whole address is written.
    Network,
}

// Whether a source port is written.
fn writes_port(rewrite: &Rewrite) -> bool
    ensures { result ≡ writes_source_port rewrite.now }
{
    match rewrite.src {
        Some(end) => end.port.is_some(),
        None => false,
    }
}

// Whether less than a whole address is written.
fn is_network(end: &Option<End>) -> bool
    ensures { result ≡ is_network end.now }
{
    match end {
        Some(end) => end.len < 32,
        None => false,
    }
}

// Whether the rewriting has what is asked.
fn passes(asked: Asked, rewrite: &Rewrite) -> bool
    ensures { result ≡ passes asked rewrite.now }
{
    match asked {
        Asked::Source => rewrite.src.is_some(),
        Asked::SourcePort => writes_port(rewrite),
        Asked::Destination => rewrite.dst.is_some(),
        Asked::Network => is_network(&rewrite.src) || is_network(&rewrite.dst),
    }
}

/// Whether an outcome accepts with a rewriting that has what is asked.
#[derive(Drop)]
struct AcceptedWith(Asked);

impl Relabelling<Outcome, bool> for AcceptedWith {
    ghost use Rattle.fws_place.specs.Asked.{passes};
    ghost use Rattle.fws_place.specs.Rewritings.{is_accepted_with};

    ghost gives = { λ s o. is_accepted_with (passes s.0) o };

    fn leaf(&self, _alloc: Global, leaf: &Outcome) -> Result<bool, Memory> {
        match leaf {
            Outcome::Drop => Ok(false),
            Outcome::Accept(rewrite) => Ok(passes(self.0, rewrite)),
        }
    }
}

/// The tree that tells of each new packet whether it is accepted with a rewriting that has what is asked, whatever ends stand
/// behind it. Fails if memory runs out.
pub(crate) fn accepted_with(
    alloc: Global,
    site: &Site,
    tables: &Tables,
    asked: Asked,
) -> Result<Tree<bool>, Memory>
    requires { AreRegular site.now tables.now }
    ensures tops { IfOk result (λ t. t.0 ≡ tops_of site.now) }
    ensures tells { IfOk result (λ t. Tells site.now (λ p r. IsAcceptedWith tables.now (passes asked) p) t.1) }
{
    tables.fresh.relabel(alloc, &AcceptedWith(asked))
}

/// A new packet that is accepted with a rewriting that has what is asked, if there is one. Fails if memory runs out.
pub(crate) fn packet_with(
    alloc: Global,
    site: &Site,
    tables: &Tables,
    asked: Asked,
) -> Result<Option<(Pair, Option<Pair>)>, Memory>
    requires sound { IsSound site.now }
    requires regular { AreRegular site.now tables.now }
    ensures { IfOk result (IsSoughtPacket site.now (IsAcceptedWith tables.now (passes asked))) }
{
    let tree = accepted_with(alloc, site, tables, asked)?;
    named_packet(alloc, site, &tree)
}
