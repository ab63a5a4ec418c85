//! The chains of a policy, without the rules that send packets into the chains of trees.

ghost use Rattle.std.specs.Prelude.{◌≡◌, ◌+◌, ◌<◌, ◌≤◌, ◌^◌, [], ◌∷◌, ◌++◌, length, IfOk, OnOk, All};
ghost use Rattle.fws_net.specs.Points.{tops_of};
ghost use Rattle.fws_net.specs.Routes.{IsSound};
ghost use Rattle.fws_tree_seen.specs.declared.seen.Seen.TheVariants as seens;
ghost use Rattle.fws_tree_seen.specs.Shown.{IsTold};
ghost use Rattle.fws_ipt_put.specs.Drafts.{IsDraft, SetsMarks};
ghost use Rattle.fws_ipt_put.specs.Marks.{HaveBlocks};

use crate::builtin::{mangle_chains, put_filter, put_marks, put_nat};
use crate::marks::Mark;
use fws_ipt::{IptChain, IptTable};
use fws_ipt_put_chains::{Branch, Verdict, put_chains};
use fws_net::Site;
use fws_num::{Items, Memory};
use fws_tree::Tree;
use fws_tree_seen::Seen;
use std::alloc::Global;

/// Chains in their order, of which some built-in ones have no rules yet, and what these are to do.
#[derive(Drop)]
pub struct Draft {
    /// The chains.
    pub chains: Items<IptChain>,
    /// The number of the first chain of filter.
    pub filter: u32,
    /// What packets of connections meet as they enter.
    pub known: Items<Branch>,
    /// What new packets meet as they enter.
    pub fresh: Items<Branch>,
    /// What packets of connections meet behind routing.
    pub reply: Items<Branch>,
}

/// How many chains there are. An error is a number too large for a rule.
fn count(chains: &Items<IptChain>) -> Result<u32, Memory>
    ensures room { IfOk result (λ n. n + 3 < 2 ^ 32) }
    ensures number { IfOk result (λ n. n ≡ length chains.now) }
{
    let n = chains.len();
    if n > 4_000_000_000 {
        return Err(Memory);
    }
    Ok(n as u32)
}

/// The chains of the trees by which packets of connections and new packets are decided as they enter, and by which packets of
/// connections are decided behind routing. Fails if memory runs out.
pub(crate) fn drafted(
    alloc: Global,
    site: &Site,
    entering: &Tree<Verdict>,
    news: &Tree<Verdict>,
    routed: &Tree<Verdict>,
    marks: &[Mark],
) -> Result<Draft, Memory>
    requires sound { IsSound site.now }
    requires entering_tops { entering.now.0 ≡ tops_of site.now }
    requires news_tops { news.now.0 ≡ tops_of site.now }
    requires routed_tops { routed.now.0 ≡ tops_of site.now }
    requires entering_told { IsTold seens.Entered (tops_of site.now) entering.now.1 }
    requires news_told { IsTold seens.Entered (tops_of site.now) news.now.1 }
    requires routed_told { IsTold seens.Routed (tops_of site.now) routed.now.1 }
    requires entering_marks { SetsMarks (tops_of site.now) 0 entering.now.1 }
    requires news_marks { SetsMarks (tops_of site.now) (length marks.now) news.now.1 }
    requires routed_marks { SetsMarks (tops_of site.now) 0 routed.now.1 }
    requires blocks { All HaveBlocks marks.now }
    requires few { length marks.now + 5 < 2 ^ 32 }
    ensures { IfOk result (IsDraft site.now entering.now.1 news.now.1 routed.now.1 marks.now) }
{
    let _entering_tops = entering.tops();
    let _news_tops = news.tops();
    let _routed_tops = routed.tops();
    let mut chains = mangle_chains(alloc)?;
    put_marks(alloc, &mut chains, marks)?;
    let mangle = IptTable::Mangle;
    let known = put_chains(
        alloc,
        &mut chains,
        site,
        entering,
        mangle,
        b"known",
        Seen::Entered,
        5,
    )?;
    let fresh = put_chains(
        alloc,
        &mut chains,
        site,
        news,
        mangle,
        b"new",
        Seen::Entered,
        5,
    )?;
    put_nat(alloc, &mut chains, marks)?;
    let filter = count(&chains)?;
    put_filter(alloc, &mut chains)?;
    let table = IptTable::Filter;
    let least = filter + 3;
    let reply = put_chains(
        alloc,
        &mut chains,
        site,
        routed,
        table,
        b"reply",
        Seen::Routed,
        least,
    )?;
    Ok(Draft {
        chains,
        filter,
        known,
        fresh,
        reply,
    })
}
