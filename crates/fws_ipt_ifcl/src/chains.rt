//! The chains of the diagram.

ghost use Rattle.std.specs.Prelude.{◌≡◌, ◌++◌, [], ◌∷◌, codes, map, IfOk};
ghost use Rattle.fws_net.specs.Routes.{IsSound};
ghost use Rattle.fws_ipt_ifcl.specs.Diagram.{own_chain, own_chains, headed, is_on_source, chain_for};

use crate::blocks::put_unfolded;
use crate::side::SideTest;
use fws_ifcl::{Act, Chain, Rule};
use fws_ifcl_rules::{always, ruled_by};
use fws_ipt::{Hook, IptChain, IptTable};
use fws_net::{Site, Test};
use fws_num::{Items, Memory, Text};
use fws_rules::positive;
use std::alloc::Global;

/// A chain of the diagram's own, with one rule. Fails if memory runs out.
fn own_chain(alloc: Global, name: &[u8], act: Act) -> Result<Chain, Memory>
    ensures { IfOk result (λ chain. chain ≡ own_chain name.now act) }
{
    let mut rules = Items::new(alloc);
    rules.put(always(alloc, act))?;
    Ok(Chain {
        name: Text::of(alloc, name)?,
        rules,
    })
}

/// The chains that begin the diagram. Fails if memory runs out.
fn own_chains(alloc: Global) -> Result<Items<Chain>, Memory>
    ensures { IfOk result (λ chains. chains ≡ own_chains) }
{
    let mut chains = Items::new(alloc);
    chains.put(own_chain(alloc, b"mark", Act::OnlyTag(0))?)?;
    chains.put(own_chain(alloc, b"destination", Act::RecDst)?)?;
    chains.put(own_chain(alloc, b"source", Act::RecSrc)?)?;
    Ok(chains)
}

/// The rules that begin a chain: in a built-in chain of nat one that accepts what belongs to a connection. Fails if memory runs
/// out.
fn headed(alloc: Global, table: IptTable, policy: Option<bool>) -> Result<Vec<Rule>, Memory>
    ensures { IfOk result (λ rules. rules.items ≡ headed table policy) }
{
    let mut rules = Vec::new(alloc);
    match (table, policy) {
        (IptTable::Nat, Some(_)) => {
            rules.push(ruled_by(alloc, positive(Test::Est), Act::Accept)?)?;
            Ok(rules)
        }
        (IptTable::Nat, None) => Ok(rules),
        (IptTable::Filter | IptTable::Mangle, _) => Ok(rules),
    }
}

/// Whether it is the name of the built-in chains in which sources are written.
fn is_on_source(name: &[u8]) -> bool
    ensures { result ≡ is_on_source name.now }
{
    name == Hook::Input.name() || name == Hook::Postrouting.name()
}

/// The chain for one of the file's. Fails if memory runs out.
fn chain_for(alloc: Global, test: SideTest, site: &Site, chain: &IptChain) -> Result<Chain, Memory>
    requires { IsSound site.now }
    ensures { IfOk result (λ made. made ≡ chain_for test site.now chain.now) }
{
    let on_source = is_on_source(chain.name.as_slice());
    let mut rules = headed(alloc, chain.table, chain.policy)?;
    for rule in chain.rules.as_slice() {
        put_unfolded(alloc, test, site, on_source, rule, &mut rules)?;
    }
    Ok(Chain {
        name: chain.name.copy(alloc)?,
        rules: Items::from_vec(rules),
    })
}

/// The diagram's own chains, and behind them one for each of the file's. Fails if memory runs out.
pub(crate) fn chains_for(
    alloc: Global,
    test: SideTest,
    site: &Site,
    chains: &[IptChain],
) -> Result<Items<Chain>, Memory>
    requires { IsSound site.now }
    ensures { IfOk result (λ made. made ≡ own_chains ++ map (chain_for test site.now) chains.now) }
{
    let mut made = own_chains(alloc)?;
    for chain in chains {
        made.put(chain_for(alloc, test, site, chain)?)?;
    }
    Ok(made)
}
