//! Redirects: the order in which they are tried, what they ask for and what they write.

ghost use Rattle.std.specs.Prelude.{◌≡◌, ◌++◌, ◌∷◌, [], IfOk, OnOk};
ghost use Rattle.std.specs.List.{filter};
ghost use Rattle.fws_net.specs.declared.condition.Test.TheVariants.{Proto};
ghost use Rattle.fws_ipfw_ifcl.specs.Translating.{asking, by_trial, comes_from, goes_to, is_of_address, is_of_ports, just, writing};
ghost use Rattle.fws_rules.specs.Literals.{one};

use fws_ifcl::Act;
use fws_ipfw::Redirect;
use fws_iv::{Ivs, one};
use fws_net::{Cond, Test};
use fws_num::Memory;
use fws_rules::positive;
use std::alloc::Global;

/// Puts those that redirect ports behind the others. Fails if memory runs out.
fn put_of_ports(tried: &mut Vec<Redirect>, redirects: &[Redirect]) -> Result<(), Memory>
    ensures { OnOk result (tried.new.items ≡ tried.old.items ++ filter is_of_ports redirects.now) }
{
    for redirect in redirects {
        if redirect.proto.is_some() {
            tried.push(*redirect)?;
        }
    }
    Ok(())
}

/// Puts those that redirect addresses behind the others. Fails if memory runs out.
fn put_of_address(tried: &mut Vec<Redirect>, redirects: &[Redirect]) -> Result<(), Memory>
    ensures { OnOk result (tried.new.items ≡ tried.old.items ++ filter is_of_address redirects.now) }
{
    for redirect in redirects {
        if redirect.proto.is_none() {
            tried.push(*redirect)?;
        }
    }
    Ok(())
}

/// The redirects in the order in which they are tried. Fails if memory runs out.
pub(crate) fn by_trial(alloc: Global, redirects: &[Redirect]) -> Result<Vec<Redirect>, Memory>
    ensures { IfOk result (λ tried. tried.items ≡ by_trial redirects.now) }
{
    let mut tried = Vec::new(alloc);
    put_of_ports(&mut tried, redirects)?;
    put_of_address(&mut tried, redirects)?;
    Ok(tried)
}

/// The set of one number. Fails if memory runs out.
fn single(alloc: Global, value: u32) -> Result<Ivs, Memory>
    ensures { IfOk result (λ set. set ≡ one value value) }
{
    one(alloc, value, value)
}

/// The condition with a protocol behind the others, if there is one. Fails if memory runs out.
fn with_protocol(alloc: Global, mut cond: Cond, proto: Option<u8>) -> Result<Cond, Memory>
    ensures { IfOk result (λ c. c ≡ cond ++ just Proto proto) }
{
    match proto {
        Some(value) => {
            cond.put(positive(Test::Proto(single(alloc, u32::from(value))?)))?;
            Ok(cond)
        }
        None => Ok(cond),
    }
}

/// The condition of a packet that goes to the outer end. Fails if memory runs out.
fn goes_to(alloc: Global, redirect: Redirect) -> Result<Cond, Memory>
    ensures { IfOk result (λ c. c ≡ goes_to redirect) }
{
    let mut cond = with_protocol(alloc, Cond::new(alloc), redirect.proto)?;
    cond.put(positive(Test::Dst(single(alloc, redirect.public.addr)?)))?;
    match redirect.public.port {
        Some(port) => {
            cond.put(positive(Test::Dport(single(alloc, u32::from(port))?)))?;
            Ok(cond)
        }
        None => Ok(cond),
    }
}

/// The condition of a packet that comes from the inner end. Fails if memory runs out.
fn comes_from(alloc: Global, redirect: Redirect) -> Result<Cond, Memory>
    ensures { IfOk result (λ c. c ≡ comes_from redirect) }
{
    let mut cond = with_protocol(alloc, Cond::new(alloc), redirect.proto)?;
    cond.put(positive(Test::Src(single(alloc, redirect.local.addr)?)))?;
    match redirect.local.port {
        Some(port) => {
            cond.put(positive(Test::Sport(single(alloc, u32::from(port))?)))?;
            Ok(cond)
        }
        None => Ok(cond),
    }
}

/// The condition of a packet that the redirect is for, as it goes out or as it comes in. Fails if memory runs out.
pub(crate) fn asking(alloc: Global, outward: bool, redirect: Redirect) -> Result<Cond, Memory>
    ensures { IfOk result (λ c. c ≡ asking outward redirect) }
{
    if outward {
        comes_from(alloc, redirect)
    } else {
        goes_to(alloc, redirect)
    }
}

/// What the redirect writes, as packets go out or as they come in.
pub(crate) fn writing(outward: bool, redirect: Redirect) -> Act
    ensures { result ≡ writing outward redirect }
{
    if outward {
        Act::Src(redirect.public)
    } else {
        Act::Dst(redirect.local)
    }
}
