//! Instances of translation.

ghost use Rattle.std.specs.Prelude.{◌≡◌, ◌+◌, ◌≤◌, ◌<◌, ◌^◌, [], ◌∷◌, ◌++◌, length, map, IfOk, OnOk, All};
ghost use Rattle.fws_ipfw_put.specs.Ends.{FitsEnd};
ghost use Rattle.fws_ipfw_put.specs.Instances.{destination_nats, redirect_for, redirects_to, source_nats};
ghost use Rattle.fws_ipfw_put.specs.Layout.{same_end};

use fws_ipfw::{IpfwNat, Redirect};
use fws_net::End;
use fws_num::{Items, Memory};
use fws_place::Redirect as Shown;
use std::alloc::Global;

/// A redirect of ports of the protocol, or of an address where no port is written.
fn redirect_for(shown: Shown) -> Redirect
    ensures { result ≡ redirect_for shown }
{
    match shown.public.service {
        None => Redirect {
            proto: None,
            local: shown.local,
            public: End::host(shown.public.addr, None),
        },
        Some((proto, port)) => Redirect {
            proto: Some(proto),
            local: shown.local,
            public: End::host(shown.public.addr, Some(port)),
        },
    }
}

/// Whether both ends are the same.
fn is_same_end(a: End, b: End) -> bool
    ensures { result ≡ same_end a b }
{
    a == b
}

/// The redirects to a destination. Fails if memory runs out.
fn redirects_to(alloc: Global, end: End, shown: &[Shown]) -> Result<Items<Redirect>, Memory>
    ensures { IfOk result (λ redirects. redirects ≡ redirects_to end shown.now) }
{
    let mut redirects = Items::new(alloc);
    for each in shown {
        if is_same_end(end, each.local) {
            redirects.put(redirect_for(*each))?;
        }
    }
    Ok(redirects)
}

/// An instance with its address.
fn instance(number: u32, alias: u32, redirects: Items<Redirect>) -> IpfwNat
    ensures is { result ≡ record { number = number; alias = alias; redirects = redirects } }
    ensures fits { alias < 2 ^ 32 }
{
    IpfwNat {
        number,
        alias,
        redirects,
    }
}

/// Puts the instances of destinations. Fails if memory runs out.
pub(crate) fn put_destination_nats(
    alloc: Global,
    nats: &mut Items<IpfwNat>,
    ends: &[End],
    shown: &[Shown],
) -> Result<(), Memory>
    requires few { length ends.now ≤ 4096 }
    requires fit { All (λ nat. nat.alias < 2 ^ 32) nats.old }
    ensures nats { OnOk result (nats.new ≡ nats.old ++ destination_nats shown.now 0 ends.now) }
    ensures fit { OnOk result (All (λ nat. nat.alias < 2 ^ 32) nats.new) }
{
    for (place, end) in ends.iter().enumerate() {
        let redirects = redirects_to(alloc, *end, shown)?;
        nats.put(instance(place as u32 + 1, end.addr, redirects))?;
    }
    Ok(())
}

/// Puts the instances of sources behind those of so many destinations. Fails if memory runs out.
pub(crate) fn put_source_nats(
    alloc: Global,
    nats: &mut Items<IpfwNat>,
    destinations: u32,
    ends: &[End],
) -> Result<(), Memory>
    requires few_destinations { destinations ≤ 4096 }
    requires few_sources { length ends.now ≤ 60000 }
    requires fit { All (λ nat. nat.alias < 2 ^ 32) nats.old }
    ensures nats { OnOk result (nats.new ≡ nats.old ++ source_nats destinations 0 ends.now) }
    ensures fit { OnOk result (All (λ nat. nat.alias < 2 ^ 32) nats.new) }
{
    for (place, end) in ends.iter().enumerate() {
        let number = destinations + place as u32 + 1;
        nats.put(instance(number, end.addr, Items::new(alloc)))?;
    }
    Ok(())
}
