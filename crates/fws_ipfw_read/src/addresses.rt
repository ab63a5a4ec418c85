//! Protocols and addresses (ipfw(8)).

ghost use Rattle.std.specs.Prelude.{◌≡◌, ◌≤◌, ◌∷◌, ◌++◌, [], List, Some, IfOk};
ghost use Rattle.fws_iv.specs.declared.iv.Iv.{Iv as AnyIv};
ghost use Rattle.fws_net.specs.Faces.{block};
ghost use Rattle.fws_ipfw.specs.Values.{addresses_of, masked_network, network_of, protocol_value, with_network, with_networks};

use fws_iv::{Iv, Ivs};
use fws_net::{Site, local_set, prefix_set};
use fws_num::{Memory, Prefix, Text, pieces, read_prefix, read_protocol, read_quad, split_once};
use fws_rules::is;
use std::alloc::Global;

/// The protocol; none for every one, which is spelled `ip` or `all`.
pub(crate) fn read_protocol_value(text: &[u8]) -> Option<Option<u8>>
    ensures { result ≡ protocol_value text.now }
{
    if is(text, b"ip") || is(text, b"all") {
        return Some(None);
    }
    let protocol = read_protocol(text)?;
    Some(Some(protocol))
}

/// The two parts with a slash between.
fn slashed(alloc: Global, front: &[u8], back: &[u8]) -> Result<Text, Memory>
    ensures { IfOk result (λ text. text ≡ front.now ++ 47 ∷ back.now) }
{
    let mut text = Text::of(alloc, front)?;
    text.put(b"/")?;
    text.put(back)?;
    Ok(text)
}

/// The prefix of an address with a mask behind a colon.
fn read_masked_network(alloc: Global, text: &[u8]) -> Result<Option<Prefix>, Memory>
    ensures { IfOk result (λ o. o ≡ masked_network text.now) }
{
    let Some((front, mask)) = split_once(text, b':') else {
        return Ok(None);
    };
    if read_quad(mask).is_none() {
        return Ok(None);
    }
    let text = slashed(alloc, front, mask)?;
    Ok(read_prefix(text.as_slice()))
}

/// The prefix of a network of a list.
fn read_network(alloc: Global, text: &[u8]) -> Result<Option<Prefix>, Memory>
    ensures { IfOk result (λ o. o ≡ network_of text.now) }
{
    match read_prefix(text) {
        Some(net) => Ok(Some(net)),
        None => read_masked_network(alloc, text),
    }
}

/// The addresses of the network, beside these.
fn with_network(alloc: Global, set: &Ivs, net: &Prefix) -> Result<Ivs, Memory>
    ensures { IfOk result (λ s. s ≡ with_network net.now set.now) }
{
    let addresses = prefix_set(alloc, net)?;
    let range = addresses.parts()[0];
    set.with_range(alloc, range.lo, range.hi)
}

/// The addresses of the networks; none where an item is no network.
fn networks_of(alloc: Global, items: &[Text]) -> Result<Option<Ivs>, Memory>
    ensures { IfOk result (λ o. o ≡ with_networks [] items.now) }
{
    let mut set = Ivs::none(alloc);
    for item in items {
        match read_network(alloc, item.as_slice())? {
            Some(net) => set = with_network(alloc, &set, &net)?,
            None => return Ok(None),
        }
    }
    Ok(Some(set))
}

/// The addresses that a word means, where it means some: none for every one.
pub(crate) fn read_addresses(
    alloc: Global,
    site: &Site,
    text: &[u8],
) -> Result<Option<Option<Ivs>>, Memory>
    ensures { IfOk result (λ o. o ≡ addresses_of site.now text.now) }
{
    if is(text, b"any") {
        return Ok(Some(None));
    }
    if is(text, b"me") {
        return Ok(Some(Some(local_set(alloc, site)?)));
    }
    let items = pieces(alloc, b',', text)?;
    match networks_of(alloc, items.as_slice())? {
        Some(set) => Ok(Some(Some(set))),
        None => Ok(None),
    }
}
