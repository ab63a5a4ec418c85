//! An iptables file that is executed at a site.

ghost use Rattle.std.specs.Prelude.{◌≡◌, true, IfOk};
ghost use Rattle.fws_flat.specs.Soundness.{flat_ok};
ghost use Rattle.fws_ipt.specs.Soundness.{is_fitting};
ghost use Rattle.fws_net.specs.Routes.{IsSound};

use crate::stop::Stop;
use fws_exec::execute_tree;
use fws_flat::Flat;
use fws_io::Shelf;
use fws_ipt::IptConfig;
use fws_ipt_ifcl::to_ifcl;
use fws_ipt_read::read;
use fws_net::{Site, State, read_site};
use fws_num::{Memory, Text, value_named};
use fws_unfold::unfold;
use std::alloc::Global;

/// The most bytes of a site or a file.
const MOST_BYTES: usize = 4_194_304;

/// The words for packets; none for no execution.
const STATES: [(&[u8], Option<State>); 3] = [
    (b"none", None),
    (b"new", Some(State::Fresh)),
    (b"est", Some(State::Est)),
];

/// For which packets a word asks; none where it asks for no execution.
fn read_state(word: &Text) -> Result<Option<State>, Stop> {
    value_named(&STATES, word.as_slice()).ok_or(Stop::Words)
}

/// The flat code of a configuration at a site.
fn code_of(alloc: Global, site: &Site, config: &IptConfig) -> Result<Flat, Stop>
    requires sound { IsSound site.now }
    requires fits { is_fitting config.now ≡ true }
    ensures { IfOk result (λ flat. flat_ok flat ≡ true) }
{
    let diagram = to_ifcl(alloc, config, site)?;
    let flat = unfold(alloc, &diagram)?;
    Ok(flat)
}

/// The flat code of a text at a site.
fn flat_of(alloc: Global, site: &Site, text: &[u8]) -> Result<Flat, Stop>
    requires { IsSound site.now }
    ensures { IfOk result (λ flat. flat_ok flat ≡ true) }
{
    let config = read(alloc, text, site)?;
    code_of(alloc, site, &config)
}

/// How many nodes the tree of code has for the packets of a state.
fn count_nodes(alloc: Global, site: &Site, flat: &Flat, state: State) -> Result<usize, Memory>
    requires sound { IsSound site.now }
    requires ok { flat_ok flat.now ≡ true }
{
    let tree = execute_tree(alloc, flat, site, state)?;
    Ok(tree.nodes())
}

/// How many instructions code has, and how many nodes its tree for the packets of a state; 0 where there is none.
fn count_both(
    alloc: Global,
    site: &Site,
    flat: &Flat,
    state: Option<State>,
) -> Result<[usize; 2], Memory>
    requires sound { IsSound site.now }
    requires ok { flat_ok flat.now ≡ true }
{
    match state {
        Some(state) => Ok([flat.code.len(), count_nodes(alloc, site, flat, state)?]),
        None => Ok([flat.code.len(), 0]),
    }
}

/// The same of the code of a text.
fn count_of_text(
    alloc: Global,
    site: &Site,
    text: &[u8],
    state: Option<State>,
) -> Result<[usize; 2], Stop>
    requires { IsSound site.now }
{
    let flat = flat_of(alloc, site, text)?;
    Ok(count_both(alloc, site, &flat, state)?)
}

/// The bytes of a file.
pub fn read_file<S: Shelf>(alloc: Global, shelf: &mut S, name: &Text) -> Result<Text, Stop> {
    Ok(shelf.read(alloc, name.as_slice(), MOST_BYTES)?)
}

/// The same of a file at a site.
fn count_of_file<S: Shelf>(
    alloc: Global,
    shelf: &mut S,
    site: &Site,
    file: &Text,
    state: Option<State>,
) -> Result<[usize; 2], Stop>
    requires { IsSound site.now }
{
    let text = read_file(alloc, shelf, file)?;
    count_of_text(alloc, site, text.as_slice(), state)
}

/// The same of a file at the site of a text.
fn count_at<S: Shelf>(
    alloc: Global,
    shelf: &mut S,
    site: &[u8],
    file: &Text,
    state: Option<State>,
) -> Result<[usize; 2], Stop> {
    let site = read_site(alloc, site)?;
    count_of_file(alloc, shelf, &site, file, state)
}

/// How many instructions the flat code of a file has, and how many nodes the tree of the packets for which a word asks;
/// 0 where nothing is executed.
pub fn count_executed<S: Shelf>(
    alloc: Global,
    shelf: &mut S,
    site: &Text,
    file: &Text,
    state: &Text,
) -> Result<[usize; 2], Stop> {
    let state = read_state(state)?;
    let site = read_file(alloc, shelf, site)?;
    count_at(alloc, shelf, site.as_slice(), file, state)
}
