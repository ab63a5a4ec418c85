//! States of connections, as `--state` and `--ctstate` have them.

ghost use Rattle.std.specs.Prelude.{◌≡◌};
ghost use Rattle.std.specs.List.{list_all, list_any};
ghost use Rattle.fws_net.specs.Reading.{CauseGiven};
ghost use Rattle.fws_ipt.specs.Values.{is_state, is_translation_state, state_literal, states_meaning, state_meaning};

use fws_net::{Cause, Lit, ReadFault, Test};
use fws_num::{Text, pieces};
use fws_rules::{is_given, is_one_of, positive};
use std::alloc::Global;

/// States of connections.
const STATES: [&[u8]; 7] = [
    b"NEW",
    b"ESTABLISHED",
    b"RELATED",
    b"INVALID",
    b"UNTRACKED",
    b"SNAT",
    b"DNAT",
];

/// States of translated connections, which are left out.
const TRANSLATION_STATES: [&[u8]; 2] = [b"SNAT", b"DNAT"];

/// Whether it is a state of connections.
#[tactic(auto, unfolding(fws_ipt::specs::Values::is_state))]
fn is_state(text: &[u8]) -> bool
    ensures { result ≡ is_state text.now }
{
    is_one_of(&STATES, text)
}

/// Whether it is a state of translated connections, which is left out.
#[tactic(auto, unfolding(fws_ipt::specs::Values::is_translation_state))]
fn is_translation_state(text: &[u8]) -> bool
    ensures { result ≡ is_translation_state text.now }
{
    is_one_of(&TRANSLATION_STATES, text)
}

fn are_states(items: &[Text]) -> bool
    ensures { result ≡ list_all is_state items.now }
{
    items.iter().all(|item| is_state(item.as_slice()))
}

fn has_translation_state(items: &[Text]) -> bool
    ensures { result ≡ list_any is_translation_state items.now }
{
    items
        .iter()
        .any(|item| is_translation_state(item.as_slice()))
}

/// The literal of new packets, of established ones, or of both: every packet is one or the other. The
/// other states are those of no packet.
fn state_literal(new: bool, established: bool) -> Option<Lit>
    ensures { result ≡ state_literal new established }
{
    match (new, established) {
        (true, true) => None,
        (true, false) => Some(Lit {
            not: true,
            test: Test::Est,
        }),
        (false, true) => Some(positive(Test::Est)),
        (false, false) => Some(positive(Test::Never)),
    }
}

/// The literal of the states.
fn states_meaning(items: &[Text]) -> Result<Option<Lit>, ReadFault>
    ensures { CauseGiven result (states_meaning items.now) }
{
    if !are_states(items) {
        Err(ReadFault::Bad(Cause::Syntax))
    } else if has_translation_state(items) {
        Err(ReadFault::Bad(Cause::LeftOut))
    } else {
        Ok(state_literal(is_given(items, b"NEW"), is_given(items, b"ESTABLISHED")))
    }
}

/// The literal of states that commas join; none where it holds of every packet. SNAT and DNAT are left
/// out.
pub(crate) fn read_states(alloc: Global, text: &[u8]) -> Result<Option<Lit>, ReadFault>
    ensures { CauseGiven result (state_meaning text.now) }
{
    let items = pieces(alloc, b',', text)?;
    states_meaning(items.as_slice())
}
