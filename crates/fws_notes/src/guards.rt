//! Rules of iptables that drop packets of the kernel's class INVALID, where the source drops all of them.

use crate::invalid::{CHAINS, Chain, Invalid};
use crate::marks::begins_with;
use fws_num::{Memory, Text};

/// Which chains of the table filter have begun.
#[derive(Clone, Copy)]
pub(crate) struct Guards {
    is_filter: bool,
    has_begun: [bool; 3],
}

/// The chain of a rule.
fn chain_of(line: &[u8]) -> Option<usize> {
    let rule = line.get(3..)?;
    let place = CHAINS.iter().position(|chain| begins_with(rule, *chain))?;
    if begins_with(line, b"-A ") {
        Some(place)
    } else {
        None
    }
}

/// Appends the rule by which a chain drops them.
fn put_rule(out: &mut Text, name: &[u8], chain: &Chain, loopback: &[u8]) -> Result<(), Memory> {
    out.put(b"# what the kernel calls INVALID is dropped, as by the source\n-A ")?;
    out.put(name)?;
    if chain.accepts_loopback {
        out.put(b" ! -i ")?;
        out.put(loopback)?;
    }
    out.put(b" -m conntrack --ctstate INVALID -j DROP\n")
}

impl Guards {
    /// None has begun.
    pub(crate) fn new() -> Guards {
        Guards {
            is_filter: false,
            has_begun: [false; 3],
        }
    }

    /// The chain that begins with a line.
    fn begun(&mut self, line: &[u8]) -> Option<usize> {
        if let [b'*', table @ ..] = line {
            self.is_filter = table == b"filter".as_slice();
        }
        if !self.is_filter {
            return None;
        }
        let place = chain_of(line)?;
        let has_begun = self.has_begun.get_mut(place)?;
        if *has_begun {
            return None;
        }
        *has_begun = true;
        Some(place)
    }

    /// Appends the rule ahead of a line, where a chain begins with it.
    pub(crate) fn put(
        &mut self,
        out: &mut Text,
        line: &[u8],
        invalid: &Invalid,
        loopback: &[u8],
    ) -> Result<(), Memory> {
        let Some(place) = self.begun(line) else {
            return Ok(());
        };
        match (CHAINS.get(place), invalid.chains.get(place)) {
            (Some(name), Some(chain)) => {
                if chain.drops_all() {
                    put_rule(out, name, chain, loopback)
                } else {
                    Ok(())
                }
            }
            _ => Ok(()),
        }
    }
}
