//! Laws over diagrams of texts: functions with nothing to do.

ghost use Rattle.fws_ipt_ifcl.specs.Fitting.{SpelledDiagrams};

use fws_ipt::{spelled_chains, spelled_conditions, spelled_fits, spelled_networks};

/// Every configuration that a text spells is what the clauses of its diagram ask for: its rules fit, none
/// asks on which side of routing it stands, NETMAP stands in built-in chains, and packets meet each
/// built-in chain: a law, with nothing to do.
pub fn spelled_diagrams()
    ensures { SpelledDiagrams }
{
    spelled_fits();
    spelled_conditions();
    spelled_networks();
    spelled_chains();
}
