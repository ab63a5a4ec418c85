//! Laws over diagrams of texts: functions with nothing to do.

ghost use Rattle.fws_ipfw_ifcl.specs.Fitting.{SpelledDiagrams};

use fws_ipfw::spelled_fits;

/// Every configuration that a text spells is what the clauses of its diagram ask for: its rules stand by
/// their numbers, and its instances have numbers of their own and redirect ports for TCP and UDP alone: a
/// law, with nothing to do.
pub fn spelled_diagrams()
    ensures { SpelledDiagrams }
{
    spelled_fits();
}
