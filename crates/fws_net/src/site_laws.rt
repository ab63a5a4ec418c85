//! Laws of sites: functions that do nothing, whose clauses are for the proofs of callers.

ghost use Rattle.fws_net.specs.SiteLaws.{ReadSitesAreOrderly, FirstFormsArePlain, FirstFormsRouteByNetwork, SpelledSitesAreRead};

use fws_num::{
    addresses_are_dotted, decimals_are_read, numbers_are_digits, quads_are_dotted, splits_back,
    texts_are_read,
};

/// Every site that was read is orderly: its numbers are within their bounds, and its names, addresses
/// and networks differ.
pub fn read_sites_are_orderly()
    ensures { ReadSitesAreOrderly }
{
    quads_are_dotted();
}

/// A site of the first form has one address to an interface and no routes, and no two of its networks
/// meet.
pub fn first_forms_are_plain()
    ensures { FirstFormsArePlain }
{
    quads_are_dotted();
}

/// A site of the first form routes to the interface whose network holds the address, else to the
/// default interface.
pub fn first_forms_route_by_network()
    ensures { FirstFormsRouteByNetwork }
{
    quads_are_dotted();
}

/// The text of an orderly site in the second form is read as that site.
pub fn spelled_sites_are_read()
    ensures { SpelledSitesAreRead }
{
    texts_are_read();
    decimals_are_read();
    quads_are_dotted();
    numbers_are_digits();
    addresses_are_dotted();
    splits_back();
}
