//! Laws of tables that fit pf.

ghost use Rattle.fws_place.specs.PfLaws.{PfDestinationsAgree, PfHostSourcesAgree, PfKeepsNewPackets, PfPairsPass};

/// Where tables fit pf, each pair is lost and dropped, or accepted with nothing written. The call does nothing: its
/// contract is the law.
pub fn pf_pairs_pass()
    ensures { PfPairsPass }
{}

/// Where tables fit pf, new packets that arrive, agree in all but flags and ICMP types and are accepted get the same
/// destination. The call does nothing: its contract is the law.
pub fn pf_destinations_agree()
    ensures { PfDestinationsAgree }
{}

/// And such packets of the host get the same source. The call does nothing: its contract is the law.
pub fn pf_host_sources_agree()
    ensures { PfHostSourcesAgree }
{}

/// Where tables fit pf, a new packet that is accepted leaves, and its source port is kept, its destination where it is
/// the host's, and its source where it is delivered. The call does nothing: its contract is the law.
pub fn pf_keeps_new_packets()
    ensures { PfKeepsNewPackets }
{}
