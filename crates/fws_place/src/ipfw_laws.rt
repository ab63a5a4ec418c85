//! Laws of what ipfw's placement condition says of dropped packets.

ghost use Rattle.fws_place.specs.IpfwLaws.{IpfwDropsNewArrivals, IpfwDropsNewHost, IpfwPairsAreTold};

/// Where tables meet ipfw's clause on dropped packets, the trees that tell what is seen tell of each pair that isn't
/// lost whether it is accepted: of one that is delivered by its packet, of one of the host by what is seen behind
/// routing, and of one that is forwarded by both. The call does nothing: its contract is the law.
pub fn ipfw_pairs_are_told()
    ensures { IpfwPairsAreTold }
{}

/// And a packet that arrives and is accepted in no connection is dropped when it is new. The call does nothing: its
/// contract is the law.
pub fn ipfw_drops_new_arrivals()
    ensures { IpfwDropsNewArrivals }
{}

/// And where no pair is accepted that looks like one of the host, the new packet that looks like it is dropped. The
/// call does nothing: its contract is the law.
pub fn ipfw_drops_new_host()
    ensures { IpfwDropsNewHost }
{}
