//! Laws of tables that fit Cisco IOS.

ghost use Rattle.fws_place.specs.IosLaws.{IosAcceptedGoOn, IosAckAhead, IosEstablishedByAck, IosHostPasses, IosKeepsNewPackets, IosNewByAck, IosPairsAreTold, IosSourcesAgree};

/// Where tables fit Cisco IOS, the host's own packets pass as they are, new or established. The call does nothing: its
/// contract is the law.
pub fn ios_host_passes()
    ensures { IosHostPasses }
{}

/// And a pair that arrives is lost and dropped, or accepted with nothing written exactly where its packet is accepted in
/// some connection. The call does nothing: its contract is the law.
pub fn ios_pairs_are_told()
    ensures { IosPairsAreTold }
{}

/// And a packet that arrives and is accepted when it is new is accepted in some connection. The call does nothing: its
/// contract is the law.
pub fn ios_accepted_go_on()
    ensures { IosAcceptedGoOn }
{}

/// And a new packet that is accepted leaves and keeps its destination, and whole sources alone are written, without
/// ports, from the inside to the outside. The call does nothing: its contract is the law.
pub fn ios_keeps_new_packets()
    ensures { IosKeepsNewPackets }
{}

/// And ACK or RST tells which of the packets that arrive and differ in flags alone are accepted when they are new. The
/// call does nothing: its contract is the law.
pub fn ios_new_by_ack()
    ensures { IosNewByAck }
{}

/// And which of them are accepted in some connection. The call does nothing: its contract is the law.
pub fn ios_established_by_ack()
    ensures { IosEstablishedByAck }
{}

/// And where a segment with ACK or RST is dropped when it is new and accepted in some connection, those like it with
/// neither are accepted in some connection. The call does nothing: its contract is the law.
pub fn ios_ack_ahead()
    ensures { IosAckAhead }
{}

/// And packets from the inside to the outside that agree in all but entries and flags get the same source. The call
/// does nothing: its contract is the law.
pub fn ios_sources_agree()
    ensures { IosSourcesAgree }
{}
