//! The clauses of the placement conditions.

ghost use Rattle.std.specs.Prelude.{◌≡◌};
ghost use Rattle.fws_place.specs.Fits.{clauses_of, number_of};

use fws_net::Lang;

/// What a system asks of the tables that it is to hold. Each system asks for some of these, in this order.
#[derive(Clone, Copy, Debug, PartialEq, Eq)]
pub enum Clause {
    /// New packets have at most 60,000 different outcomes.
    FewOutcomes,
    /// No source port is written.
    KeepsSourcePorts,
    /// No destination is written for the host's own packets.
    KeepsHostDestinations,
    /// No source is written for what is delivered.
    KeepsDeliveredSources,
    /// Whether an established packet is dropped is told by the packet as it enters, or by what a rule sees behind routing.
    DropsByOneView,
    /// Accepted new packets show at most 4,096 redirects.
    FewRedirects,
    /// Established packets are dropped where rules ahead of the look-up of connections can drop them.
    DropsAheadOfLookup,
    /// No established packet is dropped.
    DropsNoEstablished,
    /// The destination that is written doesn't depend on flags or ICMP types.
    OneDestination,
    /// The source that is written for the host's own packets doesn't depend on flags or ICMP types.
    OneHostSource,
    /// The host's own packets pass as they are.
    PassesHost,
    /// No destination is written.
    KeepsDestinations,
    /// A source is written from the inside to the outside alone.
    WritesInsideOut,
    /// TCP flags tell packets apart by ACK and RST alone.
    TellsByAckAlone,
    /// The source that is written depends on neither the entry nor flags.
    OneSource,
    /// An established packet is dropped where its packet always is, new or established.
    DropsAlways,
    /// Whole addresses are written.
    WritesWholeAddresses,
}

impl Clause {
    /// The clause's number, 1 to 17.
    pub fn number(self) -> u8
        ensures { result ≡ number_of self }
    {
        match self {
            Clause::FewOutcomes => 1,
            Clause::KeepsSourcePorts => 2,
            Clause::KeepsHostDestinations => 3,
            Clause::KeepsDeliveredSources => 4,
            Clause::DropsByOneView => 5,
            Clause::FewRedirects => 6,
            Clause::DropsAheadOfLookup => 7,
            Clause::DropsNoEstablished => 8,
            Clause::OneDestination => 9,
            Clause::OneHostSource => 10,
            Clause::PassesHost => 11,
            Clause::KeepsDestinations => 12,
            Clause::WritesInsideOut => 13,
            Clause::TellsByAckAlone => 14,
            Clause::OneSource => 15,
            Clause::DropsAlways => 16,
            Clause::WritesWholeAddresses => 17,
        }
    }
}

const OF_IPTABLES: [Clause; 2] = [Clause::FewOutcomes, Clause::DropsByOneView];

const OF_IPFW: [Clause; 7] = [
    Clause::FewOutcomes,
    Clause::KeepsSourcePorts,
    Clause::KeepsHostDestinations,
    Clause::KeepsDeliveredSources,
    Clause::FewRedirects,
    Clause::DropsAheadOfLookup,
    Clause::WritesWholeAddresses,
];

const OF_PF: [Clause; 7] = [
    Clause::FewOutcomes,
    Clause::KeepsSourcePorts,
    Clause::KeepsHostDestinations,
    Clause::KeepsDeliveredSources,
    Clause::DropsNoEstablished,
    Clause::OneDestination,
    Clause::OneHostSource,
];

const OF_IOS: [Clause; 11] = [
    Clause::FewOutcomes,
    Clause::KeepsSourcePorts,
    Clause::KeepsHostDestinations,
    Clause::KeepsDeliveredSources,
    Clause::PassesHost,
    Clause::KeepsDestinations,
    Clause::WritesInsideOut,
    Clause::TellsByAckAlone,
    Clause::OneSource,
    Clause::DropsAlways,
    Clause::WritesWholeAddresses,
];

/// The clauses of a system, by their numbers.
pub fn clauses_of(target: Lang) -> &'static [Clause]
    ensures { result.now ≡ clauses_of target }
{
    match target {
        Lang::Iptables => &OF_IPTABLES,
        Lang::Ipfw => &OF_IPFW,
        Lang::Pf => &OF_PF,
        Lang::Ios => &OF_IOS,
    }
}
