//! What the texts of a system can say of a side in one line.

/// A system for which lists are suggested.
#[derive(Clone, Copy, PartialEq, Eq)]
pub enum System {
    /// iptables.
    Iptables,
    /// pf.
    Pf,
    /// ipfw.
    Ipfw,
    /// Cisco IOS.
    Ios,
}

/// What one line of a system can say, and what that costs. Costs are in thousandths of a line.
#[derive(Clone, Copy)]
pub struct Settings {
    /// The system.
    pub system: System,
    /// A line holds many addresses.
    pub lists_addresses: bool,
    /// A line may have a range of addresses.
    pub has_ranges: bool,
    /// A line may have all addresses but some.
    pub negates_addresses: bool,
    /// A line holds many protocols.
    pub lists_protocols: bool,
    /// A line may have all protocols but one.
    pub negates_protocols: bool,
    /// A line holds many interfaces.
    pub lists_entries: bool,
    /// A line may have all interfaces but one.
    pub negates_entries: bool,
    /// How many ports a line holds, a range as two; 0 where it is one range.
    pub ports: u32,
    /// A line may have all ports but some.
    pub negates_ports: bool,
    /// A line holds many ICMP types.
    pub lists_types: bool,
    /// A line may have all ICMP types but one.
    pub negates_types: bool,
    /// A line may have all flags but those of a cube.
    pub negates_flags: bool,
    /// A line may name the host's own addresses.
    pub names_local: bool,
    /// The host's own addresses and others may be told apart by a line for each.
    pub joins_local: bool,
    /// Sides are tried that are as wide as all but one.
    pub widens: bool,
    /// A line may name the interface by which a packet goes out.
    pub names_exits: bool,
    /// The list is that of packets that go out, where an entry is asked by `recv`.
    pub is_outward: bool,
    /// Rules of a list may lead to lists that ask for the rest of what they ask.
    pub calls_chains: bool,
    /// What another default than the first costs.
    pub default_penalty: u64,
    /// What a negated address costs.
    pub negation: u64,
    /// What a range of addresses costs.
    pub range: u64,
}

impl Settings {
    /// The settings of iptables.
    pub fn iptables() -> Settings {
        Settings {
            system: System::Iptables,
            lists_addresses: false,
            has_ranges: true,
            negates_addresses: true,
            lists_protocols: false,
            negates_protocols: true,
            lists_entries: false,
            negates_entries: true,
            ports: 15,
            negates_ports: true,
            lists_types: false,
            negates_types: true,
            negates_flags: true,
            names_local: true,
            joins_local: true,
            widens: true,
            names_exits: false,
            is_outward: false,
            calls_chains: true,
            default_penalty: 600,
            negation: 350,
            range: 150,
        }
    }

    /// The settings of pf.
    pub fn pf() -> Settings {
        Settings {
            system: System::Pf,
            lists_addresses: true,
            has_ranges: true,
            negates_addresses: true,
            lists_protocols: true,
            negates_protocols: false,
            lists_entries: true,
            negates_entries: true,
            ports: 1000,
            negates_ports: false,
            lists_types: true,
            negates_types: false,
            negates_flags: false,
            names_local: true,
            joins_local: false,
            widens: false,
            names_exits: false,
            is_outward: false,
            calls_chains: false,
            default_penalty: 600,
            negation: 350,
            range: 150,
        }
    }

    /// The settings of ipfw.
    pub fn ipfw() -> Settings {
        Settings {
            system: System::Ipfw,
            lists_addresses: true,
            has_ranges: false,
            negates_addresses: true,
            lists_protocols: false,
            negates_protocols: false,
            lists_entries: false,
            negates_entries: true,
            ports: 100_000,
            negates_ports: true,
            lists_types: true,
            negates_types: true,
            negates_flags: true,
            names_local: true,
            joins_local: false,
            widens: false,
            names_exits: false,
            is_outward: false,
            calls_chains: false,
            default_penalty: 600,
            negation: 200,
            range: 150,
        }
    }

    /// The settings of Cisco IOS.
    pub fn ios() -> Settings {
        Settings {
            system: System::Ios,
            lists_addresses: false,
            has_ranges: false,
            negates_addresses: false,
            lists_protocols: false,
            negates_protocols: false,
            lists_entries: false,
            negates_entries: true,
            ports: 0,
            negates_ports: false,
            lists_types: false,
            negates_types: false,
            negates_flags: false,
            names_local: false,
            joins_local: false,
            widens: false,
            names_exits: false,
            is_outward: false,
            calls_chains: false,
            default_penalty: 600,
            negation: 350,
            range: 150,
        }
    }

    /// The settings with lines that may name the interface by which a packet goes out.
    pub fn with_exits(self) -> Settings {
        let mut settings = self;
        settings.names_exits = true;
        settings
    }

    /// The settings for the list of packets that go out.
    pub fn outward(self) -> Settings {
        let mut settings = self;
        settings.is_outward = true;
        settings
    }
}
