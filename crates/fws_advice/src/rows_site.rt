//! What is said of site files, and of texts of connections, packets and events.

/// Of site files.
pub(crate) const OF_SITES: [&[u8]; 16] = [
    b"syntax|.|||the line ends where a word is missing|An interface is: interface NAME A/n ipt=.. ipfw=.. pf=.. ios=.. nat=inside, its words in this order.",
    b"syntax|site|||a site file begins with site 1 or site 2|Write it as the first line; tools/site-of-host makes a site file of what a host says.",
    b"syntax|loopback|||loopback comes after all interfaces, each of which has an address|Sort the lines: site, interface, address, route, loopback, default, forwarding, one_pass.",
    b"syntax||site||% is no form of a site file|Write site 1 for one address to an interface, or site 2 for several addresses and routes.",
    b"syntax||interface||% is no name|A name has 1 to 30 letters, digits and `_ . / -`, and begins with a letter.",
    b"syntax||forwarding||% is neither yes nor no|Write forwarding yes where the host forwards packets for others.",
    b"syntax||one_pass||% is neither 0 nor 1|Write one_pass 1, with which ipfw begins; sysctl net.inet.ip.fw.one_pass tells it.",
    b"syntax|nat=*|||% is none of the three sides|Write nat=inside, nat=outside or nat=none.",
    b"syntax|||interface|% is not allowed here|An interface is: interface NAME A/n ipt=.. ipfw=.. pf=.. ios=.. nat=inside in site 1, and without A/n in site 2, its words in this order.",
    b"syntax|||address|% is not allowed here|Write address NAME A/n, with a length of 1 to 32.",
    b"syntax|||route|% is not allowed here|Write route A/n NAME, behind all addresses.",
    b"syntax||||this line is not allowed here in a site file|The order of the lines is: site, interface, address and route (in site 2), loopback, default, forwarding, one_pass.",
    b"overlap||||the network of % meets that of an earlier line, or 127.0.0.0/8, or the address is taken|Give each interface a network of its own, and each network one line.",
    b"names|||interface|the name of % is taken, or is host or lo|Choose another name; no two interfaces have the same name in one system.",
    b"names||||no interface has the name %|Write the name of an interface line above.",
    b"count||||one interface, address or route more than a site may have|Leave out what the packets in question never meet; site 2 has room for 62 interfaces, 1,024 addresses and 4,096 routes.",
];

/// Of packets.
pub(crate) const OF_PACKETS: [&[u8]; 2] = [
    b"syntax|.|||the packet has fewer than eight words|Write ENTRY PROTOCOL DESTINATION PORT SOURCE PORT FLAGS TYPE, with 0 for what the protocol lacks: wan 6 203.0.113.2 443 198.51.100.9 50000 2 0.",
    b"syntax||||% is not allowed here|Write ENTRY PROTOCOL DESTINATION PORT SOURCE PORT FLAGS TYPE in numbers, with 0 for what the protocol lacks: wan 6 203.0.113.2 443 198.51.100.9 50000 2 0. ENTRY is host, lo or an interface of the site.",
];

/// Of connections.
pub(crate) const OF_CONNS: [&[u8]; 2] = [
    b"syntax|.|||the connection has fewer than nine words|Write PROTOCOL, then DESTINATION PORT SOURCE PORT of its first packet, and the same of the replies.",
    b"syntax||||% is not allowed here|Write PROTOCOL, then DESTINATION PORT SOURCE PORT of its first packet, and the same of the replies, in numbers: 6 203.0.113.2 443 198.51.100.9 50000 198.51.100.9 50000 10.0.0.5 8443.",
];

/// Of events.
pub(crate) const OF_EVENTS: [&[u8]; 4] = [
    b"syntax||expire||% is no number of an entry|Write expire and the number of the entry, counted from 0.",
    b"syntax|.|expire||the number of the entry is missing|Write expire and the number of the entry, counted from 0.",
    b"syntax|.|||the packet has fewer than eight words|Write ENTRY PROTOCOL DESTINATION PORT SOURCE PORT FLAGS TYPE, with 0 for what the protocol lacks, or expire K.",
    b"syntax||||% is not allowed here|Write a packet as ENTRY PROTOCOL DESTINATION PORT SOURCE PORT FLAGS TYPE in numbers: wan 6 203.0.113.2 443 198.51.100.9 50000 2 0. Or write expire K.",
];
