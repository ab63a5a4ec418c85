//! Limits and fixed texts.

/// The greatest length of a file in bytes.
pub const FILE_LIMIT: usize = 4_194_304;

/// What is written where the words are no form of the command line.
pub const USAGE: &[u8] = b"usage: fws synth|query|translate|trace|load|site2|run|same|dead\n";

/// What `fws --version` writes.
pub const VERSION: &[u8] = b"fws 0.1.0\n";

/// What `fws --help` writes.
pub const HELP: &[u8] =
    b"fws synth LANG SITE FILE new|est                  the table of what the configuration FILE does at the site SITE to new or established packets
fws query LANG SITE FILE new|est [FIELD=SET ..]   the rows of that table for the packets that the words ask for
fws translate FROM TO SITE FILE                   what FILE does, written in the language TO; or packets that show why TO can't hold it
fws trace LANG SITE FILE CONNS PACKETS            what it does to the packets in PACKETS against the connections in CONNS
fws why LANG SITE FILE CONNS PACKETS              the same, and for each packet the rules of FILE that apply to it on its way, in the order in which it meets them
fws run LANG SITE FILE EVENTS                     what becomes of the packets and expiries in EVENTS, one after the other, while accepted packets open connections
fws same LANG SITE FILE LANG2 FILE2               whether the configurations FILE and FILE2 do the same at the site SITE, or a packet with which they don't
fws dead LANG SITE FILE                           the rules of FILE that no packet uses at the site SITE, new or established, by their numbers and labels
fws load N                                        how many rows the tables of a filter of N generated rules have, N from 1 to 4000, and in how many languages it can be written
fws site2 SITE                                    the site file SITE in its second form
languages: iptables ipfw pf ios openbsd; TO, and LANG of why and dead: iptables ipfw pf ios
fields: entry proto dst dport src sport flags icmp, with est also rdst rdport rsrc rsport; and verdict=accept or verdict=drop
exit status: 0 answered, 1 can't be placed, 2 bad command line, 3 a file is refused, 4 a file can't be read, 5 the output can't be written, 6 out of memory
";
