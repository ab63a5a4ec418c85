//! What is said of texts of pf, in one of the dialects alone.

/// Of pf.conf(5) of FreeBSD alone.
pub(crate) const OF_PF: [&[u8]; 4] = [
    b"left-out|match|||match is a statement of OpenBSD|Give the file as language openbsd, or write nat and rdr in its place.",
    b"left-out|nat-to|||nat-to is a word of OpenBSD|Give the file as language openbsd, or write nat on em1 from NET to any -> (em1).",
    b"left-out|rdr-to|||rdr-to is a word of OpenBSD|Give the file as language openbsd, or write rdr on em1 proto tcp to (em1) port 80 -> 10.0.0.5.",
    b"expand||||a macro of more than 65,536 bytes, or lists that make more than 200,000 rules up to this line|Write addresses into a table in place of a list, and ports as a range.",
];

/// Of pf.conf(5) of OpenBSD alone.
pub(crate) const OF_OPENBSD: [&[u8]; 10] = [
    b"left-out|nat|||% begins no statement of OpenBSD|Write a rule in its place: match out on em1 from NET to any nat-to (em1).",
    b"left-out|rdr|||% begins no statement of OpenBSD|Write a rule in its place: match in on em1 proto tcp to (em1) port 80 rdr-to 10.0.0.5.",
    b"left-out|no|||% begins no statement of OpenBSD|Take the packets out by an earlier rule with quick, or by a tag.",
    b"left-out|scrub|||scrub begins no statement of OpenBSD|Write it as an option: match in all scrub (no-df).",
    b"left-out|received-on|||received-on|Put a tag as packets come in, and ask for it: pass in on em0 tag LAN, pass out tagged LAN.",
    b"left-out|||quick|quick on a match rule|Leave it out, or write pass quick.",
    b"left-out|||!nat-to|nat-to needs a rule with out that names what it maps, and one address|Write match out on em1 from 10.0.0.0/24 to any nat-to (em1), without a port; not on block.",
    b"left-out|||!rdr-to|rdr-to needs a rule with in that names what it maps, and one address|Write match in on em1 proto tcp to (em1) port 80 rdr-to 10.0.0.5 port 8080; not on block.",
    b"expand||||a macro of more than 65,536 bytes, or lists that make more than 200,000 rules up to this line, or more than 255 ends of pass rules|Write addresses into a table in place of a list, and ports as a range. Or write the ends in match rules, of which there may be any number.",
    b"left-out|||match*|% in a match rule|A match rule takes neither quick nor words of state.",
];
