//! The pages of help.

ghost use Rattle.std.specs.Prelude.{◌≡◌};
ghost use Rattle.fws_top.specs.Pages.{page_of, synth_page, query_page, translate_page, trace_page, why_page, run_page, same_page, dead_page};
ghost use Rattle.fws_top.specs.Pages.{load_page, site2_page};

use crate::command_name::CommandName;

fn synth_page() -> &'static [u8]
    ensures { result.now ≡ synth_page }
{
    b"fws synth LANG SITE FILE new|est

Writes the table of what the configuration FILE does at the site SITE. Each
packet is in exactly one row: entry, protocol, destination and port, source and
port, TCP flags and ICMP type, and behind the colon what becomes of it. A * is
everything. The first line says how many rows there are.

  LANG  the language of FILE: iptables, ipfw, pf, ios or openbsd
  SITE  the site file: interfaces, addresses and routes of the host
  FILE  the configuration
  new   for packets that belong to no connection yet
  est   for packets of established connections

example: fws synth iptables site.txt router.saved new
exit status: 0 answered, 2 bad command line, 3 a file is refused,
  4 a file can't be read, 5 the output can't be written, 6 out of memory
"
}

fn query_page() -> &'static [u8]
    ensures { result.now ≡ query_page }
{
    b"fws query LANG SITE FILE new|est [FIELD=SET ..]

Writes the rows of the table of FILE, as synth has it, for the packets that the
words FIELD=SET ask for; all rows where there is no such word. A query of one
port or host is fast even where the whole table is too large to read.

  LANG   the language of FILE: iptables, ipfw, pf, ios or openbsd
  SITE   the site file: interfaces, addresses and routes of the host
  FILE   the configuration
  new    for packets that belong to no connection yet
  est    for packets of established connections
  FIELD  entry, proto, dst, dport, src, sport, flags or icmp; with est also
         rdst, rdport, rsrc or rsport, the ends with which the connection
         sends the packet; each at most once
  SET    * or items with commas between: numbers or addresses and ranges LO-HI
         of them; for entry host, lo and names of interfaces of the site
  verdict=accept or verdict=drop asks for the rows with this verdict

example: fws query iptables site.txt router.saved new entry=wan proto=6 dport=22
exit status: 0 answered, 2 bad command line, 3 a file is refused,
  4 a file can't be read, 5 the output can't be written, 6 out of memory
"
}

fn translate_page() -> &'static [u8]
    ensures { result.now ≡ translate_page }
{
    b"fws translate FROM TO SITE FILE

Writes what the configuration FILE does at the site SITE in the language TO. The
text is proved to do the same to every packet. Where TO can't hold the policy,
the answer is one line, with the clause that the policy breaks and a packet or
two that show it.

  FROM  the language of FILE: iptables, ipfw, pf, ios or openbsd
  TO    the language of the answer: iptables, ipfw, pf or ios
  SITE  the site file, with the names of the interfaces in both systems
  FILE  the configuration

example: fws translate iptables pf site.txt router.saved
exit status: 0 answered, 1 can't be placed, 2 bad command line, 3 a file is
  refused, 4 a file can't be read, 5 the output can't be written, 6 out of
  memory
"
}

fn trace_page() -> &'static [u8]
    ensures { result.now ≡ trace_page }
{
    b"fws trace LANG SITE FILE CONNS PACKETS

Writes what the configuration FILE does to each packet in PACKETS, one line for
each: est where the packet belongs to a connection in CONNS, else new; then drop
or accept; and for an accepted packet the source and destination with which it
goes on.

  LANG     the language of FILE: iptables, ipfw, pf, ios or openbsd
  SITE     the site file: interfaces, addresses and routes of the host
  FILE     the configuration
  CONNS    a line for each tracked connection: protocol, then destination, port,
           source and port of its first packet, and the same of its replies
  PACKETS  a line for each packet: entry, protocol, destination, port, source,
           port, TCP flags as a number and ICMP type; 0 for what it doesn't have

example: fws trace iptables site.txt router.saved connections packets
exit status: 0 answered, 2 bad command line, 3 a file is refused,
  4 a file can't be read, 5 the output can't be written, 6 out of memory
"
}

fn why_page() -> &'static [u8]
    ensures { result.now ≡ why_page }
{
    b"fws why LANG SITE FILE CONNS PACKETS

Writes the lines of trace, and below the line of each packet the rules of FILE
that apply to it on its way, in the order in which it meets them: the number of
the rule and its place. A policy is no rule and has no line.

  LANG     the language of FILE: iptables, ipfw, pf or ios
  SITE     the site file: interfaces, addresses and routes of the host
  FILE     the configuration
  CONNS    a line for each tracked connection: protocol, then destination, port,
           source and port of its first packet, and the same of its replies
  PACKETS  a line for each packet: entry, protocol, destination, port, source,
           port, TCP flags as a number and ICMP type; 0 for what it doesn't have

example: echo wan 6 203.0.113.2 80 198.51.100.9 50000 2 0 |
  fws why iptables site.txt router.saved /dev/null /dev/stdin
exit status: 0 answered, 2 bad command line, 3 a file is refused,
  4 a file can't be read, 5 the output can't be written, 6 out of memory
"
}

fn run_page() -> &'static [u8]
    ensures { result.now ≡ run_page }
{
    b"fws run LANG SITE FILE EVENTS

Writes what becomes of the events in EVENTS, one after the other. The list of
connections is empty at first; an accepted packet opens one where the
configuration FILE keeps state of all that it accepts. The last lines are the
connections that are listed at the end.

  LANG    the language of FILE: iptables, ipfw, pf, ios or openbsd
  SITE    the site file: interfaces, addresses and routes of the host
  FILE    the configuration
  EVENTS  a line for each event: a packet in the words of trace, or expire K,
          which takes connection K out of the list, counted from 0

example: fws run iptables site.txt router.saved events
exit status: 0 answered, 2 bad command line, 3 a file is refused,
  4 a file can't be read, 5 the output can't be written, 6 out of memory
"
}

fn same_page() -> &'static [u8]
    ensures { result.now ≡ same_page }
{
    b"fws same LANG SITE FILE LANG2 FILE2

Writes same where the configurations FILE and FILE2 do the same to every packet
at the site SITE, new or established. Else it writes differ, a packet with
which they don't, and what becomes of that packet in FILE and in FILE2. The
status is 0 in both cases.

  LANG   the language of FILE: iptables, ipfw, pf, ios or openbsd
  SITE   the site file: interfaces, addresses and routes of the host
  FILE   a configuration
  LANG2  the language of FILE2
  FILE2  another configuration

example: fws same iptables site.txt old.saved iptables new.saved
exit status: 0 answered, 2 bad command line, 3 a file is refused,
  4 a file can't be read, 5 the output can't be written, 6 out of memory
"
}

fn dead_page() -> &'static [u8]
    ensures { result.now ≡ dead_page }
{
    b"fws dead LANG SITE FILE

Writes how many rules of the configuration FILE no packet uses at the site SITE,
new or established, and the number and place of each. A packet uses the rules
that it meets and that apply to it. A rule that none uses is often a mistake in
the order of the file: rules ahead of it take all of its packets.

  LANG  the language of FILE: iptables, ipfw, pf or ios
  SITE  the site file: interfaces, addresses and routes of the host
  FILE  the configuration

example: fws dead iptables site.txt router.saved
exit status: 0 answered, 2 bad command line, 3 a file is refused,
  4 a file can't be read, 5 the output can't be written, 6 out of memory
"
}

fn load_page() -> &'static [u8]
    ensures { result.now ≡ load_page }
{
    b"fws load N

Writes one line about a filter of N rules that the program makes itself, at a
site of its own: how many rows its two tables have, and on how many of the four
systems it can be placed. It shows how long a policy of this size takes. It
reads no file.

  N  the number of rules, from 1 to 4000

example: fws load 400
exit status: 0 answered, 2 bad command line, 5 the output can't be written,
  6 out of memory
"
}

fn site2_page() -> &'static [u8]
    ensures { result.now ≡ site2_page }
{
    b"fws site2 SITE

Writes the site file SITE in its second form, which has lines for further
addresses and for routes. Comments and blanks aren't kept. The two forms of a
site mean the same.

  SITE  the site file; a file with the name --help is read as ./--help

example: fws site2 site.txt
exit status: 0 answered, 2 bad command line, 3 a file is refused,
  4 a file can't be read, 5 the output can't be written, 6 out of memory
"
}

/// What `fws COMMAND --help` writes.
pub(crate) fn page(name: CommandName) -> &'static [u8]
    ensures { result.now ≡ page_of name }
{
    match name {
        CommandName::Synth => synth_page(),
        CommandName::Query => query_page(),
        CommandName::Translate => translate_page(),
        CommandName::Trace => trace_page(),
        CommandName::Why => why_page(),
        CommandName::Run => run_page(),
        CommandName::Same => same_page(),
        CommandName::Dead => dead_page(),
        CommandName::Load => load_page(),
        CommandName::SecondForm => site2_page(),
    }
}
