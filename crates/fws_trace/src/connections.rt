//! Texts of tracked connections.

ghost use Rattle.std.specs.Prelude.{◌≡◌, MatchResult};
ghost use Rattle.fws_trace.specs.Lines.{IsGiven, spelled_line};
ghost use Rattle.fws_trace.specs.ConnectionText.{spelled_conn, conns_of};

use crate::answer::{LineAnswer, Malformed};
use crate::ends::read_tuple;
use crate::lines::{listed, put_spelled};
use fws_net::{Conn, LineFault, LineReader, read_text};
use fws_num::{Comments, Items, Line, Word, are_sound};
use std::alloc::Global;

/// The connection that the words of a line spell.
fn read_conn(words: &[Word]) -> Option<Conn>
    ensures { result ≡ spelled_conn words.now }
{
    let [proto, a, b, c, d, e, f, g, h] = words else {
        return None;
    };
    let orig = read_tuple(proto, a, b, c, d)?;
    let reply = read_tuple(proto, e, f, g, h)?;
    Some(Conn { orig, reply })
}

/// The connection of a line whose words can be judged.
fn read_line(line: &Line) -> Option<Conn>
    ensures { result ≡ spelled_line spelled_conn line.now }
{
    if are_sound(line.words.as_slice()) {
        read_conn(line.words.as_slice())
    } else {
        None
    }
}

/// The connections of the lines so far.
#[derive(Drop)]
struct ConnReader {
    conns: Items<Conn>,
}

impl LineReader for ConnReader {
    type Context = ();

    type State = Items<Conn>;

    type Cause = Malformed;

    type Output = Items<Conn>;

    ghost use Rattle.std.specs.Prelude.{Ok};
    ghost use Rattle.fws_trace.specs.Lines.{line_step};
    ghost use Rattle.fws_trace.specs.ConnectionText.{spelled_conn};

    ghost state = { λ r. r.conns };

    ghost allows = { λ _. Unit {0} };

    ghost step = { λ _ conns line. line_step spelled_conn conns line };

    ghost finished = { λ _ conns. Ok conns };

    fn take(
        &mut self,
        _alloc: Global,
        _context: &(),
        line: &Line,
    ) -> Result<(), LineFault<Malformed>> {
        put_spelled(&mut self.conns, read_line(line))
    }

    fn finish(self, _context: &()) -> Result<Items<Conn>, LineFault<Malformed>> {
        Ok(self.conns)
    }
}

/// The connections that a text lists, one on each line that has words and isn't a comment. Its nine words
/// are a protocol, and then destination, its port, source and its port of the original tuple and of the
/// reply tuple.
///
/// The answer `Refused` has the first line, counted from 1, that has another number of words or a word that
/// isn't spelled so. `Memory` comes only where memory is wanting or the text has more than 2^32 - 2 lines.
pub fn read_conns(alloc: Global, text: &[u8]) -> Result<Vec<Conn>, LineAnswer>
    ensures { MatchResult result (λ conns. conns_of text.now ≡ Ok conns.items) (λ answer. IsGiven answer (conns_of text.now)) }
{
    let reader = ConnReader {
        conns: Items::new(alloc),
    };
    listed(read_text(alloc, Comments::HashLine, reader, &(), text))
}
