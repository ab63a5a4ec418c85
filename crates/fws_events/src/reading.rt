//! Texts of events.

ghost use Rattle.std.specs.Prelude.{◌≡◌, All, MatchResult, IfOk};
ghost use Rattle.fws_events.specs.EventText.{spelled_expiry, event_of, events_of};
ghost use Rattle.fws_events.specs.Runs.{IsEventOf};
ghost use Rattle.fws_net.specs.Routes.{IsSound};
ghost use Rattle.fws_trace.specs.Lines.{IsGiven, spelled_line};

use crate::events::Event;
use fws_net::{LineFault, LineReader, Site, read_text};
use fws_num::{Comments, Items, Line, Word, are_sound, read_dec};
use fws_trace::{
    LineAnswer, Malformed, listed, put_spelled, read_packet, spelled_packets_are_of_site,
};
use std::alloc::Global;

/// The greatest number of an entry.
const TOP_ENTRY: u64 = 4_294_967_295;

/// The expiry that the words of a line spell.
fn read_expiry(words: &[Word]) -> Option<Event>
    ensures { result ≡ spelled_expiry words.now }
{
    let [word, entry] = words else {
        return None;
    };
    if word.text.as_slice() != b"expire".as_slice() {
        return None;
    }
    let entry = read_dec(entry.text.as_slice(), TOP_ENTRY)?;
    Some(Event::Expire(entry as u32))
}

/// The event that the words of a line spell.
fn read_event(site: &Site, words: &[Word]) -> Option<Event>
    requires { IsSound site.now }
    ensures { result ≡ event_of site.now words.now }
{
    match read_packet(site, words) {
        Some(p) => Some(Event::Packet(p)),
        None => read_expiry(words),
    }
}

/// The event of a line whose words can be judged.
fn read_line(site: &Site, line: &Line) -> Option<Event>
    requires { IsSound site.now }
    ensures { result ≡ spelled_line (event_of site.now) line.now }
{
    if are_sound(line.words.as_slice()) {
        read_event(site, line.words.as_slice())
    } else {
        None
    }
}

/// The events of the lines so far.
#[derive(Drop)]
struct EventReader {
    events: Items<Event>,
}

impl LineReader for EventReader {
    type Context = Site;

    type State = Items<Event>;

    type Cause = Malformed;

    type Output = Items<Event>;

    ghost use Rattle.std.specs.Prelude.{Ok};
    ghost use Rattle.fws_events.specs.EventText.{event_of};
    ghost use Rattle.fws_net.specs.Routes.{IsSound};
    ghost use Rattle.fws_trace.specs.Lines.{line_step};

    ghost state = { λ r. r.events };

    ghost allows = { λ site. IsSound site };

    ghost step = { λ site events line. line_step (event_of site) events line };

    ghost finished = { λ _ events. Ok events };

    fn take(
        &mut self,
        _alloc: Global,
        site: &Site,
        line: &Line,
    ) -> Result<(), LineFault<Malformed>> {
        put_spelled(&mut self.events, read_line(site, line))
    }

    fn finish(self, _site: &Site) -> Result<Items<Event>, LineFault<Malformed>> {
        Ok(self.events)
    }
}

/// The events that a text lists, one on each line that has words and isn't a comment: a packet, in the eight
/// words that `fws_trace::read_packets` reads, or `expire` and the number of an entry, 0 to 4294967295.
///
/// The answer `Refused` has the first line, counted from 1, that spells neither. `Memory` comes only where
/// memory is wanting or the text has more than 2^32 - 2 lines.
pub fn read_events(alloc: Global, text: &[u8], site: &Site) -> Result<Vec<Event>, LineAnswer>
    requires { IsSound site.now }
    ensures given { MatchResult result (λ events. events_of text.now site.now ≡ Ok events.items) (λ answer. IsGiven answer (events_of text.now site.now)) }
    ensures of_site { IfOk result (λ events. All (IsEventOf site.now) events.items) }
{
    spelled_packets_are_of_site();
    let reader = EventReader {
        events: Items::new(alloc),
    };
    listed(read_text(alloc, Comments::HashLine, reader, site, text))
}
