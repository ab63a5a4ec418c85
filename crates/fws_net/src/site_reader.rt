//! Reads a site file line by line.

ghost use Rattle.std.specs.Prelude.{◌≡◌, ◌≤◌, ◌-◌, [], length, OnOk};
ghost use Rattle.std.specs.List.{list_all};
ghost use Rattle.fws_net.specs.Reading.{CauseGiven, StepGiven};
ghost use Rattle.fws_net.specs.SiteLines.{form_of, behind_face, face_with_address, face_alone, spelled_face, with_face, with_address, with_route, address_added, header_step, interface_step, address_behind, address_step, route_behind, route_step, loopback_behind, loopback_step, default_behind, default_step, choice_of, forwarding_step, one_pass_step, behind_interfaces, behind_addresses, stage_step, words_step, line_step};
ghost use Rattle.fws_net.specs.SiteText.{no_names, empty_site, fresh_draft, finished};

use crate::answer::LineFault;
use crate::cause::{SiteCause, SiteFault};
use crate::draft::{Draft, Form, Stage};
use crate::line_reader::LineReader;
use crate::routes::FIRST_ENTRY;
use crate::site::{Address, Iface, Names, RouteLine, Side, Site};
use crate::site_lines::{
    admit_address, admit_face, admit_loopback, admit_route, are_addressed, entry_of,
};
use crate::site_words::{
    MALFORMED, read_address, read_name, read_names, read_names_and_side, read_net,
};
use fws_num::{Items, Line, Memory, Text, Word, are_sound};
use std::alloc::Global;
use std::marker::Model;
use std::mem;

/// What was read so far of a site file. Contracts see the draft.
#[derive(Drop)]
pub(crate) struct SiteReader {
    draft: Draft,
}

impl Model for SiteReader {
    ghost use Rattle.std.specs.Prelude.{◌≤◌, length};
    ghost use Rattle.fws_net.specs.declared.draft.Draft.{Draft};

    ghost Value = { Draft };

    ghost view = { λ r. r.draft };

    ghost invariant = { λ r. length r.draft.site.faces ≤ 62 };
}

/// The form that the first line names.
fn read_form(words: &[Word]) -> Result<Form, SiteFault>
    ensures { CauseGiven result (form_of words.now) }
{
    match words {
        [a, b] => {
            if !a.is(b"site") {
                Err(MALFORMED)
            } else if b.is(b"1") {
                Ok(Form::First)
            } else if b.is(b"2") {
                Ok(Form::Second)
            } else {
                Err(MALFORMED)
            }
        }
        _ => Err(MALFORMED),
    }
}

/// Four names and a side, which stand last on the line of an interface.
fn read_behind_face(alloc: Global, words: &[Word]) -> Result<(Names, Side), SiteFault>
    ensures { CauseGiven result (behind_face words.now) }
{
    match words {
        [a, b, c, d, e] => read_names_and_side(alloc, a, b, c, d, e),
        _ => Err(MALFORMED),
    }
}

/// An interface with an address on its line.
#[tactic(auto, unfolding(crate::specs::SiteLines::face_with_address))]
fn read_face_with_address(
    alloc: Global,
    name: &Word,
    net: &Word,
    words: &[Word],
) -> Result<Iface, SiteFault>
    ensures { CauseGiven result (face_with_address name.now net.now words.now) }
{
    let name = read_name(alloc, name.text.as_slice())?;
    let own = read_address(net)?;
    let (names, side) = read_behind_face(alloc, words)?;
    let mut addrs = Items::new(alloc);
    addrs.put(own)?;
    Ok(Iface {
        name,
        addrs,
        names,
        side,
    })
}

/// An interface whose addresses have lines of their own.
#[tactic(auto, unfolding(crate::specs::SiteLines::face_alone))]
fn read_face_alone(alloc: Global, name: &Word, words: &[Word]) -> Result<Iface, SiteFault>
    ensures { CauseGiven result (face_alone name.now words.now) }
{
    let name = read_name(alloc, name.text.as_slice())?;
    let (names, side) = read_behind_face(alloc, words)?;
    Ok(Iface {
        name,
        addrs: Items::new(alloc),
        names,
        side,
    })
}

/// An interface as its line spells it behind the keyword.
fn read_spelled_face(alloc: Global, form: Form, words: &[Word]) -> Result<Iface, SiteFault>
    ensures { CauseGiven result (spelled_face form words.now) }
{
    match form {
        Form::First => match words {
            [name, net, rest @ ..] => read_face_with_address(alloc, name, net, rest),
            _ => Err(MALFORMED),
        },
        Form::Second => match words {
            [name, rest @ ..] => read_face_alone(alloc, name, rest),
            _ => Err(MALFORMED),
        },
    }
}

/// Puts the address behind those of the interface with this number.
fn put_address(faces: &mut [Iface], k: usize, own: Address) -> Result<(), Memory>
    ensures { OnOk result (faces.new ≡ address_added k own faces.old) }
{
    if k >= faces.len() {
        return Ok(());
    }
    let face = &mut faces[k];
    face.addrs.put(own)?;
    Ok(())
}

/// Which of two words stands behind a keyword.
fn read_choice(
    expected: &[u8],
    yes_word: &[u8],
    no_word: &[u8],
    key: &Word,
    words: &[Word],
) -> Result<bool, SiteFault>
    ensures { CauseGiven result (choice_of expected.now yes_word.now no_word.now key.now words.now) }
{
    match words {
        [word] => {
            if !key.is(expected) {
                Err(MALFORMED)
            } else if word.is(yes_word) {
                Ok(true)
            } else if word.is(no_word) {
                Ok(false)
            } else {
                Err(MALFORMED)
            }
        }
        _ => Err(MALFORMED),
    }
}

impl SiteReader {
    /// What was read ahead of the first line.
    pub(crate) fn new(alloc: Global) -> SiteReader
        ensures { result ≡ fresh_draft }
    {
        SiteReader {
            draft: Draft {
                stage: Stage::Header,
                form: Form::First,
                site: Site {
                    faces: Items::new(alloc),
                    routes: Items::new(alloc),
                    lo: Names {
                        ipt: Text::new(alloc),
                        ipfw: Text::new(alloc),
                        pf: Text::new(alloc),
                        ios: Text::new(alloc),
                    },
                    fallback: 0,
                    forwarding: false,
                    one_pass: false,
                },
            },
        }
    }

    /// The interfaces so far.
    fn faces(&self) -> &[Iface]
        ensures value { result.now ≡ self.now.site.faces }
        ensures few { length result.now ≤ 62 }
    {
        self.draft.site.faces.as_slice()
    }

    /// Takes the first line.
    fn take_header(&mut self, words: &[Word]) -> Result<(), SiteFault>
        ensures { StepGiven result self.new (header_step words.now self.old) }
    {
        self.draft.form = read_form(words)?;
        self.draft.stage = Stage::Interfaces;
        Ok(())
    }

    /// Takes an interface, of which these words stand behind the keyword.
    #[tactic(auto, unfolding(crate::specs::SiteLines::interface_step))]
    fn take_interface(&mut self, alloc: Global, words: &[Word]) -> Result<(), SiteFault>
        ensures { StepGiven result self.new (interface_step words.now self.old) }
    {
        let form = self.draft.form;
        let spelled = read_spelled_face(alloc, form, words)?;
        let face = admit_face(form, self.faces(), spelled)?;
        self.draft.site.faces.put(face)?;
        self.draft.stage = Stage::Interfaces;
        Ok(())
    }

    /// Adds the address to the interface with this entry number.
    fn add_address(&mut self, alloc: Global, entry: u8, own: Address) -> Result<(), Memory>
        requires { 2 ≤ entry }
        ensures { OnOk result (self.new ≡ with_address entry own self.old) }
    {
        let mut faces = mem::replace(&mut self.draft.site.faces, Items::new(alloc)).into_vec();
        let put = put_address(faces.as_mut_slice(), usize::from(entry - FIRST_ENTRY), own);
        self.draft.site.faces = Items::from_vec(faces);
        self.draft.stage = Stage::Addresses;
        put
    }

    /// Takes an address.
    #[tactic(auto, unfolding(crate::specs::SiteLines::address_behind))]
    fn take_address_behind(
        &mut self,
        alloc: Global,
        name: &Word,
        net: &Word,
    ) -> Result<(), SiteFault>
        ensures { StepGiven result self.new (address_behind name.now net.now self.old) }
    {
        let name = read_name(alloc, name.text.as_slice())?;
        let own = read_address(net)?;
        let entry = admit_address(self.faces(), name.as_slice(), own)?;
        self.add_address(alloc, entry, own)?;
        Ok(())
    }

    /// Takes an address, of which these words stand behind the keyword.
    fn take_address(&mut self, alloc: Global, words: &[Word]) -> Result<(), SiteFault>
        ensures { StepGiven result self.new (address_step words.now self.old) }
    {
        match words {
            [name, net] => self.take_address_behind(alloc, name, net),
            _ => Err(MALFORMED),
        }
    }

    /// Takes a route.
    #[tactic(auto, unfolding(crate::specs::SiteLines::route_behind))]
    fn take_route_behind(&mut self, alloc: Global, net: &Word, name: &Word) -> Result<(), SiteFault>
        ensures { StepGiven result self.new (route_behind net.now name.now self.old) }
    {
        let net = read_net(net)?;
        let name = read_name(alloc, name.text.as_slice())?;
        let face = admit_route(&self.draft.site, net, name.as_slice())?;
        self.draft.site.routes.put(RouteLine { net, face })?;
        self.draft.stage = Stage::Routes;
        Ok(())
    }

    /// Takes a route, of which these words stand behind the keyword.
    fn take_route(&mut self, alloc: Global, words: &[Word]) -> Result<(), SiteFault>
        ensures { StepGiven result self.new (route_step words.now self.old) }
    {
        match words {
            [net, name] => self.take_route_behind(alloc, net, name),
            _ => Err(MALFORMED),
        }
    }

    /// Takes the names of loopback.
    #[tactic(auto, unfolding(crate::specs::SiteLines::loopback_behind))]
    fn take_loopback_behind(
        &mut self,
        alloc: Global,
        a: &Word,
        b: &Word,
        c: &Word,
        e: &Word,
    ) -> Result<(), SiteFault>
        ensures { StepGiven result self.new (loopback_behind a.now b.now c.now e.now self.old) }
    {
        let spelled = read_names(alloc, a, b, c, e)?;
        self.draft.site.lo = admit_loopback(self.faces(), spelled)?;
        self.draft.stage = Stage::Default;
        Ok(())
    }

    /// Takes the line of loopback, where each interface has an address.
    fn take_loopback(&mut self, alloc: Global, key: &Word, words: &[Word]) -> Result<(), SiteFault>
        ensures { StepGiven result self.new (loopback_step key.now words.now self.old) }
    {
        match words {
            [a, b, c, e] => {
                if !key.is(b"loopback") || !are_addressed(self.faces()) {
                    return Err(MALFORMED);
                }
                self.take_loopback_behind(alloc, a, b, c, e)
            }
            _ => Err(MALFORMED),
        }
    }

    /// Takes the name of the default interface.
    #[tactic(auto, unfolding(crate::specs::SiteLines::default_behind))]
    fn take_default_behind(&mut self, alloc: Global, name: &Word) -> Result<(), SiteFault>
        ensures { StepGiven result self.new (default_behind name.now self.old) }
    {
        let name = read_name(alloc, name.text.as_slice())?;
        self.draft.site.fallback = entry_of(self.faces(), name.as_slice())?;
        self.draft.stage = Stage::Forwarding;
        Ok(())
    }

    /// Takes the line of the default interface.
    fn take_default(&mut self, alloc: Global, key: &Word, words: &[Word]) -> Result<(), SiteFault>
        ensures { StepGiven result self.new (default_step key.now words.now self.old) }
    {
        match words {
            [name] => {
                if !key.is(b"default") {
                    return Err(MALFORMED);
                }
                self.take_default_behind(alloc, name)
            }
            _ => Err(MALFORMED),
        }
    }

    /// Takes the line on forwarding.
    fn take_forwarding(&mut self, key: &Word, words: &[Word]) -> Result<(), SiteFault>
        ensures { StepGiven result self.new (forwarding_step key.now words.now self.old) }
    {
        self.draft.site.forwarding = read_choice(b"forwarding", b"yes", b"no", key, words)?;
        self.draft.stage = Stage::OnePass;
        Ok(())
    }

    /// Takes the last line.
    fn take_one_pass(&mut self, key: &Word, words: &[Word]) -> Result<(), SiteFault>
        ensures { StepGiven result self.new (one_pass_step key.now words.now self.old) }
    {
        self.draft.site.one_pass = read_choice(b"one_pass", b"1", b"0", key, words)?;
        self.draft.stage = Stage::Ended;
        Ok(())
    }

    /// Takes the line behind the interfaces.
    fn take_behind_interfaces(
        &mut self,
        alloc: Global,
        key: &Word,
        words: &[Word],
    ) -> Result<(), SiteFault>
        ensures { StepGiven result self.new (behind_interfaces self.old.form key.now words.now self.old) }
    {
        match self.draft.form {
            Form::First => self.take_loopback(alloc, key, words),
            Form::Second => {
                if !key.is(b"address") || self.faces().is_empty() {
                    return Err(MALFORMED);
                }
                self.take_address(alloc, words)
            }
        }
    }

    /// Takes a line behind the addresses.
    fn take_behind_addresses(
        &mut self,
        alloc: Global,
        key: &Word,
        words: &[Word],
    ) -> Result<(), SiteFault>
        ensures { StepGiven result self.new (behind_addresses key.now words.now self.old) }
    {
        if key.is(b"route") {
            self.take_route(alloc, words)
        } else {
            self.take_loopback(alloc, key, words)
        }
    }

    /// Takes a line of interfaces, or the one behind them.
    fn take_at_interfaces(
        &mut self,
        alloc: Global,
        key: &Word,
        words: &[Word],
    ) -> Result<(), SiteFault>
        ensures { StepGiven result self.new (stage_step Stage.Interfaces key.now words.now self.old) }
    {
        if key.is(b"interface") {
            self.take_interface(alloc, words)
        } else {
            self.take_behind_interfaces(alloc, key, words)
        }
    }

    /// Takes a line of addresses, or the one behind them.
    fn take_at_addresses(
        &mut self,
        alloc: Global,
        key: &Word,
        words: &[Word],
    ) -> Result<(), SiteFault>
        ensures { StepGiven result self.new (stage_step Stage.Addresses key.now words.now self.old) }
    {
        if key.is(b"address") {
            self.take_address(alloc, words)
        } else {
            self.take_behind_addresses(alloc, key, words)
        }
    }

    /// Takes the words of a line.
    fn take_words(&mut self, alloc: Global, words: &[Word]) -> Result<(), SiteFault>
        ensures { StepGiven result self.new (words_step words.now self.old) }
    {
        match words {
            [] => Err(MALFORMED),
            [key, rest @ ..] => match self.draft.stage {
                Stage::Header => self.take_header(words),
                Stage::Interfaces => self.take_at_interfaces(alloc, key, rest),
                Stage::Addresses => self.take_at_addresses(alloc, key, rest),
                Stage::Routes => self.take_behind_addresses(alloc, key, rest),
                Stage::Default => self.take_default(alloc, key, rest),
                Stage::Forwarding => self.take_forwarding(key, rest),
                Stage::OnePass => self.take_one_pass(key, rest),
                Stage::Ended => Err(MALFORMED),
            },
        }
    }
}

impl LineReader for SiteReader {
    type Context = ();

    type State = Draft;

    type Cause = SiteCause;

    type Output = Site;

    ghost use Rattle.fws_net.specs.SiteLines.{line_step};
    ghost use Rattle.fws_net.specs.SiteText.{finished};

    ghost state = { λ r. r };

    ghost allows = { λ context. Unit {0} };

    ghost step = { λ context d line. line_step d line };

    ghost finished = { λ context d. finished d };

    fn take(&mut self, alloc: Global, _context: &(), line: &Line) -> Result<(), SiteFault> {
        if !are_sound(line.words.as_slice()) {
            return Err(MALFORMED);
        }
        self.take_words(alloc, line.words.as_slice())
    }

    fn finish(self, _context: &()) -> Result<Site, SiteFault> {
        match self.draft.stage {
            Stage::Ended => Ok(self.draft.site),
            _ => Err(MALFORMED),
        }
    }
}
