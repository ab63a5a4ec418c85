//! Interfaces, and what their lines say (Cisco IOS).

ghost use Rattle.std.specs.Prelude.{◌≡◌};
ghost use Rattle.fws_net.specs.Reading.{CauseGiven, StepGiven};
ghost use Rattle.fws_net.specs.Routes.{IsSound};
ghost use Rattle.fws_ios.specs.FileText.{direction_line, direction_of, face_line, group_line, group_words, interface_line, mark_line};

use crate::begins::{alone, begins_with_three, begins_with_two, behind, is_left_out_at_interface};
use crate::keywords::misplaced;
use crate::progress::{Progress, open_alone};
use fws_ios::{Block, IosGroup, Marked};
use fws_net::{Cause, Lang, ReadFault, Site, entry_named};
use fws_num::{Text, Word};
use fws_rules::is;
use std::alloc::Global;

/// Takes the words behind `interface`.
pub(crate) fn interface_line(
    site: &Site,
    words: &[Word],
    progress: &mut Progress,
) -> Result<(), ReadFault>
    requires { IsSound site.now }
    ensures { StepGiven result progress.new (interface_line site.now words.now progress.old) }
{
    let Some((word, rest)) = words.split_first() else {
        return Err(ReadFault::Bad(Cause::Syntax));
    };
    if !word.is_sound() {
        return Err(ReadFault::Bad(Cause::Syntax));
    }
    let face = entry_named(site, Lang::Ios, word.text.as_slice());
    open_alone(Block::Interface(face), rest, progress)
}

/// Whether packets that go out are meant, or those that come in.
fn direction_of(text: &[u8]) -> Option<bool>
    ensures { result ≡ direction_of text.now }
{
    if is(text, b"in") {
        Some(false)
    } else if is(text, b"out") {
        Some(true)
    } else {
        None
    }
}

/// The name of a list, and the direction behind it.
fn direction_line(name: Text, words: &[Word]) -> Result<(Text, bool), ReadFault>
    ensures { CauseGiven result (direction_line name words.now) }
{
    let Some((word, rest)) = words.split_first() else {
        return Err(ReadFault::Bad(Cause::Syntax));
    };
    if !word.is_sound() {
        return Err(ReadFault::Bad(Cause::Syntax));
    }
    let text = word.text.as_slice();
    match direction_of(text) {
        Some(outward) => alone((name, outward), rest),
        None => Err(ReadFault::Bad(misplaced(text))),
    }
}

/// The name of a list, and a direction.
fn group_words(alloc: Global, words: &[Word]) -> Result<(Text, bool), ReadFault>
    ensures { CauseGiven result (group_words words.now) }
{
    let Some((word, rest)) = words.split_first() else {
        return Err(ReadFault::Bad(Cause::Syntax));
    };
    if !word.is_sound() {
        return Err(ReadFault::Bad(Cause::Syntax));
    }
    direction_line(word.text.copy(alloc)?, rest)
}

/// Takes the words behind `ip access-group`, at an interface that the site may lack.
fn group_line(
    alloc: Global,
    face: Option<u8>,
    words: &[Word],
    progress: &mut Progress,
) -> Result<(), ReadFault>
    ensures { StepGiven result progress.new (group_line face words.now progress.old) }
{
    let (list, outward) = group_words(alloc, words)?;
    match face {
        Some(face) => {
            progress.put_group(IosGroup {
                face,
                outward,
                list,
            })?;
            Ok(())
        }
        None => Err(ReadFault::Bad(Cause::NoInterface)),
    }
}

/// Takes the words behind `ip nat inside` and `ip nat outside`, at an interface that the site may lack.
fn mark_line(
    face: Option<u8>,
    outside: bool,
    words: &[Word],
    progress: &mut Progress,
) -> Result<(), ReadFault>
    ensures { StepGiven result progress.new (mark_line face outside words.now progress.old) }
{
    let outside = alone(outside, words)?;
    match face {
        Some(face) => {
            progress.put_mark(Marked { face, outside })?;
            Ok(())
        }
        None => Err(ReadFault::Bad(Cause::NoInterface)),
    }
}

/// Takes a line of an interface that the site may lack.
pub(crate) fn face_line(
    alloc: Global,
    face: Option<u8>,
    words: &[Word],
    progress: &mut Progress,
) -> Result<(), ReadFault>
    ensures { StepGiven result progress.new (face_line face words.now progress.old) }
{
    if begins_with_two(words, b"ip", b"access-group") {
        return group_line(alloc, face, behind(words, 2), progress);
    }
    if begins_with_three(words, b"ip", b"nat", b"inside") {
        return mark_line(face, false, behind(words, 3), progress);
    }
    if begins_with_three(words, b"ip", b"nat", b"outside") {
        return mark_line(face, true, behind(words, 3), progress);
    }
    if face.is_some() && is_left_out_at_interface(words) {
        return Err(ReadFault::Bad(Cause::LeftOut));
    }
    Ok(())
}
