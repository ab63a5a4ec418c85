//! Calls on the lower crates, against cases that say what the calls must give. A case is a line `CALL|TEXT|VALUE|..`, or
//! `CALL|TEXT|TEXT|VALUE|..` where calls are given two texts; behind a blank, the first field may have what the call is given
//! besides.

ghost use Rattle.fws_net.specs.Routes.{IsSound};

use crate::found::{Found, fields_of};
use crate::listing::call_listing;
use crate::packets::call_packets;
use crate::ranges::call_ranges;
use crate::saying::call_saying;
use crate::sets::call_sets;
use crate::spellings::call_spellings;
use crate::stop::Stop;
use fws_net::Site;
use fws_num::{Text, split_once};
use std::alloc::Global;

/// On what calls are.
#[derive(Clone, Copy)]
pub enum Subject {
    /// Numbers, words and lines that are read and spelled.
    Spellings,
    /// Sets of numbers.
    Sets,
    /// Texts of ports, addresses and prefixes.
    Ranges,
    /// Packets, their connections, outcomes and conditions.
    Packets,
    /// Texts of connections and packets.
    Listing,
    /// Addresses, names and entries at the site.
    Saying,
}

/// A call.
#[derive(Clone, Copy)]
pub struct Call<'a> {
    /// Its name.
    pub name: &'a [u8],
    /// What it is given besides texts.
    pub with: &'a [u8],
    /// A text.
    pub text: &'a [u8],
    /// Another text, which is empty where there is none.
    pub second: &'a [u8],
}

/// The call of a case's fields, and the values that it must give.
fn call_of(subject: Subject, fields: &[Text]) -> Result<(Call<'_>, &[Text]), Stop> {
    let [call, text, behind @ ..] = fields else {
        return Err(Stop::Malformed);
    };
    let (name, with) = split_once(call.as_slice(), b' ').unwrap_or((call.as_slice(), b""));
    let text = text.as_slice();
    match (subject, behind) {
        (Subject::Sets | Subject::Packets, [second, wanted @ ..]) => {
            let second = second.as_slice();
            let call = Call {
                name,
                with,
                text,
                second,
            };
            Ok((call, wanted))
        }
        (Subject::Sets | Subject::Packets, []) => Err(Stop::Malformed),
        (_, wanted) => {
            let second = b"";
            let call = Call {
                name,
                with,
                text,
                second,
            };
            Ok((call, wanted))
        }
    }
}

/// Adds what a call gives.
fn put_call(found: &mut Found, site: &Site, subject: Subject, call: &Call) -> Result<(), Stop>
    requires { IsSound site.now }
{
    match subject {
        Subject::Spellings => call_spellings(found, call),
        Subject::Sets => call_sets(found, call),
        Subject::Ranges => call_ranges(found, call),
        Subject::Packets => call_packets(found, site, call),
        Subject::Listing => call_listing(found, site, call),
        Subject::Saying => call_saying(found, site, call),
    }
}

/// Whether a call gives these values.
fn gives(
    alloc: Global,
    site: &Site,
    subject: Subject,
    call: &Call,
    wanted: &[Text],
) -> Result<bool, Stop>
    requires { IsSound site.now }
{
    let mut found = Found::new(alloc);
    put_call(&mut found, site, subject, call)?;
    Ok(found.values.as_slice() == wanted)
}

/// Whether the call of a case's fields gives its values.
fn fields_give_so(
    alloc: Global,
    site: &Site,
    subject: Subject,
    fields: &[Text],
) -> Result<bool, Stop>
    requires { IsSound site.now }
{
    let (call, wanted) = call_of(subject, fields)?;
    gives(alloc, site, subject, &call, wanted)
}

/// Whether the call of a case gives its values.
pub fn gives_so(alloc: Global, site: &Site, subject: Subject, case: &[u8]) -> Result<bool, Stop>
    requires { IsSound site.now }
{
    let fields = fields_of(alloc, case)?;
    fields_give_so(alloc, site, subject, fields.as_slice())
}
