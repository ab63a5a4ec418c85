//! Site files: reading.

ghost use Rattle.std.specs.Prelude.{IfOk};
ghost use Rattle.fws_net.specs.Reading.{ReadGiven};
ghost use Rattle.fws_net.specs.Routes.{IsSound};
ghost use Rattle.fws_net.specs.SiteLaws.{IsOrderly};
ghost use Rattle.fws_net.specs.SiteText.{site_of};

use crate::cause::SiteAnswer;
use crate::line_reader::read_text;
use crate::site::Site;
use crate::site_laws::read_sites_are_orderly;
use crate::site_reader::SiteReader;
use fws_num::Comments;
use std::alloc::Global;

/// The site that a text of the form `site 1` or `site 2` spells.
///
/// The answer `Refused` has the first bad line, counted from 1, and the first of these causes that it
/// has:
///
/// - `Syntax`: a word isn't spelled as its place asks, a line stands at the wrong place, or the text
///   ends too early (at the number of lines plus one) or goes on.
/// - `Overlap`: in the first form the network meets that of an earlier interface; in the second the
///   address is an earlier one's, or the network that of an earlier address or route; in both the
///   network of an address meets 127.0.0.0/8.
/// - `Names`: a name is taken, or the line names no interface.
/// - `Count`: it is interface 15 of the first form or 63 of the second, address 1,025 or route 4,097.
///
/// `Memory` comes only where memory is wanting or the text has more than 2^32 - 2 lines. A site that is
/// read is orderly: its numbers are within their bounds, and its names, addresses and networks differ.
pub fn read_site(alloc: Global, text: &[u8]) -> Result<Site, SiteAnswer>
    ensures given { ReadGiven result (site_of text.now) }
    ensures sound { IfOk result (λ site. IsSound site) }
    ensures orderly { IfOk result (λ site. IsOrderly site) }
{
    read_sites_are_orderly();
    let reader = SiteReader::new(alloc);
    read_text(alloc, Comments::HashLine, reader, &(), text)
}
