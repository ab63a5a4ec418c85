//! Protocols as `-p` has them.

ghost use Rattle.fws_net.specs.Reading.{CauseGiven};
ghost use Rattle.fws_ipt.specs.Values.{protocol_value};

use fws_net::{Cause, ReadFault};
use fws_num::read_protocol;
use fws_rules::is;

/// The protocol; none for every one, which is spelled `all` or 0.
pub(crate) fn read_protocol_value(text: &[u8]) -> Result<Option<u8>, ReadFault>
    ensures { CauseGiven result (protocol_value text.now) }
{
    if is(text, b"all") {
        return Ok(None);
    }
    match read_protocol(text) {
        Some(0) => Ok(None),
        Some(protocol) => Ok(Some(protocol)),
        None => Err(ReadFault::Bad(Cause::Syntax)),
    }
}
