//! Protocols of rules.

ghost use Rattle.std.specs.Prelude.{◌≡◌, IfOk};
ghost use Rattle.fws_rules.specs.Literals.{protocol_literal};

use crate::literals::positive;
use fws_iv::one;
use fws_net::{Lit, Test};
use fws_num::Memory;
use std::alloc::Global;

/// The literal of the protocol; none for every one. Fails if memory runs out.
pub fn protocol_literal(alloc: Global, protocol: Option<u8>) -> Result<Option<Lit>, Memory>
    ensures { IfOk result (λ lit. lit ≡ protocol_literal protocol) }
{
    match protocol {
        Some(n) => {
            let set = one(alloc, u32::from(n), u32::from(n))?;
            Ok(Some(positive(Test::Proto(set))))
        }
        None => Ok(None),
    }
}
