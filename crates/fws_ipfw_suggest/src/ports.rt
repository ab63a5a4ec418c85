//! Tests of ports.

use crate::words::put_numbers;
use fws_num::{Memory, Text};
use fws_suggest::{Phrases, Policy, Ports, Side, Stop, Style};
use std::alloc::Global;

/// What is asked of a port.
#[derive(Drop)]
pub(crate) struct PortTest {
    /// Whether something is asked.
    pub(crate) is_asked: bool,
    /// Whether all but the numbers are meant.
    is_negated: bool,
    /// The numbers.
    numbers: Text,
}

/// The test that asks for these ports.
fn test_of(alloc: Global, ports: &Ports) -> Result<PortTest, Memory> {
    let mut numbers = Text::new(alloc);
    put_numbers(&mut numbers, &ports.ranges)?;
    Ok(PortTest {
        is_asked: true,
        is_negated: ports.is_negated,
        numbers,
    })
}

/// The test of the ports of a field: nothing is asked where all are meant.
pub(crate) fn port_test(
    policy: &mut Policy,
    style: &Style,
    field: usize,
    side: Side,
) -> Result<PortTest, Stop> {
    let alloc = policy.alloc;
    if side == policy.space.full(field) {
        return Ok(PortTest {
            is_asked: false,
            is_negated: false,
            numbers: Text::new(alloc),
        });
    }
    let ports = style.ports(&mut policy.space, field, side)?;
    let test = test_of(alloc, &ports)?;
    Ok(test)
}

impl PortTest {
    /// Appends the test behind an address.
    pub(crate) fn put_behind(&self, out: &mut Text) -> Result<(), Memory> {
        if self.is_asked {
            out.put(if self.is_negated { b" not " } else { b" " })?;
            out.put(self.numbers.as_slice())?;
        }
        Ok(())
    }

    /// The test as an option.
    fn option(&self, alloc: Global, name: &[u8]) -> Result<Text, Memory> {
        let mut text = Text::of(alloc, if self.is_negated { b"not " } else { b"" })?;
        text.put(name)?;
        text.put(self.numbers.as_slice())?;
        Ok(text)
    }

    /// Appends the test as an option.
    pub(crate) fn put_option(
        &self,
        alloc: Global,
        out: &mut Phrases,
        name: &[u8],
    ) -> Result<(), Memory> {
        if self.is_asked {
            let text = self.option(alloc, name)?;
            out.put(text.as_slice())?;
        }
        Ok(())
    }
}
