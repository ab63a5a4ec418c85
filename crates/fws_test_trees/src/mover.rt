//! A rule that moves values as it is asked, and keeps what it was asked.

ghost use Rattle.std.specs.Prelude.{◌<◌, IfOk};
ghost use Rattle.fws_tree.specs.Building.{Extends};

use crate::random::Random;
use fws_num::Memory;
use fws_tree::{Moves, Values};
use std::alloc::Global;

/// What the rule answered for a value at a label.
#[derive(Clone, Copy)]
pub struct Answer {
    /// The value.
    pub value: u32,
    /// The label.
    pub label: u32,
    /// What it became.
    pub next: u32,
}

/// What a value became at a label, if the rule was asked just once.
pub fn next_of(answers: &[Answer], value: u32, label: u32) -> Option<u32> {
    let mut next = None;
    for answer in answers {
        if answer.value == value && answer.label == label {
            if next.is_some() {
                return None;
            }
            next = Some(answer.next);
        }
    }
    next
}

/// A rule that moves a value to a new one or to one that is there, of which there are at most sixteen.
#[derive(Drop)]
pub struct Mover {
    random: Random,
    answers: Vec<Answer>,
}

impl Mover {
    /// A rule that was asked nothing yet.
    pub fn new(alloc: Global, seed: u64) -> Mover {
        Mover {
            random: Random::new(seed),
            answers: Vec::new(alloc),
        }
    }

    /// What it was asked, in order.
    pub fn answers(&self) -> &[Answer] {
        self.answers.as_slice()
    }

    /// A new value, or one that is there.
    fn next_value(&mut self, values: &mut Values) -> Result<u32, Memory>
        ensures small { IfOk result (λ n. n < 16) }
        ensures values { Extends values.old values.new }
    {
        let count = values.len().min(16) as u32;
        if count == 0 || (count < 16 && self.random.one_in(3)) {
            let bits = u64::from(self.random.below(8));
            return values.add(bits);
        }
        Ok(self.random.below(count))
    }
}

impl Moves for Mover {
    ghost use Rattle.std.specs.Prelude.{ℕ, ◌<◌};

    ghost moves = { λ s value label next. next < 16 };

    ghost later = { λ s t. Unit {0} };

    ghost same = { λ s. tt };

    ghost then = { λ s t u e f. tt };

    fn moved(&mut self, values: &mut Values, value: u32, label: u32) -> Result<u32, Memory> {
        let next = self.next_value(values)?;
        self.answers.push(Answer { value, label, next })?;
        Ok(next)
    }
}
