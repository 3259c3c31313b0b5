//! A clock that answers what it was given, for tests.

ghost use Rattle.std.specs.Prelude.{◌≡◌};

use crate::period_clock::PeriodClock;

/// A clock that answers these in turn, and then `false`.
#[derive(Drop)]
pub struct ScriptClock {
    answers: Vec<bool>,
    next: usize,
    asked: u64,
    over: u64,
}

impl ScriptClock {
    /// Gives the answers in turn.
    pub fn new(answers: Vec<bool>) -> Self
        ensures { ⟦<ScriptClock as PeriodClock>⟧.asked result ≡ record { asked = 0; over = 0 } }
    {
        ScriptClock {
            answers,
            next: 0,
            asked: 0,
            over: 0,
        }
    }
}

impl PeriodClock for ScriptClock {
    ghost asked = { λ c. record { asked = c.asked; over = c.over } };

    fn is_over(&mut self) -> bool {
        self.asked = self.asked.saturating_add(1);
        let answer = match self.answers.get(self.next) {
            Some(answer) => *answer,
            None => false,
        };
        self.next = self.next.saturating_add(1);
        if answer {
            self.over = self.over.saturating_add(1);
        }
        answer
    }
}
