ghost use Rattle.std.specs.Prelude.{◌≡◌};
ghost use Rattle.leaf.specs.ByeLines.{bye_made, bye_form, ByeSound};
ghost use Rattle.leaf.specs.Laws.ByeCorrect.{bye_keeps};

use lock::{Answer, Kind, Lock, Phase, Refusal, admit};

/// The lock of one place: its box enters whenever it bids, with no register.
#[derive(Drop)]
pub struct Bye {
    phase: Phase,
    bids: u32,
}

impl Bye {
    /// A lock with its box out.
    pub fn new() -> Bye
        ensures { result ≡ bye_made }
    {
        Bye {
            phase: Phase::Out,
            bids: 0,
        }
    }
}

// By the project's rule each lock has an implementation of its own, however like another's it is.
impl Lock for Bye {
    ghost form = { bye_form };

    ghost sound = { ByeSound };

    ghost keeps = { bye_keeps };

    fn put_back(&mut self) {
        *self = Bye::new();
    }

    fn bid(&mut self, place: usize) -> Result<(), Refusal> {
        admit(Kind::Bid, self.phase(place), self.bids)?;
        self.phase = Phase::Bidding;
        self.bids += 1;
        Ok(())
    }

    fn step(&mut self, place: usize) -> Result<Answer, Refusal> {
        match self.phase(place).ok_or(Refusal::NoPlace)? {
            Phase::Bidding => {
                self.phase = Phase::Holding;
                Ok(Answer::Enters)
            }
            Phase::Leaving => {
                self.phase = Phase::Out;
                Ok(Answer::Out)
            }
            Phase::Out | Phase::Holding => Err(Refusal::WrongPhase),
        }
    }

    fn leave(&mut self, place: usize) -> Result<(), Refusal> {
        admit(Kind::Leave, self.phase(place), self.bids)?;
        self.phase = Phase::Leaving;
        Ok(())
    }

    fn phase(&self, place: usize) -> Option<Phase> {
        (place == 0).then_some(self.phase)
    }

    fn holder(&self) -> Option<usize> {
        (self.phase == Phase::Holding).then_some(0)
    }

    fn bids(&self) -> u32 {
        self.bids
    }

    fn places(&self) -> usize {
        1
    }

    fn register_count(&self) -> usize {
        0
    }

    fn register(&self, _index: usize) -> Option<u32> {
        None
    }
}
