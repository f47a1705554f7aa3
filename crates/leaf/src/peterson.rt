ghost use Rattle.std.specs.Prelude.{◌≡◌};
ghost use Rattle.leaf.specs.PetersonLines.{line_phase, peterson_made, peterson_form, PetersonSound};
ghost use Rattle.leaf.specs.Laws.PetersonCorrect.{peterson_keeps};

use lock::{Answer, Kind, Lock, Phase, Refusal, admit};

const PLACES: usize = 2;

// The register numbers: W0 and W1 stand at their places, and P behind them.
const P: usize = 2;

const REGISTERS: usize = 3;

/// Where a box stands in the algorithm.
#[derive(Clone, Copy, Debug, PartialEq, Eq)]
pub enum Line {
    Out,
    One,
    Two,
    Three,
    Four,
    Holding,
    Leaving,
}

/// What the lock keeps of one box.
#[derive(Clone, Copy, Debug, PartialEq, Eq)]
pub struct BoxRecord {
    line: Line,
}

impl BoxRecord {
    // By a match, which shows the lines of each phase.
    fn phase(self) -> Phase
        ensures { result ≡ line_phase self.line }
    {
        match self.line {
            Line::Out => Phase::Out,
            Line::One | Line::Two | Line::Three | Line::Four => Phase::Bidding,
            Line::Holding => Phase::Holding,
            Line::Leaving => Phase::Leaving,
        }
    }
}

/// Peterson's lock for two boxes.
#[derive(Drop)]
pub struct Peterson {
    boxes: [BoxRecord; PLACES],
    registers: [u32; REGISTERS],
    bids: u32,
}

impl Peterson {
    /// A lock with both boxes out.
    pub fn new() -> Peterson
        ensures { result ≡ peterson_made }
    {
        Peterson {
            boxes: [BoxRecord { line: Line::Out }; PLACES],
            registers: [0; REGISTERS],
            bids: 0,
        }
    }
}

// By the project's rule each lock has an implementation of its own, however like another's it is.
impl Lock for Peterson {
    ghost form = { peterson_form };

    ghost sound = { PetersonSound };

    ghost keeps = { peterson_keeps };

    fn put_back(&mut self) {
        *self = Peterson::new();
    }

    fn bid(&mut self, place: usize) -> Result<(), Refusal> {
        admit(Kind::Bid, self.phase(place), self.bids)?;
        self.boxes[place].line = Line::One;
        self.bids += 1;
        Ok(())
    }

    fn step(&mut self, place: usize) -> Result<Answer, Refusal> {
        let line = self.boxes.get(place).ok_or(Refusal::NoPlace)?.line;
        // 0 for a line that reads none: by the project's rule a step matches the line together with
        // the value read.
        let read = match line {
            Line::Three => self.registers[P],
            Line::Four => self.registers[1 - place],
            _ => 0,
        };
        let (next, answer) = match (line, read) {
            (Line::One, _) => {
                self.registers[place] = 1;
                (Line::Two, Answer::Moves)
            }
            (Line::Two, _) => {
                self.registers[P] = 1 - place as u32;
                (Line::Three, Answer::Moves)
            }
            (Line::Three, turn) if turn == place as u32 => (Line::Holding, Answer::Enters),
            (Line::Three, _) => (Line::Four, Answer::Waits),
            (Line::Four, 0) => (Line::Holding, Answer::Enters),
            (Line::Four, _) => (Line::Three, Answer::Waits),
            (Line::Leaving, _) => {
                self.registers[place] = 0;
                (Line::Out, Answer::Out)
            }
            (Line::Out | Line::Holding, _) => return Err(Refusal::WrongPhase),
        };
        self.boxes[place].line = next;
        Ok(answer)
    }

    fn leave(&mut self, place: usize) -> Result<(), Refusal> {
        admit(Kind::Leave, self.phase(place), self.bids)?;
        self.boxes[place].line = Line::Leaving;
        Ok(())
    }

    fn phase(&self, place: usize) -> Option<Phase> {
        Some(self.boxes.get(place)?.phase())
    }

    fn holder(&self) -> Option<usize> {
        self.boxes
            .iter()
            .position(|record| record.phase() == Phase::Holding)
    }

    fn bids(&self) -> u32 {
        self.bids
    }

    fn places(&self) -> usize {
        PLACES
    }

    fn register_count(&self) -> usize {
        REGISTERS
    }

    fn register(&self, index: usize) -> Option<u32> {
        self.registers.get(index).copied()
    }
}
