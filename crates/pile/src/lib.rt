#![tactic(auto)]

ghost use Rattle.std.specs.Prelude.{◌≡◌, ℕ, ◌<◌, Some};
ghost use Rattle.lock.specs.Calls.{bid_by, step_by, leave_by, taken_or, answered_or};
ghost use Rattle.lock.specs.Meaning.{phase_answer};
ghost use Rattle.lock.specs.Pasts.{Promises};
ghost use Rattle.pile.specs.declared.Side.{Side as SideOf};
ghost use Rattle.pile.specs.Finding.{side_of, top_place, found};
ghost use Rattle.pile.specs.PileCalls.{meanings, pile_made, SideTakes, AfterSide, AfterTop};
ghost use Rattle.pile.specs.Forms.{piled, nested};
ghost use Rattle.pile.specs.Joined.{PileSound};
ghost use Rattle.pile.specs.Laws.PileKeeps.{pile_keeps};

use lock::{Answer, Call, Kind, Lock, Phase, Refusal, Reply, admit, call_on};

const PLACE_LIMIT: usize = 64;

const REGISTER_LIMIT: usize = 4096;

/// One of the two lower parts of a pile, with the number of the top's place that its boxes use.
#[derive(Clone, Copy, Debug, PartialEq, Eq)]
pub enum Side {
    Left = 0,
    Right = 1,
}

impl Side {
    // The place of the top that the boxes of the side use.
    fn top_place(self) -> usize
        ensures { result ≡ top_place self }
    {
        self as usize
    }
}

/// A lock made of three: each box holds its side first, and then the top.
#[derive(Drop)]
pub struct Pile<T, L, R> {
    top: T,
    left: L,
    right: R,
}

impl<T: Lock, L: Lock, R: Lock> Pile<T, L, R> {
    /// A pile of the three locks, each made anew.
    pub fn new(top: T, left: L, right: R) -> Pile<T, L, R>
        ensures { result ≡ pile_made T.form L.form R.form (record { top = top; left = left; right = right }) }
    {
        let mut pile = Pile { top, left, right };
        pile.put_back();
        pile
    }

    /// The side of a place and its place there, absent where there is no such place.
    pub fn find(&self, place: usize) -> Option<(Side, usize)>
        ensures value { result ≡ found (meanings T.form L.form R.form self.now) place }
        ensures within { (d : SideOf) (i : ℕ) → result ≡ Some (d, i) → (i < (side_of d (meanings T.form L.form R.form self.now)).places) × (top_place d < (T.form.meaning self.now.top).places) }
    {
        let left = self.left.places();
        let top = self.top.places();
        if place < left {
            return Some((Side::Left, place));
        }
        if top > 1 && place < PLACE_LIMIT && place - left < self.right.places() {
            return Some((Side::Right, place - left));
        }
        None
    }

    // Each of the four functions below picks the side for one method. The sides are of two types,
    // and one function over a `Call` would return a `Reply` and lose that a step always answers.

    // The phase of a place at its side.
    fn side_phase(&self, side: Side, place: usize) -> Option<Phase>
        ensures { result ≡ phase_answer (side_of side (meanings T.form L.form R.form self.now)) place }
    {
        match side {
            Side::Left => self.left.phase(place),
            Side::Right => self.right.phase(place),
        }
    }

    fn side_bid(&mut self, side: Side, place: usize) -> Result<(), Refusal>
        ensures { SideTakes T.form L.form R.form side self.old (bid_by place) (taken_or result) self.new }
    {
        match side {
            Side::Left => self.left.bid(place),
            Side::Right => self.right.bid(place),
        }
    }

    fn side_step(&mut self, side: Side, place: usize) -> Result<Answer, Refusal>
        ensures { SideTakes T.form L.form R.form side self.old (step_by place) (answered_or result) self.new }
    {
        match side {
            Side::Left => self.left.step(place),
            Side::Right => self.right.step(place),
        }
    }

    fn side_leave(&mut self, side: Side, place: usize) -> Result<(), Refusal>
        ensures { SideTakes T.form L.form R.form side self.old (leave_by place) (taken_or result) self.new }
    {
        match side {
            Side::Left => self.left.leave(place),
            Side::Right => self.right.leave(place),
        }
    }

    // What follows a step at the side: a box that entered there bids at the top in the same call.
    fn after_side(&mut self, side: Side, answer: Answer) -> Answer
        ensures { AfterSide T.form L.form R.form (Ok (Some answer)) side self.old (Ok (Some result)) self.new }
    {
        if answer != Answer::Enters {
            return answer;
        }
        // The side had no holder before, so its place at the top is out, and the top has taken
        // fewer bids than the sides: it does not refuse.
        let _ = self.top.bid(side.top_place());
        Answer::Moves
    }

    // What follows a step at the top: a box that is out there leaves its side in the same call.
    fn after_top(&mut self, side: Side, place: usize, answer: Answer) -> Answer
        ensures { AfterTop T.form L.form R.form (Ok (Some answer)) side place self.old (Ok (Some result)) self.new }
    {
        if answer != Answer::Out {
            return answer;
        }
        // The box holds its side, so the side does not refuse.
        let _ = self.side_leave(side, place);
        Answer::Moves
    }
}

impl<T: Lock, L: Lock, R: Lock> Lock for Pile<T, L, R> {
    ghost form = { piled T.form L.form R.form };

    ghost sound = { PileSound T.sound L.sound R.sound (meanings T.form L.form R.form) };

    ghost keeps = { pile_keeps T.keeps L.keeps R.keeps };

    fn put_back(&mut self) {
        self.top.put_back();
        self.left.put_back();
        self.right.put_back();
    }

    fn bid(&mut self, place: usize) -> Result<(), Refusal> {
        let (side, inner) = self.find(place).ok_or(Refusal::NoPlace)?;
        let phase = self.side_phase(side, inner);
        // Every part is asked for its bids, so they are counted only where the phase allows a bid.
        if phase != Some(Phase::Out) {
            return admit(Kind::Bid, phase, 0);
        }
        admit(Kind::Bid, phase, self.bids())?;
        self.side_bid(side, inner)
    }

    fn step(&mut self, place: usize) -> Result<Answer, Refusal> {
        let (side, inner) = self.find(place).ok_or(Refusal::NoPlace)?;
        if self.side_phase(side, inner) == Some(Phase::Holding) {
            let answer = self.top.step(side.top_place())?;
            Ok(self.after_top(side, inner, answer))
        } else {
            let answer = self.side_step(side, inner)?;
            Ok(self.after_side(side, answer))
        }
    }

    fn leave(&mut self, place: usize) -> Result<(), Refusal> {
        let (side, inner) = self.find(place).ok_or(Refusal::NoPlace)?;
        // The bids taken are no matter to a leave, and to count them each part is asked.
        admit(Kind::Leave, self.side_phase(side, inner), 0)?;
        self.top.leave(side.top_place())
    }

    fn phase(&self, place: usize) -> Option<Phase> {
        let (side, inner) = self.find(place)?;
        match self.side_phase(side, inner) {
            Some(Phase::Holding) => self.top.phase(side.top_place()),
            phase => phase,
        }
    }

    fn holder(&self) -> Option<usize> {
        match self.top.holder()? {
            0 => self.left.holder(),
            1 => {
                let place = self.left.places() + self.right.holder()?;
                (place < self.places()).then_some(place)
            }
            _ => None,
        }
    }

    fn bids(&self) -> u32 {
        self.left.bids().saturating_add(self.right.bids())
    }

    fn places(&self) -> usize {
        let left = self.left.places();
        if self.top.places() == 1 {
            return left;
        }
        (left + self.right.places()).min(PLACE_LIMIT)
    }

    fn register_count(&self) -> usize {
        (self.top.register_count() + self.left.register_count() + self.right.register_count()).min(
            REGISTER_LIMIT,
        )
    }

    fn register(&self, index: usize) -> Option<u32> {
        if index >= REGISTER_LIMIT {
            return None;
        }
        // By subtraction, since a part is asked for its registers by its own numbers.
        let top = self.top.register_count();
        if index < top {
            return self.top.register(index);
        }
        let left = self.left.register_count();
        if index - top < left {
            return self.left.register(index - top);
        }
        self.right.register(index - top - left)
    }
}

/// Makes one call on a pile with a pile at its left, whatever five locks they are made of.
pub fn call_on_nested<Top: Lock, Upper: Lock, First: Lock, Second: Lock, Last: Lock>(
    pile: &mut Pile<Top, Pile<Upper, First, Second>, Last>,
    call: Call,
) -> Reply
    ensures outcome { (nested Top.form Upper.form First.form Second.form Last.form).takes pile.old call result pile.new }
    ensures promises { Promises (nested Top.form Upper.form First.form Second.form Last.form) }
{
    call_on(pile, call)
}
