#![tactic(auto)]

ghost use Rattle.std.specs.Prelude.{◌≡◌, ℕ, ◌<◌, ◌≤◌, length, Some};
ghost use Rattle.lock.specs.Calls.{admission, bid_by, step_by, leave_by, taken_or, answered_or};
ghost use Rattle.lock.specs.Kinds.{kind_numbered, unknown_kind_text};
ghost use Rattle.lock.specs.Meaning.{Form, Keeps, phase_answer, register_answer};
ghost use Rattle.lock.specs.Pasts.{Promises};
ghost use Rattle.lock.specs.Refusals.{refusal_notice};

use fault::{Fault, Layer, Notice};
use std::error::Error;
use std::fmt;

/// How many bids a lock takes between two makings.
pub const BID_LIMIT: u32 = 1_000_000;

/// Where a place stands.
#[derive(Clone, Copy, Debug, PartialEq, Eq)]
pub enum Phase {
    Out,
    Bidding,
    Holding,
    Leaving,
}

/// What a step answers.
#[derive(Clone, Copy, Debug, PartialEq, Eq)]
pub enum Answer {
    Waits,
    Moves,
    Enters,
    Out,
}

/// Why a lock refuses a call, with the number of the refusal.
#[derive(Clone, Copy, Debug, PartialEq, Eq)]
pub enum Refusal {
    /// The lock has no such place.
    NoPlace = 1,
    /// The call does not fit the phase of its place.
    WrongPhase = 2,
    /// A bid, with 1,000,000 bids taken.
    BidsSpent = 3,
}

impl Fault for Refusal {
    ghost told = { refusal_notice };

    fn notice(&self) -> Notice {
        Notice {
            number: *self as u8,
            byte: None,
            layer: Layer::Lock,
        }
    }
}

/// The three kinds of call, with the numbers by which a record names them.
#[derive(Clone, Copy, Debug, PartialEq, Eq)]
pub enum Kind {
    Bid = 1,
    Step = 2,
    Leave = 3,
}

/// A number that names no kind of call.
#[derive(Clone, Copy, Debug, PartialEq, Eq)]
pub struct UnknownKind(pub u8);

impl TryFrom<u8> for Kind {
    type Error = UnknownKind;

    ghost try_from_gives = { λ number kind. kind ≡ kind_numbered number };

    fn try_from(number: u8) -> Result<Self, UnknownKind> {
        match number {
            1 => Ok(Kind::Bid),
            2 => Ok(Kind::Step),
            3 => Ok(Kind::Leave),
            _ => Err(UnknownKind(number)),
        }
    }
}

impl fmt::Display for UnknownKind {
    ghost output = { λ error. Some (unknown_kind_text error) };

    fn fmt<W: fmt::Write>(&self, f: &mut fmt::Formatter<W>) -> fmt::Result {
        write!(f, "no kind of call has the number {}", self.0)
    }
}

impl Error for UnknownKind {}

/// A call for one place.
#[derive(Clone, Copy, Debug, PartialEq, Eq)]
pub struct Call {
    pub kind: Kind,
    pub place: usize,
}

/// What a call returned: the answer of an accepted step, none of an accepted bid or leave, or why
/// the call was refused.
pub type Reply = Result<Option<Answer>, Refusal>;

/// Tests a call by the phase of its place, absent where there is no such place, and the bids taken:
/// first that the place exists, then that the call fits its phase, then that a bid is not one too
/// many.
pub fn admit(kind: Kind, phase: Option<Phase>, bids: u32) -> Result<(), Refusal>
    ensures { result ≡ admission kind phase bids }
{
    let fits = match phase.ok_or(Refusal::NoPlace)? {
        Phase::Out => kind == Kind::Bid,
        Phase::Holding => kind == Kind::Leave,
        Phase::Bidding | Phase::Leaving => kind == Kind::Step,
    };
    if !fits {
        return Err(Refusal::WrongPhase);
    }
    if kind == Kind::Bid && bids >= BID_LIMIT {
        return Err(Refusal::BidsSpent);
    }
    Ok(())
}

/// A lock for a fixed number of places. At most one place holds it.
///
/// Every method may be called at any time, for any place. A call that is refused leaves the lock
/// as it was.
pub trait Lock {
    // What others may know of the lock, what its calls do, and how it was made.
    ghost form: { Form Self };

    // The lock's own invariant, which every past keeps.
    ghost sound: { Self → Type 0 };

    /// Makes the lock anew: all places out, no bids taken, each register 0, sizes as they were.
    fn put_back(&mut self)
        ensures { self.new ≡ form.made self.old };

    /// Takes an idle place into the contest.
    fn bid(&mut self, place: usize) -> Result<(), Refusal>
        ensures { form.takes self.old (bid_by place) (taken_or result) self.new };

    /// Makes one step of a place that bids or leaves, with at most one register access.
    fn step(&mut self, place: usize) -> Result<Answer, Refusal>
        ensures { form.takes self.old (step_by place) (answered_or result) self.new };

    /// Has a place that holds the lock begin to leave it.
    fn leave(&mut self, place: usize) -> Result<(), Refusal>
        ensures { form.takes self.old (leave_by place) (taken_or result) self.new };

    /// The phase of a place, absent where there is no such place.
    fn phase(&self, place: usize) -> Option<Phase>
        ensures { result ≡ phase_answer (form.meaning self.now) place };

    /// The place that holds, or nobody.
    fn holder(&self) -> Option<usize>
        ensures value { result ≡ (form.meaning self.now).holder }
        ensures within { (p : ℕ) → result ≡ Some p → p < (form.meaning self.now).places };

    /// How many bids the lock has taken since its making.
    fn bids(&self) -> u32
        ensures { result ≡ (form.meaning self.now).bids };

    /// How many places the lock has, 1 to 64.
    fn places(&self) -> usize
        ensures value { result ≡ (form.meaning self.now).places }
        ensures bound { (1 ≤ result) × (result ≤ 64) };

    /// How many registers the lock has, 4,096 at most.
    fn register_count(&self) -> usize
        ensures value { result ≡ length (form.meaning self.now).registers }
        ensures bound { result ≤ 4096 };

    /// What a register holds, absent where there is no such register.
    fn register(&self, index: usize) -> Option<u32>
        ensures { result ≡ register_answer (form.meaning self.now) index };

    // How calls may change the meaning: what each lock owes.
    ghost keeps: { Keeps form sound };
}

/// Makes one call on any lock.
///
/// Its contract also has the promises that hold of the lock after every past: n, S and M stay, the
/// answers derive from the past, at most one place holds, some active place gets on, and no
/// stretch takes more than M calls that neither wait nor enter.
#[tactic(auto, using(crate::proofs::Pasts::promises))]
pub fn call_on<L: Lock>(lock: &mut L, call: Call) -> Reply
    ensures outcome { L.form.takes lock.old call result lock.new }
    ensures promises { Promises L.form }
{
    // By a match, since the kind is data of a record, and each kind has a method of its own.
    match call.kind {
        Kind::Bid => lock.bid(call.place).map(|()| None),
        Kind::Step => lock.step(call.place).map(Some),
        Kind::Leave => lock.leave(call.place).map(|()| None),
    }
}
