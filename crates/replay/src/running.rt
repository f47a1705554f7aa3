ghost use Rattle.std.specs.Prelude.{◌≡◌, ◌<◌, max, fold};
ghost use Rattle.replay.specs.Running.{counted, Room, stretched, since, none_waiting, waited, most_waited, noted, Ready, summarized};

use super::report::{Counts, Summary};
use lock::{Answer, Call, Kind, Reply};

impl Counts {
    // One call more. That there is room is a premise, as at `Tally::note`.
    pub(crate) fn note(&mut self, kind: Kind, reply: Reply)
        requires { Room self.old }
        ensures { self.new ≡ counted self.old kind reply }
    {
        match reply {
            Ok(None) => match kind {
                Kind::Bid => self.bids += 1,
                Kind::Step => {}
                Kind::Leave => self.leaves += 1,
            },
            Ok(Some(Answer::Waits)) => self.waits += 1,
            Ok(Some(Answer::Moves)) => self.moves += 1,
            Ok(Some(Answer::Enters)) => self.enters += 1,
            Ok(Some(Answer::Out)) => self.outs += 1,
            Err(_) => self.refused += 1,
        }
    }
}

// How long the stretch that goes on is, in calls that neither wait nor enter, and the longest so far.
#[derive(Clone, Copy, Default)]
pub(crate) struct Stretch {
    length: usize,
    longest: usize,
}

impl Stretch {
    // One call more. That there is room is a premise, as at `Tally::note`.
    pub(crate) fn note(&mut self, reply: Reply)
        requires { self.old.length < 1000000 }
        ensures { self.new ≡ stretched self.old reply }
    {
        match reply {
            Ok(None | Some(Answer::Moves | Answer::Out)) => self.length += 1,
            Ok(Some(Answer::Enters)) => self.length = 0,
            Ok(Some(Answer::Waits)) | Err(_) => {}
        }
        self.longest = self.longest.max(self.length);
    }

    pub(crate) fn longest(&self) -> usize
        ensures { result ≡ self.now.longest }
    {
        self.longest
    }
}

// The places that have bid and not entered since, and the entries that they wait through. It is
// copied, and never compared or printed.
#[derive(Clone, Copy)]
pub(crate) struct Waiting {
    // The entries so far, counted here too, so that what a place waited through is a matter of this
    // struct alone.
    entries: usize,
    // For each place that waits: how many entries there were before its bid. A fixed table, since a
    // replay has no heap.
    before: [Option<usize>; 64],
    // The most entries that a place waited through before its own.
    most: usize,
}

// By hand, so that its contract gives the whole array.
impl Default for Waiting {
    ghost is_default = { λ w. w ≡ none_waiting };

    fn default() -> Waiting {
        Waiting {
            entries: 0,
            before: [None; 64],
            most: 0,
        }
    }
}

// The entries since a bid before which there were so many; none where there is no bid.
fn entries_since(entries: usize, before: Option<usize>) -> usize
    ensures { result ≡ since entries before }
{
    before.map_or(0, |before| entries.saturating_sub(before))
}

// The most of `most` and of the entries since each of these bids.
fn most_since(entries: usize, most: usize, bids: &[Option<usize>]) -> usize
    ensures { result ≡ fold (λ n o. max n (since entries o)) most bids.now }
{
    bids.iter().fold(
        most,
        |most, before| most.max(entries_since(entries, *before)),
    )
}

impl Waiting {
    // One call more. That there is room is a premise, as at `Tally::note`.
    pub(crate) fn note(&mut self, call: Call, reply: Reply)
        requires placed { call.place < 64 }
        requires room { self.old.entries < 1000000 }
        ensures { self.new ≡ waited self.old call reply }
    {
        match (call.kind, reply) {
            (Kind::Bid, Ok(None)) => {
                self.before[call.place] = self.before[call.place].or(Some(self.entries));
            }
            (_, Ok(Some(Answer::Enters))) => {
                let before = self.before[call.place].take();
                self.most = self.most.max(entries_since(self.entries, before));
                self.entries += 1;
            }
            _ => {}
        }
    }

    pub(crate) fn most(&self) -> usize
        ensures { result ≡ most_waited self.now }
    {
        most_since(self.entries, self.most, &self.before)
    }
}

// All that a replay counts while the calls are made.
#[derive(Clone, Copy, Default)]
pub(crate) struct Tally {
    calls: usize,
    counts: Counts,
    stretch: Stretch,
    waiting: Waiting,
}

impl Tally {
    // That there is room is asked of each call and is not in the types: room for one call may be
    // gone after it, and a type that bounds its counts would have its definitions prove the bound.
    pub(crate) fn note(&mut self, call: Call, reply: Reply)
        requires { Ready self.old call }
        ensures { self.new ≡ noted self.old call reply }
    {
        self.calls += 1;
        self.counts.note(call.kind, reply);
        self.stretch.note(reply);
        self.waiting.note(call, reply);
    }

    // The calls so far.
    pub(crate) fn calls(&self) -> usize
        ensures { result ≡ self.now.calls }
    {
        self.calls
    }

    // The entries so far.
    pub(crate) fn entries(&self) -> usize
        ensures { result ≡ self.now.counts.enters }
    {
        self.counts.enters
    }

    // What is reported after these calls.
    pub(crate) fn summary(&self) -> Summary
        ensures { result ≡ summarized self.now }
    {
        Summary {
            calls: self.calls,
            counts: self.counts,
            gap: self.stretch.longest(),
            passed: self.waiting.most(),
        }
    }
}
