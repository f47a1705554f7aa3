#![tactic(auto)]

ghost use Rattle.std.specs.Prelude.{◌≡◌, ◌<◌, ◌≤◌, length};
ghost use Rattle.record.specs.Readers.{reading};
ghost use Rattle.lock.specs.Pasts.{Promises};
ghost use Rattle.replay.specs.Replays.{Replayed, Outcome};
ghost use Rattle.replay.specs.Running.{noted, Ready, log_after};

mod faults;
mod report;
mod running;

pub use faults::ReplayFault;
use lock::{Answer, Call, Lock, Reply, call_on};
use record::Reader;
pub use report::{Counts, Entry, Summary};
use running::Tally;

// Makes a call, logs it if it enters, and counts it.
fn make_call<L: Lock>(lock: &mut L, call: Call, tally: &mut Tally, log: &mut [Entry]) -> Reply
    requires ready { Ready tally.old call }
    requires slot { tally.old.counts.enters < length log.old }
    ensures outcome { L.form.takes lock.old call result lock.new }
    ensures count { tally.new ≡ noted tally.old call result }
    ensures entry { log.new ≡ log_after log.old tally.old.counts.enters tally.old.calls call result }
{
    let reply = call_on(lock, call);
    // The log is lent and its entries are counted beside it, since a replay has no heap.
    if reply == Ok(Some(Answer::Enters)) {
        log[tally.entries()] = Entry {
            call: tally.calls(),
            place: call.place,
        };
    }
    tally.note(call, reply);
    reply
}

// Puts the lock back and makes each call of a record that has passed its tests.
fn make_calls<L: Lock>(lock: &mut L, reader: Reader<'_>, log: &mut [Entry]) -> Summary
    requires start { (reading reader).cursor ≡ 16 }
    requires slots { (reading reader).call_count ≤ length log.old }
    ensures { Replayed L.form lock.old lock.new (reading reader.entry).bytes log.old log.new result }
{
    lock.put_back();
    let mut tally = Tally::default();
    for call in reader {
        // The tally has counted the reply.
        let _ = make_call(lock, call, &mut tally, log);
    }
    tally.summary()
}

/// Replays the record in these bytes on a lock: puts the lock back, makes each call, and logs the entries from the
/// log's start on.
///
/// Refuses a record that fails one of its own tests, then a lock with other places, then a log with
/// fewer slots than calls; lock and log are then as they were. Its contract also has the promises
/// that hold of the lock after every past.
pub fn replay<L: Lock>(
    lock: &mut L,
    bytes: &[u8],
    log: &mut [Entry],
) -> Result<Summary, ReplayFault>
    ensures outcome { Outcome L.form lock.old lock.new bytes.now log.old log.new result }
    ensures promises { Promises L.form }
{
    let reader = Reader::open(bytes)?;
    if lock.places() != reader.places() {
        return Err(ReplayFault::OtherPlaces);
    }
    if log.len() < reader.calls() {
        return Err(ReplayFault::ShortLog);
    }
    Ok(make_calls(lock, reader, log))
}
