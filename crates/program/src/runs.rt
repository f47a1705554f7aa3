ghost use Rattle.std.specs.Prelude.{◌≡◌, length, IfOk, vec_len};
ghost use Rattle.program.specs.Runs.{Played, pile_of, OnPile, handed_on, Runs};

use super::faults::{ProgramFault, RunError};
use super::text::report_lines;
use leaf::Peterson;
use lock::Lock;
use replay::{Entry, replay};
use shapes::{pile_four, pile_six};
use std::alloc::{AllocError, Global};

// One byte more than the longest record has, so that a longer one is seen to be too long.
const RECORD_LIMIT: usize = 40_017;

// A slot for each call of the longest record.
const SLOTS: usize = 20_000;

// The piles that the program offers, by their numbers.
#[derive(Clone, Copy, Debug, PartialEq, Eq)]
enum PileName {
    OnePeterson = 1,
    EightBoxes = 4,
    ByeAndPeterson = 6,
}

impl TryFrom<u8> for PileName {
    type Error = ProgramFault;

    ghost try_from_gives = { λ number named. named ≡ pile_of number };

    fn try_from(number: u8) -> Result<PileName, ProgramFault> {
        match number {
            1 => Ok(PileName::OnePeterson),
            4 => Ok(PileName::EightBoxes),
            6 => Ok(PileName::ByeAndPeterson),
            _ => Err(ProgramFault::NoPile),
        }
    }
}

// Replays a record on the lock of a pile, with this log.
fn play<L: Lock>(
    heap: Global,
    // The number to print, and no name, so that any lock can be played.
    pile: u8,
    lock: &mut L,
    bytes: &[u8],
    log: &mut [Entry],
) -> Result<String, RunError>
    ensures { Played L.form lock.old pile bytes.now (length log.old) result }
{
    let summary = replay(lock, bytes, log)?;
    let entries = &log[..summary.counts.enters];
    Ok(report_lines(heap, pile, lock, entries, summary)?)
}

// Replays a record on a new lock of the pile, with this log.
fn run_pile(
    heap: Global,
    pile: PileName,
    bytes: &[u8],
    log: &mut [Entry],
) -> Result<String, RunError>
    ensures { OnPile pile bytes.now (length log.old) result }
{
    let number = pile as u8;
    // By a match, since each pile is a lock of another type, which the contract names.
    match pile {
        PileName::OnePeterson => play(heap, number, &mut Peterson::new(), bytes, log),
        PileName::EightBoxes => play(heap, number, &mut pile_four(), bytes, log),
        PileName::ByeAndPeterson => play(heap, number, &mut pile_six(), bytes, log),
    }
}

// The bytes that are handed on as a record.
fn handed_on(bytes: &[u8]) -> &[u8]
    ensures { result.now ≡ handed_on bytes.now }
{
    &bytes[..RECORD_LIMIT.min(bytes.len())]
}

// A log with its slots unused.
fn empty_log(heap: Global) -> Result<Vec<Entry>, AllocError>
    ensures { IfOk result (λ log. vec_len log ≡ 20000) }
{
    vec![in heap; Entry { call: 0, place: 0 }; SLOTS]
}

/// Runs an input: a byte with the number of a pile, and then a record, of which at most 40,017
/// bytes are handed on. Gives the lines of the replay.
///
/// An input without the number of a pile is refused first; a record as a replay refuses it. Fails
/// besides only for want of memory.
pub fn run(heap: Global, input: &[u8]) -> Result<String, RunError>
    ensures { Runs input.now result }
{
    let (number, record) = input.split_first().ok_or(ProgramFault::NoPile)?;
    let pile = PileName::try_from(*number)?;
    let mut log = empty_log(heap)?;
    run_pile(heap, pile, handed_on(record), log.as_mut_slice())
}
