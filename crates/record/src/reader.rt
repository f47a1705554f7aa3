ghost use Rattle.std.specs.Prelude.{◌≡◌, ◌+◌, ◌%◌, ◌≤◌, length, Ok, IfOk, OnOk};
ghost use Rattle.record.specs.Layout.{number_at, places_in, call_count_in};
ghost use Rattle.record.specs.Checks.{header_read, reading_test};
ghost use Rattle.record.specs.RoundTrip.{Sound};
ghost use Rattle.std.proofs.Props.{props};

use super::checks::{HEADER_LENGTH, check_calls, check_counts};
use super::faults::RecordFault;
use lock::{Call, Kind};

// What the header of a record says. It is copied, and never compared or printed.
#[derive(Clone, Copy)]
struct Header {
    places: u32,
    calls: usize,
}

/// A record that passed every test, gone through call by call; it borrows the record's bytes.
#[derive(Drop)]
pub struct Reader<'a> {
    bytes: &'a [u8],
    header: Header,
    // The byte of the next call, or the end: by the project's rule a reader keeps the record's bytes
    // and how far it has come.
    cursor: usize,
    // Every test passed, and what follows from that; the words after `by` show that it is one fact
    // however it was proved.
    pub ghost passed: { reading_test bytes.now ≡ Ok tt },
    pub ghost sound: { Sound bytes.now } by { Prim.hlevel props },
    // The header is what the bytes say.
    pub ghost counts: { (header.places ≡ places_in bytes.now) × (header.calls ≡ call_count_in bytes.now) },
    // The cursor lies before a call or at the end.
    pub ghost at_a_call: { (16 ≤ cursor) × (cursor % 2 ≡ 0) × (cursor ≤ length bytes.now) },
}

// The 32-bit number at `start`, low byte first.
fn number_at(bytes: &[u8], start: usize) -> u32
    requires { start + 4 ≤ length bytes.now }
    ensures { result ≡ number_at bytes.now start }
{
    u32::from_le_bytes(*bytes[start..].first_chunk().unwrap())
}

// Refuses by the tests that the header alone decides.
fn read_header(bytes: &[u8]) -> Result<Header, RecordFault>
    ensures { result ≡ header_read bytes.now }
{
    if bytes.len() < HEADER_LENGTH {
        return Err(RecordFault::HeaderCut);
    }
    // By their bytes, since the format has the numbers there.
    let places = number_at(bytes, 0);
    let calls = number_at(bytes, 4) as usize;
    check_counts(places, calls)?;
    if number_at(bytes, 8) as usize != HEADER_LENGTH {
        return Err(RecordFault::CallOffset);
    }
    let length = number_at(bytes, 12) as usize;
    if length != HEADER_LENGTH + 2 * calls || length != bytes.len() {
        return Err(RecordFault::WholeLength);
    }
    Ok(Header { places, calls })
}

impl<'a> Reader<'a> {
    ghost use Rattle.record.specs.Readers.{reading, opened, opening, start_of, rewound, position_of, NextCall};

    /// Opens a record before its first call; refuses with the first test that fails.
    pub fn open(bytes: &'a [u8]) -> Result<Reader<'a>, RecordFault>
        ensures outcome { opened result ≡ opening bytes.now }
        ensures start { IfOk result (λ reader. reading reader ≡ start_of bytes.now) }
        ensures sound { OnOk result (Sound bytes.now) }
    {
        let header = read_header(bytes)?;
        check_calls(header.places, HEADER_LENGTH, &bytes[HEADER_LENGTH..])?;
        Ok(Reader {
            bytes,
            header,
            cursor: HEADER_LENGTH,
        })
    }

    /// How many places the record has, 1 to 64.
    pub fn places(&self) -> usize
        ensures value { result ≡ (reading self.now).places }
        ensures bound { (1 ≤ result) × (result ≤ 64) }
    {
        self.header.places as usize
    }

    /// How many calls the record has, 20,000 at most.
    pub fn calls(&self) -> usize
        ensures value { result ≡ (reading self.now).call_count }
        ensures bound { result ≤ 20000 }
    {
        self.header.calls
    }

    /// How many calls have come since the record was opened or gone back to its start, at most all.
    pub fn position(&self) -> usize
        ensures value { result ≡ position_of (reading self.now) }
        ensures bound { result ≤ (reading self.now).call_count }
    {
        (self.cursor - HEADER_LENGTH) / 2
    }

    /// The next call, and moves past it; none at the end, where it stays.
    pub fn next_call(&mut self) -> Option<Call>
        ensures { NextCall (reading self.old) result (reading self.new) }
    {
        let [kind, place, rest @ ..] = &self.bytes[self.cursor..] else {
            return None;
        };
        let call = Call {
            kind: Kind::try_from(*kind).unwrap(),
            place: *place as usize,
        };
        self.cursor = self.bytes.len() - rest.len();
        Some(call)
    }

    /// Goes back before the first call.
    pub fn rewind(&mut self)
        ensures { reading self.new ≡ rewound (reading self.old) }
    {
        self.cursor = HEADER_LENGTH;
    }
}

/// The calls that are still to come, one after the other.
impl Iterator for Reader<'_> {
    ghost use Rattle.std.specs.Iterator.{YieldsFirst, item_count};
    ghost use Rattle.record.specs.Readers.{still_to_come};

    type Item = Call;

    ghost next_gives = { YieldsFirst still_to_come };

    ghost remaining = { item_count still_to_come };

    fn next(&mut self) -> Option<Call> {
        self.next_call()
    }
}
