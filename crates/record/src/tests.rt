use super::call::RawCall;
use super::faults::RecordFault;
use super::reader::Reader;
use super::writer::write_record;
use fault::Fault;
use lock::Call;
use std::process::Abort;
use std::test::Fail;

// The number and the byte of a refusal.
type Refusal = (u8, Option<usize>);

struct Reading {
    bytes: &'static [u8],
    refusal: Option<Refusal>,
}

const READINGS: [Reading; 38] = [
    Reading {
        bytes: &[],
        refusal: Some((4, Some(0))),
    },
    Reading {
        bytes: &[0, 0, 0, 0, 0, 0, 0, 0, 0, 0, 0, 0, 0, 0, 0],
        refusal: Some((4, Some(0))),
    },
    Reading {
        bytes: &[1, 0, 0, 0, 0, 0, 0, 0, 16, 0, 0, 0, 16, 0, 0],
        refusal: Some((4, Some(0))),
    },
    // The places, with all behind them wrong too where they are refused.
    Reading {
        bytes: &[0, 0, 0, 0, 255, 255, 255, 255, 0, 0, 0, 0, 0, 0, 0, 0],
        refusal: Some((5, Some(0))),
    },
    Reading {
        bytes: &[1, 0, 0, 0, 0, 0, 0, 0, 16, 0, 0, 0, 16, 0, 0, 0],
        refusal: None,
    },
    Reading {
        bytes: &[64, 0, 0, 0, 0, 0, 0, 0, 16, 0, 0, 0, 16, 0, 0, 0],
        refusal: None,
    },
    Reading {
        bytes: &[65, 0, 0, 0, 33, 78, 0, 0, 17, 0, 0, 0, 17, 0, 0, 0],
        refusal: Some((5, Some(0))),
    },
    Reading {
        bytes: &[0, 1, 0, 0, 0, 0, 0, 0, 16, 0, 0, 0, 16, 0, 0, 0],
        refusal: Some((5, Some(0))),
    },
    Reading {
        bytes: &[0, 0, 0, 1, 0, 0, 0, 0, 16, 0, 0, 0, 16, 0, 0, 0],
        refusal: Some((5, Some(0))),
    },
    // 20,001 calls, and 20,000 in a record that ends too soon.
    Reading {
        bytes: &[1, 0, 0, 0, 33, 78, 0, 0, 17, 0, 0, 0, 17, 0, 0, 0],
        refusal: Some((6, Some(4))),
    },
    Reading {
        bytes: &[1, 0, 0, 0, 33, 78, 0, 0, 16, 0, 0, 0, 82, 156, 0, 0],
        refusal: Some((6, Some(4))),
    },
    Reading {
        bytes: &[1, 0, 0, 0, 0, 0, 1, 0, 16, 0, 0, 0, 16, 0, 0, 0],
        refusal: Some((6, Some(4))),
    },
    Reading {
        bytes: &[1, 0, 0, 0, 32, 78, 0, 0, 16, 0, 0, 0, 80, 156, 0, 0],
        refusal: Some((8, Some(12))),
    },
    // The offset, with a wrong length behind it.
    Reading {
        bytes: &[1, 0, 0, 0, 0, 0, 0, 0, 15, 0, 0, 0, 15, 0, 0, 0],
        refusal: Some((7, Some(8))),
    },
    Reading {
        bytes: &[1, 0, 0, 0, 0, 0, 0, 0, 17, 0, 0, 0, 17, 0, 0, 0],
        refusal: Some((7, Some(8))),
    },
    Reading {
        bytes: &[1, 0, 0, 0, 0, 0, 0, 0, 16, 1, 0, 0, 16, 0, 0, 0],
        refusal: Some((7, Some(8))),
    },
    // The length is not that of the header and the calls.
    Reading {
        bytes: &[1, 0, 0, 0, 0, 0, 0, 0, 16, 0, 0, 0, 15, 0, 0, 0],
        refusal: Some((8, Some(12))),
    },
    Reading {
        bytes: &[1, 0, 0, 0, 0, 0, 0, 0, 16, 0, 0, 0, 17, 0, 0, 0, 0],
        refusal: Some((8, Some(12))),
    },
    Reading {
        bytes: &[1, 0, 0, 0, 1, 0, 0, 0, 16, 0, 0, 0, 16, 0, 0, 0],
        refusal: Some((8, Some(12))),
    },
    Reading {
        bytes: &[1, 0, 0, 0, 0, 0, 0, 0, 16, 0, 0, 0, 18, 0, 0, 0, 1, 0],
        refusal: Some((8, Some(12))),
    },
    // The length is not that of the bytes, though the calls behind are bad.
    Reading {
        bytes: &[1, 0, 0, 0, 0, 0, 0, 0, 16, 0, 0, 0, 16, 0, 0, 0, 0],
        refusal: Some((8, Some(12))),
    },
    Reading {
        bytes: &[1, 0, 0, 0, 1, 0, 0, 0, 16, 0, 0, 0, 18, 0, 0, 0, 0],
        refusal: Some((8, Some(12))),
    },
    Reading {
        bytes: &[1, 0, 0, 0, 1, 0, 0, 0, 16, 0, 0, 0, 18, 0, 0, 0, 0, 9, 0],
        refusal: Some((8, Some(12))),
    },
    // One call.
    Reading {
        bytes: &[2, 0, 0, 0, 1, 0, 0, 0, 16, 0, 0, 0, 18, 0, 0, 0, 0, 2],
        refusal: Some((9, Some(16))),
    },
    Reading {
        bytes: &[2, 0, 0, 0, 1, 0, 0, 0, 16, 0, 0, 0, 18, 0, 0, 0, 1, 0],
        refusal: None,
    },
    Reading {
        bytes: &[2, 0, 0, 0, 1, 0, 0, 0, 16, 0, 0, 0, 18, 0, 0, 0, 2, 1],
        refusal: None,
    },
    Reading {
        bytes: &[2, 0, 0, 0, 1, 0, 0, 0, 16, 0, 0, 0, 18, 0, 0, 0, 3, 1],
        refusal: None,
    },
    Reading {
        bytes: &[2, 0, 0, 0, 1, 0, 0, 0, 16, 0, 0, 0, 18, 0, 0, 0, 4, 1],
        refusal: Some((9, Some(16))),
    },
    Reading {
        bytes: &[2, 0, 0, 0, 1, 0, 0, 0, 16, 0, 0, 0, 18, 0, 0, 0, 255, 1],
        refusal: Some((9, Some(16))),
    },
    Reading {
        bytes: &[2, 0, 0, 0, 1, 0, 0, 0, 16, 0, 0, 0, 18, 0, 0, 0, 3, 2],
        refusal: Some((10, Some(17))),
    },
    Reading {
        bytes: &[2, 0, 0, 0, 1, 0, 0, 0, 16, 0, 0, 0, 18, 0, 0, 0, 1, 255],
        refusal: Some((10, Some(17))),
    },
    Reading {
        bytes: &[1, 0, 0, 0, 1, 0, 0, 0, 16, 0, 0, 0, 18, 0, 0, 0, 1, 1],
        refusal: Some((10, Some(17))),
    },
    // Two calls: the first bad byte counts.
    Reading {
        bytes: &[2, 0, 0, 0, 2, 0, 0, 0, 16, 0, 0, 0, 20, 0, 0, 0, 1, 0, 3, 1],
        refusal: None,
    },
    Reading {
        bytes: &[2, 0, 0, 0, 2, 0, 0, 0, 16, 0, 0, 0, 20, 0, 0, 0, 1, 0, 0, 1],
        refusal: Some((9, Some(18))),
    },
    Reading {
        bytes: &[2, 0, 0, 0, 2, 0, 0, 0, 16, 0, 0, 0, 20, 0, 0, 0, 1, 0, 4, 2],
        refusal: Some((9, Some(18))),
    },
    Reading {
        bytes: &[2, 0, 0, 0, 2, 0, 0, 0, 16, 0, 0, 0, 20, 0, 0, 0, 1, 0, 3, 2],
        refusal: Some((10, Some(19))),
    },
    Reading {
        bytes: &[2, 0, 0, 0, 2, 0, 0, 0, 16, 0, 0, 0, 20, 0, 0, 0, 1, 2, 0, 2],
        refusal: Some((10, Some(17))),
    },
    Reading {
        bytes: &[2, 0, 0, 0, 2, 0, 0, 0, 16, 0, 0, 0, 20, 0, 0, 0, 0, 2, 0, 2],
        refusal: Some((9, Some(16))),
    },
];

fn refusal_of(fault: RecordFault) -> Refusal {
    (fault.number(), fault.byte())
}

fn refusal_of_opening(bytes: &[u8]) -> Option<Refusal> {
    Reader::open(bytes).err().map(refusal_of)
}

#[test]
fn each_test_of_the_reader_has_its_edges_and_its_turn(rt: HostRuntime) {
    for reading in &READINGS {
        assert_eq!(rt; refusal_of_opening(reading.bytes), reading.refusal);
    }
}

const UNTOUCHED: u8 = 170;

const BID_AT_0: RawCall = RawCall { kind: 1, place: 0 };

const LEAVE_AT_1: RawCall = RawCall { kind: 3, place: 1 };

struct Writing {
    places: u32,
    calls: &'static [RawCall],
    room: usize,
    outcome: Result<usize, Refusal>,
}

const WRITINGS: [Writing; 17] = [
    Writing {
        places: 1,
        calls: &[],
        room: 16,
        outcome: Ok(16),
    },
    Writing {
        places: 64,
        calls: &[],
        room: 24,
        outcome: Ok(16),
    },
    Writing {
        places: 2,
        calls: &[BID_AT_0, LEAVE_AT_1],
        room: 20,
        outcome: Ok(20),
    },
    Writing {
        places: 2,
        calls: &[BID_AT_0, LEAVE_AT_1],
        room: 24,
        outcome: Ok(20),
    },
    // The places come before the calls and the room.
    Writing {
        places: 0,
        calls: &[BID_AT_0],
        room: 0,
        outcome: Err((5, Some(0))),
    },
    Writing {
        places: 65,
        calls: &[RawCall { kind: 0, place: 65 }],
        room: 0,
        outcome: Err((5, Some(0))),
    },
    Writing {
        places: 256,
        calls: &[],
        room: 24,
        outcome: Err((5, Some(0))),
    },
    // The calls come before the room.
    Writing {
        places: 2,
        calls: &[RawCall { kind: 0, place: 2 }],
        room: 0,
        outcome: Err((9, Some(16))),
    },
    Writing {
        places: 2,
        calls: &[RawCall { kind: 4, place: 0 }],
        room: 24,
        outcome: Err((9, Some(16))),
    },
    Writing {
        places: 2,
        calls: &[RawCall { kind: 3, place: 2 }],
        room: 0,
        outcome: Err((10, Some(17))),
    },
    Writing {
        places: 1,
        calls: &[BID_AT_0, LEAVE_AT_1],
        room: 24,
        outcome: Err((10, Some(19))),
    },
    Writing {
        places: 2,
        calls: &[BID_AT_0, RawCall { kind: 0, place: 1 }],
        room: 24,
        outcome: Err((9, Some(18))),
    },
    Writing {
        places: 2,
        calls: &[RawCall { kind: 1, place: 2 }, RawCall { kind: 0, place: 2 }],
        room: 24,
        outcome: Err((10, Some(17))),
    },
    // The room alone.
    Writing {
        places: 1,
        calls: &[],
        room: 0,
        outcome: Err((14, Some(0))),
    },
    Writing {
        places: 1,
        calls: &[],
        room: 15,
        outcome: Err((14, Some(0))),
    },
    Writing {
        places: 2,
        calls: &[BID_AT_0, LEAVE_AT_1],
        room: 19,
        outcome: Err((14, Some(0))),
    },
    Writing {
        places: 2,
        calls: &[BID_AT_0, LEAVE_AT_1],
        room: 16,
        outcome: Err((14, Some(0))),
    },
];

fn outcome_of(returned: Result<usize, RecordFault>) -> Result<usize, Refusal> {
    returned.map_err(refusal_of)
}

// Writes into a buffer of untouched bytes, of which those behind the record must stay so.
fn check_writing(rt: &impl Abort, writing: &Writing, buffer: &mut [u8]) {
    assert!(rt; writing.room <= buffer.len());
    let outcome = outcome_of(write_record(
        writing.places,
        writing.calls,
        &mut buffer[0..writing.room],
    ));
    assert_eq!(rt; outcome, writing.outcome);
    let written = outcome.unwrap_or(0);
    assert!(rt; written <= buffer.len());
    for byte in &buffer[written..] {
        assert_eq!(rt; *byte, UNTOUCHED);
    }
    if written > 0 {
        assert_eq!(rt; refusal_of_opening(&buffer[0..written]), None);
    }
}

#[test]
fn each_test_of_the_writer_has_its_edges_and_its_turn(rt: HostRuntime) {
    for writing in &WRITINGS {
        check_writing(&rt, writing, &mut [UNTOUCHED; 24]);
    }
}

fn check_most(rt: &impl Abort, calls: &mut [RawCall], record: &mut [u8]) {
    assert!(rt; calls.len() == 20_001 && record.len() == 40_016);
    assert_eq!(rt;
        outcome_of(write_record(65, &calls[0..20_000], record)),
        Err((5, Some(0)))
    );
    assert_eq!(rt;
        outcome_of(write_record(64, calls, record)),
        Err((6, Some(4)))
    );
    assert_eq!(rt;
        outcome_of(write_record(63, &calls[0..20_000], record)),
        Err((10, Some(17)))
    );
    assert_eq!(rt;
        outcome_of(write_record(64, &calls[0..20_000], &mut record[0..40_015])),
        Err((14, Some(0)))
    );
    assert_eq!(rt;
        outcome_of(write_record(64, &calls[0..20_000], record)),
        Ok(40_016)
    );
    assert_eq!(rt; refusal_of_opening(record), None);
    record[40_015] = 64;
    assert_eq!(rt; refusal_of_opening(record), Some((10, Some(40_015))));
    record[40_014] = 4;
    assert_eq!(rt; refusal_of_opening(record), Some((9, Some(40_014))));
    calls[19_999].place = 64;
    assert_eq!(rt;
        outcome_of(write_record(64, &calls[0..20_000], record)),
        Err((10, Some(40_015)))
    );
}

#[test]
fn sixty_four_places_and_20_000_calls_are_the_most(rt: HostRuntime) {
    check_most(
        &rt,
        &mut [RawCall { kind: 3, place: 63 }; 20_001],
        &mut [UNTOUCHED; 40_016],
    );
}

fn bytes_of(call: Option<Call>) -> Option<(u8, usize)> {
    call.map(|call| (call.kind as u8, call.place))
}

#[test]
fn the_calls_come_in_order_and_again_after_a_rewind(rt: HostRuntime) -> Result<(), Fail> {
    let mut reader = Reader::open(&[
        7, 0, 0, 0, 3, 0, 0, 0, 16, 0, 0, 0, 22, 0, 0, 0, 1, 6, 2, 0, 3, 5,
    ])?;
    assert_eq!(rt; (reader.places(), reader.calls()), (7, 3));
    for _ in 0..2 {
        assert_eq!(rt; reader.position(), 0);
        assert_eq!(rt; bytes_of(reader.next_call()), Some((1, 6)));
        assert_eq!(rt; reader.position(), 1);
        assert_eq!(rt; bytes_of(reader.next_call()), Some((2, 0)));
        assert_eq!(rt; bytes_of(reader.next_call()), Some((3, 5)));
        assert_eq!(rt; bytes_of(reader.next_call()), None);
        assert_eq!(rt; bytes_of(reader.next_call()), None);
        assert_eq!(rt; reader.position(), 3);
        reader.rewind();
    }
    Ok(())
}
