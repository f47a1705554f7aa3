use fault::{Fault, Layer};
use lock::Refusal;
use program::{ProgramFault, RunError, refusal_line, run};
use record::RecordFault;
use replay::ReplayFault;
use std::alloc::{AllocError, Global};
use std::test::Fail;

// All that the program prints for an input.
fn text_of(heap: Global, input: &[u8]) -> Result<String, AllocError> {
    match run(heap, input) {
        Ok(lines) => Ok(lines),
        Err(RunError::Refused(fault)) => refusal_line(heap, &fault),
        Err(RunError::OutOfMemory) => Err(AllocError),
    }
}

// Inputs, and all that the program prints for them.
const TABLE: [(&[u8], &str); 19] = [
    (
        b"\x01\x02\x00\x00\x00\x0b\x00\x00\x00\x10\x00\x00\x00\x26\x00\x00\x00\x01\x00\x01\x01\x02\x00\x02\x01\x02\x00\x02\x01\x02\x01\x02\x00\x03\x00\x02\x00\x02\x01",
        "pile 1 places 2 calls 11\nenters 7 0\nenters 10 1\ncounts 2 1 1 4 2 1 0\ngap 6\npassed 1\nregisters 0 1 0\nphases oh\n",
    ),
    (
        b"\x01\x02\x00\x00\x00\x00\x00\x00\x00\x10\x00\x00\x00\x10\x00\x00\x00",
        "pile 1 places 2 calls 0\ncounts 0 0 0 0 0 0 0\ngap 0\npassed 0\nregisters 0 0 0\nphases oo\n",
    ),
    (
        b"\x06\x03\x00\x00\x00\x09\x00\x00\x00\x10\x00\x00\x00\x22\x00\x00\x00\x01\x00\x02\x00\x02\x00\x02\x00\x02\x00\x02\x00\x03\x00\x02\x00\x02\x00",
        "pile 6 places 3 calls 9\nenters 5 0\ncounts 1 1 1 4 1 1 0\ngap 4\npassed 0\nregisters 0 0 1 0 0 0\nphases ooo\n",
    ),
    (
        b"\x04\x08\x00\x00\x00\x07\x00\x00\x00\x10\x00\x00\x00\x1e\x00\x00\x00\x01\x07\x02\x07\x02\x07\x02\x07\x02\x07\x02\x00\x03\x07",
        "pile 4 places 8 calls 7\ncounts 1 0 1 3 0 0 2\ngap 4\npassed 0\nregisters 0 0 0 0 0 0 0 0 0 0 0 0 0 0 0 0 0 0 0 1 0\nphases ooooooob\n",
    ),
    (b"", "refusal 13 at 0 program\n"),
    (b"\x00", "refusal 13 at 0 program\n"),
    (
        b"\x07\x02\x00\x00\x00\x00\x00\x00\x00\x10\x00\x00\x00\x10\x00\x00\x00",
        "refusal 13 at 0 program\n",
    ),
    (b"\x01", "refusal 4 at 0 record\n"),
    (
        b"\x01\x02\x00\x00\x00\x00\x00\x00\x00\x10\x00\x00\x00\x10\x00\x00",
        "refusal 4 at 0 record\n",
    ),
    (
        b"\x01\x00\x00\x00\x00\x00\x00\x00\x00\x10\x00\x00\x00\x10\x00\x00\x00",
        "refusal 5 at 0 record\n",
    ),
    (
        b"\x01\x41\x00\x00\x00\x00\x00\x00\x00\x10\x00\x00\x00\x10\x00\x00\x00",
        "refusal 5 at 0 record\n",
    ),
    (
        b"\x01\x02\x00\x00\x00\x21\x4e\x00\x00\x10\x00\x00\x00\x10\x00\x00\x00",
        "refusal 6 at 4 record\n",
    ),
    (
        b"\x01\x02\x00\x00\x00\x00\x00\x00\x00\x0f\x00\x00\x00\x10\x00\x00\x00",
        "refusal 7 at 8 record\n",
    ),
    (
        b"\x01\x02\x00\x00\x00\x00\x00\x00\x00\x10\x00\x00\x00\x0f\x00\x00\x00",
        "refusal 8 at 12 record\n",
    ),
    (
        b"\x01\x02\x00\x00\x00\x00\x00\x00\x00\x10\x00\x00\x00\x10\x00\x00\x00\x00",
        "refusal 8 at 12 record\n",
    ),
    (
        b"\x01\x02\x00\x00\x00\x01\x00\x00\x00\x10\x00\x00\x00\x12\x00\x00\x00\x00\x00",
        "refusal 9 at 16 record\n",
    ),
    (
        b"\x01\x02\x00\x00\x00\x02\x00\x00\x00\x10\x00\x00\x00\x14\x00\x00\x00\x01\x00\x02\x02",
        "refusal 10 at 19 record\n",
    ),
    (
        b"\x06\x02\x00\x00\x00\x00\x00\x00\x00\x10\x00\x00\x00\x10\x00\x00\x00",
        "refusal 11 at 0 replay\n",
    ),
    (
        b"\x05\x41\x00\x00\x00\x00\x00\x00\x00\x10\x00\x00\x00\x10\x00\x00\x00",
        "refusal 13 at 0 program\n",
    ),
];

#[test]
fn inputs_get_their_lines(rt: HostRuntime) -> Result<(), Fail> {
    for (input, expected) in TABLE {
        let text = text_of(rt.alloc(), input)?;
        assert_eq!(rt; text.as_str(), expected);
    }
    Ok(())
}

// The refusals that no input of the program gets.
#[test]
fn other_refusals_get_their_lines(rt: HostRuntime) -> Result<(), Fail> {
    let heap = rt.alloc();
    assert_eq!(rt;
        refusal_line(heap, &Refusal::NoPlace)?.as_str(),
        "refusal 1 at none lock\n"
    );
    assert_eq!(rt;
        refusal_line(heap, &Refusal::WrongPhase)?.as_str(),
        "refusal 2 at none lock\n"
    );
    assert_eq!(rt;
        refusal_line(heap, &Refusal::BidsSpent)?.as_str(),
        "refusal 3 at none lock\n"
    );
    assert_eq!(rt;
        refusal_line(heap, &ReplayFault::ShortLog)?.as_str(),
        "refusal 12 at 0 replay\n"
    );
    assert_eq!(rt;
        refusal_line(heap, &RecordFault::BufferCut)?.as_str(),
        "refusal 14 at 0 record\n"
    );
    Ok(())
}

// What a fault tells a caller who knows its trait alone.
fn told(fault: &dyn Fault) -> (u8, Option<usize>, Layer) {
    (fault.number(), fault.byte(), fault.layer())
}

#[test]
fn faults_and_errors_are_told_by_their_traits(rt: HostRuntime) -> Result<(), Fail> {
    assert_eq!(rt; told(&Refusal::BidsSpent), (3, None, Layer::Lock));
    assert_eq!(rt;
        told(&RecordFault::CallPlace { byte: 19 }),
        (10, Some(19), Layer::Record)
    );
    assert_eq!(rt;
        told(&ReplayFault::OtherPlaces),
        (11, Some(0), Layer::Replay)
    );
    assert_eq!(rt; told(&ProgramFault::NoPile), (13, Some(0), Layer::Program));
    let heap = rt.alloc();
    let refused = format!(in heap; "{}", RunError::Refused(ProgramFault::NoPile))?;
    assert_eq!(rt; refused.as_str(), "the input is refused with 13");
    let out_of_memory = format!(in heap; "{}", RunError::OutOfMemory)?;
    assert_eq!(rt; out_of_memory.as_str(), "memory allocation failed");
    Ok(())
}
