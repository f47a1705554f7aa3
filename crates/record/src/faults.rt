ghost use Rattle.record.specs.Faults.{fault_notice};

use fault::{Fault, Layer, Notice};

/// Why a record is not read or written. The two that a call is at fault for carry the byte.
#[derive(Clone, Copy, Debug, PartialEq, Eq)]
pub enum RecordFault {
    /// Under 16 bytes.
    HeaderCut,
    /// The places are not 1 to 64.
    PlaceCount,
    /// More than 20,000 calls.
    CallCount,
    /// The calls do not begin at byte 16.
    CallOffset,
    /// The length is not that of the header and the calls, or not that of the bytes.
    WholeLength,
    /// The kind of a call is not 1 to 3.
    CallKind { byte: usize },
    /// The place of a call is not below the places.
    CallPlace { byte: usize },
    /// The buffer is shorter than the record.
    BufferCut,
}

impl Fault for RecordFault {
    ghost told = { fault_notice };

    fn notice(&self) -> Notice {
        let (number, byte) = match self {
            RecordFault::HeaderCut => (4, 0),
            RecordFault::PlaceCount => (5, 0),
            RecordFault::CallCount => (6, 4),
            RecordFault::CallOffset => (7, 8),
            RecordFault::WholeLength => (8, 12),
            RecordFault::CallKind { byte } => (9, *byte),
            RecordFault::CallPlace { byte } => (10, *byte),
            RecordFault::BufferCut => (14, 0),
        };
        Notice {
            number,
            byte: Some(byte),
            layer: Layer::Record,
        }
    }
}
