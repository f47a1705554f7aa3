ghost use Rattle.std.specs.Prelude.{◌≡◌};
ghost use Rattle.replay.specs.declared.faults.ReplayFault.TheVariants.{OfRecord};
ghost use Rattle.replay.specs.Faults.{replay_notice};

use fault::{Fault, Layer, Notice};
use record::RecordFault;

/// Why a record is not replayed.
#[derive(Clone, Copy, Debug, PartialEq, Eq)]
pub enum ReplayFault {
    /// The record's own fault, whole.
    OfRecord(RecordFault),
    /// The lock and the record differ in places.
    OtherPlaces,
    /// The log is shorter than the calls.
    ShortLog,
}

// By hand, since the `From` of a derive has no contract.
impl From<RecordFault> for ReplayFault {
    ghost from_gives = { λ e r. r ≡ OfRecord e };

    fn from(value: RecordFault) -> ReplayFault {
        ReplayFault::OfRecord(value)
    }
}

impl Fault for ReplayFault {
    ghost told = { replay_notice };

    fn notice(&self) -> Notice {
        match self {
            ReplayFault::OfRecord(fault) => fault.notice(),
            ReplayFault::OtherPlaces => Notice {
                number: 11,
                byte: Some(0),
                layer: Layer::Replay,
            },
            ReplayFault::ShortLog => Notice {
                number: 12,
                byte: Some(0),
                layer: Layer::Replay,
            },
        }
    }
}
