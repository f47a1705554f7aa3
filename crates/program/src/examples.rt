ghost use Rattle.std.specs.Prelude.{◌≡◌, Ok as Accepted};
ghost use Rattle.program.specs.WholeRun.{whole_run_log, whole_run_summary};

use leaf::Peterson;
use replay::{Entry, ReplayFault, Summary, replay};

const WHOLE_RUN: &[u8; 38] =
    b"\x02\x00\x00\x00\x0b\x00\x00\x00\x10\x00\x00\x00\x26\x00\x00\x00\x01\x00\x01\x01\x02\x00\x02\x01\x02\x00\x02\x01\x02\x01\x02\x00\x03\x00\x02\x00\x02\x01";

/// Replays two boxes on a new Peterson lock, of which box 0 enters with call 7, box 1 with call 10.
pub fn whole_run_logs_entries_7_0_and_10_1() -> (Result<Summary, ReplayFault>, [Entry; 11])
    ensures summary { result.0 ≡ Accepted whole_run_summary }
    ensures log { result.1 ≡ whole_run_log }
{
    let mut lock = Peterson::new();
    let mut log = [Entry { call: 0, place: 0 }; 11];
    let summary = replay(&mut lock, WHOLE_RUN, &mut log);
    (summary, log)
}
