ghost use Rattle.std.specs.Prelude.{◌≡◌, ◌+◌, ◌^◌, ◌<◌, length};
ghost use Rattle.record.specs.Checks.{counts_test, call_test, calls_test};

use super::call::RawCall;
use super::faults::RecordFault;
use lock::Kind;

const PLACE_LIMIT: u32 = 64;

const CALL_LIMIT: usize = 20_000;

// How many bytes come before the calls.
pub(crate) const HEADER_LENGTH: usize = 16;

// Both the reader and the writer count the places and the calls first.
pub(crate) fn check_counts(places: u32, calls: usize) -> Result<(), RecordFault>
    ensures { result ≡ counts_test places calls }
{
    if !(1..=PLACE_LIMIT).contains(&places) {
        return Err(RecordFault::PlaceCount);
    }
    if calls > CALL_LIMIT {
        return Err(RecordFault::CallCount);
    }
    Ok(())
}

// The call whose kind stands at `byte`, and its place behind that.
pub(crate) fn check_call(places: u32, byte: usize, call: RawCall) -> Result<(), RecordFault>
    requires { byte + 1 < 2 ^ 64 }
    ensures { result ≡ call_test places byte call.kind call.place }
{
    Kind::try_from(call.kind).map_err(|_| RecordFault::CallKind { byte })?;
    if u32::from(call.place) >= places {
        return Err(RecordFault::CallPlace { byte: byte + 1 });
    }
    Ok(())
}

// The calls in these bytes, the first of which is counted as `start`. A lone last byte is no call.
pub(crate) fn check_calls(places: u32, start: usize, calls: &[u8]) -> Result<(), RecordFault>
    requires { start + length calls.now < 2 ^ 64 }
    ensures { result ≡ calls_test places start calls.now }
{
    // A loop, since by the project's rule a call comes off the front of the rest.
    let mut rest = calls;
    while let [kind, place, behind @ ..] = rest {
        let call = RawCall {
            kind: *kind,
            place: *place,
        };
        check_call(places, start + (calls.len() - rest.len()), call)?;
        rest = behind;
    }
    Ok(())
}
