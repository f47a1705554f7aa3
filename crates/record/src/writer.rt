ghost use Rattle.std.specs.Prelude.{◌≡◌, ◌+◌, ◌*◌, ◌≤◌, length, OnOk};
ghost use Rattle.record.specs.Checks.{calls_test};
ghost use Rattle.record.specs.Layout.{call_bytes};
ghost use Rattle.record.specs.RoundTrip.{Faithful};
ghost use Rattle.record.specs.Writing.{put_at, writing, buffer_after};

use super::call::RawCall;
use super::checks::{HEADER_LENGTH, check_call, check_counts};
use super::faults::RecordFault;

// The calls as they would lie in a record.
fn check_raw_calls(places: u32, calls: &[RawCall]) -> Result<(), RecordFault>
    requires { length calls.now ≤ 20000 }
    ensures { result ≡ calls_test places 16 (call_bytes calls.now) }
{
    for (index, call) in calls.iter().enumerate() {
        check_call(places, HEADER_LENGTH + 2 * index, *call)?;
    }
    Ok(())
}

// Writes the bytes from `start` on, and no others.
fn put(buffer: &mut [u8], start: usize, bytes: &[u8])
    requires { start + length bytes.now ≤ length buffer.old }
    ensures { buffer.new ≡ put_at buffer.old start bytes.now }
{
    buffer[start..start + bytes.len()].copy_from_slice(bytes);
}

fn put_calls(buffer: &mut [u8], calls: &[RawCall])
    requires { 16 + 2 * length calls.now ≤ length buffer.old }
    ensures { buffer.new ≡ put_at buffer.old 16 (call_bytes calls.now) }
{
    for (index, call) in calls.iter().enumerate() {
        put(buffer, HEADER_LENGTH + 2 * index, &[call.kind, call.place]);
    }
}

/// Writes a record at the buffer's start and returns its length; bytes behind it stay, and all stay where a test refuses.
pub fn write_record(places: u32, calls: &[RawCall], buffer: &mut [u8]) -> Result<usize, RecordFault>
    ensures outcome { result ≡ writing places calls.now buffer.old }
    ensures buffer { buffer.new ≡ buffer_after places calls.now buffer.old }
    ensures round_trip { OnOk result (Faithful places calls.now) }
{
    // The buffer is lent and the length returned beside it, since records have no heap.
    check_counts(places, calls.len())?;
    check_raw_calls(places, calls)?;
    let length = HEADER_LENGTH + 2 * calls.len();
    if buffer.len() < length {
        return Err(RecordFault::BufferCut);
    }
    put(buffer, 0, &places.to_le_bytes());
    put(buffer, 4, &(calls.len() as u32).to_le_bytes());
    put(buffer, 8, &(HEADER_LENGTH as u32).to_le_bytes());
    put(buffer, 12, &(length as u32).to_le_bytes());
    put_calls(buffer, calls);
    Ok(length)
}
