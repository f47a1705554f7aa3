#![tactic(auto)]

ghost use Rattle.std.specs.Prelude.{◌≤◌, length, IfOk};

use program::{RunError, refusal_line, run};
use std::alloc::AllocError;
use std::io;
use std::io::Read;
use std::process::ExitCode;

// A pile number, and one byte more than the longest record has.
const INPUT_LIMIT: usize = 40_018;

// Fills the buffer from standard input, and says how many bytes came before its end or the buffer's.
// Each read asks for all that is still missing, since of a packet that is longer than a read the rest
// is lost; the library's `read_to_end` begins with less.
fn read_input(rt: &HostRuntime, buffer: &mut [u8]) -> io::Result<usize>
    ensures { IfOk result (λ n. n ≤ length buffer.old) }
{
    let mut stdin = rt.stdin();
    let mut filled = 0;
    while filled < buffer.len() {
        let count = stdin.read(&mut buffer[filled..])?;
        if count == 0 {
            break;
        }
        filled += count;
    }
    Ok(filled)
}

// Replays what is on standard input, and prints its lines or that of its refusal.
fn main(rt: HostRuntime) -> anyhow::Result<ExitCode> {
    let heap = rt.alloc();
    let mut buffer = vec![in heap; 0; INPUT_LIMIT]?;
    let length = read_input(&rt, buffer.as_mut_slice())?;
    match run(heap, &buffer.as_slice()[..length]) {
        Ok(lines) => {
            rt.print(lines)?;
            Ok(ExitCode::SUCCESS)
        }
        Err(RunError::Refused(fault)) => {
            rt.print(refusal_line(heap, &fault)?)?;
            Ok(ExitCode::FAILURE)
        }
        Err(RunError::OutOfMemory) => Err(AllocError.into()),
    }
}
