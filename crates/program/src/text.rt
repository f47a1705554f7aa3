ghost use Rattle.std.specs.Prelude.{◌≡◌, Some, IfOk, string_bytes};
ghost use Rattle.std.specs.List.{flat_map};
ghost use Rattle.program.specs.Lines.{refusal_text, entry_text, number_text, phase_letter, phases_of, report_text};

use fault::{Fault, Notice};
use lock::{Lock, Phase};
use replay::{Entry, Summary};
use std::alloc::{AllocError, Global};
use std::fmt;

/// The line that a refused input gets. Fails only for want of memory.
pub fn refusal_line<F: Fault>(heap: Global, fault: &F) -> Result<String, AllocError>
    ensures { IfOk result (λ t. string_bytes t ≡ refusal_text (F.told fault.now)) }
{
    let Notice {
        number,
        byte,
        layer,
    } = fault.notice();
    // Two formats, since `none` stands for a byte that there is not.
    match byte {
        Some(byte) => format!(in heap; "refusal {number} at {byte} {layer}\n"),
        None => format!(in heap; "refusal {number} at none {layer}\n"),
    }
}

// The lines of the entries.
#[derive(Drop)]
struct EntryLines<'a>(&'a [Entry]);

impl fmt::Display for EntryLines<'_> {
    ghost output = { λ lines. Some (flat_map entry_text lines.0.now) };

    fn fmt<W: fmt::Write>(&self, f: &mut fmt::Formatter<W>) -> fmt::Result {
        for entry in self.0 {
            writeln!(f, "enters {} {}", entry.call, entry.place)?;
        }
        Ok(())
    }
}

// The registers of a lock, each behind a space. Apart from `Phases`, since a question of a lock that
// is handed in would be a premise.
#[derive(Drop)]
struct Registers<'a, L>(&'a L);

impl<L: Lock> fmt::Display for Registers<'_, L> {
    ghost output = { λ registers. Some (flat_map number_text (L.form.meaning registers.0.now).registers) };

    fn fmt<W: fmt::Write>(&self, f: &mut fmt::Formatter<W>) -> fmt::Result {
        // By their numbers, since a lock is asked for one register at a time.
        for index in 0..self.0.register_count() {
            if let Some(value) = self.0.register(index) {
                write!(f, " {value}")?;
            }
        }
        Ok(())
    }
}

// A phase, as its first letter.
#[derive(Drop)]
struct Letter(Phase);

impl fmt::Display for Letter {
    ghost output = { λ letter. Some (phase_letter letter.0) };

    fn fmt<W: fmt::Write>(&self, f: &mut fmt::Formatter<W>) -> fmt::Result {
        f.write_str(match self.0 {
            Phase::Out => "o",
            Phase::Bidding => "b",
            Phase::Holding => "h",
            Phase::Leaving => "l",
        })
    }
}

// The phases of a lock's places.
#[derive(Drop)]
struct Phases<'a, L>(&'a L);

impl<L: Lock> fmt::Display for Phases<'_, L> {
    ghost output = { λ phases. Some (flat_map phase_letter (phases_of (L.form.meaning phases.0.now))) };

    fn fmt<W: fmt::Write>(&self, f: &mut fmt::Formatter<W>) -> fmt::Result {
        // Place by place, since a lock is asked for one phase at a time.
        for place in 0..self.0.places() {
            if let Some(phase) = self.0.phase(place) {
                write!(f, "{}", Letter(phase))?;
            }
        }
        Ok(())
    }
}

/// The lines of a replay: the pile with its places and calls, the entries, the counts, gap and
/// passed, and the lock's registers and phases. Fails only for want of memory.
pub fn report_lines<L: Lock>(
    heap: Global,
    // A number to print, which any pile may have.
    pile: u8,
    lock: &L,
    entries: &[Entry],
    summary: Summary,
) -> Result<String, AllocError>
    ensures { IfOk result (λ t. string_bytes t ≡ report_text pile (L.form.meaning lock.now) entries.now summary) }
{
    let places = lock.places();
    let calls = summary.calls;
    let mut text = format!(in heap; "pile {pile} places {places} calls {calls}\n")?;
    write!(text, "{}", EntryLines(entries))?;
    let c = summary.counts;
    writeln!(
        text,
        "counts {} {} {} {} {} {} {}",
        c.bids, c.leaves, c.waits, c.moves, c.enters, c.outs, c.refused
    )?;
    writeln!(text, "gap {}", summary.gap)?;
    writeln!(text, "passed {}", summary.passed)?;
    writeln!(text, "registers{}", Registers(lock))?;
    writeln!(text, "phases {}", Phases(lock))?;
    Ok(text)
}
