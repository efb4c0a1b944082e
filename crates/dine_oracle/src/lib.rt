//! Scripts and journals in memory, for programs in C: a test bench asks what the table of last meals replies, and whether
//! a journal is legal, without a process.
//!
//! Nothing is kept between two calls, so any number of threads may call at once. What is left to the caller is that the
//! pointers are live and none is null, also where a length is 0.
#![tactic(auto)]

ghost use Rattle.std.specs.Prelude.{◌≡◌, ◌≤◌, ◌<◌, ◌↔◌, ◌≢◌, IfOk, Some, [], length};
ghost use Rattle.dine_words.specs.declared.limits.Limits.{Limits};
ghost use Rattle.dine_words.specs.Ranges.{most_conflicts, most_tasks};
ghost use Rattle.dine_replay.specs.AuditOutput.{IsAudited};
ghost use Rattle.dine_streams.specs.Ending.{status_of};
ghost use Rattle.dine_script.specs.Script.{script_end, script_output};
ghost use Rattle.dine_oracle.specs.Written.{IsAuditWritten, IsWritten, bad_limits, gave_up, too_short, print_for};

use dine_replay::{AuditReading, run_audit};
use dine_script::{CliFault, Ended, Print, Seed, Silence, run_script};
use dine_words::{Limits, Marked};
use std::alloc::Global;

// The exit status of a run that gave up. The answers beyond the program's exit statuses follow.
const GAVE_UP: u32 = 3;

// The answer where the limits are out of their ranges.
const BAD_LIMITS: u32 = 4;

// The answer where `out` is shorter than the output.
const TOO_SHORT: u32 = 5;

// What was written, and how it ended.
#[derive(Drop)]
struct Output {
    text: Vec<u8>,
    ended: Ended,
}

/// Runs a script over a table with these limits. What `hygienic run` writes goes to the front of `out`, or with `journal`
/// what `hygienic run --journal` writes, and its length to `written`.
///
/// The answer is the program's exit status: 0, or 2 where a line has a fault. It is 3 where memory runs out or the script
/// is longer than an input may be, and 4 where the limits are out of their ranges; nothing is written then. It is 5 where
/// `out` is shorter than the output: nothing is written but the length that it takes.
#[unsafe(no_mangle)]
pub extern "C" fn dine_run(
    alloc: Global,
    tasks: u32,
    conflicts: u32,
    journal: bool,
    script: &[u8],
    out: &mut [u8],
    written: &mut usize,
) -> u32
    ensures answer { result ≤ too_short }
    ensures range { result ≡ bad_limits ↔
        (((1 ≤ tasks) × (tasks ≤ most_tasks)
        × (1 ≤ conflicts) × (conflicts ≤ most_conflicts)) → ⊥) }
    ensures output { (limits : Limits) → limits.tasks ≡ tasks → limits.conflicts ≡ conflicts →
        result < gave_up → IsWritten (script_output (print_for journal) limits script.now)
        out.old out.new written.new }
    ensures ended { (limits : Limits) → limits.tasks ≡ tasks → limits.conflicts ≡ conflicts →
        result < gave_up → result ≡ status_of (script_end limits script.now) }
    ensures space { (limits : Limits) → limits.tasks ≡ tasks → limits.conflicts ≡ conflicts →
        result ≡ too_short → (length out.old < written.new)
        × (written.new ≡ length (script_output (print_for journal) limits script.now)) }
    ensures kept { gave_up ≤ result → out.new ≡ out.old }
{
    let Some(limits) = Limits::new(tasks, conflicts) else {
        return BAD_LIMITS;
    };
    match script_run(alloc, limits, print_for(journal), script) {
        Ok(output) => write_out(&output, out, written),
        Err(_) => GAVE_UP,
    }
}

/// Audits a journal. What `hygienic audit` writes goes to the front of `out`, and its length to `written`.
///
/// The answer is the program's exit status: 0 where the journal is legal, 1 where a reply is not the table's, and 2 where
/// the text has a fault. It is 3 where memory runs out or the journal is longer than an input may be; nothing is written
/// then. It is 5 where `out` is shorter than the output: nothing is written but the length that it takes.
#[unsafe(no_mangle)]
pub extern "C" fn dine_audit(
    alloc: Global,
    journal: &[u8],
    out: &mut [u8],
    written: &mut usize,
) -> u32
    ensures answer { result ≤ too_short }
    ensures audit { result < gave_up →
        IsAuditWritten journal.now result out.old out.new written.new }
    ensures space { result ≡ too_short → length out.old < written.new }
    ensures limits { result ≢ bad_limits }
    ensures kept { gave_up ≤ result → out.new ≡ out.old }
{
    match audit(alloc, journal) {
        Ok(output) => write_out(&output, out, written),
        Err(_) => GAVE_UP,
    }
}

// What a run writes that is asked for its journal, or is not.
fn print_for(journal: bool) -> Print
    ensures { result ≡ print_for journal }
{
    if journal {
        Print::Journal
    } else {
        Print::Replies
    }
}

// Runs a script, and keeps what it writes.
fn script_run(
    alloc: Global,
    limits: Limits,
    print: Print,
    script: &[u8],
) -> Result<Output, CliFault>
    ensures text { IfOk result (λ output.
        output.text.items ≡ script_output print limits script.now) }
    ensures ended { IfOk result (λ output. output.ended ≡ script_end limits script.now) }
{
    let mut reader = Marked::new(script);
    let mut writer = Marked::new(Vec::new(alloc));
    let seed = Seed::fixed();
    let ended = run_script(
        alloc,
        &mut reader,
        &mut writer,
        limits,
        print,
        seed,
        &mut Silence,
    )?;
    Ok(Output {
        text: writer.into_inner(),
        ended,
    })
}

// Audits a journal, and keeps what it writes.
fn audit(alloc: Global, journal: &[u8]) -> Result<Output, CliFault>
    ensures { IfOk result (λ output.
        IsAudited journal.now (Some []) (Some output.text.items) output.ended) }
{
    let mut reader = Marked::new(journal);
    let mut writer = Marked::new(Vec::new(alloc));
    let reading = AuditReading::Whole;
    let ended = run_audit(alloc, &mut reader, reading, &mut writer, &mut Silence)?;
    Ok(Output {
        text: writer.into_inner(),
        ended,
    })
}

// Writes an output to the front of a slice, and answers the status; or its length alone, where it is longer than the slice.
fn write_out(output: &Output, out: &mut [u8], written: &mut usize) -> u32
    ensures length { written.new ≡ length output.now.text.items }
    ensures space { result ≡ too_short ↔ length out.old < length output.now.text.items }
    ensures kept { result ≡ too_short → out.new ≡ out.old }
    ensures ended { result ≢ too_short → result ≡ status_of output.now.ended }
    ensures output { result ≢ too_short →
        IsWritten output.now.text.items out.old out.new written.new }
{
    let length = output.text.len();
    *written = length;
    if out.len() < length {
        return TOO_SHORT;
    }
    out[..length].copy_from_slice(&output.text);
    u32::from(output.ended.status())
}
