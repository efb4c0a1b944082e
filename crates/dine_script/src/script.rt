//! A script from its bytes to its output.

ghost use Rattle.std.specs.Prelude.{◌≡◌, ◌≢◌, ◌<◌, ◌≤◌, ◌+◌, ◌-◌, ◌^◌, ◌++◌, ℕ, List, [], false, length, nat_lt, Err, IfOk, IfSome, IsErrOf, OnErr, OnOk};
ghost use Rattle.std.specs.Io.KnownBytes.{Appends, Keeps};
ghost use Rattle.dine_lines.specs.Lines.{lines_of};
ghost use Rattle.dine_script.specs.Printed.{IsFrontPrinted, IsFrontRun, PrintsFront, PrintsSome, TakesFront, TakesLines, opening_lines, printed_from};
ghost use Rattle.dine_script.specs.Script.{faults_from, opening as session_at_first, output_lines, script_end, script_output};
ghost use Rattle.dine_streams.specs.Ending.{end_of};
ghost use Rattle.dine_streams.specs.Inputs.{IsHeardSoFar, IsReadWhole, most_bytes_of_an_input};
ghost use Rattle.dine_streams.specs.Marks.{WritesOnly};
ghost use Rattle.dine_streams.specs.Written.{AppendsLinesOf, AppendsPartOf};
ghost use Rattle.dine_words.specs.Texts.{text_of_lines};
ghost use Rattle.dine_script.specs.Streams.{IsMarked, IsMarkedOrLong};

use crate::printed::opening;
use crate::script_remarks::FaultRemarks;
use crate::session::{Answered, Session};
use dine_lines::{Listener, Print, Seed};
use dine_streams::{
    CHUNK, CliFault, Ended, InputBuffer, InputFault, LARGE_WRITE, MAX_INPUT, end_of,
    fault_without_memory, write_if_enough, write_whole,
};
use dine_words::{Limits, Sink, Source};
use std::alloc::{AllocError, Global};

/// Runs a script: reads all of it, carries out its lines one after the other over a table with these limits, and writes
/// one line for each line that isn't passed over, or the journal of its calls alone.
///
/// It ends with `Fault` if a line has a fault, else with `Good`. It gives up with `Read` if a read fails or the input is
/// too long, whatever else is wrong, and has written nothing then. It gives up with `Write` if a write fails, and has
/// written a part of the output. It gives up with `Memory` if memory runs out, and has written some whole lines of the
/// output, from the first on.
///
/// Its names are found by hashes of this seed: under a seed that a stranger knows, names that are chosen for it can
/// make it slow. The listener is told which lines have a fault.
pub fn run_script<R: Source, W: Sink, L: Listener>(
    alloc: Global,
    reader: &mut R,
    writer: &mut W,
    limits: Limits,
    print: Print,
    seed: Seed,
    listener: &mut L,
) -> Result<Ended, CliFault>
    ensures output { OnOk result (IfSome (R.remaining reader.old) (λ input.
        Appends (W.contents writer.old) (W.contents writer.new)
        (script_output print limits input))) }
    ensures ended { IfOk result (λ ended. IfSome (R.remaining reader.old) (λ input.
        ended ≡ script_end limits input)) }
    ensures read { result ≡ Err CliFault.Read →
        Keeps (W.contents writer.old) (W.contents writer.new) }
    ensures memory { result ≡ Err CliFault.Memory → IfSome (R.remaining reader.old) (λ input.
        AppendsLinesOf (W.contents writer.old) (W.contents writer.new)
        (output_lines print limits input)) }
    ensures write { result ≡ Err CliFault.Write → IfSome (R.remaining reader.old) (λ input.
        AppendsPartOf (W.contents writer.old) (W.contents writer.new)
        (script_output print limits input)) }
    ensures marks { IsMarked result (IsMarkedOrLong (R.mark reader.new) (R.remaining reader.old))
        (R.mark reader.old) (R.mark reader.new) (W.mark writer.old) (W.mark writer.new) }
    ensures whole { result ≢ Err CliFault.Read → IsReadWhole (R.remaining reader.old)
        (R.remaining reader.new) (R.mark reader.old) (R.mark reader.new) }
{
    let Ok((mut input, mut run)) = begin(alloc, limits, print, seed) else {
        // A read that fails is told before want of memory, also before the first read.
        return Err(fault_without_memory(reader, MAX_INPUT).into());
    };
    let faults = run_whole(reader, writer, &mut input, print, &mut run)?;
    run.remarks.tell(faults, listener);
    Ok(end_of(faults > 0))
}

// What a script is run with, before anything of it is read: its buffers, its arbiter and its names.
fn begin(
    alloc: Global,
    limits: Limits,
    print: Print,
    seed: Seed,
) -> Result<(InputBuffer, Running), AllocError>
    ensures nothing { IfOk result (λ begun.
        begun.0 ≡ record { text = []; heard = 0; is_at_end = false }) }
    ensures first { IfOk result (λ begun. begun.1.session ≡ session_at_first limits) }
    ensures opened { IfOk result (λ begun.
        begun.1.pending.items ≡ text_of_lines (opening_lines print limits)) }
{
    let input = InputBuffer::new(alloc)?;
    let pending = opening(alloc, limits, print)?;
    let session = Session::new(alloc, limits, seed)?;
    let remarks = FaultRemarks::new(alloc);
    let run = Running {
        session,
        pending,
        remarks,
    };
    Ok((input, run))
}

// A script that is run: where it stands, and what came of the lines that were carried out. A loop over lines is handed all
// of it by one pointer, which takes one register.
#[derive(Drop)]
struct Running {
    session: Session,
    // What was printed and isn't written yet.
    pending: Vec<u8>,
    remarks: FaultRemarks,
}

// Reads a script of which nothing was read, carries out its lines, writes what is printed of them behind what is pending,
// and answers how many have a fault. The session makes its first call here.
#[inline(always)]
fn run_whole<R: Source, W: Sink>(
    reader: &mut R,
    writer: &mut W,
    input: &mut InputBuffer,
    print: Print,
    run: &mut Running,
) -> Result<usize, CliFault>
    requires nothing { input.old ≡ record { text = []; heard = 0; is_at_end = false } }
    requires first { run.old.session ≡ session_at_first run.old.session.table.limits }
    requires opened { run.old.pending.items
        ≡ text_of_lines (opening_lines print run.old.session.table.limits) }
    ensures output { OnOk result (IfSome (R.remaining reader.old) (λ text.
        Appends (W.contents writer.old) (W.contents writer.new)
        (script_output print run.old.session.table.limits text))) }
    ensures ended { IfOk result (λ faults. IfSome (R.remaining reader.old) (λ text.
        end_of (nat_lt 0 faults) ≡ script_end run.old.session.table.limits text)) }
    ensures read { result ≡ Err CliFault.Read →
        Keeps (W.contents writer.old) (W.contents writer.new) }
    ensures memory { result ≡ Err CliFault.Memory → IfSome (R.remaining reader.old) (λ text.
        AppendsLinesOf (W.contents writer.old) (W.contents writer.new)
        (output_lines print run.old.session.table.limits text)) }
    ensures write { result ≡ Err CliFault.Write → IfSome (R.remaining reader.old) (λ text.
        AppendsPartOf (W.contents writer.old) (W.contents writer.new)
        (script_output print run.old.session.table.limits text)) }
    ensures marks { IsMarked result (IsMarkedOrLong (R.mark reader.new) (R.remaining reader.old))
        (R.mark reader.old) (R.mark reader.new) (W.mark writer.old) (W.mark writer.new) }
    ensures whole { result ≢ Err CliFault.Read → IsReadWhole (R.remaining reader.old)
        (R.remaining reader.new) (R.mark reader.old) (R.mark reader.new) }
{
    let carried = read_script(reader, input, print, run)?;
    match carried {
        Ok(front) => {
            let rest = run_rest(input.text(), print, run, writer)?;
            Ok(front + rest)
        }
        // A write that fails is told before want of memory that came behind what it was to write.
        Err(wanting) => {
            write_if_enough(writer, &mut run.pending)?;
            Err(wanting.into())
        }
    }
}

// Reads all of a script, carries out what lines it can by the way, and answers how many of those have a fault. The text
// that is left, which may be most of it, is for whoever comes next. Want of memory for a line is an error within: what was
// printed of the lines before is pending then.
#[inline(always)]
fn read_script<R: Source>(
    reader: &mut R,
    input: &mut InputBuffer,
    print: Print,
    run: &mut Running,
) -> Result<Answered<usize>, CliFault>
    requires nothing { input.old ≡ record { text = []; heard = 0; is_at_end = false } }
    requires clock { run.old.session.table.clock ≡ 0 }
    ensures ran { IfOk result (λ ran. IfOk ran (λ faults. IfSome (R.remaining reader.old) (λ text.
        TakesFront print run.old.session run.new.session text input.new.text
        run.old.pending.items run.new.pending.items faults))) }
    ensures printed { IfOk result (λ ran. OnErr ran (IfSome (R.remaining reader.old) (λ text.
        PrintsFront print run.old.session text run.old.pending.items run.new.pending.items))) }
    ensures clock { IfOk result (λ ran. OnOk ran
        (run.new.session.table.clock + length input.new.text ≤ most_bytes_of_an_input)) }
    ensures few { IfOk result (λ ran. IfOk ran (λ faults.
        faults + length input.new.text ≤ most_bytes_of_an_input)) }
    ensures unmarked { OnOk result (R.mark reader.new ≡ R.mark reader.old) }
    ensures failed { result ≡ Err CliFault.Read →
        IsMarkedOrLong (R.mark reader.new) (R.remaining reader.old) }
    ensures no_write { result ≢ Err CliFault.Write }
    ensures whole { result ≢ Err CliFault.Read → IsReadWhole (R.remaining reader.old)
        (R.remaining reader.new) (R.mark reader.old) (R.mark reader.new) }
{
    let front = run_front(reader, input, print, run)?;
    // Whatever came of the front, a read that fails behind it is what is told.
    input.hear(reader, usize::MAX)?;
    Ok(front)
}

// Reads a script and carries out its whole lines by the way, and keeps what is printed of them in place of the text:
// nothing may be written before all is read. It ends at the end, or where a large write more is printed than was read, and
// answers how many lines have a fault. The text that is left is for whoever comes next. Want of memory is an error within.
#[inline(always)]
fn run_front<R: Source>(
    reader: &mut R,
    input: &mut InputBuffer,
    print: Print,
    run: &mut Running,
) -> Result<Answered<usize>, InputFault>
    requires nothing { input.old ≡ record { text = []; heard = 0; is_at_end = false } }
    requires clock { run.old.session.table.clock ≡ 0 }
    ensures heard { OnOk result ((bytes : List ℕ) × IsHeardSoFar bytes
        (R.remaining reader.old) (R.remaining reader.new) input.new) }
    ensures ran { IfOk result (λ ran. IfOk ran (λ faults. IsFrontRun print
        run.old.session run.new.session (R.remaining reader.old) (R.remaining reader.new) input.new
        run.old.pending.items run.new.pending.items faults)) }
    ensures printed { IfOk result (λ ran. OnErr ran (IsFrontPrinted print
        run.old.session (R.remaining reader.old) (R.remaining reader.new) input.new
        run.old.pending.items run.new.pending.items)) }
    ensures unmarked { OnOk result (R.mark reader.new ≡ R.mark reader.old) }
    ensures failed { IsErrOf result InputFault.Read →
        IsMarkedOrLong (R.mark reader.new) (R.remaining reader.old) }
    ensures memory { IsErrOf result InputFault.Memory → IsReadWhole (R.remaining reader.old)
        (R.remaining reader.new) (R.mark reader.old) (R.mark reader.new) }
{
    let mut faults = 0;
    'reads: while !input.is_at_end() {
        let torn = input.text().len();
        input.hear(reader, CHUNK)?;
        let most = input.heard() + LARGE_WRITE;
        match run_heard(input, torn, most, print, run) {
            Ok(more) => faults += more,
            Err(wanting) => return Ok(Err(wanting)),
        }
        if run.pending.len() >= most {
            break;
        }
    }
    Ok(Ok(faults))
}

// Carries out the whole lines of what was heard, the last of which ends behind a place, until so many bytes are pending, and
// forgets them. It answers how many have a fault. On `Err` what was printed before memory ran out is pending.
#[inline(always)]
fn run_heard(
    input: &mut InputBuffer,
    torn: usize,
    most: usize,
    print: Print,
    run: &mut Running,
) -> Answered<usize>
    requires torn { torn ≤ length input.old.text }
    requires clock { run.old.session.table.clock + length input.old.text < 2 ^ 64 - 1 }
    ensures ran { IfOk result (λ faults. TakesFront print run.old.session run.new.session
        input.old.text input.new.text run.old.pending.items run.new.pending.items faults) }
    ensures printed { OnErr result (PrintsFront print run.old.session
        input.old.text run.old.pending.items run.new.pending.items) }
    ensures heard { input.new.heard ≡ input.old.heard }
    ensures end { input.new.is_at_end ≡ input.old.is_at_end }
{
    let whole = input.lines_len(torn);
    let lines = &input.text()[..whole];
    let (faults, rest) = run_some(lines, most, print, run)?;
    let left = rest.len();
    input.forget(whole - left);
    Ok(faults)
}

// Carries out lines of a text until so many bytes are pending, or none is left, and answers how many of them have a fault,
// and what is left. On `Err` what was printed before memory ran out is pending.
#[inline(never)]
fn run_some<'a>(
    text: &'a [u8],
    most: usize,
    print: Print,
    run: &mut Running,
) -> Answered<(usize, &'a [u8])>
    requires { run.old.session.table.clock + length text.now < 2 ^ 64 - 1 }
    ensures ok { IfOk result (λ ran. TakesLines print run.old.session run.new.session
        text.now ran.1.now run.old.pending.items run.new.pending.items ran.0) }
    ensures err { OnErr result (PrintsSome print run.old.session (lines_of text.now)
        run.old.pending.items run.new.pending.items) }
{
    let mut faults = 0;
    let mut rest = text;
    'lines: while !rest.is_empty() {
        let (faulty, after) = run.session.take_first(rest, print, &mut run.pending)?;
        faults += faulty;
        run.remarks.look(rest, faulty > 0, &run.session);
        rest = after;
        if run.pending.len() >= most {
            return Ok((faults, rest));
        }
    }
    Ok((faults, rest))
}

// Carries out the lines of a text, the last of a script, writes what is printed of them behind what is pending, and answers
// how many of them have a fault.
#[inline(always)]
fn run_rest<W: Sink>(
    text: &[u8],
    print: Print,
    run: &mut Running,
    writer: &mut W,
) -> Result<usize, CliFault>
    requires { run.old.session.table.clock + length text.now < 2 ^ 64 - 1 }
    ensures output { OnOk result ((front : List (List ℕ)) →
        run.old.pending.items ≡ text_of_lines front →
        Appends (W.contents writer.old) (W.contents writer.new)
        (text_of_lines (front ++ printed_from print run.old.session (lines_of text.now)))) }
    ensures faults { IfOk result (λ faults. faults ≡ faults_from run.old.session (lines_of text.now)) }
    ensures few { IfOk result (λ faults. faults ≤ length text.now) }
    ensures memory { result ≡ Err CliFault.Memory → (front : List (List ℕ)) →
        run.old.pending.items ≡ text_of_lines front →
        AppendsLinesOf (W.contents writer.old) (W.contents writer.new)
        (front ++ printed_from print run.old.session (lines_of text.now)) }
    ensures write { result ≡ Err CliFault.Write → (front : List (List ℕ)) →
        run.old.pending.items ≡ text_of_lines front →
        AppendsPartOf (W.contents writer.old) (W.contents writer.new)
        (text_of_lines (front ++ printed_from print run.old.session (lines_of text.now))) }
    ensures writes_only { WritesOnly result (W.mark writer.old) (W.mark writer.new) }
{
    let mut faults = 0;
    let mut rest = text;
    write_if_enough(writer, &mut run.pending)?;
    'lines: while !rest.is_empty() {
        let (more, after) = run_some(rest, LARGE_WRITE, print, run)?;
        faults += more;
        rest = after;
        write_if_enough(writer, &mut run.pending)?;
    }
    write_whole(writer, &run.pending)?;
    Ok(faults)
}
