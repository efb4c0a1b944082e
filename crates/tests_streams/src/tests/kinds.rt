//! Streams of std that fail at two calls, in each way that there is and at each of several sizes, and work at the others. A
//! call of a marked stream is one call of the stream within: none is tried again, none is left out, and no failure is made
//! up. An interruption is a failure like any other.

ghost use Rattle.std.specs.Prelude.{◌≡◌, IfOk};

use crate::tests::engine::Engine;
use crate::tests::same::{same, same_at};
use dine_cli::{CliFault, Print};
use dine_command_line::Noting;
use dine_words::{Failed, Marked, Sink, Source};
use std::alloc::AllocError;
use std::cell::Cell;
use std::io::{Error, ErrorKind, Read, Write};
use std::process::Abort;
use tests_kit::{FailingWriter, Machine};

/// How a stream stops.
#[derive(Clone, Copy)]
enum How {
    /// It moves no byte.
    MovesNone,
    /// It fails in this way.
    Fails(ErrorKind),
    /// It fails by an error of the system, which has this number.
    FailsBy(i32),
}

// Whether a stream whose first stop is at one call stops at another one.
fn is_stop(call: u32, stop: u32) -> bool {
    call == stop || call == stop.saturating_add(2)
}

/// A stream that counts its calls, and moves nothing at two of them.
#[derive(Drop)]
struct StopsTwice {
    calls: u32,
    // The number of the first call at which it stops, from 1. The other one is two calls behind.
    stop: u32,
    how: How,
    // The most bytes that a call moves.
    most: usize,
}

impl StopsTwice {
    fn new(stop: u32, how: How, most: usize) -> Self {
        StopsTwice {
            calls: 0,
            stop,
            how,
            most,
        }
    }

    // Whether this call is one at which it stops.
    fn stops(&mut self) -> bool {
        self.calls = self.calls.saturating_add(1);
        is_stop(self.calls, self.stop)
    }

    // What the call answers at which it stops.
    fn stopped(&self) -> std::io::Result<usize>
        ensures { IfOk result (λ count. count ≡ 0) }
    {
        match self.how {
            How::MovesNone => Ok(0),
            How::Fails(kind) => Err(Error::from(kind)),
            How::FailsBy(number) => Err(Error::from_raw_os_error(number)),
        }
    }
}

impl Read for StopsTwice {
    fn read(&mut self, buffer: &mut [u8]) -> std::io::Result<usize> {
        if self.stops() {
            return self.stopped();
        }
        Ok(buffer.len().min(self.most))
    }
}

impl Write for StopsTwice {
    fn write(&mut self, bytes: &[u8]) -> std::io::Result<usize> {
        if self.stops() {
            return self.stopped();
        }
        Ok(bytes.len().min(self.most))
    }

    fn flush(&mut self) -> std::io::Result<()> {
        Ok(())
    }
}

// The kinds that no error of the system has.
const KINDS: [ErrorKind; 4] = [
    ErrorKind::InvalidData,
    ErrorKind::WriteZero,
    ErrorKind::UnexpectedEof,
    ErrorKind::Other,
];

// The numbers of the system's errors end before this one.
const NUMBERS: i32 = 134;

// The kind of an error of the system.
fn kind_of(number: i32) -> ErrorKind {
    Error::from_raw_os_error(number).kind()
}

// How many bytes a call hands on. The last is more than a script writes at once: an input and a large write.
const SIZES: [usize; 15] = [
    0, 1, 2, 3, 8, 63, 64, 65, 255, 1024, 4096, 65_536, 65_537, 200_000, ROOM,
];

// The most of them.
const ROOM: usize = 16_908_288;

// The numbers of the calls at which a stream stops first, and how many calls are made of it.
const STOPS: [u32; 3] = [1, 2, 3];

const CALLS: u32 = 4;

// When and how a stream stops first, and the most bytes that a call moves.
type Stop = (u32, How, usize);

const NEVER: Stop = (u32::MAX, How::MovesNone, ROOM);

// Reads or writes over so many bytes: what is answered, and whether the stream is marked then.
fn moved(
    rt: &impl Abort,
    stream: &mut Marked<StopsTwice>,
    is_read: bool,
    bytes: &mut [u8],
    size: usize,
) -> (Result<usize, Failed>, bool) {
    let part = bytes.get_mut(..size).expect(rt, "so many bytes");
    let found = if is_read {
        Source::read(stream, part)
    } else {
        Sink::write(stream, part)
    };
    (found, stream.is_marked())
}

// Makes some calls of a stream over so many bytes. Each is one call within, and the mark stays once it is there. Bytes of which
// none is written are as good as a failure.
fn check_calls(
    rt: &impl Abort,
    bytes: &mut [u8],
    is_read: bool,
    (stop, how, most): Stop,
    size: usize,
) {
    let mut stream = Marked::new(StopsTwice::new(stop, how, most));
    let mut is_marked = stream.is_marked();
    same_at(rt, "the mark", size, is_marked, false);
    for call in 1..=CALLS {
        let found = moved(rt, &mut stream, is_read, bytes, size);
        let (answer, marks) = match how {
            _ if !is_stop(call, stop) => (Ok(size.min(most)), false),
            How::MovesNone => (Ok(0), !is_read && size > 0),
            How::Fails(_) | How::FailsBy(_) => (Err(Failed), true),
        };
        is_marked |= marks;
        same_at(rt, "the call", size, found, (answer, is_marked));
    }
    same_at(rt, "the calls", size, stream.into_inner().calls, CALLS);
}

// Lets reads and writes stop in this way, at each of their calls.
fn check_stops(rt: &impl Abort, bytes: &mut [u8], how: How) {
    for size in SIZES {
        for most in [1, ROOM] {
            for stop in STOPS {
                check_calls(rt, bytes, true, (stop, how, most), size);
                check_calls(rt, bytes, false, (stop, how, most), size);
            }
        }
    }
}

#[test]
fn a_failure_of_any_kind_is_told_and_not_tried_again(rt: HostRuntime) -> Result<(), AllocError> {
    let mut bytes = vec![in rt.alloc(); 0; ROOM]?;
    check_stops(&rt, &mut bytes, How::MovesNone);
    for kind in KINDS {
        check_stops(&rt, &mut bytes, How::Fails(kind));
    }
    for number in 0..NUMBERS {
        check_stops(&rt, &mut bytes, How::Fails(kind_of(number)));
        check_stops(&rt, &mut bytes, How::FailsBy(number));
    }
    Ok(())
}

// Bytes of each number, up to some, over a stream that never stops.
#[test]
fn no_failure_is_made_up(rt: HostRuntime) -> Result<(), AllocError> {
    let mut bytes = vec![in rt.alloc(); 0; ROOM]?;
    for size in 0..70_000 {
        check_calls(&rt, &mut bytes, true, NEVER, size);
        check_calls(&rt, &mut bytes, false, NEVER, size);
    }
    Ok(())
}

// What a call of a stream of std answers: how many bytes, or the kind of its error.
fn answer_of(found: std::io::Result<usize>) -> Result<usize, ErrorKind> {
    found.map_err(|error| error.kind())
}

// Reads and writes by a stream of which it is noted why it failed. Each failure is told as it came.
fn check_noted(rt: &impl Abort, kind: ErrorKind, stop: u32) {
    let failure = Cell::new(None);
    let mut stream = Noting::new(StopsTwice::new(stop, How::Fails(kind), 8), &failure);
    let mut part = [0; 8];
    for call in 1..=CALLS {
        let found = if call % 2 == 0 {
            stream.read(&mut part)
        } else {
            stream.write(&part)
        };
        let wanted = if is_stop(call, stop) {
            Err(kind)
        } else {
            Ok(8)
        };
        same_at(rt, "the call", call as usize, answer_of(found), wanted);
        let noted = if stop <= call { Some(kind) } else { None };
        same_at(rt, "the note", call as usize, failure.get(), noted);
    }
}

#[test]
fn it_is_noted_why_a_stream_failed(rt: HostRuntime) {
    for stop in STOPS {
        for kind in KINDS {
            check_noted(&rt, kind, stop);
        }
        for number in 0..NUMBERS {
            check_noted(&rt, kind_of(number), stop);
        }
    }
}

// A script over a stream that is interrupted at its first call, and would then work.
fn check_interrupted(rt: &impl Machine, is_read: bool) {
    let how = How::Fails(ErrorKind::Interrupted);
    let mut broken = Marked::new(StopsTwice::new(1, how, 1));
    let replies = Engine::Script(Print::Replies);
    if is_read {
        let mut writer = FailingWriter::new(1024, 10);
        let ended = replies.run(rt, &mut broken, &mut writer);
        same(rt, (ended, writer.writes), (Err(CliFault::Read), 0));
    } else {
        let mut reader = Marked::new(b"join a\n".as_slice());
        let ended = replies.run(rt, &mut reader, &mut broken);
        same(rt, ended, Err(CliFault::Write));
    }
    same(rt, broken.into_inner().calls, 1);
}

#[test]
fn an_interrupted_stream_ends_a_script(rt: HostRuntime) {
    check_interrupted(&rt, true);
    check_interrupted(&rt, false);
}
