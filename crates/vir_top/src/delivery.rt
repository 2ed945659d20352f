// An answer, or the reason why there is none, told to both sinks.
ghost use Rattle.std.specs.Prelude.{◌≡◌, ◌⊎◌, ◌++◌, ℕ, List, codes};
ghost use Rattle.vir_course.specs.Wordings.{reply_of};
ghost use Rattle.vir_outside.specs.Sink.{SinkView, Writes};
ghost use Rattle.vir_top.specs.Delivery.{AppendsLine, Broken, Delivers, Written, placed_line, reply_bytes};
ghost use Rattle.vir_top.specs.Delivery.{reply_status, stop_line, stop_status};

use crate::status::{
    DENIED, NO_COUNTER, OUT_OF_MEMORY, PRINTED, PROFILE_REFUSED, READ_FAULT, TEXT_REFUSED,
    USAGE_FAULT, WRITE_FAULT,
};
use itoa::Buffer;
use vir_course::{Answer, Stop};
use vir_outside::{Failed, Sink, write_whole};

// The status of a reason to stop.
fn stop_status(reason: &Stop) -> u8
    ensures { result ≡ stop_status reason.now }
{
    match reason {
        Stop::Usage => USAGE_FAULT,
        Stop::ReadFault => READ_FAULT,
        Stop::TextRefused(_) => TEXT_REFUSED,
        Stop::ProfileRefused(_) => PROFILE_REFUSED,
        Stop::WriteFault => WRITE_FAULT,
        Stop::Memory => OUT_OF_MEMORY,
        Stop::NoCounter(_) => NO_COUNTER,
    }
}

// Writes a further piece behind what was written of a text, if that was.
fn and_write<E: Sink>(err: &mut E, written: Result<(), Failed>, piece: &[u8]) -> Result<(), Failed>
    ensures { (old : SinkView) (text : List ℕ) → Writes old (E.seen err.old) text written
        → Writes old (E.seen err.new) (text ++ piece.now) result }
{
    match written {
        Ok(()) => write_whole(err, piece),
        Err(failed) => Err(failed),
    }
}

// Writes a line that names a fault and its place. It takes no memory.
fn write_placed<E: Sink>(
    err: &mut E,
    what: &[u8],
    kind: &str,
    unit: &[u8],
    place: u64,
) -> Result<(), Failed>
    ensures { Writes (E.seen err.old) (E.seen err.new) (placed_line what.now kind.now unit.now place) result }
{
    let mut buffer = Buffer::new();
    let written = write_whole(err, what);
    let written = and_write(err, written, kind.as_bytes());
    let written = and_write(err, written, unit);
    let written = and_write(err, written, buffer.format(place).as_bytes());
    and_write(err, written, b"\n")
}

// Writes the line that names a module which no counter serves. It takes no memory.
fn write_unserved<E: Sink>(err: &mut E, text: &[u8]) -> Result<(), Failed>
    ensures { Writes (E.seen err.old) (E.seen err.new) (codes "no counter for " ++ text.now ++ codes "\n") result }
{
    let written = write_whole(err, b"no counter for ");
    let written = and_write(err, written, text);
    and_write(err, written, b"\n")
}

// Writes the line of a reason to stop.
fn write_line<E: Sink>(err: &mut E, reason: &Stop) -> Result<(), Failed>
    ensures { Writes (E.seen err.old) (E.seen err.new) (stop_line reason.now) result }
{
    match reason {
        Stop::Usage => write_whole(err, b"usage fault\n"),
        Stop::ReadFault => write_whole(err, b"read fault\n"),
        Stop::TextRefused(fault) => {
            let kind = fault.kind.name();
            write_placed(err, b"text refused: ", kind, b" at byte ", fault.at as u64)
        }
        Stop::ProfileRefused(fault) => {
            let kind = fault.kind.name();
            write_placed(err, b"profile refused: ", kind, b" at line ", fault.line)
        }
        Stop::WriteFault => write_whole(err, b"write fault\n"),
        Stop::Memory => write_whole(err, b"out of memory\n"),
        Stop::NoCounter(text) => write_unserved(err, text.bytes()),
    }
}

// Tells why there is no whole text: writes the line of the reason, and answers its status. Whether
// the line can be written changes no status. It takes no memory.
fn tell_stop<E: Sink>(err: &mut E, reason: &Stop) -> u8
    ensures status { result ≡ stop_status reason.now }
    ensures line { AppendsLine (E.seen err.old) (E.seen err.new) reason.now }
{
    let _ = write_line(err, reason);
    stop_status(reason)
}

// The bytes of an answer.
fn bytes_of(answer: &Answer) -> &[u8]
    ensures { result.now ≡ reply_bytes (reply_of answer.now) }
{
    match answer {
        Answer::Text(bytes) => bytes,
        Answer::Denial(bytes) => bytes,
    }
}

// The status of an answer that is written whole.
fn answer_status(answer: &Answer) -> u8
    ensures { result ≡ reply_status (reply_of answer.now) }
{
    match answer {
        Answer::Text(_) => PRINTED,
        Answer::Denial(_) => DENIED,
    }
}

// Writes an answer to `out`, and answers its status; where that fails, tells it.
fn write_answer<O: Sink, E: Sink>(out: &mut O, err: &mut E, answer: &Answer) -> u8
    ensures { Written (reply_of answer.now) result (O.seen out.old) (O.seen out.new) (err.new ≡ err.old)
        ⊎ Broken (reply_of answer.now) result (O.seen out.old) (O.seen out.new) (E.seen err.old) (E.seen err.new) }
{
    match write_whole(out, bytes_of(answer)) {
        Ok(()) => answer_status(answer),
        Err(_) => tell_stop(err, &Stop::WriteFault),
    }
}

/// Delivers an answer, or the reason why there is none, and answers the status.
pub fn deliver<O: Sink, E: Sink>(out: &mut O, err: &mut E, answer: &Result<Answer, Stop>) -> u8
    ensures { Delivers answer.now result O.seen out.old out.new E.seen err.old err.new }
{
    match answer {
        Ok(answer) => write_answer(out, err, answer),
        Err(reason) => tell_stop(err, reason),
    }
}
