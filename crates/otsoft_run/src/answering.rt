//! The two ends of a run that has read its file: a line that tells the refusal, or the report.

ghost use Rattle.std.specs.Prelude.{◌≡◌, ◌≤◌, ◌⊎◌, IsTrue};
ghost use Rattle.std.specs.Io.KnownBytes.{Keeps, Appends};
ghost use Rattle.ot_base.specs.Causes.{next_number};
ghost use Rattle.ot_base.specs.Outside.{SinkRose};
ghost use Rattle.otsoft_run.specs.Answers.{AppendsPart, Says, is_written, unwritten_line, memory_line, refusal_line};
ghost use Rattle.otsoft_run.specs.Sources.{told_of};

use crate::lines::refusal_text;
use crate::sources::SourceRefusal;
use crate::status::Status;
use crate::writing::{out_of_memory, say, write_all};
use command_words::Settings;
use ot_base::{Failed, Sink};
use std::alloc::Global;

/// Tells a refusal.
pub(crate) fn refuse<E: Sink>(
    alloc: Global,
    err: &mut E,
    settings: &Settings,
    refusal: SourceRefusal,
) -> Status
    ensures status { (result ≡ Status.Refused) ⊎ (result ≡ Status.NoMemory) }
    ensures refused { result ≡ Status.Refused → Says (E.told err.old) (E.told err.new) (refusal_line (told_of settings.now refusal)) }
    ensures no_memory { result ≡ Status.NoMemory → Says (E.told err.old) (E.told err.new) memory_line }
{
    let Ok(text) = refusal_text(alloc, settings, refusal) else {
        return out_of_memory(err);
    };
    say(err, text.as_slice());
    Status::Refused
}

/// Writes a report, and ends the run. `written` is its status where the report was written whole.
pub(crate) fn publish<O: Sink, E: Sink>(
    out: &mut O,
    err: &mut E,
    report: &[u8],
    written: Status,
) -> Status
    requires { IsTrue (is_written written) }
    ensures status { (result ≡ written) ⊎ (result ≡ Status.WriteFault) }
    ensures whole { IsTrue (is_written result) → Appends (O.told out.old).written (O.told out.new).written report.now }
    ensures cut { result ≡ Status.WriteFault → AppendsPart (O.told out.old).written (O.told out.new).written report.now }
    ensures cause { result ≡ Status.WriteFault → SinkRose (O.told out.old) (O.told out.new) }
    ensures no_fault { (result ≡ Status.WriteFault → ⊥) → (O.told out.new).failed ≡ (O.told out.old).failed }
    ensures first_fault { result ≡ Status.WriteFault → (O.told out.new).failed ≡ next_number (O.told out.old).failed }
    ensures silent { IsTrue (is_written result) → Keeps (E.told err.old).written (E.told err.new).written }
    ensures says { result ≡ Status.WriteFault → Says (E.told err.old) (E.told err.new) unwritten_line }
    ensures out_count { (O.told out.old).faults ≤ (O.told out.new).faults }
    ensures err_count { (E.told err.old).faults ≤ (E.told err.new).faults }
{
    match write_all(out, report) {
        Ok(()) => written,
        Err(Failed) => {
            say(err, b"otsoft: the output could not be written\n");
            Status::WriteFault
        }
    }
}
