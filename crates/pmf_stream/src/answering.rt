//! From a stream of bytes to the answer of a question about the log in it, written at once or part by part.

ghost use Rattle.pmf_storelog.specs.declared.fault.TheConstants.{LOG_LIMIT};
ghost use Rattle.pmf_device.specs.Failures.{CanCountOneMore};
ghost use Rattle.pmf_stream.specs.{Answering.{Answers, TellsFaults, TellsFaultsOfParts}, Asked.{IsAnswerOf, IsRefusalOf}, Reading.{ReadsWithin}};

use crate::excerpt::Excerpt;
use crate::fault::StreamFault;
use crate::reading::read_all;
use crate::writing::write_answer;
use pmf_device::{Sink, Source, Stop};
use pmf_query::{Answer, Query, StreamedQuery, Unanswered};
use pmf_storelog::LOG_LIMIT;
use std::alloc::Global;

/// Reads a log and writes the text that answers what is asked of it. Reads in pieces to the end of the stream, or to one
/// byte past what a log may have, and writes nothing before the whole text is there. Keeps the record for which it refuses the log.
///
/// Refusals: [`StreamFault::ReadFault`] and [`StreamFault::OutOfMemory`] as the reading goes, then
/// [`StreamFault::Refused`], then [`StreamFault::WriteFault`]. Takes memory for the bytes of the log, and what the answer
/// takes.
pub fn answer_stream<R: Source, W: Sink, T: Drop, E: Drop, Q: Query<Told = T, Refusal = E>>(
    alloc: Global,
    reader: &mut R,
    writer: &mut W,
    query: &Q,
    refused: &mut Excerpt,
) -> Result<T, StreamFault<E>>
    requires read { CanCountOneMore (R.failed_calls reader.old) }
    requires write { CanCountOneMore (W.failed_calls writer.old) }
    // What was read is answered or refused, and exactly the text of the answer was written.
    ensures answer { Answers (IsAnswerOf (Q.IsAnswer query.now) (R.left reader.old) (R.left reader.new))
        (IsRefusalOf (Q.IsRefusal query.now) (R.left reader.old) (R.left reader.new))
        (W.held writer.old) (W.held writer.new) result }
    ensures faults { TellsFaults (R.failed_calls reader.old) (R.failed_calls reader.new)
        (W.failed_calls writer.old) (W.failed_calls writer.new) writer.old writer.new result }
    // Whatever the answer is, at most one byte more than a log may have was read.
    ensures within { ReadsWithin LOG_LIMIT (R.left reader.old) (R.left reader.new) }
{
    let log = match read_all(alloc, reader, LOG_LIMIT) {
        Ok(log) => log,
        Err(fault) => return Err(fault),
    };
    let Answer { told, text } = match query.answer(alloc, &log) {
        Ok(answer) => answer,
        Err(fault) => {
            refused.find(&log);
            return Err(StreamFault::Refused(fault));
        }
    };
    write_answer(writer, &text, told)
}

/// Reads a log as [`answer_stream`] does, and writes the text that answers what is asked of it part by part, as it is found. Keeps the
/// record for which it refuses the log.
///
/// Refusals: [`StreamFault::ReadFault`] and [`StreamFault::OutOfMemory`] as the reading goes, then [`StreamFault::Refused`], with
/// which nothing is written; then [`StreamFault::WriteFault`] and [`StreamFault::OutOfMemory`], whichever comes first, behind the front
/// of an answer. Takes memory for the bytes of the log, and what one part of the answer takes.
pub fn recite_stream<R: Source, W: Sink, T: Drop, E: Drop, Q: StreamedQuery<Told = T, Refusal = E>>(
    alloc: Global,
    reader: &mut R,
    writer: &mut W,
    query: &Q,
    refused: &mut Excerpt,
) -> Result<T, StreamFault<E>>
    requires read { CanCountOneMore (R.failed_calls reader.old) }
    requires write { CanCountOneMore (W.failed_calls writer.old) }
    // What was read is answered or refused, and exactly the text of the answer was written.
    ensures answer { Answers (IsAnswerOf (Q.IsAnswer query.now) (R.left reader.old) (R.left reader.new))
        (IsRefusalOf (Q.IsRefusal query.now) (R.left reader.old) (R.left reader.new))
        (W.held writer.old) (W.held writer.new) result }
    ensures faults { TellsFaultsOfParts (IsAnswerOf (Q.IsAnswer query.now) (R.left reader.old) (R.left reader.new)) W.held
        (R.failed_calls reader.old) (R.failed_calls reader.new)
        (W.failed_calls writer.old) (W.failed_calls writer.new) writer.old writer.new result }
    // Whatever the answer is, at most one byte more than a log may have was read.
    ensures within { ReadsWithin LOG_LIMIT (R.left reader.old) (R.left reader.new) }
{
    let log = match read_all(alloc, reader, LOG_LIMIT) {
        Ok(log) => log,
        Err(fault) => return Err(fault),
    };
    match query.recite(alloc, &log, writer) {
        Ok(told) => Ok(told),
        Err(Unanswered::Refused(fault)) => {
            refused.find(&log);
            Err(StreamFault::Refused(fault))
        }
        Err(Unanswered::Stopped(Stop::Failed { written })) => {
            Err(StreamFault::WriteFault { written })
        }
        Err(Unanswered::Stopped(Stop::OutOfMemory)) => Err(StreamFault::OutOfMemory),
    }
}
