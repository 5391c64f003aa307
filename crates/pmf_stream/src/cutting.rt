//! A log that is read in pieces, and written with its sections cut as it is read.

ghost use Rattle.std.specs.Prelude.{◌≡◌, ◌+◌, ◌++◌, ℕ, List, IfErr, IfOk, OnOk};
ghost use Rattle.pmf_cut.specs.Cutting.{HasCutAll, HasRead};
ghost use Rattle.pmf_device.specs.Failures.{CanCountOneMore};
ghost use Rattle.pmf_stream.specs.{Answering.{IsRefused, failed_reads, failed_writes}, Files.{IsCutOf, WritesOut}};

use crate::excerpt::Excerpt;
use crate::fault::StreamFault;
use crate::outlet::{NoFile, Outlet};
use pmf_cut::{CutFault, Cutter};
use pmf_device::{Failed, Source, read_piece};
use pmf_request::Lengths;
use pmf_storelog::{Cause, LOG_LIMIT, LogFault};
use std::alloc::Global;

/// How many bytes are read at once, at most.
const PIECE: usize = 65_536;

/// What is said while a log is cut.
pub trait Notes {
    /// Says this line.
    fn note(&mut self, line: &str);
}

/// What a log was cut into.
#[derive(Clone, Copy, Debug, PartialEq, Eq)]
pub struct Pieces {
    /// How many cuts were made.
    pub cuts: u64,
    /// How many files there are.
    pub files: usize,
    /// How many things were said: what the cuts may have changed, and what is too long.
    pub told: u64,
}

/// Reads a log and writes it with its sections cut, as it is read; what a cut may have changed is said. With a number of bytes the
/// log may be of any length, and is written to files; one that gets more bytes, where a part can't be cut, is said. Without one, all
/// goes to the first file. Keeps the record for which it refuses the log.
///
/// Refusals: the first fault of the log, but for the length of a section, or a number that a part has not; what was written by
/// then is of no use. Takes memory as [`Cutter`] does.
pub fn cut_stream<R: Source, W: Outlet, N: Notes>(
    alloc: Global,
    reader: &mut R,
    writer: &mut W,
    notes: &mut N,
    lengths: Lengths,
    bytes: Option<u64>,
    refused: &mut Excerpt,
) -> Result<Pieces, StreamFault<CutFault>>
    requires read { CanCountOneMore (R.failed_calls reader.old) }
    requires write { CanCountOneMore (W.failed_calls writer.old) }
    ensures cut { IfOk result (λ pieces. IsCutOf lengths.step (R.left reader.old) (R.left reader.new) (W.held_in writer.old) (W.held_in writer.new) pieces.told) }
    ensures reads { R.failed_calls reader.new ≡ R.failed_calls reader.old + failed_reads result }
    ensures writes { W.failed_calls writer.new ≡ W.failed_calls writer.old + failed_writes result }
{
    let limit = match bytes {
        Some(_) => usize::MAX,
        None => LOG_LIMIT,
    };
    let mut cutter = Cutter::new(alloc, lengths.events, lengths.step, bytes)?;
    let mut piece = [0u8; PIECE];
    let mut total = 0;
    let mut size = 0;
    while total < limit {
        let count = match read_piece(reader, &mut piece, limit - total) {
            Ok(count) => count,
            Err(Failed) => return Err(StreamFault::ReadFault),
        };
        if count == 0 {
            break;
        }
        take(&mut cutter, &piece[..count], refused)?;
        size = write_out(&mut cutter, writer, notes, size)?;
        total += count;
    }
    let more = match read_piece(reader, &mut piece, 1) {
        Ok(count) => count,
        Err(Failed) => return Err(StreamFault::ReadFault),
    };
    if more > 0 {
        return Err(too_long(&cutter));
    }
    end(&mut cutter)?;
    write_out(&mut cutter, writer, notes, size)?;
    Ok(Pieces {
        cuts: cutter.cuts(),
        files: cutter.files(),
        told: cutter.told(),
    })
}

fn too_long(cutter: &Cutter) -> StreamFault<CutFault>
    ensures { IsRefused result }
{
    StreamFault::Refused(CutFault::Log(LogFault {
        at: cutter.records().saturating_add(1),
        cause: Cause::TooLong,
    }))
}

fn take(
    cutter: &mut Cutter,
    piece: &[u8],
    refused: &mut Excerpt,
) -> Result<(), StreamFault<CutFault>>
    ensures reads { OnOk result ((step : ℕ) (log : List ℕ) (handed : ℕ → List ℕ) → HasRead step log handed cutter.old → HasRead step (log ++ piece.now) handed cutter.new) }
    ensures refused { IfErr result IsRefused }
{
    match cutter.take(piece) {
        Ok(()) => {
            refused.pass(piece);
            Ok(())
        }
        Err(fault) => {
            refused.find(piece);
            Err(StreamFault::Refused(fault))
        }
    }
}

fn end(cutter: &mut Cutter) -> Result<(), StreamFault<CutFault>>
    ensures all { OnOk result ((step : ℕ) (log : List ℕ) (handed : ℕ → List ℕ) → HasRead step log handed cutter.old → HasCutAll step log handed cutter.new) }
    ensures refused { IfErr result IsRefused }
{
    match cutter.finish() {
        Ok(()) => Ok(()),
        Err(fault) => Err(StreamFault::Refused(fault)),
    }
}

// Writes what the cutter hands out, behind so many bytes of all files, and says what it says.
fn write_out<W: Outlet, N: Notes>(
    cutter: &mut Cutter,
    writer: &mut W,
    notes: &mut N,
    size: u64,
) -> Result<u64, StreamFault<CutFault>>
    requires { CanCountOneMore (W.failed_calls writer.old) }
    ensures written { OnOk result (WritesOut cutter.old cutter.new (W.held_in writer.old) (W.held_in writer.new)) }
    ensures writes { W.failed_calls writer.new ≡ W.failed_calls writer.old + failed_writes result }
    ensures reads { failed_reads result ≡ 0 }
{
    let texts = match cutter.drain() {
        Ok(texts) => texts,
        Err(fault) => return Err(StreamFault::Refused(fault)),
    };
    let lines = cutter.notes();
    for line in &lines {
        notes.note(line.as_str());
    }
    let mut size = size;
    for text in &texts {
        match writer.write_to(text.file, &text.bytes) {
            Ok(()) => {}
            Err(NoFile::Failed { written }) => {
                return Err(StreamFault::WriteFault {
                    written: size.saturating_add(written),
                });
            }
            Err(NoFile::OutOfMemory) => return Err(StreamFault::OutOfMemory),
        }
        size = size.saturating_add(text.bytes.len() as u64);
    }
    Ok(size)
}
