//! A log that is cut over a source and a sink: in pieces, and where a read, the log or a write fails.

ghost use Rattle.std.specs.Prelude.{◌≡◌, None};

use super::fakes::{PieceSource, failed_calls};
use crate::cutting::{Notes, Pieces, cut_stream};
use crate::excerpt::Excerpt;
use crate::fault::StreamFault;
use crate::outlet::{NoFile, Outlet};
use pmf_cut::CutFault;
use pmf_device::{ByteSink, Device};
use pmf_request::Lengths;
use pmf_storelog::{Cause, LogFault};
use std::alloc::Global;
use std::process::Abort;

const LOG: &[u8] = b"STORE;0;1;8|FLUSH;0;1|FENCE|STORE;64;1;8|PMT.ORDERED;64;8;0;8\n";

const TEXT: &[u8] =
    b"STORE;0;1;8|FLUSH;0;1|FENCE|PMT.SECTION;9|STORE;64;1;8|PMT.ORDERED;64;8;0;8\n";

const LENGTHS: Lengths = Lengths { events: 4, step: 9 };

// How many lines were said.
#[derive(Drop)]
struct Lines {
    count: u64,
}

impl Notes for Lines {
    fn note(&mut self, _line: &str) {
        self.count = self.count.saturating_add(1);
    }
}

// The cut of the source answers so. Answers the sink, and how many lines were said.
fn cuts(
    rt: &impl Abort,
    alloc: Global,
    mut source: PieceSource,
    mut sink: ByteSink,
    want: Result<Pieces, StreamFault<CutFault>>,
) -> (ByteSink, u64)
    requires read { source.failures ≡ 0 }
    requires write { sink.failures ≡ 0 }
{
    let mut lines = Lines { count: 0 };
    let mut refused = Excerpt::none();
    let answer = cut_stream(
        alloc,
        &mut source,
        &mut sink,
        &mut lines,
        LENGTHS,
        None,
        &mut refused,
    );
    assert_eq!(rt; answer, want);
    let failed = (source.failures(), sink.failures());
    assert_eq!(rt; failed, failed_calls(&want), "{want:?}");
    (sink, lines.count)
}

#[test]
fn a_log_in_pieces_is_cut_as_the_whole(rt: HostRuntime) {
    for most in [1, 7, 65_536] {
        let source = PieceSource::new(LOG).giving(most);
        let want = Ok(Pieces {
            cuts: 1,
            files: 1,
            told: 1,
        });
        let (sink, said) = cuts(&rt, rt.alloc(), source, ByteSink::new(rt.alloc()), want);
        assert!(rt; sink.bytes() == TEXT);
        assert_eq!(rt; said, 1);
    }
}

#[test]
fn devices_that_fail_and_a_fault_of_the_log_are_told(rt: HostRuntime) {
    let alloc = rt.alloc();
    for room in 0..TEXT.len() {
        let sink = ByteSink::new(alloc).failing_after(room);
        let written = room as u64;
        let cut = Err(StreamFault::WriteFault { written });
        let (sink, _) = cuts(&rt, alloc, PieceSource::new(LOG), sink, cut);
        assert!(rt; sink.bytes() == &TEXT[..room]);
    }
    let source = PieceSource::new(LOG).failing(true);
    let unread = Err(StreamFault::ReadFault);
    let _ = cuts(&rt, alloc, source, ByteSink::new(alloc), unread);
    let fault = LogFault {
        at: 2,
        cause: Cause::UnknownMarker,
    };
    let source = PieceSource::new(b"FENCE|PMT.X");
    let refused = Err(StreamFault::Refused(CutFault::Log(fault)));
    let _ = cuts(&rt, alloc, source, ByteSink::new(alloc), refused);
}

// Files, the second of which is refused, by a failed call or not.
#[derive(Drop)]
struct OneFile {
    refusal: NoFile,
    failures: u64,
}

impl Device for OneFile {
    ghost failed_calls = { λ s. s.failures };

    fn failures(&self) -> u64 {
        self.failures
    }
}

impl Outlet for OneFile {
    ghost held_in = { λ s file. None };

    fn write_to(&mut self, file: usize, _text: &[u8]) -> Result<(), NoFile> {
        if file == 0 {
            return Ok(());
        }
        if let NoFile::Failed { .. } = self.refusal {
            self.failures += 1;
        }
        Err(self.refusal)
    }
}

#[test]
fn a_file_that_is_refused_is_told(rt: HostRuntime) {
    let alloc = rt.alloc();
    let failed = StreamFault::WriteFault { written: 28 };
    for (refusal, want) in [
        (NoFile::Failed { written: 0 }, failed),
        (NoFile::OutOfMemory, StreamFault::OutOfMemory),
    ] {
        let mut source = PieceSource::new(LOG);
        let mut files = OneFile {
            refusal,
            failures: 0,
        };
        let mut lines = Lines { count: 0 };
        let answer = cut_stream(
            alloc,
            &mut source,
            &mut files,
            &mut lines,
            LENGTHS,
            Some(30),
            &mut Excerpt::none(),
        );
        assert_eq!(rt; answer, Err(want), "{refusal:?}");
        assert_eq!(rt; files.failures, u64::from(refusal != NoFile::OutOfMemory));
    }
}
