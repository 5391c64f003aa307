//! A check of a source: in pieces, and where a read, the log, its workers or a write fail.

ghost use Rattle.std.specs.Prelude.{◌≡◌};

use super::fakes::{PieceSource, failed_calls};
use crate::checking::{CheckLogFault, Done, check_stream};
use crate::excerpt::Excerpt;
use crate::fault::StreamFault;
use pmf_device::{ByteSink, Device};
use pmf_event::Profile;
use pmf_farm::{FarmFault, OpenGate};
use pmf_request::Settings;
use pmf_storelog::{Cause, LogFault};
use std::alloc::Global;
use std::process::Abort;
use std::sync::Wait;
use std::thread::Threads;

// Two stores of one line, of which the second comes after the write-back.
const LOG: &[u8] = b"STORE;0x1000;0;8|FLUSH;0x1000;0x40|STORE;0x1008;0;8|FENCE\
|PMT.PERSIST;0x1000;8|PMT.PERSIST;0x1008;8";

const REPORT: &[u8] = b"\
section 0.0 events=6 pass=1 fail=1 warn=0 empty=0
5 PERSIST PASS
6 PERSIST FAIL byte=0x1008 crash=6
total sections=1 pass=1 fail=1 warn=0 empty=0
";

// The check of the source by so many workers answers so, and the sink holds these bytes; how many reads and writes failed is
// told by the answer.
fn checks(
    rt: &(impl Abort + Threads + Wait + Sync),
    alloc: Global,
    mut source: PieceSource,
    mut sink: ByteSink,
    workers: u32,
    want: Result<Done, StreamFault<CheckLogFault>>,
    text: &[u8],
)
    requires read { source.failures ≡ 0 }
    requires write { sink.failures ≡ 0 }
{
    let settings = Settings {
        workers,
        run: 0,
        profile: Profile::One,
        ledger: false,
        strict: false,
    };
    let mut refused = Excerpt::none();
    let answer = check_stream(
        rt,
        alloc,
        &mut source,
        &mut sink,
        settings,
        &OpenGate,
        &mut refused,
    );
    assert_eq!(rt; answer, want);
    assert!(rt; sink.bytes() == text, "{want:?}");
    let failed = (source.failures(), sink.failures());
    assert_eq!(rt; failed, failed_calls(&want), "{want:?}");
}

#[test]
fn a_log_in_pieces_has_the_report_of_the_whole(rt: HostRuntime) {
    let done = Ok(Done {
        skipped: 0,
        passes: 1,
        fails: 1,
        warnings: None,
    });
    for most in [1, 7, 64, 65_536] {
        let source = PieceSource::new(LOG).giving(most);
        let sink = ByteSink::new(rt.alloc()).taking(most);
        checks(&rt, rt.alloc(), source, sink, 2, done, REPORT);
    }
}

#[test]
fn a_writer_that_fails_after_n_bytes_holds_the_first_n(rt: HostRuntime) {
    for room in 0..REPORT.len() {
        let source = PieceSource::new(LOG);
        let sink = ByteSink::new(rt.alloc()).failing_after(room);
        let written = room as u64;
        let cut = Err(StreamFault::WriteFault { written });
        checks(&rt, rt.alloc(), source, sink, 1, cut, &REPORT[..room]);
    }
}

#[test]
fn each_read_that_fails_in_turn_is_a_read_fault(rt: HostRuntime) {
    // As many reads as the log has pieces, and the one that would find its end.
    for working in 0..=LOG.len().div_ceil(7) {
        let source = PieceSource::new(&LOG[..LOG.len().min(7 * working)]).giving(7);
        let source = source.failing(true);
        let sink = ByteSink::new(rt.alloc());
        let unread = Err(StreamFault::ReadFault);
        checks(&rt, rt.alloc(), source, sink, 1, unread, b"");
    }
}

#[test]
fn a_fault_of_the_log_is_told_as_soon_as_its_record_ends_and_before_the_workers(rt: HostRuntime) {
    let fault = LogFault {
        at: 1,
        cause: Cause::UnknownMarker,
    };
    let unknown = Err(StreamFault::Refused(CheckLogFault::Log(fault)));
    let no_workers = CheckLogFault::Farm(FarmFault::NoWorkers);
    for (log, fails, want) in [
        ("PMT.X|", true, unknown),
        ("PMT.X", true, Err(StreamFault::ReadFault)),
        ("PMT.X", false, unknown),
        ("FENCE", false, Err(StreamFault::Refused(no_workers))),
    ] {
        let source = PieceSource::new(log.as_bytes()).failing(fails);
        let sink = ByteSink::new(rt.alloc());
        checks(&rt, rt.alloc(), source, sink, 0, want, b"");
    }
}
