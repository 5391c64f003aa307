//! Each question of a log over a source and a sink: in pieces, and where a read, the log or a write fails.

ghost use Rattle.std.specs.Prelude.{◌≡◌};

use super::fakes::{PieceSource, failed_calls};
use crate::answering::{answer_stream, recite_stream};
use crate::excerpt::Excerpt;
use crate::fault::StreamFault;
use pmf_device::{ByteSink, Device};
use pmf_event::Profile;
use pmf_lint::{Linted, Overview, Survey};
use pmf_query::{EventFault, EventRefusal, LogRefusal, Query, Question, Sought, Whole};
use pmf_storelog::{Cause, LogFault};
use std::alloc::Global;
use std::fmt::Debug;
use std::process::Abort;

// Section 1 has a store that is not durable where it is asserted, and a record is skipped.
const LOG: &[u8] =
    b"START|PMT.SECTION;1\r\n STORE;0x1000;0;8;main.c:7 |FENCE|PMT.PERSIST;0x1000;8\n";

const FAULTY: &[u8] = b"FENCE|PMT.X";

const FAULT: LogFault = LogFault {
    at: 2,
    cause: Cause::UnknownMarker,
};

const SOUGHT: Sought = Sought {
    run: 7,
    section: 1,
    event: 3,
};

const EXPLAINED: &[u8] = b"\
3 PERSIST FAIL byte=0x1000 crash=3
image crash=3 full=none
byte=0x1000 cut=0 shows=0 last=1
";

const ALL_EXPLAINED: &[u8] = b"\
section 7.1
3 PERSIST FAIL byte=0x1000 crash=3
image crash=3 full=none
byte=0x1000 cut=0 shows=0 last=1
";

const LOCATED: &[u8] = b"record=5 offset=55 length=20\nPMT.PERSIST;0x1000;8\n";

const HELD: &[u8] = b"\
records=5 events=3 sections=1 skipped=1
STORE records=1
FENCE records=1
PMT.PERSIST records=1
PMT.SECTION records=1
skipped START records=1
assertions=1 empty=0
stores=1 unasserted=0
unwritten=1 unfenced=0 overwriting=0
fences=1 idle=1
unwritten main.c:7 stores=1
warning: START stands without STOP
";

// The question is answered so, and the sink holds this text.
fn answers<
    T: PartialEq + Debug + Drop,
    E: PartialEq + Debug + Drop,
    Q: Query<Told = T, Refusal = E>,
>(
    rt: &impl Abort,
    alloc: Global,
    mut source: PieceSource,
    mut sink: ByteSink,
    query: &Q,
    want: Result<T, StreamFault<E>>,
    text: &[u8],
)
    requires read { source.failures ≡ 0 }
    requires write { sink.failures ≡ 0 }
{
    let mut refused = Excerpt::none();
    let answer = answer_stream(alloc, &mut source, &mut sink, query, &mut refused);
    assert_eq!(rt; answer, want);
    assert!(rt; sink.bytes() == text, "{want:?}");
    let failed = (source.failures(), sink.failures());
    assert_eq!(rt; failed, failed_calls(&want), "{want:?}");
}

// A log in pieces has the answer of the whole.
fn tells<
    T: PartialEq + Debug + Copy + Drop,
    E: PartialEq + Debug + Drop,
    Q: Query<Told = T, Refusal = E>,
>(rt: &impl Abort, alloc: Global, query: &Q, told: T, text: &[u8]) {
    for most in [1, 7, 64, 65_536] {
        let source = PieceSource::new(LOG).giving(most);
        let sink = ByteSink::new(alloc).taking(most);
        answers(rt, alloc, source, sink, query, Ok(told), text);
    }
}

#[test]
fn what_is_told_of_a_log_and_the_text_that_is_written(rt: HostRuntime) {
    let (run, profile) = (SOUGHT.run, Profile::One);
    let question = Question {
        run,
        profile,
        section: SOUGHT.section,
        event: SOUGHT.event,
    };
    let linted = Linted {
        is_suspicious: true,
    };
    tells(&rt, rt.alloc(), &question, (), EXPLAINED);
    tells(&rt, rt.alloc(), &SOUGHT, (), LOCATED);
    let survey = Survey {
        asked: Overview { unasserted: false },
    };
    tells(&rt, rt.alloc(), &survey, linted, HELD);
}

const WHOLE: Whole = Whole {
    run: SOUGHT.run,
    profile: Profile::One,
    first: None,
};

// All rows are explained so, and the sink holds this text.
fn recites(
    rt: &impl Abort,
    alloc: Global,
    mut source: PieceSource,
    mut sink: ByteSink,
    want: Result<(), StreamFault<LogRefusal>>,
    text: &[u8],
)
    requires read { source.failures ≡ 0 }
    requires write { sink.failures ≡ 0 }
{
    let mut refused = Excerpt::none();
    let answer = recite_stream(alloc, &mut source, &mut sink, &WHOLE, &mut refused);
    assert_eq!(rt; answer, want);
    assert!(rt; sink.bytes() == text, "{want:?}");
    let failed = (source.failures(), sink.failures());
    assert_eq!(rt; failed, failed_calls(&want), "{want:?}");
}

#[test]
fn what_is_written_part_by_part(rt: HostRuntime) {
    let alloc = rt.alloc();
    for most in [1, 7, 64, 65_536] {
        let source = PieceSource::new(LOG).giving(most);
        let sink = ByteSink::new(alloc).taking(most);
        recites(&rt, alloc, source, sink, Ok(()), ALL_EXPLAINED);
    }
    for room in 0..ALL_EXPLAINED.len() {
        let sink = ByteSink::new(alloc).failing_after(room);
        let written = room as u64;
        let cut = Err(StreamFault::WriteFault { written });
        recites(
            &rt,
            alloc,
            PieceSource::new(LOG),
            sink,
            cut,
            &ALL_EXPLAINED[..room],
        );
    }
    let refused = Err(StreamFault::Refused(LogRefusal::Log(FAULT)));
    recites(
        &rt,
        alloc,
        PieceSource::new(FAULTY),
        ByteSink::new(alloc),
        refused,
        b"",
    );
    let unread = Err(StreamFault::ReadFault);
    let source = PieceSource::new(LOG).failing(true);
    recites(&rt, alloc, source, ByteSink::new(alloc), unread, b"");
}

#[test]
fn a_writer_that_fails_after_n_bytes_holds_the_first_n(rt: HostRuntime) {
    for room in 0..LOCATED.len() {
        let source = PieceSource::new(LOG);
        let sink = ByteSink::new(rt.alloc()).failing_after(room);
        let written = room as u64;
        let cut = Err(StreamFault::WriteFault { written });
        let text = &LOCATED[..room];
        answers(&rt, rt.alloc(), source, sink, &SOUGHT, cut, text);
    }
}

#[test]
fn a_refusal_and_a_failed_read_write_nothing(rt: HostRuntime) {
    let alloc = rt.alloc();
    let refused = Err(StreamFault::Refused(EventRefusal {
        sought: SOUGHT,
        fault: EventFault::Log(FAULT),
    }));
    let source = PieceSource::new(FAULTY);
    let sink = ByteSink::new(alloc);
    answers(&rt, alloc, source, sink, &SOUGHT, refused, b"");
    let unread = Err(StreamFault::ReadFault);
    let source = PieceSource::new(FAULTY).failing(true);
    let sink = ByteSink::new(alloc);
    answers(&rt, alloc, source, sink, &SOUGHT, unread, b"");
}
