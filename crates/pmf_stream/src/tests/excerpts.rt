//! The record for which a log is refused.

ghost use Rattle.std.specs.Prelude.{◌≡◌};

use super::fakes::PieceSource;
use crate::answering::answer_stream;
use crate::checking::check_stream;
use crate::excerpt::Excerpt;
use pmf_device::ByteSink;
use pmf_event::Profile;
use pmf_farm::OpenGate;
use pmf_lint::{Overview, Survey};
use pmf_request::Settings;
use std::alloc::Global;
use std::process::Abort;
use std::sync::Wait;
use std::thread::Threads;

// The log of the source is refused, for this record.
fn keeps(
    rt: &(impl Abort + Threads + Wait + Sync),
    alloc: Global,
    mut source: PieceSource,
    asks: bool,
    text: &[u8],
)
    requires { source.failures ≡ 0 }
{
    let settings = Settings {
        workers: 1,
        run: 0,
        profile: Profile::One,
        ledger: false,
        strict: false,
    };
    let mut sink = ByteSink::new(alloc);
    let mut refused = Excerpt::none();
    let survey = Survey {
        asked: Overview { unasserted: false },
    };
    let is_refused = if asks {
        answer_stream(alloc, &mut source, &mut sink, &survey, &mut refused).is_err()
    } else {
        check_stream(
            rt,
            alloc,
            &mut source,
            &mut sink,
            settings,
            &OpenGate,
            &mut refused,
        )
        .is_err()
    };
    assert!(rt; is_refused);
    assert!(rt; refused.text() == text, "{:?}", refused.text());
}

#[test]
fn the_record_for_which_a_log_is_refused_is_kept_with_ample_memory(rt: HostRuntime) {
    for most in [1, 3, 64, 65_536] {
        for (log, text) in [
            (
                b"FENCE|STORE;0x40STORE;0x80;8|PMT.X".as_slice(),
                b"STORE;0x40STORE;0x80;8".as_slice(),
            ),
            (
                b"START|\n \tPMT.PERSITS;8;8 \r\nPMT.X|".as_slice(),
                b"PMT.PERSITS;8;8".as_slice(),
            ),
            (b"FENCE|FLUSH;8;x".as_slice(), b"FLUSH;8;x".as_slice()),
            (b"PMT.X".as_slice(), b"PMT.X".as_slice()),
        ] {
            for asks in [false, true] {
                let source = PieceSource::new(log).giving(most);
                keeps(&rt, rt.alloc(), source, asks, text);
            }
        }
    }
}
