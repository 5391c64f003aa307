//! A simulation that is written, whole or cut off, and one that is refused.

ghost use Rattle.std.specs.Prelude.{◌≡◌};

use crate::fault::StreamFault;
use crate::simulating::sim_to;
use pmf_device::ByteSink;
use pmf_world::SimFault;
use std::alloc::Global;
use std::process::Abort;

const TEXT: &[u8] =
    b"1 task section=0 number=1\nledger 0\ntotal sections=0 pass=0 fail=0 warn=0 empty=0\n";

// A simulation of one section, one worker and one ledger answers so, and the sink holds this text.
fn writes(
    rt: &impl Abort,
    alloc: Global,
    schedule: &[u8],
    mut sink: ByteSink,
    want: Result<(), StreamFault<SimFault>>,
    text: &[u8],
)
    requires { sink.failures ≡ 0 }
{
    let answer = sim_to(alloc, b"FENCE", schedule, 1, 1, &mut sink);
    assert_eq!(rt; answer, want);
    assert!(rt; sink.bytes() == text, "{want:?}");
}

#[test]
fn the_text_is_written_or_so_many_bytes_of_it_or_nothing(rt: HostRuntime) {
    let alloc = rt.alloc();
    let schedule = b"fresh 0 0".as_slice();
    for most in [1, 100] {
        let sink = ByteSink::new(alloc).taking(most);
        writes(&rt, alloc, schedule, sink, Ok(()), TEXT);
    }
    for room in 0..TEXT.len() {
        let sink = ByteSink::new(alloc).failing_after(room);
        let cut = Err(StreamFault::WriteFault {
            written: room as u64,
        });
        writes(&rt, alloc, schedule, sink, cut, &TEXT[..room]);
    }
    let bad = Err(StreamFault::Refused(SimFault::BadStep { line: 2 }));
    let sink = ByteSink::new(alloc);
    writes(&rt, alloc, b"fresh 0 0\nfresh 0\n", sink, bad, b"");
}
