//! A text that is written in pieces or cut off, and reads that fail.

ghost use Rattle.std.specs.Prelude.{◌≡◌, ◌<◌};
ghost use Rattle.pmf_device.specs.Failures.{CanCountOneMore};

use super::fakes::InterruptedOnce;
use pmf_device::{
    ByteSink, Cut, Device, Failed, Sink, Source, StdSink, StdSource, read_piece, write_text,
};
use std::process::Abort;
use std::test::Fail;

const TEXT: &[u8] = b"4 PERSIST PASS\n";

// The writing of the text answers so, the sink holds these bytes, and so many writes failed.
fn writes(rt: &impl Abort, mut sink: ByteSink, text: &[u8], want: Result<(), Cut>, held: &[u8])
    requires { sink.failures ≡ 0 }
{
    assert_eq!(rt; write_text(&mut sink, text), want);
    assert!(rt; sink.bytes() == held, "{want:?}");
    assert_eq!(rt; sink.failures(), want.is_err() as u64, "{want:?}");
}

#[test]
fn a_sink_takes_the_whole_text_byte_by_byte_or_the_first_n_bytes(rt: HostRuntime) {
    writes(&rt, ByteSink::new(rt.alloc()).taking(1), TEXT, Ok(()), TEXT);
    for room in 0..TEXT.len() {
        let sink = ByteSink::new(rt.alloc()).failing_after(room);
        let written = room as u64;
        writes(&rt, sink, TEXT, Err(Cut { written }), &TEXT[..room]);
    }
    let full = ByteSink::new(rt.alloc()).failing_after(0);
    writes(&rt, full, b"", Ok(()), b"");
}

#[test]
fn a_writer_of_the_standard_library_holds_what_there_is_room_for(
    rt: HostRuntime,
) -> Result<(), Fail> {
    let mut held = Vec::new(rt.alloc());
    assert_eq!(rt; write_text(&mut StdSink::new(&mut held), TEXT), Ok(()));
    assert!(rt; held.as_slice() == TEXT);
    for count in [0, 5] {
        let mut room = [0u8; 5];
        let mut sink = StdSink::new(&mut room[..count]);
        let written = count as u64;
        assert_eq!(rt; write_text(&mut sink, TEXT), Err(Cut { written }));
        assert_eq!(rt; sink.failures(), 1);
    }
    Ok(())
}

// A read of at most so many bytes gives these.
fn gives<S: Source>(rt: &impl Abort, source: &mut S, limit: usize, want: &[u8])
    requires room { 0 < limit }
    requires countable { CanCountOneMore (S.failed_calls source.old) }
    ensures { S.failed_calls source.new ≡ S.failed_calls source.old }
{
    let mut buffer = [0u8; 64];
    let count = read_piece(source, &mut buffer, limit);
    assert_eq!(rt; count, Ok(want.len()));
    assert!(rt; want.len() <= 64 && &buffer[..want.len()] == want);
}

#[test]
fn a_reader_of_the_standard_library_gives_its_bytes_and_the_end(rt: HostRuntime) {
    let mut source = StdSource::new(TEXT);
    gives(&rt, &mut source, 4, &TEXT[..4]);
    gives(&rt, &mut source, 10, &TEXT[4..14]);
    gives(&rt, &mut source, 64, &TEXT[14..]);
    gives(&rt, &mut source, 64, b"");
    assert_eq!(rt; source.failures(), 0);
}

// An interrupted call is a failed one: it is counted, and not made again.
#[test]
fn an_interrupted_read_or_write_is_a_failed_one(rt: HostRuntime) {
    let mut source = StdSource::new(InterruptedOnce::new());
    let mut buffer = [0; 8];
    assert_eq!(rt; source.read(&mut buffer), Err(Failed));
    assert_eq!(rt; source.failures(), 1);
    assert_eq!(rt; source.read(&mut buffer), Ok(0));
    assert_eq!(rt; source.failures(), 1);

    let mut sink = StdSink::new(InterruptedOnce::new());
    assert_eq!(rt; sink.write(b"total"), Err(Failed));
    assert_eq!(rt; sink.failures(), 1);
    assert_eq!(rt; sink.write(b"total"), Ok(5));
    assert_eq!(rt; sink.failures(), 1);
}
