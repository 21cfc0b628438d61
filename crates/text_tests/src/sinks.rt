//! Sinks that take a part at a time.

use std::alloc::Global;
use ytext::{Cut, SinkFault, write_all};

// Whether eight bytes, three a call, are written so, one of the calls failing or none: the answer, the bytes that are
// taken and the calls.
fn is_written(
    alloc: Global,
    failing_call: Option<u64>,
    answer: Result<(), SinkFault>,
    taken: &[u8],
    calls: u64,
) -> Option<bool> {
    let mut sink = Cut::new(alloc, 8, 3, failing_call).ok()?;
    let is_answer = write_all(&mut sink, b"abcdefgh") == answer;
    Some(is_answer && sink.bytes() == taken && sink.calls() == calls)
}

fn shows(alloc: Global, wanted: &str) -> Option<bool> {
    let text = format!(in alloc; "{SinkFault}").ok()?;
    Some(text.as_str() == wanted)
}

#[test]
fn cut_sink(rt: HostRuntime) {
    assert!(rt; is_written(rt.alloc(), None, Ok(()), b"abcdefgh", 3) == Some(true));
    assert!(rt; is_written(rt.alloc(), Some(2), Err(SinkFault), b"abc", 2) == Some(true));
    assert!(rt; shows(rt.alloc(), "write failed") == Some(true));
}
