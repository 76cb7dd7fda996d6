//! What a failing desk, source or sink leaves.
use crate::runs::{desk, run, words_of};
use session_io::MemSink;
use std::test::Fail;
use tsm_server::{OpenGate, tsmd};

const INPUT: &str = "INSERT cpu v=1i 10\nINSERT cpu v=2i 20\nSELECT v FROM cpu";

#[test]
fn missing_input(rt: HostRuntime) -> Result<(), Fail> {
    let desk = desk(rt.alloc(), INPUT, &[], &[])?;
    let outcome = run(&rt, rt.alloc(), &["mem", "nowhere", "out"], desk)?;
    assert_eq!(rt; outcome.status, 3);
    assert_eq!(rt; outcome.printed.as_str(), "fault\n");
    Ok(())
}

#[test]
fn one_call_fails(rt: HostRuntime) -> Result<(), Fail> {
    // The first read gives all bytes, and the second the end. The last line ends there, so a failing second read
    // leaves it without a reply.
    let rows: [(&[u64], &[u64], &str); 4] = [
        (&[0], &[], ""),
        (&[1], &[], "ok 1\nok 2\n"),
        (&[], &[0], ""),
        (&[], &[1], "ok 1\n"),
    ];
    for (failing_reads, failing_writes, replies) in &rows {
        let desk = desk(rt.alloc(), INPUT, failing_reads, failing_writes)?;
        let outcome = run(&rt, rt.alloc(), &["mem", "in", "out"], desk)?;
        assert_eq!(rt; outcome.status, 3);
        assert_eq!(rt; outcome.printed.as_str(), "fault\n");
        assert_eq!(rt; outcome.replies.as_str(), *replies);
    }
    Ok(())
}

#[test]
fn refused_line_changes_no_status(rt: HostRuntime) -> Result<(), Fail> {
    let alloc = rt.alloc();
    let mut desk = desk(alloc, INPUT, &[], &[])?;
    let mut out = MemSink::new(alloc, vec![in alloc; 0]?);
    let words = words_of(alloc, &["mem", "in"])?;
    assert_eq!(rt; tsmd(&rt, alloc, &words, &mut desk, &mut out, &OpenGate), 1);
    assert_eq!(rt; out.bytes().len(), 0);
    Ok(())
}
