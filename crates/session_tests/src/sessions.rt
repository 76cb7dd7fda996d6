use session_io::{End, Gate, MemClock, MemSink, MemSource, Place, Report};
use session_loop::session;
use std::test::Fail;
use store_trait::PlainStore;

/// It holds nobody.
struct NoGate;

impl Gate for NoGate {
    fn reach(&self, _who: u32, _place: Place) {}
}

/// The report and the sink of a session over these bytes and a store of its own.
fn served(rt: &HostRuntime, input: &[u8]) -> Result<(Report, MemSink), Fail> {
    let alloc = rt.alloc();
    let mut store = PlainStore::new(alloc, 0);
    let mut source = MemSource::new(input.to_vec(alloc)?, Vec::new(alloc));
    let mut sink = MemSink::new(alloc, Vec::new(alloc));
    let mut clock = MemClock::new(Vec::new(alloc));
    let report = session(
        alloc,
        &mut store,
        &mut source,
        &mut sink,
        &mut clock,
        &NoGate,
        0,
    );
    Ok((report, sink))
}

/// What is asked and what is answered, how many replies that are, and the last number.
type Row = (&'static [u8], &'static [u8], u64, u64);

const ROWS: [Row; 4] = [
    // Each kind of request, in each case, with spaces, comments and carriage returns.
    (
        b"\n   \r\n\tx\ninsert cpu v=-2i -20\r\nBatch 2\n# c\r\ncpu v=7i 3\nAFTER 2\nafter 3\nSELECT v FROM cpu\nSELECT w FROM cpu",
        b"error B1 NotBuilt\nok 1\nok 2\nat 2\nnotyet 2\nat 2\nname: cpu\ntime v\n-20 -2\n3 7\n.\nat 2\n.\n",
        7,
        2,
    ),
    // Deletions that meet points, and one that meets none.
    (
        b"BATCH 3\ncpu,host=a v=1i 10\ncpu,host=b v=2i 20\ncpu,host=a v=4i 30\nDELETE FROM cpu WHERE host = 'a' AND time < 30\nSELECT v FROM cpu\n drop series from cpu where host = 'b';\nSELECT v FROM cpu\nDROP MEASUREMENT mem\nDROP MEASUREMENT cpu\nSELECT v FROM cpu\nINSERT cpu v=true 1\nAFTER 6\n",
        b"ok 1\nok 2\nat 2\nname: cpu\ntime v\n20 2\n30 4\n.\nok 3\nat 3\nname: cpu\ntime v\n30 4\n.\nok 4\nok 5\nat 5\n.\nok 6\nat 6\n",
        10,
        6,
    ),
    // Each cause for which a deletion is refused.
    (
        b"INSERT cpu v=1i 10\nDELETE\nDROP SERIES FROM cpu WHERE time < 30\nDELETE FROM cpu WHERE time < 5 OR time > 9223372036854775808\nDELETE FROM cpu WHERE time > 9223372036854775808\nDELETED FROM cpu\nSELECT v FROM cpu\n",
        b"ok 1\nerror Q1 Syntax\nerror Q1 Syntax\nerror Q2 TimeInOr\nerror Q3 NumberRange\nerror B1 NotBuilt\nat 1\nname: cpu\ntime v\n10 1\n.\n",
        7,
        1,
    ),
    // Lines and a batch that are no UTF-8.
    (
        b"INSERT cpu v=1i 10\nINSERT c\xffpu v=2i 20\n\xc3\nBATCH 2\ncpu v=3i 30\n# \xff\nSELECT v FROM cpu\n",
        b"ok 1\nerror S3 NotText\nerror S3 NotText\nerror S3 NotText\nat 1\nname: cpu\ntime v\n10 1\n.\n",
        5,
        1,
    ),
];

#[test]
fn requests_are_answered(rt: HostRuntime) -> Result<(), Fail> {
    for (input, replies, requests, last) in ROWS {
        let (report, sink) = served(&rt, input)?;
        assert_eq!(rt; sink.bytes(), replies);
        assert_eq!(rt;
            (report.requests, report.last, report.end),
            (requests, last, End::Read)
        );
    }
    Ok(())
}

#[test]
fn long_lines_are_dropped_to_their_end(rt: HostRuntime) -> Result<(), Fail> {
    let alloc = rt.alloc();
    let mut input = vec![in alloc; b' '; 70_000]?;
    input.extend_from_slice(b"\n")?;
    input.extend_from_slice(&vec![in alloc; b'a'; 65_536]?)?;
    input.extend_from_slice(b"\r\n")?;
    input.extend_from_slice(&vec![in alloc; b'a'; 65_537]?)?;
    input.extend_from_slice(b"\nBATCH 2\ncpu v=1i 1\n#")?;
    input.extend_from_slice(&vec![in alloc; b'a'; 200_000]?)?;
    input.extend_from_slice(b"\nINSERT cpu v=1i 10\nBATCH 3\n#\n\xff")?;
    let (report, sink) = served(&rt, &input)?;
    let wanted =
        b"error B1 NotBuilt\nerror S1 LineTooLong\nerror S1 LineTooLong\nok 1\nerror S2 BatchCut\n";
    assert_eq!(rt; sink.bytes(), wanted.as_slice());
    assert_eq!(rt; report.requests, 5);
    Ok(())
}
