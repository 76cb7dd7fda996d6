//! What requests and words are answered.
use crate::runs::{Outcome, desk, desk_at, run};
use std::alloc::{AllocError, Global};
use std::random::RandomSource;
use std::sync::Wait;
use std::test::Fail;
use std::thread::Threads;
use tsdb_types::Time;

/// What the program leaves of this input.
fn served<R: RandomSource + Threads + Wait + Sync>(
    rt: &R,
    alloc: Global,
    input: &str,
) -> Result<Outcome, AllocError> {
    let desk = desk(alloc, input, &[], &[])?;
    run(rt, alloc, &["mem", "in", "out"], desk)
}

#[test]
fn requests_are_answered(rt: HostRuntime) -> Result<(), Fail> {
    let rows = [
        ("", ""),
        (
            "INSERT cpu v=1i 10\nSELECT v FROM cpu\n",
            "ok 1\nat 1\nname: cpu\ntime v\n10 1\n.\n",
        ),
        (
            "\n  \nINSERT cpu v=-3i -20\r\ninsert cpu v=4i 7\nINSERT cpu v=5i 7\nSELECT v FROM cpu",
            "ok 1\nok 2\nok 3\nat 3\nname: cpu\ntime v\n-20 -3\n7 5\n.\n",
        ),
        (
            "INSERT cpu,host=b v=1i 10\nINSERT cpu,host=a v=2i 10\nINSERT cpu,host=a v=3i 5\nSELECT v FROM cpu\n",
            "ok 1\nok 2\nok 3\nat 3\nname: cpu\ntime v\n5 3\n10 2\n10 1\n.\n",
        ),
        (
            "SHOW SERIES\nBATCH x\nINSERT\n",
            "error B1 NotBuilt\nerror B1 NotBuilt\nerror B1 NotBuilt\n",
        ),
    ];
    for (input, replies) in &rows {
        let outcome = served(&rt, rt.alloc(), input)?;
        assert_eq!(rt; outcome.replies.as_str(), *replies);
        assert_eq!(rt; outcome.printed.as_str(), "");
        assert_eq!(rt; outcome.status, 0);
    }
    Ok(())
}

#[test]
fn writes_are_refused_by_their_cause(rt: HostRuntime) -> Result<(), Fail> {
    let rows = [
        (
            "INSERT cpu v=0.64 10\nINSERT cpu v=\"x\" 10\nINSERT cpu v=9223372036854775808i 10\nINSERT cpu v=18446744073709551615u 10\n",
            "error L6 FloatValue line 1\nerror L7 StringValue line 1\nerror L8 NumberRange line 1\nok 1\n",
        ),
        (
            "INSERT cpu v=1i -9223372036854775806\nINSERT cpu v=1i 9223372036854775806\nINSERT cpu v=1i -9223372036854775807\nINSERT cpu v=1i 9223372036854775807\n",
            "ok 1\nok 2\nerror L10 TimeRange line 1\nerror L10 TimeRange line 1\n",
        ),
        (
            "INSERT cpu v=1i 10\nINSERT cpu v=true 20\n",
            "ok 1\nerror T1 TypeConflict v integer at 1\n",
        ),
        (
            "INSERT cpu,h=#!~ v=1i 1\nINSERT \n",
            "error L12 MarkInKey line 1\nerror L15 NoPoints\n",
        ),
        (
            "INSERT cpu a\\,\\ b=1i 1\nINSERT cpu a\\,\\ b=1u 1\n",
            "ok 1\nerror T1 TypeConflict a\\,\\ b integer at 1\n",
        ),
    ];
    for (input, replies) in &rows {
        let outcome = served(&rt, rt.alloc(), input)?;
        assert_eq!(rt; outcome.replies.as_str(), *replies);
        assert_eq!(rt; outcome.printed.as_str(), "");
        assert_eq!(rt; outcome.status, 0);
    }
    Ok(())
}

#[test]
fn a_line_without_a_time_has_its_moment(rt: HostRuntime) -> Result<(), Fail> {
    let alloc = rt.alloc();
    let mut moments = Vec::new(alloc);
    if let Some(seven) = Time::new(7) {
        moments.push(seven)?;
    }
    let input = "INSERT cpu v= 10\nINSERT cpu v=1i\nSELECT v FROM cpu\n";
    let desk = desk_at(alloc, input, &[], &[], moments)?;
    let outcome = run(&rt, rt.alloc(), &["mem", "in", "out"], desk)?;
    let wanted = "error L5 BadField line 1\nok 1\nat 1\nname: cpu\ntime v\n7 1\n.\n";
    assert_eq!(rt; outcome.replies.as_str(), wanted);
    Ok(())
}

#[test]
fn a_batch_is_one_request(rt: HostRuntime) -> Result<(), Fail> {
    let rows = [
        (
            "BATCH 3\n# c\n\ncpu v=1i 5\nAFTER 2\nAFTER 1\n",
            "ok 1\nnotyet 1\nat 1\n",
        ),
        ("batch 1\n# c\n", "error L15 NoPoints\n"),
        ("BATCH 0\nAFTER 0\n", "error L15 NoPoints\nat 0\n"),
        ("BATCH 2\ncpu v=1i 5\n", "error S2 BatchCut\n"),
        ("BATCH 2\ncpu v=1i 5\ncpu v=2i 6", "ok 1\n"),
        (
            "BATCH 2\ncpu v=1i 5\ncpu v=2.5 6\nSELECT v FROM cpu\n",
            "error L6 FloatValue line 2\nat 0\n.\n",
        ),
        (
            "INSERT cpu v=1i 1\nBATCH 2\ncpu w=1i 1\ncpu v=t 2\nSELECT w FROM cpu\n",
            "ok 1\nerror T1 TypeConflict v integer at 1\nat 1\n.\n",
        ),
    ];
    for (input, replies) in &rows {
        let outcome = served(&rt, rt.alloc(), input)?;
        assert_eq!(rt; outcome.replies.as_str(), *replies);
        assert_eq!(rt; outcome.printed.as_str(), "");
        assert_eq!(rt; outcome.status, 0);
    }
    Ok(())
}

/// A text that stands so often, one behind the other.
fn repeated(alloc: Global, text: &str, times: u32) -> Result<String, AllocError> {
    let mut all = String::new(alloc);
    for _ in 0..times {
        all.push_str(text)?;
    }
    Ok(all)
}

#[test]
fn limits_are_exact(rt: HostRuntime) -> Result<(), Fail> {
    let alloc = rt.alloc();
    let longest = repeated(alloc, "a", 65_530)?;
    let shorter = repeated(alloc, "a", 65_529)?;
    let lines = repeated(alloc, "\n", 5_001)?;
    let rows = [
        (format!(in alloc; "BATCH 1\n{longest} f=1i\n")?, "ok 1\n"),
        (
            format!(in alloc; "BATCH 1\na{longest} f=1i\n")?,
            "error L11 KeyTooLong line 1\n",
        ),
        // The first line has 65,536 bytes, and the second one more.
        (
            format!(in alloc; "INSERT {shorter}\nINSERT {longest}\n")?,
            "error L4 NoField line 1\nerror S1 LineTooLong\n",
        ),
        (
            format!(in alloc; "BATCH 5001\n{lines}AFTER 0\n")?,
            "error L16 BatchTooLong\nat 0\n",
        ),
        (
            format!(in alloc; "BATCH 5000\n{lines}AFTER 0\n")?,
            "error L15 NoPoints\nat 0\n",
        ),
    ];
    for (input, replies) in &rows {
        let outcome = served(&rt, rt.alloc(), input.as_str())?;
        assert_eq!(rt; outcome.replies.as_str(), *replies);
        assert_eq!(rt; outcome.status, 0);
    }
    Ok(())
}

#[test]
fn other_words_are_no_command(rt: HostRuntime) -> Result<(), Fail> {
    let rows: [&[&str]; 12] = [
        &[],
        &["shell"],
        &["shell", "-"],
        &["shell", "db", "db"],
        &["mem", "in"],
        &["mem", "in", "out", "out"],
        &["mem", "-", "out"],
        &["mem", "in", ""],
        &["Mem", "in", "out"],
        &["run", "db"],
        &["run", "db", "in"],
        &[
            "run", "db", "a", "b", "c", "d", "e", "f", "g", "h", "i", "j", "k", "l", "m", "n", "o",
            "p", "q", "r",
        ],
    ];
    for words in &rows {
        let desk = desk(rt.alloc(), "SELECT v FROM cpu\n", &[], &[])?;
        let outcome = run(&rt, rt.alloc(), words, desk)?;
        assert_eq!(rt; outcome.status, 1);
        assert_eq!(rt;
            outcome.printed.as_str(),
            "usage: tsmd mem IN OUT | shell DIR | run DIR IN OUT [IN OUT ..]\n"
        );
        assert_eq!(rt; outcome.replies.as_str(), "");
    }
    Ok(())
}
