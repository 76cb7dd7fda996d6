//! Runs of the program over the files of the system, all bytes compared.
use crate::runs::words_of;
use session_io::HostSink;
use std::fs::File;
use std::random::RandomSource;
use std::sync::Wait;
use std::test::Fail;
use std::thread::Threads;
use std::{env, fs, io, process};
use tsm_server::{HostDesk, OpenGate, Output, tsmd};

/// A new folder of one test.
fn room(rt: HostRuntime, name: &str) -> io::Result<String> {
    let temporary = env::temp_dir(&rt)?;
    let temporary = temporary.as_path().to_string_lossy();
    let id = process::id(rt.process());
    let path = format!(in rt.alloc(); "{temporary}/tsmd_{name}_{id}")?;
    fs::create_dir(&rt, path.as_str())?;
    Ok(path)
}

/// What a run over these two files ends with and prints.
fn run<R: RandomSource + Threads + Wait + Sync>(
    threads: &R,
    rt: HostRuntime,
    room: &str,
    input: &str,
    output: &str,
) -> Result<(u8, String), Fail> {
    let alloc = rt.alloc();
    let words = words_of(alloc, &["mem", input, output])?;
    let printed = format!(in alloc; "{room}/printed")?;
    let mut desk = HostDesk::new(rt);
    let mut out = HostSink::new(Output::File(File::create(&rt, printed.as_str())?));
    let status = tsmd(threads, alloc, &words, &mut desk, &mut out, &OpenGate);
    Ok((status, fs::read_to_string(&rt, printed.as_str())?))
}

#[test]
fn an_output_is_made_anew(rt: HostRuntime) -> Result<(), Fail> {
    let room = room(rt, "replies")?;
    let input = format!(in rt.alloc(); "{}/in", room.as_str())?;
    let output = format!(in rt.alloc(); "{}/out", room.as_str())?;
    fs::write(
        &rt,
        input.as_str(),
        "INSERT cpu v=1i 10\nSELECT v FROM cpu\n",
    )?;
    fs::write(&rt, output.as_str(), [b'x'; 100].as_slice())?;
    let (status, printed) = run(&rt, rt, room.as_str(), input.as_str(), output.as_str())?;
    let replies = fs::read_to_string(&rt, output.as_str())?;
    fs::remove_dir_all(&rt, room.as_str())?;
    assert_eq!(rt; (status, printed.as_str()), (0, ""));
    assert_eq!(rt;
        replies.as_str(),
        "ok 1\nat 1\nname: cpu\ntime v\n10 1\n.\n"
    );
    Ok(())
}

// An input that isn't there, and one that is the output.
#[test]
fn a_refused_opening_leaves_the_output(rt: HostRuntime) -> Result<(), Fail> {
    let room = room(rt, "kept")?;
    let missing = format!(in rt.alloc(); "{}/in", room.as_str())?;
    let output = format!(in rt.alloc(); "{}/out", room.as_str())?;
    fs::write(&rt, output.as_str(), "kept")?;
    let by_missing = run(&rt, rt, room.as_str(), missing.as_str(), output.as_str())?;
    let by_itself = run(&rt, rt, room.as_str(), output.as_str(), output.as_str())?;
    let text = fs::read_to_string(&rt, output.as_str())?;
    fs::remove_dir_all(&rt, room.as_str())?;
    assert_eq!(rt; (by_missing.0, by_itself.0), (3, 3));
    assert_eq!(rt; by_missing.1.as_str(), "fault\n");
    assert_eq!(rt; by_itself.1.as_str(), "fault\n");
    assert_eq!(rt; text.as_str(), "kept");
    Ok(())
}
