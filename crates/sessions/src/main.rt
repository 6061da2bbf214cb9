//! Plays stored sessions through the call for one line, and prints each line with its answer.
#![tactic(auto)]

use session::session::{ANSWER_ROOM, Session};
use std::fs::File;
use std::io::{BufRead, BufReader, BufWriter, Write};
use std::{env, io};

fn main(rt: HostRuntime) -> io::Result<()> {
    short_buffer(&rt)?;
    let mut names = env::args(&rt)?;
    let _ = names.next();
    for name in names {
        play(&rt, name.as_str())?;
    }
    Ok(())
}

/// Shows that a buffer one byte too short is refused, and that the line is then not heard.
fn short_buffer(rt: &HostRuntime) -> io::Result<()> {
    let mut session = Session::new();
    let mut answer = [0; ANSWER_ROOM];
    match session.hear(b"tone 0.000", &mut answer[..ANSWER_ROOM - 1]) {
        Ok(end) => println!(rt; "short buffer: {end} bytes")?,
        Err(refusal) => println!(rt; "short buffer: {refusal}")?,
    }
    print!(rt; "settle 1: ")?;
    answered(&mut rt.stdout(), &mut session, b"settle 1")
}

/// Plays the session in the file: each line, and below it the answer.
fn play(rt: &HostRuntime, name: &str) -> io::Result<()> {
    println!(rt; "== {name}")?;
    let mut output = BufWriter::new(rt.alloc(), rt.stdout())?;
    let mut session = Session::new();
    for line in BufReader::new(rt.alloc(), File::open(rt, name)?)?.split(rt.alloc(), b'\n') {
        let line = line?;
        output.write_all(b"> ")?;
        output.write_all(line.as_slice())?;
        output.write_all(b"\n")?;
        // the line is shown before it is heard, since a settling may take long
        output.flush()?;
        answered(&mut output, &mut session, line.as_slice())?;
        output.flush()?;
    }
    Ok(())
}

/// Writes the answer to a line.
fn answered<W: Write>(output: &mut W, session: &mut Session, line: &[u8]) -> io::Result<()> {
    let mut answer = [0; ANSWER_ROOM];
    match session.hear(line, &mut answer) {
        Ok(end) => output.write_all(&answer[..end]),
        Err(refusal) => writeln!(output, "{refusal}"),
    }
}
