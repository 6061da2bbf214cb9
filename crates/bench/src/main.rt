//! The bench on standard input and output: a session in lines, and the answer to each as it comes.
#![tactic(auto)]

use session::session::ANSWER_ROOM;
use session::transcript::Transcript;
use std::io::{BufWriter, Read, Write};
use std::{env, io};

/// What `bench --help` prints.
const HELP: &str = "bench: turns a tempered scale into one of whole-number ratios

It reads commands from standard input, one a line, and answers each as it comes.

  tone C       a new tone at C cents, as 386.314 or -0.500
  try T N/D    the ratio N/D is one candidate more for tone T
  strike T K   candidate K of tone T is taken out
  bound T U B  tones T and U may be at most B apart, either way round
  level B      every two tones may be at most B apart, those to come too
  settle A     the best scale is asked for, in at most A trials

Tones and candidates are numbered from 0 in the order of entry. Distances
are Barlow's, in units of 1/30030; a scale costs the sum of its distances.

Answers:

  ok                    it is entered
  scale COST TRIALS     the best scale; then, for each tone, RATIO OFFSET:
                        its ratio, and how many cents that is from the tone
  no LAYER NUMBER COLUMN   refused, and nothing is changed; the manual page
                        bench(1) has the numbers. no search 26 1 says that no
                        choice of candidates keeps the bounds.";

fn main(rt: HostRuntime) -> io::Result<()> {
    let mut words = env::args(&rt)?;
    let _ = words.next();
    match words.next() {
        None => converse(&rt),
        Some(word) => explain(&rt, word.as_str()),
    }
}

/// Hears the session on standard input. What one read brings is answered before the next.
fn converse(rt: &HostRuntime) -> io::Result<()> {
    let mut input = rt.stdin();
    let mut output = BufWriter::new(rt.alloc(), rt.stdout())?;
    let mut transcript = Transcript::new();
    let mut answer = [0; ANSWER_ROOM];
    let mut chunk = [0; 4096];
    // nothing says that an input ends, so the turns are counted
    // stays (speed): by bytes() 100,000 writes, 50 ms; by reads 350, 13 ms; one loop for both programs needs a public requires
    for _ in 0..u64::MAX {
        let count = input.read(&mut chunk)?;
        if count == 0 {
            break;
        }
        for byte in &chunk[..count] {
            let end = transcript.hear(*byte, &mut answer);
            if end > 0 {
                output.write_all(&answer[..end])?;
            }
        }
        output.flush()?;
    }
    let end = transcript.finish(&mut answer);
    output.write_all(&answer[..end])?;
    output.flush()
}

/// Prints the help that was asked for; for any other word, how the program is used.
fn explain(rt: &HostRuntime, word: &str) -> io::Result<()> {
    if word == "--help" {
        return println!(rt; "{HELP}");
    }
    eprintln!(rt; "bench: it takes no argument but --help; a session comes on standard input")?;
    Err(io::Error::from(io::ErrorKind::InvalidInput))
}
