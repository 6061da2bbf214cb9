//! Prints what ratios are worth: one ratio word a line in, one answer a line out.
#![tactic(auto)]

use interval::table::Table;
use std::io;
use std::io::Read;

fn main(rt: HostRuntime) -> io::Result<()> {
    let mut input = rt.stdin();
    let mut table = Table::new();
    let mut chunk = [0; 4096];
    // nothing says that an input ends, so the turns are counted
    // stays (rule): bytes() of a BufReader needs the heap: 7 axioms, not 4; one loop for both programs needs a public requires
    for _ in 0..u64::MAX {
        let count = input.read(&mut chunk)?;
        if count == 0 {
            break;
        }
        for byte in &chunk[0..count] {
            if let Some(answer) = table.hear(*byte) {
                println!(rt; "{answer}")?;
            }
        }
    }
    if let Some(answer) = table.finish() {
        println!(rt; "{answer}")?;
    }
    Ok(())
}
