// Reads a script from standard input, rehearses it over two row lines and the sum check, and prints what came of each
// step, or why the script was refused.
#![tactic(auto)]

use anyhow::anyhow;
use block_check::Check;
use checks::sum::SumCheck;
use journal::carry::Run;
use line::Line;
use refusal::Failure;
use rehearsal::rehearse::rehearse;
use rehearsal::row::Rows;
use row_line::RowLine;
use std::alloc::Global;
use std::io::{BufWriter, Read, Write};

fn row_line(heap: Global) -> anyhow::Result<RowLine> {
    RowLine::new(vec![in heap; row_line::Row::blank(); 16]?).map_err(|_| anyhow!("no line"))
}

fn print<A: Line, B: Line, K: Check>(
    rt: &HostRuntime,
    script: &[u8],
    run: &Run<A, B, K>,
) -> anyhow::Result<()> {
    let mut out = BufWriter::new(rt.alloc(), rt.stdout())?;
    for row in Rows::new(script, &run.journal) {
        writeln!(out, "{row}")?;
    }
    out.flush()?;
    Ok(())
}

fn main(rt: HostRuntime) -> anyhow::Result<()> {
    // One byte more than the longest script has, which is enough to refuse a longer one.
    let mut script = Vec::new(rt.alloc());
    rt.stdin().take(50_007).read_to_end(&mut script)?;
    let lines = (row_line(rt.alloc())?, row_line(rt.alloc())?);
    match rehearse(rt.alloc(), script.as_slice(), lines, SumCheck) {
        Ok(run) => print(&rt, script.as_slice(), &run),
        Err(Failure::Refused(why)) => Ok(println!(rt; "refused {}", why.number())?),
        Err(Failure::OutOfMemory(e)) => Err(e.into()),
    }
}
