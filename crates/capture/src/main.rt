// Reads a line capture from standard input and takes it apart, block by block.
#![tactic(auto)]

use block_check::Check;
use checks::long::LongCheck;
use checks::sum::SumCheck;
use std::env;
use std::io::{BufWriter, Read, Write};
use survey::item::Item;
use survey::pass::survey;
use survey::tally::Tally;

// The check that the blocks of the capture carry.
#[derive(Clone, Copy)]
enum Choice {
    Sum,
    Long,
}

// One argument at most: the check, the sum where none is given.
fn chosen(rt: &HostRuntime) -> anyhow::Result<Option<Choice>> {
    let mut args = env::args(rt)?;
    let _program = args.next();
    let Some(word) = args.next() else {
        return Ok(Some(Choice::Sum));
    };
    if args.next().is_some() {
        return Ok(None);
    }
    // `FromStr` would be no plainer: it wants an error type, and nobody would read the error.
    Ok(match word.as_str() {
        "sum" => Some(Choice::Sum),
        "long" => Some(Choice::Long),
        _ => None,
    })
}

fn print<K: Check>(rt: &HostRuntime, capture: &[u8]) -> anyhow::Result<()> {
    let items: Vec<Item> = survey::<K>(rt.alloc(), capture)?;
    let mut out = BufWriter::new(rt.alloc(), rt.stdout())?;
    for item in &items {
        writeln!(out, "{item}")?;
    }
    let tally = Tally::of(items.as_slice());
    writeln!(out, "{tally}")?;
    out.flush()?;
    Ok(())
}

fn main(rt: HostRuntime) -> anyhow::Result<()> {
    let Some(choice) = chosen(&rt)? else {
        println!(rt; "usage: capture [sum|long] < CAPTURE")?;
        return Ok(());
    };
    let mut capture = Vec::new(rt.alloc());
    rt.stdin().read_to_end(&mut capture)?;
    // The argument chooses a type, so a closure would be no plainer: it would be called in two arms as well.
    match choice {
        Choice::Sum => print::<SumCheck>(&rt, capture.as_slice()),
        Choice::Long => print::<LongCheck>(&rt, capture.as_slice()),
    }
}
