// Plays somebody else: an end and a layer that the library does not know, written against its public
// interface alone, in a rack with a divider under a memo and a quota.
#![tactic(auto)]

mod counted;
mod sealed;

use counted::Counted;
use ends::Divider;
use faults::Fault;
use layers::{Beside, Memo, One, Quota};
use sealed::Sealed;
use source::{ANSWER_ROOM, Rack, Row};

// Calls a source of the rack with one input, and prints the call and its outcome.
fn ask<R: Rack>(rt: &impl Print, rack: &mut R, source: usize, input: u32) -> anyhow::Result<()> {
    let mut memory = [0; ANSWER_ROOM];
    println!(rt; "call {source} {input}")?;
    match rack.call(source, &[input], &mut memory) {
        Ok(count) => {
            let columns = rack.marks(source).map_or(0, |marks| marks.len());
            if columns > 0 {
                for row in memory.chunks(columns).take(count) {
                    println!(rt; "  row{}", Row(row))?;
                }
            }
        }
        Err(fault) => {
            let Fault {
                refusal,
                layer,
                source,
                ..
            } = fault;
            println!(rt; "  {refusal} layer {layer} source {source}")?;
        }
    }
    Ok(())
}

fn run(rt: &HostRuntime) -> anyhow::Result<()> {
    let memo = Memo::new(rt.alloc(), Quota::new(Divider::new(1000)?, 1))?;
    let mut rack = Beside(Counted::new(Sealed::new(7, 70, 8)), One(memo));
    println!(rt; "sources {}", rack.count())?;
    ask(rt, &mut rack, 0, 7)?;
    ask(rt, &mut rack, 0, 8)?;
    ask(rt, &mut rack, 0, 9)?;
    ask(rt, &mut rack, 1, 2001007)?;
    ask(rt, &mut rack, 1, 2001007)?;
    ask(rt, &mut rack, 1, 2001008)?;
    ask(rt, &mut rack, 2, 1)?;
    println!(rt; "counted {}", rack.0.calls())?;
    Ok(())
}

fn main(rt: HostRuntime) -> anyhow::Result<()> {
    run(&rt)
}
