// Follows one question over a cabinet's sources to its end, and prints a record of it: which notices
// apply to pack 1007?
#![tactic(auto)]

mod texts;

use anyhow::anyhow;
use ends::{Divider, Register};
use faults::Fault;
use layers::{Memo, Quota};
use source::{ANSWER_ROOM, Row, Source};
use std::collections::BTreeSet;
use std::fs;
use std::rt::Files;
use texts::show_order;

// The pack whose notices are asked for.
const PACK: u32 = 1007;

// What the numbers of modules are divided by to give their batches.
const MODULES_IN_BATCH: u32 = 1000;

// The refusal as an error of the program.
fn refused(what: &str, fault: Fault) -> anyhow::Error {
    anyhow!("{what}: {}", fault.refusal)
}

// A register filled from a file, with a line of the record.
fn open(rt: &(impl Files + Print + AllocGlobal), path: &str) -> anyhow::Result<Register> {
    let bytes = fs::read(rt, path)?;
    let mut register = Register::new();
    register.open(&bytes).map_err(|fault| refused(path, fault))?;
    println!(rt; "register {path}:{}", Row(register.marks()))?;
    Ok(register)
}

// Calls a source with one input, prints the call and its rows, and collects what stands in one of the
// columns.
fn follow<S: Source>(
    rt: &(impl Print + AllocGlobal),
    name: &str,
    source: &mut S,
    input: u32,
    column: usize,
) -> anyhow::Result<Vec<u32>> {
    let mut memory = [0; ANSWER_ROOM];
    println!(rt; "call {name} {input}")?;
    let count = source
        .call(&[input], &mut memory)
        .map_err(|fault| refused(name, fault))?;
    let mut found = Vec::new(rt.alloc());
    for row in memory.chunks(source.marks().len()).take(count) {
        println!(rt; "  row{}", Row(row))?;
        if let Some(value) = row.get(column) {
            found.push(*value)?;
        }
    }
    Ok(found)
}

// The refusal of a damaged file, with its number and place.
fn show_damaged(rt: &(impl Files + Print + AllocGlobal), path: &str) -> anyhow::Result<()> {
    let bytes = fs::read(rt, path)?;
    let Err(fault) = Register::new().open(&bytes) else {
        return Err(anyhow!("a damaged file was opened"));
    };
    println!(rt;
        "register {path}: {} at byte {}",
        fault.refusal, fault.detail
    )?;
    Ok(())
}

// Calls a source with one input, and prints how the call ended.
fn ask<S: Source>(rt: &impl Print, name: &str, source: &mut S, input: u32) -> anyhow::Result<()> {
    let mut memory = [0; ANSWER_ROOM];
    print!(rt; "{name}: call {input}, ")?;
    match source.call(&[input], &mut memory) {
        Ok(count) => println!(rt; "rows {count}")?,
        Err(fault) => println!(rt; "{} at layer {}", fault.refusal, fault.layer)?,
    }
    Ok(())
}

// The recall register under two piles of the same two layers: the memo spares the quota below it, and
// not the one above it.
fn show_piles(rt: &HostRuntime) -> anyhow::Result<()> {
    let below = open(rt, "recall.reg")?;
    let mut spared = Memo::new(rt.alloc(), Quota::new(below, 1))?;
    ask(rt, "memo over quota 1", &mut spared, 2001)?;
    ask(rt, "memo over quota 1", &mut spared, 2001)?;
    let below = open(rt, "recall.reg")?;
    let mut spent = Quota::new(Memo::new(rt.alloc(), below)?, 1);
    ask(rt, "quota 1 over memo", &mut spent, 2001)?;
    ask(rt, "quota 1 over memo", &mut spent, 2001)
}

// Follows the pack to its modules, their batches and the notices of these, and prints the notices.
fn follow_pack(rt: &HostRuntime) -> anyhow::Result<()> {
    let mut packs = open(rt, "pack.reg")?;
    let mut recalls = open(rt, "recall.reg")?;
    let mut batches = Divider::new(MODULES_IN_BATCH).map_err(|fault| refused("divider", fault))?;
    println!(rt; "divider {MODULES_IN_BATCH}: b f f")?;
    let mut notices = BTreeSet::new(rt.alloc());
    for module in follow(rt, "pack", &mut packs, PACK, 1)? {
        for batch in follow(rt, "batch", &mut batches, module, 1)? {
            for notice in follow(rt, "recall", &mut recalls, batch, 1)? {
                notices.insert(notice)?;
            }
        }
    }
    print!(rt; "notices of pack {PACK}:")?;
    for notice in &notices {
        print!(rt; " {notice}")?;
    }
    println!(rt; "")?;
    Ok(())
}

fn run(rt: &HostRuntime) -> anyhow::Result<()> {
    show_order(rt, "catalogue.txt", "query.txt")?;
    show_order(rt, "catalogue.txt", "unbound.txt")?;
    show_order(rt, "catalogue.txt", "misspelt.txt")?;
    follow_pack(rt)?;
    show_piles(rt)?;
    show_damaged(rt, "damaged.reg")
}

fn main(rt: HostRuntime) -> anyhow::Result<()> {
    run(&rt)
}
