// Loads listings that are written in hexadecimal, one on a line, and prints what each is: its tasks, or the refusal.
#![tactic(auto)]

use listing::load::load;
use std::alloc::{AllocError, Global};
use tasks::model::Task;

// Small letters only: `to_digit` would take capital ones too.
fn digit(b: u8) -> Option<u8> {
    match b {
        b'0'..=b'9' => Some(b - b'0'),
        b'a'..=b'f' => Some(b - b'a' + 10),
        _ => None,
    }
}

// The bytes that pairs of digits write. What is no digit is passed over.
fn bytes_of(heap: Global, line: &[u8]) -> Result<Vec<u8>, AllocError> {
    let mut bytes = Vec::new(heap);
    let mut high = None;
    for low in line.iter().filter_map(|b| digit(*b)) {
        match high.take() {
            None => high = Some(low),
            Some(high) => bytes.push((high << 4) | low)?,
        }
    }
    Ok(bytes)
}

fn show_task(rt: &HostRuntime, task: &Task) -> anyhow::Result<()> {
    print!(rt;
        " task {} {} {}:",
        task.code(),
        task.period(),
        task.deadline()
    )?;
    for block in task.blocks() {
        print!(rt; " {}", block.cost)?;
    }
    for point in task.points() {
        print!(rt; " ({} {})", point.ticks(), point.charge())?;
    }
    Ok(())
}

fn show(rt: &HostRuntime, line: &[u8]) -> anyhow::Result<()> {
    let bytes = bytes_of(rt.alloc(), line)?;
    match load(rt.alloc(), bytes.as_slice()) {
        Ok(tasks) => {
            print!(rt; "tasks {}", tasks.len())?;
            for task in tasks.as_slice() {
                show_task(rt, task)?;
            }
            println!(rt)?;
        }
        Err(fault) => println!(rt; "{fault}")?,
    }
    Ok(())
}

fn run(rt: &HostRuntime) -> anyhow::Result<()> {
    for line in rt.lines(rt.alloc()) {
        show(rt, line?.as_bytes())?;
    }
    Ok(())
}

fn main(rt: HostRuntime) -> anyhow::Result<()> {
    run(&rt)
}
