//! The jobs that users wait for, each on inputs that are drawn by a seed. What is printed is a digest of all that they answer.
//!
//!     dine_benchmark WORKLOAD LINES SEED
//!
//! LINES is about how many lines, or calls, each input of the workload has.
#![tactic(auto)]

mod broker;
mod commands;
mod crowd;
mod digest;
mod dinners;
mod graph;
mod inputs;
mod job;
mod looks;
mod scheduler;
mod scripts;
mod threads;

use crate::digest::Digest;
use crate::inputs::Asked;
use crate::job::Machine;
use std::alloc::AllocError;
use std::process::ExitCode;
use std::{env, io};

// Does the jobs of a workload, or those of all.
fn digest_of(rt: &impl Machine, workload: &str, asked: Asked) -> Result<Digest, AllocError> {
    let mut digest = Digest::new();
    let is_all = workload == "all";
    if is_all || workload == "scheduler" {
        scheduler::run(rt.alloc(), asked, &mut digest)?;
    }
    if is_all || workload == "broker" {
        broker::run(rt, asked, &mut digest)?;
    }
    if is_all || workload == "scripts" {
        scripts::run(rt, asked, &mut digest)?;
    }
    if is_all || workload == "looks" {
        looks::run(rt, asked, &mut digest)?;
    }
    if is_all || workload == "threads" {
        threads::run(rt, asked, &mut digest)?;
    }
    if is_all || workload == "crowd" {
        crowd::run(rt, asked, &mut digest)?;
    }
    Ok(digest)
}

fn main(rt: HostRuntime) -> io::Result<ExitCode> {
    let words: Vec<String> = env::args(&rt)?.collect(rt.alloc())?;
    let [_, workload, lines, seed] = words.as_slice() else {
        println!(rt; "dine_benchmark WORKLOAD LINES SEED")?;
        return Ok(ExitCode::from(2));
    };
    let (Ok(lines), Ok(seed)) = (lines.parse::<usize>(), seed.parse::<u64>()) else {
        println!(rt; "LINES and SEED are numbers")?;
        return Ok(ExitCode::from(2));
    };
    let digest = digest_of(&rt, workload.as_str(), Asked { lines, seed })?;
    println!(rt;
        "{workload} {} answers of {} bytes, digest {:016x}",
        digest.answers, digest.bytes, digest.state
    )?;
    Ok(ExitCode::from(0))
}
