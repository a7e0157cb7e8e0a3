//! The program `bench_tables`: makes the calls that the lines of standard input name, and prints
//! their results. Tests count the allocations of a call, or let one of them fail.
#![tactic(auto)]

mod refusals;
mod shape;
mod shared;
mod work;

use std::io::Read;
use std::process::ExitCode;
use std::sync::Wait;
use std::thread::Threads;

// A runtime for the calls that start threads.
trait Host: Threads + Wait + Print + AllocGlobal + Sync {}

impl<R: Threads + Wait + Print + AllocGlobal + Sync> Host for R {}

// Returns the first 64 bytes of standard input as a text.
fn text_of<'a, I: Read>(reader: &mut I, bytes: &'a mut [u8; 64]) -> Option<&'a str> {
    let n = reader.read(bytes).ok()?;
    std::str::from_utf8(&bytes[..n]).ok()
}

fn main(rt: HostRuntime) -> ExitCode {
    let mut bytes = [0u8; 64];
    let Some(text) = text_of(&mut rt.reader(), &mut bytes) else {
        return ExitCode::FAILURE;
    };
    refusals::play(&rt, text);
    ExitCode::SUCCESS
}
