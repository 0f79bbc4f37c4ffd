//! The program: it hands its words and streams to [`tool`], and ends with its status.
//!
//! - First call: `main`.
//! - Caller: the shell, by `./kroft`.
//!
//! Words that aren't UTF-8 end it with status 2, and want of memory with 5, before anything is read.
//! A write is tried once: behind a failed one nothing is written.
#![tactic(auto)]

use kroft_command::{OneTryWriter, tool};
use std::io::{BufWriter, Input, Print};
use std::process::ExitCode;
use std::rt::{Env, Files};
use std::thread::Threads;
use std::{env, io};

fn main(rt: HostRuntime) -> ExitCode {
    let status = match start(&rt, &rt.stderr()) {
        Ok(status) => status,
        Err(error) if error.kind() == io::ErrorKind::InvalidData => {
            let _told = eprintln!(rt; "error: a word of the command line is not UTF-8");
            2
        }
        Err(_) => {
            let _told = eprintln!(rt; "out of memory");
            5
        }
    };
    ExitCode::from(status)
}

// Runs the program over the process's words and streams. Behind a failed write nothing is written.
// Fails without readable words or without memory for them.
fn start<R: AllocGlobal + Env + Files + Input + Print + Threads + Sync, E: Print>(
    rt: &R,
    errors: &E,
) -> io::Result<u8> {
    let alloc = rt.alloc();
    let words: Vec<String> = env::args(rt)?.collect(alloc)?;
    let mut texts = Vec::new(alloc);
    for word in words.iter().skip(1) {
        texts.push(word.as_str())?;
    }
    let mut input = rt.reader();
    let mut output = BufWriter::new(alloc, OneTryWriter::new(io::writer(rt)))?;
    let mut errors = io::writer(errors);
    Ok(tool(rt, &texts, &mut input, &mut output, &mut errors))
}
