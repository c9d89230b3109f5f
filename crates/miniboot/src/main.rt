//! `miniboot`: the program over the system's files, its standard output and a simulated board.
//!
//! This crate owns nothing but the edge: it takes the words of the command line without the program's name, and hands
//! them to `mb_top` with the host and the board.
#![tactic(auto)]

use mb_board::SimBoard;
use mb_files::RealHost;
use mb_top::{NoWords, program};
use std::process::ExitCode;
use std::rt::Env;
use std::{env, io};

fn main(rt: HostRuntime) -> ExitCode {
    let words = words(&rt);
    let mut host = RealHost::new(&rt);
    let mut board = SimBoard::new(rt.alloc());
    ExitCode::from(program(rt.alloc(), words, &mut host, &mut board))
}

/// The words of the command line, without the program's name.
fn words<R: Env + AllocGlobal>(rt: &R) -> Result<Vec<String>, NoWords> {
    match collected(rt) {
        Ok(words) => Ok(words),
        Err(error) if matches!(error.kind(), io::ErrorKind::OutOfMemory) => Err(NoWords::NoMemory),
        Err(_) => Err(NoWords::NotText),
    }
}

/// The words as the system gives them.
fn collected<R: Env + AllocGlobal>(rt: &R) -> io::Result<Vec<String>> {
    let mut words = Vec::new(rt.alloc());
    for word in env::args(rt)?.skip(1) {
        words.push(word)?;
    }
    Ok(words)
}
