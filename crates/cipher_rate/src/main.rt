//! The program `cipher_rate`: computes a number of compressions of SHA-256 or of blocks of AES-128, and prints the
//! result, so that `tools/bench` can take the time.
#![tactic(auto)]

#[cfg(test)]
mod tests;
mod work;

use std::process::ExitCode;
use std::{env, io};
use work::{made, read_work};

/// The words of the command line, without the program's name.
fn command_words(rt: &HostRuntime) -> io::Result<Vec<String>> {
    let mut words = Vec::new(rt.alloc());
    for word in env::args(rt)?.skip(1) {
        words.push(word)?;
    }
    Ok(words)
}

/// Ends with status 2 if the arguments ask for nothing, and with 1 if memory or standard output fails.
fn main(rt: HostRuntime) -> ExitCode {
    let Ok(words) = command_words(&rt) else {
        return ExitCode::from(1);
    };
    let Some(work) = read_work(words.as_slice()) else {
        return ExitCode::from(2);
    };
    let Ok(text) = hex::encode(rt.alloc(), made(work)) else {
        return ExitCode::from(1);
    };
    match println!(rt; "{text}") {
        Ok(()) => ExitCode::SUCCESS,
        Err(_) => ExitCode::from(1),
    }
}
