//! The program `pmem`: its words, standard input and standard output, and nothing else.
#![tactic(auto)]

ghost use Rattle.std.specs.Prelude.{◌≡◌, ◌⊎◌, drop, map, string_bytes, IfOk};
ghost use Rattle.std.specs.Vec.Iter.{into_iter_items};
ghost use Rattle.pmem_cli.specs.Determined.{call_over, IsCallWith, IsByMachine};
ghost use Rattle.pmem_cli.specs.Wholes.{ForEachWhole, left_in};

use pmem_cli::{Sink, Source, StdSink, StdSource, run};
use std::alloc::{AllocError, Global};
use std::env;
use std::env::Args;
use std::process::ExitCode;

/// The arguments of the command line in order, without the program's name. Errors: running out of memory for them.
fn command_words(alloc: Global, args: Args) -> Result<Vec<String>, AllocError>
    ensures { IfOk result (λ words. words.items ≡ drop 1 (into_iter_items args)) }
{
    let mut words = Vec::new(alloc);
    let mut left = args;
    let _name = left.next();
    for word in left {
        words.push(word)?;
    }
    Ok(words)
}

/// Runs the program of these words, the first of which is its name, over the two streams, and hands its status on. Where
/// there is no memory for the words the status is 1, and nothing is pulled or put.
fn program<S: Source, K: Sink>(alloc: Global, args: Args, trace: &mut S, out: &mut K) -> u8
    ensures { ((result ≡ 1) × (trace.new ≡ trace.old) × (out.new ≡ out.old))
        ⊎ ForEachWhole (S.known trace.new) (λ whole. IsCallWith (map string_bytes (drop 1 (into_iter_items args)))
        (call_over result (left_in S.known whole) S.faults trace.old trace.new K.put K.faults out.old out.new)
        × IsByMachine (map string_bytes (drop 1 (into_iter_items args)))
        (call_over result (left_in S.known whole) S.faults trace.old trace.new K.put K.faults out.old out.new)) }
{
    match command_words(alloc, args) {
        Ok(words) => run(alloc, words.as_slice(), trace, out),
        Err(_) => 1,
    }
}

/// Ends with the status of the run, or with 1 if memory for the arguments runs out.
fn main(rt: HostRuntime) -> ExitCode {
    let Ok(args) = env::args(&rt) else {
        return ExitCode::from(1);
    };
    let mut trace = StdSource::new(rt.stdin());
    let mut out = StdSink::new(rt.stdout());
    ExitCode::from(program(rt.alloc(), args, &mut trace, &mut out))
}
