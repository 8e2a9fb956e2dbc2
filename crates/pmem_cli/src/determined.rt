//! That the contract of a run leaves nothing open.
ghost use Rattle.pmem_cli.specs.Determined.{RunIsDetermined, DisturbedRunIsFront, HasWhole, ExposesWhole, ToldIsLeft};

/// A law: for the same arguments and the same trace, the clauses `call` and `machine` of `run` allow one text and one
/// status, whatever the arguments ask for. It holds for calls over a source and a sink that expose their bytes, in
/// which no pull and no push failed and the status isn't 1 (out of memory). How far the source was read ahead is left
/// open.
pub fn run_is_determined()
    ensures { RunIsDetermined }
{}

/// A law: of two calls for the same arguments and the same trace, the second of which nothing disturbed, the first puts
/// a prefix of what the second puts, and then maybe the line of the stop that broke it off: of a failed pull, with
/// status 3, or of running out of memory, with status 1. If a push failed too, that line may be cut, with status 4.
pub fn disturbed_run_is_a_prefix()
    ensures { DisturbedRunIsFront }
{}

/// A law: there always is a list that may be all bytes of a source. If the source exposes what it has left, that is what
/// is left of one such list. So the clauses of a call, among them `call` and `machine` of `run`, hold of what the source
/// exposed before the call and exposes after it.
pub fn told_is_left()
    ensures some { HasWhole }
    ensures whole { ExposesWhole }
    ensures told { ToldIsLeft }
{}
