//! The session that a task of the program begins with.
ghost use Rattle.std.specs.Prelude.{◌≡◌, ◌≢◌, IfOk, Err};
ghost use Rattle.any_suite.specs.Kinds.{any_keys, any_counts};
ghost use Rattle.pmem_cli.specs.Words.{AreChosen, HasChosen};
ghost use Rattle.pmem_cli.specs.declared.options.Task.TheVariants.{Wear, Txn, Tree};
ghost use Rattle.any_session.specs.Opened.{IsOpened, IsRunOpened, IsSession, keys_chosen};
ghost use Rattle.any_session.specs.declared.opening.Unopened.TheVariants.{NoSession};

use crate::kinds::AnySession;
use crate::talks::TalkSession;
use crate::world::WorldSession;
use any_suite::AnySuite;
use pmem_base::MemFault;
use pmem_cli::{Choices, SuiteName, Task};
use pmem_replay::World;
use std::alloc::Global;
use tree_session::TreeWorld;
use txn_session::TxnWorld;
use wear_session::WearWorld;

/// Why a task opens no session.
#[derive(Clone, Copy, Debug, PartialEq, Eq)]
pub enum Unopened {
    /// It isn't a run or a session.
    NoSession,
    /// There was no memory for it.
    NoMemory,
}

/// The chosen suite under the chosen keys.
fn chosen_suite(choices: &Choices) -> AnySuite
    requires { AreChosen choices.now }
    ensures keys { any_keys result ≡ keys_chosen choices.now }
    ensures unused { any_counts result ≡ (0, 0, 0) }
{
    match choices.suite_name() {
        SuiteName::Aes => AnySuite::Aes(choices.aes_suite()),
        SuiteName::Weak => AnySuite::Weak(choices.weak_suite(false)),
        SuiteName::Blur => AnySuite::Weak(choices.weak_suite(true)),
    }
}

/// A new world, as `run` begins with it, with its log or without.
fn new_run(alloc: Global, choices: &Choices, logged: bool) -> Result<AnySession, Unopened>
    requires { AreChosen choices.now }
    ensures opened { IfOk result (IsRunOpened choices.now logged) }
    ensures none { result ≢ Err NoSession }
{
    match World::new(alloc, choices.geometry(), chosen_suite(choices)) {
        Ok(world) => Ok(AnySession::Run(WorldSession::new(world, logged))),
        Err(MemFault) => Err(Unopened::NoMemory),
    }
}

/// A new levelled memory, as `wear` begins with it.
fn new_wear(alloc: Global, choices: &Choices) -> Result<AnySession, Unopened>
    requires { AreChosen choices.now }
    ensures opened { IfOk result (IsOpened (Wear choices.now)) }
    ensures none { result ≢ Err NoSession }
{
    let suite = chosen_suite(choices);
    match WearWorld::new(alloc, choices.geometry(), suite, choices.every()) {
        Ok(world) => Ok(AnySession::Wear(TalkSession::new(world, choices.log))),
        Err(MemFault) => Err(Unopened::NoMemory),
    }
}

/// A new memory that is written by transactions, as `txn` begins with it.
fn new_txn(alloc: Global, choices: &Choices) -> Result<AnySession, Unopened>
    requires { AreChosen choices.now }
    ensures opened { IfOk result (IsOpened (Txn choices.now)) }
    ensures none { result ≢ Err NoSession }
{
    match TxnWorld::new(alloc, choices.geometry(), chosen_suite(choices)) {
        Ok(world) => Ok(AnySession::Txn(TalkSession::new(world, choices.log))),
        Err(MemFault) => Err(Unopened::NoMemory),
    }
}

/// A new memory over a counter tree, as `tree` begins with it. Its watch has its own suite.
fn new_tree(alloc: Global, choices: &Choices) -> Result<AnySession, Unopened>
    requires { AreChosen choices.now }
    ensures opened { IfOk result (IsOpened (Tree choices.now)) }
    ensures none { result ≢ Err NoSession }
{
    let suite = chosen_suite(choices);
    match TreeWorld::new(alloc, choices.geometry(), suite, chosen_suite(choices)) {
        Ok(world) => Ok(AnySession::Tree(TalkSession::new(world, choices.log))),
        Err(MemFault) => Err(Unopened::NoMemory),
    }
}

impl AnySession {
    /// The session that the program begins with for a task, on which nothing was done. Errors: `NoSession` only if the
    /// task isn't a run or a session; `NoMemory`.
    pub fn open(alloc: Global, task: Task) -> Result<AnySession, Unopened>
        requires { HasChosen task }
        ensures opened { IfOk result (IsOpened task) }
        ensures none { result ≡ Err NoSession → ¬ IsSession task }
    {
        match task {
            Task::Run(choices) => new_run(alloc, &choices, false),
            Task::Log(choices) => new_run(alloc, &choices, true),
            Task::Wear(choices) => new_wear(alloc, &choices),
            Task::Txn(choices) => new_txn(alloc, &choices),
            Task::Tree(choices) => new_tree(alloc, &choices),
            Task::Make { .. } => Err(Unopened::NoSession),
            Task::Sample { .. } => Err(Unopened::NoSession),
            Task::Check(_) => Err(Unopened::NoSession),
        }
    }
}
