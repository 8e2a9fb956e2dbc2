//! One call of the engine in the world.
ghost use Rattle.std.specs.Prelude.{◌≡◌, ◌<◌, ◌≤◌, false, length, drop, Some, None, IsSome, is_some, IfSome, OnOk, OnErr, if◌then◌else◌};
ghost use Rattle.pmem_base.specs.declared.answers.Answer.TheVariants as Say;
ghost use Rattle.pmem_base.specs.Geo.{shape_of};
ghost use Rattle.pmem_base.specs.Layout.{data_lines};
ghost use Rattle.pmem_base.specs.WaitingWrites.{queues_after_loss};
ghost use Rattle.seal_ledger.specs.Notes.{HasRoom};
ghost use Rattle.seal_ledger.specs.View.{ledger_of};
ghost use Rattle.pmem_engine.specs.Outcomes.{is_sealed_by};
ghost use Rattle.access_log.specs.Traced.{GoesOn};
ghost use Rattle.pmem_replay.specs.EngineCalls.{HasCalledEngine, CanStop, IsFaultAnswered, cut_answer};
ghost use Rattle.pmem_replay.specs.Flagged.{healed};
ghost use Rattle.pmem_replay.specs.Given.{HasMarkRoom};
ghost use Rattle.pmem_replay.specs.World.{IsWorld, setup_of_world};

use crate::World;
use crate::calls::{self, Call};
use crate::tampered::Tampered;
use access_log::AccessLog;
use pmem_base::{Answer, Exhibit, Geo, Mark, MemFault, Place};
use pmem_engine::{Engine, Fault};
use seal_ledger::{Audit, Ledger};
use suite::Counted;
use watched_call::CallEnd;
use write_ports::Ports;

impl<S: Counted + Drop> World<S> {
    /// Makes a call of the engine, with power on. Its steps are counted, and what its marks leave dirty is noted. In a
    /// cut the engine is lost, and what waits in volatile queues; an exhibit ends the run. Its accesses of the board are logged.
    pub(crate) fn call<C: Call>(
        &mut self,
        call: &C,
        log: &mut AccessLog,
    ) -> CallEnd<Result<C::Value, Fault>>
        requires shown { self.old.shown ≡ false }
        requires on { IsSome self.old.engine }
        requires can { C.can call.now self.old.shape self.old.ledger self.old.capacity }
        requires within { IfSome (C.write call.now) (λ w. w.at < data_lines self.old.shape) }
        ensures called { HasCalledEngine (setup_of_world S.formulas_of self.old) (C.relation call.now) (C.write call.now) self.old result.taken result.answer self.new }
        ensures logged { GoesOn log.old self.old.board log.new self.new.board }
    {
        let Some(engine) = &mut self.engine else {
            unreachable!()
        };
        let from = self.ledger.marks().len();
        let done = calls::make(
            call,
            engine,
            &mut self.board,
            &mut self.suite,
            &mut self.ledger,
            log,
        );
        engine.has_banks();
        self.steps = self.steps.saturating_add(done.taken.steps());
        if calls::is_shown(&done.answer) {
            self.shown = true;
            return done;
        }
        self.dirtied.note_since(&self.geo, &self.ledger, from);
        heal(&mut self.tampered, &self.ledger, from, call.line());
        lose_if(
            &mut self.engine,
            &mut self.ports,
            &self.geo,
            calls::is_cut(&done.answer),
        );
        done
    }

    /// A law: until an answer was an exhibit, the world keeps its invariant, `IsWorld`.
    pub(crate) fn holds(&self)
        requires { self.now.shown ≡ false }
        ensures { IsWorld (setup_of_world S.formulas_of self.now) self.now }
    {
        let _ = &self.shown;
    }

    /// Whether power is on.
    pub(crate) fn is_on(&self) -> bool
        ensures { result ≡ is_some self.now.engine }
    {
        self.engine.is_some()
    }

    /// Makes room for `more` marks.
    pub(crate) fn make_room(&mut self, more: u32) -> Result<(), MemFault>
        requires { self.old.shown ≡ false }
        ensures ok { OnOk result (HasMarkRoom (setup_of_world S.formulas_of self.old) self.old more self.new) }
        ensures err { OnErr result (self.new ≡ self.old) }
        ensures wanting { OnErr result (HasRoom self.old.ledger self.old.capacity more → ⊥) }
        ensures some { OnErr result (0 < more) }
    {
        self.ledger.reserve(more)?;
        Ok(())
    }

    /// What a fault answers, after this number of steps. For a write it says whether the line was put.
    pub(crate) fn stopped(&self, fault: Fault, put: Option<bool>, steps: u64) -> Answer
        requires { CanStop self.now.ledger.exhibit fault }
        ensures { IsFaultAnswered self.now.ledger.exhibit put fault steps result }
    {
        match fault {
            Fault::Cut => cut(put, steps),
            Fault::Meta { x } => refused(Place::Meta { x }, steps),
            Fault::Tag { at } => refused(Place::Line { at }, steps),
            Fault::Spent { page } => Answer::Spent {
                drained: None,
                page,
                steps,
            },
            Fault::Shown => Answer::Shown(exhibit_of(&self.ledger)),
            Fault::Down => unreachable!(),
        }
    }
}

/// A cut is answered by whether a write was put.
fn cut(put: Option<bool>, steps: u64) -> Answer
    ensures { result ≡ cut_answer put steps }
{
    match put {
        None => Answer::Cut { steps },
        Some(true) => Answer::CutKept {
            drained: None,
            steps,
        },
        Some(false) => Answer::CutLost {
            drained: None,
            steps,
        },
    }
}

/// A place is refused.
fn refused(place: Place, steps: u64) -> Answer
    ensures { result ≡ Say.Refused None place steps }
{
    Answer::Refused {
        drained: None,
        place,
        steps,
    }
}

/// The exhibit that the ledger has.
fn exhibit_of(ledger: &Ledger) -> Exhibit
    requires { IsSome (ledger_of ledger.now).exhibit }
    ensures { (ledger_of ledger.now).exhibit ≡ Some result }
{
    match ledger.exhibit() {
        Some(exhibit) => *exhibit,
        None => unreachable!(),
    }
}

/// The written line is healed if a mark from the `from`-th on seals it.
fn heal(tampered: &mut Tampered, ledger: &Ledger, from: usize, line: Option<u32>)
    requires from { from ≤ length (ledger_of ledger.now).marks }
    requires hurt { IfSome line (λ at. at < length tampered.old.hurt) }
    requires spoiled { IfSome line (λ at. at < length tampered.old.spoiled) }
    ensures { tampered.new ≡ healed line (drop from (ledger_of ledger.now).marks) tampered.old }
{
    if let Some(at) = line {
        if is_sealed_since(ledger, from, at) {
            tampered.heal(at);
        }
    }
}

/// In a cut the engine is lost, and what waits in volatile queues.
fn lose_if(engine: &mut Option<Engine>, ports: &mut Ports, geo: &Geo, cut: bool)
    ensures engine { engine.new ≡ (if cut then None else engine.old) }
    ensures ports { ports.new
        ≡ (if cut then queues_after_loss (shape_of geo.now).durable ports.old else ports.old) }
{
    if cut {
        *engine = None;
        ports.lose_power(geo.is_durable());
    }
}

/// Whether any mark of the ledger from the `from`-th on seals data line `at`.
pub(crate) fn is_sealed_since(ledger: &Ledger, from: usize, at: u32) -> bool
    requires { from ≤ length (ledger_of ledger.now).marks }
    ensures { result ≡ is_sealed_by (drop from (ledger_of ledger.now).marks) at }
{
    is_sealed(&ledger.marks()[from..], at)
}

/// Whether any of these marks seals data line `at`.
fn is_sealed(marks: &[Mark], at: u32) -> bool
    ensures { result ≡ is_sealed_by marks.now at }
{
    marks.iter().any(|mark| match mark {
        Mark::Seal { at: sealed, .. } => *sealed == at,
        Mark::Begin { .. } => false,
    })
}
