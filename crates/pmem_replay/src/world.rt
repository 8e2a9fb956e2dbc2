//! The world behind a run: a device with its controller, the writes that wait, and the attacker.
ghost use Rattle.std.specs.Prelude.{◌≡◌, IfOk, false};
ghost use Rattle.pmem_base.specs.Geo.{shape_of};
ghost use Rattle.pmem_base.specs.Layout.{device_lines};
ghost use Rattle.board.specs.MemBoard.{memory_of};
ghost use Rattle.board.specs.Memory.{new_memory};
ghost use Rattle.seal_ledger.specs.Ledger.{IsOfShape, new_ledger};
ghost use Rattle.seal_ledger.specs.View.{ledger_of};
ghost use Rattle.pmem_replay.specs.Flagged.{no_tampering, no_dirtying};
ghost use Rattle.pmem_replay.specs.Stepped.{HasFormatWork, IsNewWorld, counts_with};

use crate::calls;
use crate::dirtied::Dirtied;
use crate::tampered::Tampered;
use board::MemBoard;
use pmem_base::{Answer, Geo, Mark, MemFault, Stat};
use pmem_engine::Engine;
use seal_ledger::Ledger;
use std::alloc::Global;
use std::marker::Model;
use suite::Counted;
use write_ports::Ports;

/// A command's answer, and the places at which its marks begin and end among all marks.
#[derive(Clone, Copy, Debug, PartialEq, Eq)]
pub struct Reply {
    pub from: usize,
    pub to: usize,
    pub answer: Answer,
}

/// A device with its snapshot, the engine while power is on, the suite, the writes that wait, the marks, and what else
/// the plain machine keeps.
#[derive(Drop)]
pub struct World<S: Counted + Drop> {
    pub(crate) geo: Geo,
    pub(crate) suite: S,
    pub(crate) board: MemBoard,
    pub(crate) ledger: Ledger,
    pub(crate) engine: Option<Engine>,
    pub(crate) ports: Ports,
    pub(crate) tampered: Tampered,
    pub(crate) dirtied: Dirtied,
    pub(crate) steps: u64,
    pub(crate) start: Stat,
    pub(crate) shown: bool,
}

impl<S: Counted + Drop> Model for World<S> {
    ghost use Rattle.std.specs.Prelude.{◌≡◌, false};
    ghost use Rattle.pmem_base.specs.Geo.{shape_of};
    ghost use Rattle.board.specs.MemBoard.{memory_of};
    ghost use Rattle.seal_ledger.specs.View.{capacity_of, ledger_of};
    ghost use Rattle.pmem_replay.specs.World.{WorldState, world_of, IsWorld};

    ghost Value = { WorldState };

    ghost view = { λ w. world_of (record { shape = shape_of w.geo; formulas = S.formulas_of (S.keys w.suite) })
        (record {
          keys = S.keys w.suite;
          board = memory_of w.board;
          ledger = ledger_of w.ledger;
          capacity = capacity_of w.ledger;
          engine = w.engine;
          tags = S.tags w.suite;
          digests = S.digests w.suite;
          queues = w.ports;
          tampering = w.tampered;
          dirtying = w.dirtied;
          steps = w.steps;
          start = w.start;
          shown = w.shown;
        }) };

    ghost invariant = { λ w. w.shown ≡ false → IsWorld (record { shape = shape_of w.geo; formulas = S.formulas_of (S.keys w.suite) })
        (world_of (record { shape = shape_of w.geo; formulas = S.formulas_of (S.keys w.suite) })
        (record {
          keys = S.keys w.suite;
          board = memory_of w.board;
          ledger = ledger_of w.ledger;
          capacity = capacity_of w.ledger;
          engine = w.engine;
          tags = S.tags w.suite;
          digests = S.digests w.suite;
          queues = w.ports;
          tampering = w.tampered;
          dirtying = w.dirtied;
          steps = w.steps;
          start = w.start;
          shown = w.shown;
        })) };
}

/// What a world takes memory for: a device of zeros, a ledger with no marks, and flags of which none is set.
#[derive(Drop)]
struct Blank {
    board: MemBoard,
    ledger: Ledger,
    tampered: Tampered,
    dirtied: Dirtied,
}

impl Blank {
    /// The parts for a geometry. Errors: running out of memory.
    fn new(alloc: Global, geo: &Geo) -> Result<Blank, MemFault>
        ensures board { IfOk result (λ blank. memory_of blank.board ≡ new_memory (device_lines (shape_of geo.now))) }
        ensures ledger { IfOk result (λ blank. ledger_of blank.ledger ≡ new_ledger (shape_of geo.now)) }
        ensures its_shape { IfOk result (λ blank. IsOfShape (shape_of geo.now) (ledger_of blank.ledger)) }
        ensures tampered { IfOk result (λ blank. blank.tampered ≡ no_tampering (shape_of geo.now)) }
        ensures dirtied { IfOk result (λ blank. blank.dirtied ≡ no_dirtying (shape_of geo.now)) }
    {
        Ok(Blank {
            board: MemBoard::new(alloc, geo.size())?,
            ledger: Ledger::new(alloc, geo)?,
            tampered: Tampered::new(alloc, geo)?,
            dirtied: Dirtied::new(alloc, geo)?,
        })
    }
}

impl<S: Counted + Drop> World<S> {
    /// A formatted device with power on, on which nothing was done. Errors: running out of memory.
    pub fn new(alloc: Global, geo: Geo, suite: S) -> Result<World<S>, MemFault>
        ensures new { IfOk result (λ world. IsNewWorld (record { shape = shape_of geo; formulas = S.formulas_of (S.keys suite) }) world) }
        ensures keys { IfOk result (λ world. world.keys ≡ S.keys suite) }
        ensures work { IfOk result (λ world. HasFormatWork (shape_of geo) (S.tags suite) (S.digests suite) world) }
    {
        geo.layout_is_one_to_one();
        let mut suite = suite;
        let mut blank = Blank::new(alloc, &geo)?;
        let mut engine = None;
        calls::format(
            alloc,
            &geo,
            &mut blank.board,
            &mut suite,
            &mut blank.ledger,
            &mut engine,
        )?;
        let start = counts_of(&blank.board, &suite);
        Ok(World {
            geo,
            suite,
            board: blank.board,
            ledger: blank.ledger,
            engine,
            ports: Ports::new(),
            tampered: blank.tampered,
            dirtied: blank.dirtied,
            steps: 0,
            start,
            shown: false,
        })
    }

    /// The counts of the tags and digests that were made.
    pub fn work(&self) -> (u64, u64)
        ensures { result ≡ (self.now.tags, self.now.digests) }
    {
        let (_, tags, digests) = self.suite.counts();
        (tags, digests)
    }

    /// The marks of the run in order, those of formatting first.
    pub fn marks(&self) -> &[Mark]
        ensures { result.now ≡ self.now.ledger.marks }
    {
        self.ledger.marks()
    }
}

/// The counts of a board and a suite.
pub(crate) fn counts_of<S: Counted>(board: &MemBoard, suite: &S) -> Stat
    ensures { result ≡ counts_with (memory_of board.now) (S.tags suite.now) (S.digests suite.now) }
{
    let (reads, writes, latches) = board.counts();
    let (_, tags, digests) = suite.counts();
    Stat {
        reads,
        writes,
        latches,
        tags,
        digests,
    }
}
