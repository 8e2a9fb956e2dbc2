//! The calls of levelled lines that a session makes, and their opening.
ghost use Rattle.std.specs.Prelude.{◌≡◌, ◌≤◌, Some, ⊤};
ghost use Rattle.start_gap.specs.Promised.{IsLevelledWrite, IsLevelledOpening};
ghost use Rattle.start_gap.specs.Wear.{place_of};
ghost use Rattle.line_session.specs.Kept.{is_call_cut};
ghost use Rattle.wear_session.specs.StoreCalls.{HasReadAt, is_write_cut, HoldsLevelled, levelled_lines};

use board::Board;
use line_session::{LineStore, StoreCall, StoreOpening};
use pmem_base::Line;
use pmem_engine::{Engine, Fault};
use seal_ledger::Ledger;
use start_gap::{GapFault, Gapped, Moved, Wear, WriteFault, place};
use suite::Suite;

/// The most marks of a write with its move: three writes of an engine.
const WRITE_MARKS: u32 = 198;

/// Levelled lines, as the store of a session.
#[derive(Drop)]
pub(crate) struct LevelledLines {
    pub(crate) gapped: Gapped,
}

impl LineStore for LevelledLines {
    ghost engine = { λ store. store.gapped.engine };

    ghost lines = { λ store. store.gapped.lines };

    fn lines(&self) -> u32 {
        self.gapped.lines()
    }
}

/// A logical line is read.
#[derive(Drop)]
pub(crate) struct ReadLine {
    pub(crate) at: u64,
}

impl StoreCall for ReadLine {
    type Store = LevelledLines;

    type Value = Line;

    type Fault = Fault;

    ghost asked = { λ call. Some call.at };

    ghost own = { λ call store. call.at };

    ghost room = { λ call. 0 };

    ghost can = { λ call store. ⊤ };

    ghost is_cut = { is_call_cut };

    ghost relation = { λ call setup old new from to answer. HasReadAt setup call.at old.gapped new.gapped from to answer };

    fn asked(&self) -> Option<u64> {
        Some(self.at)
    }

    fn own(&self, _store: &LevelledLines) -> u32 {
        self.at as u32
    }

    fn room(&self) -> u32 {
        0
    }

    fn is_cut(answer: &Result<Line, Fault>) -> bool {
        matches!(answer, Err(Fault::Cut))
    }

    fn make<B: Board, S: Suite>(
        &self,
        store: &mut LevelledLines,
        board: &mut B,
        suite: &mut S,
        ledger: &mut Ledger,
    ) -> Result<Line, Fault> {
        store.gapped.read(board, suite, ledger, self.at as u32)
    }
}

/// A logical line is written, and the gap moves if that is due.
#[derive(Drop)]
pub(crate) struct WriteLine<'a> {
    pub(crate) at: u64,
    pub(crate) line: &'a Line,
}

impl<'a> StoreCall for WriteLine<'a> {
    type Store = LevelledLines;

    type Value = Moved;

    type Fault = WriteFault;

    ghost asked = { λ call. Some call.at };

    ghost own = { λ call store. place_of store.gapped.lines store.gapped.wear call.at };

    ghost room = { λ call. 198 };

    ghost can = { λ call store. ⊤ };

    ghost is_cut = { is_write_cut };

    ghost relation = { λ call setup old new from to answer. IsLevelledWrite setup call.at call.line.now old.gapped new.gapped from to answer };

    fn asked(&self) -> Option<u64> {
        Some(self.at)
    }

    fn own(&self, store: &LevelledLines) -> u32 {
        place(store.gapped.lines(), store.gapped.wear(), self.at as u32)
    }

    fn room(&self) -> u32 {
        WRITE_MARKS
    }

    fn is_cut(answer: &Result<Moved, WriteFault>) -> bool
        ensures { result ≡ is_write_cut answer.now }
    {
        matches!(
            answer,
            Err(WriteFault {
                fault: Fault::Cut,
                ..
            })
        )
    }

    fn make<B: Board, S: Suite>(
        &self,
        store: &mut LevelledLines,
        board: &mut B,
        suite: &mut S,
        ledger: &mut Ledger,
    ) -> Result<Moved, WriteFault> {
        store
            .gapped
            .write(board, suite, ledger, self.at as u32, self.line)
    }
}

/// Levelled lines are opened, whose gap moves at each `every`th write.
#[derive(Drop)]
pub(crate) struct OpenLines {
    pub(crate) every: u32,
}

impl StoreOpening for OpenLines {
    type Store = LevelledLines;

    type Told = Wear;

    type Opened = Gapped;

    type Fault = GapFault;

    ghost store = { levelled_lines };

    ghost told = { λ gapped. gapped.wear };

    ghost room = { λ opening. 0 };

    ghost can = { λ opening. 1 ≤ opening.every };

    ghost holds = { λ opening setup marks. HoldsLevelled setup marks };

    ghost relation = { λ opening setup engine old now answer. IsLevelledOpening setup opening.every engine old now answer };

    fn room(&self) -> u32 {
        0
    }

    fn split(opened: Gapped) -> (LevelledLines, Wear) {
        let wear = *opened.wear();
        (LevelledLines { gapped: opened }, wear)
    }

    fn open<B: Board, S: Suite>(
        &self,
        engine: Engine,
        board: &mut B,
        suite: &mut S,
        ledger: &mut Ledger,
    ) -> Result<Gapped, GapFault> {
        Gapped::open(engine, board, suite, ledger, self.every)
    }
}
