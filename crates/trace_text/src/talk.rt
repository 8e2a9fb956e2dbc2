//! What a session is asked, and what it answers.
ghost use Rattle.std.specs.Prelude.{◌≡◌, ℕ, List, Option};
ghost use Rattle.pmem_base.specs.declared.answers.Exhibit.{Exhibit};
ghost use Rattle.board.specs.declared.access.Access.{Access};
ghost use Rattle.collision_witness.specs.Exhibits.{AreSmallMinors};
ghost use Rattle.trace_text.specs.Talks.{Sort, IsOfSort, IfText, IfShown, IfMemory, IfNothing};

use access_log::AccessLog;
use arrayvec::ArrayVec;
use pmem_base::{Exhibit, Kind};
use std::alloc::Global;

/// The most bytes of an answer's text.
pub const TEXT_BYTES: usize = 512;

/// Why a session stops at a line.
#[derive(Clone, Copy, Debug, PartialEq, Eq)]
pub enum Halt {
    /// Memory for the answer ran out.
    Memory,
    /// The line isn't in the session's grammar.
    Line(Kind),
    /// The answer is an exhibit.
    Shown(Exhibit),
}

/// A session, which answers the lines of a trace in its own grammar. Contracts see its state, which is plain
/// data, as the session itself.
pub trait Talk {
    /// The session's grammar: whether a line is skipped, asks for an answer, or is faulty.
    ghost sort_of: { List ℕ → Sort };

    /// The state before, a line that asks, the text of an answer to it without its LF, and the state after.
    ghost answers: { Self → List ℕ → List ℕ → Self → Type 0 };

    /// The state before, a line that asks, an exhibit that comes instead of its answer, and the state after.
    ghost shows: { Self → List ℕ → Exhibit → Self → Type 0 };

    /// The state before, and a line that asks, whose answer may run out of memory.
    ghost wants_memory: { Self → List ℕ → Type 0 };

    /// The state before, a line, the log of the board's accesses before and after, and the state after.
    ghost logs: { Self → List ℕ → Option (List Access) → Option (List Access) → Self → Type 0 };

    /// How many tags and digests were made.
    ghost work: { Self → ℕ × ℕ };

    /// Answers a line of at most 1,024 bytes, without its LF. `None` if and only if the line is skipped. Errors: `Line`
    /// if and only if it isn't in the grammar; `Memory`. These and a skipped line leave the state as it was. After
    /// `Shown` no call follows. Accesses of the board are logged, if a log is kept.
    fn talk(
        &mut self,
        alloc: Global,
        line: &[u8],
        log: &mut AccessLog,
    ) -> Result<Option<ArrayVec<u8, TEXT_BYTES>>, Halt>
        ensures sort { IsOfSort result (sort_of line.now) }
        ensures text { IfText result (λ text. answers self.old line.now text self.new) }
        ensures shown { IfShown result (λ exhibit. shows self.old line.now exhibit self.new) }
        ensures minors { IfShown result AreSmallMinors }
        ensures memory { IfMemory result (wants_memory self.old line.now) }
        ensures unchanged { IfNothing result (self.new ≡ self.old) }
        ensures logged { logs self.old line.now log.old log.new self.new };

    /// How many tags and digests were made: of the engine and of recovery, since the device was made.
    fn work(&self) -> (u64, u64)
        ensures { result ≡ work self.now };
}
