//! What an engine tells of the seals, nodes and slots that it makes and reads.
ghost use Rattle.std.specs.Prelude.{◌≡◌, ◌<◌, All, length, IsSome};
ghost use Rattle.pmem_base.specs.Lines.{IsLine};
ghost use Rattle.counter_tree.specs.Nodes.{IsNode};
ghost use Rattle.counter_tree.specs.Watch.{WatchState, last_seal_of, HasSealNoted, HasNodeNoted, HasSlotNoted, IsLineSeen, IsNodeSeen, AreSlotsSeen};

use crate::Node;
use pmem_base::{Line, Tag};
use seal_ledger::Go;

/// One seal of a data line: its counter, its cipher and the cipher's tag.
#[derive(Clone, Copy, Debug, PartialEq, Eq)]
pub struct LineSeal {
    pub counter: u64,
    pub cipher: Line,
    pub tag: Tag,
}

/// One who keeps the truth: the last seal of each data line, the true nodes, the true slot lines and
/// the first exhibit. No call takes memory.
pub trait Watch {
    /// What it knows.
    ghost watched: { Self → WatchState };

    /// This is the last seal of data line `at` from now on.
    fn note_seal(&mut self, at: u32, counter: u64, cipher: &Line, tag: &Tag)
        requires { at < length (watched self.old).seals }
        ensures { HasSealNoted (watched self.old) (watched self.new) at
            (record { counter = counter; cipher = cipher.now; tag = tag.now }) };

    /// This is the true node `x` from now on.
    fn note_node(&mut self, x: u32, node: &Node)
        requires { x < length (watched self.old).nodes }
        ensures noted { HasNodeNoted (watched self.old) (watched self.new) x node.now }
        ensures whole { IsNode node.now };

    /// This is the true line of slot `i` from now on.
    fn note_slot(&mut self, i: u32, line: &Line)
        requires { i < length (watched self.old).slots }
        ensures noted { HasSlotNoted (watched self.old) (watched self.new) i line.now }
        ensures whole { IsLine line.now };

    /// Stops if a cipher, whose tag is right under the line's counter, isn't that of its last seal.
    fn see_line(&mut self, at: u32, cipher: &Line, tag: &Tag) -> Go
        requires line { at < length (watched self.old).seals }
        requires sealed { IsSome (last_seal_of (watched self.old) at) }
        ensures { IsLineSeen (watched self.old) (watched self.new) at cipher.now tag.now result };

    /// Stops if a node's line, whose tag is right under its version, isn't that of the true node.
    fn see_node(&mut self, x: u32, line: &Line) -> Go
        requires { x < length (watched self.old).nodes }
        ensures { IsNodeSeen (watched self.old) (watched self.new) x line.now result };

    /// Stops if slot lines, whose root is right, aren't the true ones.
    fn see_slots(&mut self, lines: &[Line]) -> Go
        requires { length lines.now ≡ length (watched self.old).slots }
        ensures { AreSlotsSeen (watched self.old) (watched self.new) lines.now result };

    /// A law: true nodes have four counters, and true slot lines 64 bytes.
    ghost whole: { (watch : Self) → All IsNode (watched watch).nodes × All IsLine (watched watch).slots };
}
