//! The engine's calls: reads and writes of data lines.
ghost use Rattle.std.specs.Prelude.{◌≡◌, ◌<◌, ◌||◌, not};
ghost use Rattle.call_effects.specs.Outcomes.{is_going};
ghost use Rattle.counter_tree.specs.Layout.{tree_lines};
ghost use Rattle.asit_shadow.specs.Parts.{IsTreeUsable, tree_parts_at};
ghost use Rattle.asit_shadow.specs.Calls.{outcome_of_tree_fault};
ghost use Rattle.asit_shadow.specs.Promised.{ReadsLine, ReadsUp, WritesLine, FollowsRead, FollowsReadUp, FollowsWrite};

use crate::engine::TreeEngine;
use crate::fault::TreeFault;
use board::Board;
use counter_tree::{FetchFault, Watch, fetch_line};
use pmem_base::Line;
use suite::Suite;

impl TreeEngine {
    /// Reads data line `at`: fetches its path, and then its cipher and tag. Errors: `Down` if an earlier call was cut
    /// or shown; `Cut`; `Node { x }` if node x of the path isn't of the version that its parent has for it; `Tag { at
    /// }` if the tag doesn't fit the cipher; `Shown` if what was read is forged; never `Spent`. Cost: at most one
    /// persist step for each level.
    pub fn read<B: Board, S: Suite, W: Watch>(
        &mut self,
        board: &mut B,
        suite: &mut S,
        watch: &mut W,
        at: u32,
    ) -> Result<Line, TreeFault>
        requires line { at < tree_lines self.old.shape }
        requires usable { IsTreeUsable self.old.shape (tree_parts_at B.Board W.Watch self.old board.old watch.old) }
        ensures read { ReadsLine B.Board S.Suite W.Watch self.old board.old suite.old watch.old
            self.new board.new suite.new watch.new at result }
        ensures usable { IsTreeUsable self.old.shape (tree_parts_at B.Board W.Watch self.new board.new watch.new) }
        ensures keys { S.keys suite.new ≡ S.keys suite.old }
        ensures digests { S.digests suite.new ≡ S.digests suite.old }
        ensures shape { self.new.shape ≡ self.old.shape }
        ensures plan { FollowsRead B.Board S.Suite W.Watch self.old board.old suite.old watch.old
            self.new board.new suite.new watch.new at result }
    {
        if self.is_down() {
            return Err(TreeFault::Down);
        }
        match self.read_line(board, suite, watch, at) {
            Ok(line) => Ok(line),
            Err(fault) => {
                self.end(fault);
                Err(fault)
            }
        }
    }

    /// Writes data line `at`, and answers its new counter. Errors: `Spent` if and only if the version of the top is
    /// 2^64 - 1, and then nothing is done; `Down` if an earlier call was cut or shown; `Cut`; `Node { x }` if node x of
    /// the path isn't of the version that its parent has for it; `Shown` if a node that was read is forged. Cost: at
    /// most one persist step for each level, then a latch, the lines of the group, and a latch.
    pub fn write<B: Board, S: Suite, W: Watch>(
        &mut self,
        board: &mut B,
        suite: &mut S,
        watch: &mut W,
        at: u32,
        line: &Line,
    ) -> Result<u64, TreeFault>
        requires line { at < tree_lines self.old.shape }
        requires usable { IsTreeUsable self.old.shape (tree_parts_at B.Board W.Watch self.old board.old watch.old) }
        ensures written { WritesLine B.Board S.Suite W.Watch self.old board.old suite.old watch.old
            self.new board.new suite.new watch.new at line.now result }
        ensures usable { IsTreeUsable self.old.shape (tree_parts_at B.Board W.Watch self.new board.new watch.new) }
        ensures keys { S.keys suite.new ≡ S.keys suite.old }
        ensures shape { self.new.shape ≡ self.old.shape }
        ensures plan { FollowsWrite B.Board S.Suite W.Watch self.old board.old suite.old watch.old
            self.new board.new suite.new watch.new at line.now result }
    {
        if self.is_down() {
            return Err(TreeFault::Down);
        }
        match self.write_line(board, suite, watch, at, line) {
            Ok(counter) => Ok(counter),
            Err(fault) => {
                self.end(fault);
                Err(fault)
            }
        }
    }

    /// Reads a line of an engine that isn't down.
    fn read_line<B: Board, S: Suite, W: Watch>(
        &mut self,
        board: &mut B,
        suite: &mut S,
        watch: &mut W,
        at: u32,
    ) -> Result<Line, TreeFault>
        requires line { at < tree_lines self.old.shape }
        requires usable { IsTreeUsable self.old.shape (tree_parts_at B.Board W.Watch self.old board.old watch.old) }
        ensures read { ReadsUp B.Board S.Suite W.Watch self.old board.old suite.old watch.old
            self.new board.new suite.new watch.new at result }
        ensures down { self.new.down ≡ self.old.down }
        ensures keys { S.keys suite.new ≡ S.keys suite.old }
        ensures digests { S.digests suite.new ≡ S.digests suite.old }
        ensures plan { FollowsReadUp B.Board S.Suite W.Watch self.old board.old suite.old watch.old
            self.new board.new suite.new watch.new at result }
    {
        self.is_whole();
        let node = match self.fetch(board, suite, watch, at) {
            Ok(node) => node,
            Err(fault) => return Err(fault),
        };
        let counter = node.0[at as usize % 4];
        match fetch_line(&self.geo(), board, suite, watch, at, counter) {
            Ok(plain) => Ok(plain),
            Err(FetchFault::Cut) => Err(TreeFault::Cut),
            Err(FetchFault::Refused) => Err(TreeFault::Tag { at }),
            Err(FetchFault::Shown) => Err(TreeFault::Shown),
        }
    }

    /// The end of a call: a cut and an exhibit take the engine down.
    fn end(&mut self, fault: TreeFault)
        ensures down { self.new.down ≡ (self.old.down || not (is_going (outcome_of_tree_fault fault))) }
        ensures shape { self.new.shape ≡ self.old.shape }
        ensures cache { self.new.cache ≡ self.old.cache }
        ensures tree { self.new.tree ≡ self.old.tree }
    {
        match fault {
            TreeFault::Cut | TreeFault::Shown => self.set_down(true),
            TreeFault::Down | TreeFault::Node { .. } | TreeFault::Tag { .. } | TreeFault::Spent =>
                {}
        }
    }
}
