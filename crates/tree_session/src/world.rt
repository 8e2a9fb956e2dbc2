//! A device under a counter tree, and what a session keeps of it.
ghost use Rattle.std.specs.Prelude.{◌≡◌, IfOk};
ghost use Rattle.pmem_base.specs.Geo.{shape_of};
ghost use Rattle.tree_session.specs.State.{IsFormattedTree, IsNewTree};

use crate::calls;
use asit_shadow::TreeEngine;
use board::MemBoard;
use counter_tree::{WatchBook, tree_lines, tree_size};
use pmem_base::{Geo, MemFault};
use std::alloc::Global;
use std::marker::Model;
use suite::Suite;

/// A device, the engine while power is on, the suite and the watch, and what an attacker changed: the device lines
/// that were ever changed, and the data lines whose cipher or tag was changed since their last write.
#[derive(Drop)]
pub struct TreeWorld<S: Suite + Drop> {
    pub(crate) geo: Geo,
    pub(crate) suite: S,
    pub(crate) board: MemBoard,
    pub(crate) watch: WatchBook<S>,
    pub(crate) engine: Option<TreeEngine>,
    pub(crate) tampered: Vec<bool>,
    pub(crate) hurt: Vec<bool>,
}

impl<S: Suite + Drop> Model for TreeWorld<S> {
    ghost use Rattle.pmem_base.specs.Geo.{shape_of};
    ghost use Rattle.board.specs.MemBoard.{memory_of};
    ghost use Rattle.counter_tree.specs.BookView.{watch_of};
    ghost use Rattle.tree_session.specs.State.{SessionState};
    ghost use Rattle.tree_session.specs.World.{state_of, IsTreeWorld};

    ghost Value = { SessionState };

    ghost view = { λ w. state_of (record { shape = shape_of w.geo; formulas = S.formulas_of (S.keys w.suite) })
        (record {
          keys = S.keys w.suite;
          pads = S.pads w.suite;
          tags = S.tags w.suite;
          digests = S.digests w.suite;
          board = memory_of w.board;
          watch = watch_of S.formulas_of S.keys w.watch;
          engine = w.engine;
          tampered = w.tampered.items;
          hurt = w.hurt.items;
        }) };

    ghost invariant = { λ w. IsTreeWorld (record { shape = shape_of w.geo; formulas = S.formulas_of (S.keys w.suite) })
        (record {
          keys = S.keys w.suite;
          pads = S.pads w.suite;
          tags = S.tags w.suite;
          digests = S.digests w.suite;
          board = memory_of w.board;
          watch = watch_of S.formulas_of S.keys w.watch;
          engine = w.engine;
          tampered = w.tampered.items;
          hurt = w.hurt.items;
        }) };
}

impl<S: Suite + Drop> TreeWorld<S> {
    /// A formatted device with power on: all lines are zeros, and nothing was tampered with. Formatting follows its
    /// plan. Errors: running out of memory.
    pub fn new(alloc: Global, geo: Geo, suite: S, watch_suite: S) -> Result<TreeWorld<S>, MemFault>
        requires { S.keys watch_suite ≡ S.keys suite }
        ensures new { IfOk result (λ world. IsNewTree (record { shape = shape_of geo; formulas = S.formulas_of (S.keys suite) }) world) }
        ensures formatted { IfOk result (λ world. IsFormattedTree (record { shape = shape_of geo; formulas = S.formulas_of (S.keys suite) })
            (S.pads suite) (S.tags suite) (S.digests suite) world) }
        ensures keys { IfOk result (λ world. world.keys ≡ S.keys suite) }
    {
        geo.layout_is_one_to_one();
        let mut suite = suite;
        let mut board = MemBoard::new(alloc, tree_size(&geo))?;
        let mut watch = WatchBook::new(alloc, &geo, watch_suite)?;
        let tampered = vec![in alloc; false; tree_size(&geo) as usize]?;
        let hurt = vec![in alloc; false; tree_lines(&geo) as usize]?;
        let engine = calls::format(alloc, &geo, &mut board, &mut suite, &mut watch)?;
        Ok(TreeWorld {
            geo,
            suite,
            board,
            watch,
            engine: Some(engine),
            tampered,
            hurt,
        })
    }
}
