//! The engine over a counter tree: worked rows, and a run over all lines.
ghost use Rattle.std.specs.Prelude.{◌≡◌};
ghost use Rattle.pmem_base.specs.Geo.{shape_of};
ghost use Rattle.board.specs.Memory.{device_of};
ghost use Rattle.board.specs.MemBoard.{memory_of};
ghost use Rattle.asit_shadow.specs.Parts.{tree_parts_of, IsTreeUsable};

use crate::tests::equal;
use asit_shadow::{TreeEngine, TreeFault, TreeRec, tree_format, tree_recover};
use board::{Board, MemBoard};
use call_effects::Work;
use counter_tree::{Node, Watch, WatchBook, slot_line, slot_of, slot_place, tree_lines, tree_size};
use pmem_base::{Cut, Exhibit, Geo, Line, Regs, Tag};
use std::alloc::Global;
use std::process::Abort;
use std::test::Fail;
use suite::WeakSuite;

/// A controller over a device.
#[derive(Drop)]
struct Machine<W: Watch + Drop> {
    geo: Geo,
    board: MemBoard,
    suite: WeakSuite,
    watch: W,
    engine: TreeEngine,
    ghost its_shape: { engine.shape ≡ shape_of geo },
    ghost usable: { IsTreeUsable engine.shape (tree_parts_of engine (device_of (memory_of board)) (W.watched watch)) },
}

/// A formatted device of the default geometry.
fn formatted(alloc: Global) -> Result<Machine<WatchBook<WeakSuite>>, Fail> {
    let geo = Geo::new(2, 4, 2, 4, 0)?;
    let mut board = MemBoard::new(alloc, tree_size(&geo))?;
    let mut suite = WeakSuite::new(&[0; 16], &[0x10], false);
    let mut watch = WatchBook::new(alloc, &geo, WeakSuite::new(&[0; 16], &[0x10], false))?;
    let engine = tree_format(alloc, &geo, &mut board, &mut suite, &mut watch)?;
    Ok(Machine {
        geo,
        board,
        suite,
        watch,
        engine,
    })
}

impl<W: Watch + Drop> Machine<W> {
    fn write(&mut self, rt: &impl Abort, at: u32, byte: u8) -> Result<u64, TreeFault> {
        assert!(rt; at < tree_lines(&self.geo));
        let line = Line([byte; 64]);
        self.engine.write(&mut self.board, &mut self.suite, &mut self.watch, at, &line)
    }

    fn read(&mut self, rt: &impl Abort, at: u32) -> Result<Line, TreeFault> {
        assert!(rt; at < tree_lines(&self.geo));
        self.engine
            .read(&mut self.board, &mut self.suite, &mut self.watch, at)
    }

    /// Writes a device line past the controller.
    fn poke(&mut self, rt: &impl Abort, at: u32, line: &Line) {
        assert!(rt; at < tree_size(&self.geo));
        self.board.poke(at, line);
    }

    /// Node `x` is this one from now on, named in its slot, for the watch and on the device.
    fn set_node(&mut self, rt: &impl Abort, x: u32, node: &Node) {
        let geo = self.geo;
        assert!(rt; x < geo.metas());
        let slot = slot_of(&geo, x);
        let line = slot_line(x, node);
        self.watch.note_node(x, node);
        self.watch.note_slot(slot, &line);
        self.board.poke(slot_place(&geo, slot), &line);
    }

    /// The registers have this root, and no group.
    fn latch_root(&mut self, root: Tag) -> Result<(), Cut> {
        let mut regs = Regs::empty();
        regs.root = root;
        self.board.latch(&regs)
    }

    /// The persist steps so far.
    fn steps(&self) -> u64 {
        let (_, writes, latches) = self.board.counts();
        writes.wrapping_add(latches)
    }

    /// Switches power on, and makes the engine again. An error has the watch.
    fn recover(self, alloc: Global) -> Result<(Machine<W>, Work), (TreeRec, W)> {
        let Machine {
            geo,
            mut board,
            mut suite,
            mut watch,
            engine: _,
        } = self;
        board.power();
        match tree_recover(alloc, &geo, &mut board, &mut suite, &mut watch) {
            Ok((engine, work)) => {
                let machine = Machine {
                    geo,
                    board,
                    suite,
                    watch,
                    engine,
                };
                Ok((machine, work))
            }
            Err(fault) => Err((fault, watch)),
        }
    }

    /// The machine after a recovery that must succeed.
    fn recovered(self, alloc: Global) -> Result<(Machine<W>, Work), Fail> {
        match self.recover(alloc) {
            Ok(made) => Ok(made),
            Err(_) => Err(Fail::new("not recovered")),
        }
    }

    /// Why a recovery stops that must stop, and the watch.
    fn unrecovered(self, alloc: Global) -> Result<(TreeRec, W), Fail> {
        match self.recover(alloc) {
            Ok(_) => Err(Fail::new("recovered")),
            Err(why) => Ok(why),
        }
    }
}

#[test]
fn kept_write(rt: HostRuntime) -> Result<(), Fail> {
    let mut machine = formatted(rt.alloc())?;
    let start = machine.steps();
    equal(&rt, machine.write(&rt, 5, 0x11), Ok(1));
    equal(&rt, machine.steps().wrapping_sub(start), 7);
    machine.board.arm(1);
    equal(&rt, machine.write(&rt, 5, 0x22), Err(TreeFault::Cut));
    equal(&rt, machine.read(&rt, 5), Err(TreeFault::Down));
    let start = machine.steps();
    let (mut machine, work) = machine.recovered(rt.alloc())?;
    equal(
        &rt,
        work,
        Work {
            trials: 0,
            digests: 21,
        },
    );
    equal(&rt, machine.steps().wrapping_sub(start), 6);
    equal(&rt, machine.read(&rt, 5), Ok(Line([0x22; 64])));
    Ok(())
}

#[test]
fn all_lines(rt: HostRuntime) -> Result<(), Fail> {
    let mut machine = formatted(rt.alloc())?;
    'writes: for at in 0..64 {
        equal(&rt, machine.write(&rt, at, 0x30), Ok(1));
    }
    'reads: for at in 0..64 {
        equal(&rt, machine.read(&rt, at), Ok(Line([0x30; 64])));
    }
    Ok(())
}

#[test]
fn refused(rt: HostRuntime) -> Result<(), Fail> {
    let mut machine = formatted(rt.alloc())?;
    machine.poke(&rt, 5, &Line::default());
    equal(&rt, machine.read(&rt, 5), Err(TreeFault::Tag { at: 5 }));
    let mut machine = formatted(rt.alloc())?;
    machine.poke(&rt, 128 + 6, &Line::default());
    equal(&rt, machine.read(&rt, 5), Err(TreeFault::Node { x: 6 }));
    equal(&rt, machine.write(&rt, 5, 1), Err(TreeFault::Node { x: 6 }));
    Ok(())
}

#[test]
fn shadow_refused(rt: HostRuntime) -> Result<(), Fail> {
    let mut machine = formatted(rt.alloc())?;
    equal(&rt, machine.write(&rt, 5, 0x11), Ok(1));
    machine.board.off();
    machine.poke(&rt, 151, &Line::default());
    let mut kept = [0; 16];
    let mut found = [0; 16];
    kept[15] = 0x10;
    found[15] = 0x13;
    let (why, _) = machine.unrecovered(rt.alloc())?;
    equal(&rt, why, TreeRec::Shadow { kept, found });
    Ok(())
}

#[test]
fn clash_shown(rt: HostRuntime) -> Result<(), Fail> {
    let mut machine = formatted(rt.alloc())?;
    equal(&rt, machine.write(&rt, 5, 0x11), Ok(1));
    machine.board.off();
    machine.poke(&rt, 149, &Line::default());
    let (why, watch) = machine.unrecovered(rt.alloc())?;
    equal(&rt, why, TreeRec::Shown);
    let clash = Exhibit::Clash {
        x: 5,
        first: Line::default(),
        second: slot_line(0, &Node([1, 0, 0, 0])),
    };
    equal(&rt, watch.exhibit(), Some(&clash));
    Ok(())
}

// One of the writes that can be counted is left: the path of line 0 has counted all others.
#[test]
fn last_write(rt: HostRuntime) -> Result<(), Fail> {
    let mut machine = formatted(rt.alloc())?;
    let counted = Node([u64::MAX - 1, 0, 0, 0]);
    machine.set_node(&rt, 0, &counted);
    machine.set_node(&rt, 1, &counted);
    machine.set_node(&rt, 5, &counted);
    let mut root = [0; 16];
    root[15] = 0x11;
    assert!(rt; machine.latch_root(root).is_ok());
    let (mut machine, _) = machine.recovered(rt.alloc())?;
    equal(&rt, machine.write(&rt, 0, 0x11), Ok(u64::MAX));
    let start = machine.steps();
    equal(&rt, machine.write(&rt, 0, 0x22), Err(TreeFault::Spent));
    equal(&rt, machine.write(&rt, 60, 0x22), Err(TreeFault::Spent));
    equal(&rt, machine.steps(), start);
    equal(&rt, machine.read(&rt, 0), Ok(Line([0x11; 64])));
    equal(&rt, machine.read(&rt, 1), Ok(Line::default()));
    let (mut machine, _) = machine.recovered(rt.alloc())?;
    equal(&rt, machine.write(&rt, 4, 0x33), Err(TreeFault::Spent));
    equal(&rt, machine.read(&rt, 0), Ok(Line([0x11; 64])));
    Ok(())
}
