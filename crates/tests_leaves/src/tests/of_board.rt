//! The fuse, the snapshot and the ways to tamper, on a board of four lines.
ghost use Rattle.std.specs.Prelude.{◌<◌};

use board::{Board, MemBoard, Tripped};
use pmem_base::{Cut, Line, NoSnap, Regs};
use std::test::Fail;

/// How many of five latches are done on a board with this fuse.
fn latches_done(board: &mut MemBoard, fuse: u64) -> u64 {
    board.power();
    board.arm(fuse);
    for n in 0..5 {
        if board.latch(&Regs::empty()).is_err() {
            return n;
        }
    }
    5
}

/// Writes a line and reads it back.
fn write_and_read<B: Board>(board: &mut B, at: u32, line: &Line) -> Result<Line, Cut>
    requires { at < (B.device board.old).size }
{
    board.write_line(at, line)?;
    board.read_line(at)
}

#[test]
fn power_is_cut(rt: HostRuntime) -> Result<(), Fail> {
    let mut board = MemBoard::new(rt.alloc(), 4)?;
    for fuse in [0, 1, 3, 5] {
        assert_eq!(rt; latches_done(&mut board, fuse), fuse);
    }
    // Five latches leave a fuse of 0.
    assert_eq!(rt; board.latch(&Regs::empty()), Err(Cut));
    // The cut has cleared the fuse.
    board.power();
    assert_eq!(rt; board.latch(&Regs::empty()), Ok(()));
    board.arm(0);
    board.rest();
    board.power();
    assert_eq!(rt; board.latch(&Regs::empty()), Err(Cut));
    board.arm(0);
    board.off();
    board.power();
    assert_eq!(rt; board.latch(&Regs::empty()), Ok(()));
    assert_eq!(rt; board.counts(), (0, 0, 11));
    Ok(())
}

#[test]
fn lines_are_tampered_with(rt: HostRuntime) -> Result<(), Fail> {
    let mut board = MemBoard::new(rt.alloc(), 4)?;
    assert_eq!(rt; board.back(2), Err(NoSnap));
    board.snap()?;
    board.flip(2, 0);
    board.flip(2, 8);
    board.flip(2, 511);
    board.move_line(2, 3);
    let mut flipped = Line::default();
    flipped.0[0] = 1;
    flipped.0[1] = 1;
    flipped.0[63] = 128;
    assert_eq!(rt; *board.peek(3), flipped);
    assert_eq!(rt; board.back(2), Ok(()));
    assert_eq!(rt; *board.peek(2), Line::default());
    board.snap()?;
    board.poke(3, &Line::default());
    assert_eq!(rt; board.back(3), Ok(()));
    assert_eq!(rt; *board.peek(3), flipped);
    let line = Line([7; 64]);
    assert_eq!(rt; write_and_read(&mut board, 0, &line), Ok(line));
    assert_eq!(rt; board.counts(), (1, 1, 0));
    Ok(())
}

#[test]
fn calls_are_passed(rt: HostRuntime) -> Result<(), Fail> {
    let table = [
        (0, [false, false, false, false], (0, 0, 0)),
        (1, [true, false, false, false], (0, 1, 0)),
        (2, [true, true, false, false], (1, 1, 0)),
        (3, [true, true, true, false], (1, 1, 1)),
        (4, [true, true, true, true], (2, 1, 1)),
    ];
    for (n, passed, counts) in table {
        let mut board = Tripped::new(MemBoard::new(rt.alloc(), 4)?, n);
        assert_eq!(rt; board.size(), 4);
        let answers = [
            board.write_line(1, &Line([7; 64])).is_ok(),
            board.read_line(1).is_ok(),
            board.latch(&Regs::empty()).is_ok(),
            board.read_line(1) == Ok(Line([7; 64])),
        ];
        assert_eq!(rt; answers, passed);
        assert_eq!(rt; board.into_inner().counts(), counts);
    }
    let mut inner = MemBoard::new(rt.alloc(), 4)?;
    inner.off();
    let mut board = Tripped::new(inner, 4);
    assert_eq!(rt; board.read_line(0).is_err(), true);
    assert_eq!(rt; board.latch(&Regs::empty()).is_err(), true);
    assert_eq!(rt; board.regs(), &Regs::empty());
    Ok(())
}
