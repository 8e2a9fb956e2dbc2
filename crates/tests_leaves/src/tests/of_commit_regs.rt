//! A group finished, and cut at each step and finished again.
ghost use Rattle.std.specs.Prelude.{◌≡◌, ◌∷◌, []};
ghost use Rattle.pmem_base.specs.Registers.{IsGroup};

use board::{Board, MemBoard};
use commit_regs::*;
use pmem_base::{Line, Regs};
use std::test::Fail;

/// Registers with a group of two lines of a board of four.
fn two_lines(first: &Line, second: &Line) -> Regs
    ensures lines { result.group.items ≡ (2, first.now) ∷ (0, second.now) ∷ [] }
    ensures group { IsGroup 4 result.group.items }
{
    first.is_whole();
    second.is_whole();
    let mut regs = Regs::empty();
    regs.loss = 4;
    regs.group.push((2, *first));
    regs.group.push((0, *second));
    regs
}

#[test]
fn groups(rt: HostRuntime) -> Result<(), Fail> {
    let first = Line([7; 64]);
    let second = Line([8; 64]);
    for fuse in 0..4 {
        let mut board = MemBoard::new(rt.alloc(), 4)?;
        let next = two_lines(&first, &second);
        assert_eq!(rt; finish(&mut board), Ok(()));
        assert_eq!(rt; board.counts(), (0, 0, 0), "an empty group does nothing");
        assert!(rt; board.size() == 4);
        assert_eq!(rt; arm(&mut board, &next), Ok(()));
        assert_eq!(rt; *board.peek(2), Line::default());
        board.arm(fuse);
        let cut = finish(&mut board);
        assert_eq!(rt; cut.is_err(), fuse < 3, "at {fuse}");
        board.power();
        assert_eq!(rt; finish(&mut board), Ok(()));
        assert_eq!(rt;
            (*board.peek(2), *board.peek(0)),
            (first, second),
            "at {fuse}"
        );
        assert_eq!(rt; (board.regs().group.len(), board.regs().loss), (0, 4));
    }
    Ok(())
}
