//! The registers on the chip, which one latch replaces whole.
ghost use Rattle.std.specs.Prelude.{◌≡◌};
ghost use Rattle.pmem_base.specs.Registers.{empty_progress, empty_regs, without_group};

use crate::{Line, Tag};
use arrayvec::ArrayVec;

/// A re-encryption register: the page, its counter block as it was when the page was begun, and a
/// bit for each line done, bit i for line i of the page.
#[derive(Clone, Copy, Debug, PartialEq, Eq)]
pub struct Progress {
    pub page: u32,
    pub old: Line,
    pub done: u64,
}

/// Page 0, a zero block and no line done.
impl Default for Progress {
    ghost is_default = { λ progress. progress ≡ empty_progress };

    fn default() -> Self {
        Progress {
            page: 0,
            old: Line::default(),
            done: 0,
        }
    }
}

/// The register file: the digest of the tree's top line, the commit group (device lines and what is
/// to be written there), the re-encryption registers (the oldest first), and the stop-loss number.
#[derive(Debug, Drop, PartialEq, Eq)]
pub struct Regs {
    pub root: Tag,
    pub group: ArrayVec<(u32, Line), 12>,
    pub progress: ArrayVec<Progress, 4>,
    pub loss: u8,
}

impl Regs {
    /// A zero root, an empty group, no page under re-encryption, and the number 0.
    pub fn empty() -> Regs
        ensures { result ≡ empty_regs }
    {
        Regs {
            root: [0; 16],
            group: ArrayVec::new(),
            progress: ArrayVec::new(),
            loss: 0,
        }
    }

    /// Equal registers.
    pub fn same(&self) -> Regs
        ensures { result ≡ self.now }
    {
        let mut regs = Regs::empty();
        regs.set(self);
        regs
    }

    /// Makes them equal to these, in their own place.
    pub fn set(&mut self, regs: &Regs)
        ensures { self.new ≡ regs.now }
    {
        self.root = regs.root;
        self.group.clear();
        let _ = self.group.try_extend_from_slice(&regs.group);
        self.progress.clear();
        let _ = self.progress.try_extend_from_slice(&regs.progress);
        self.loss = regs.loss;
    }

    /// These registers with an empty group.
    pub fn emptied(&self) -> Regs
        ensures { result ≡ without_group self.now }
    {
        let mut regs = Regs::empty();
        regs.root = self.root;
        let _ = regs.progress.try_extend_from_slice(&self.progress);
        regs.loss = self.loss;
        regs
    }
}
