//! Resealing a line: the lowest line not done of a page under re-encryption.
ghost use Rattle.std.specs.Prelude.{◌≡◌, ◌≢◌, ◌<◌, ◌+◌, ◌-◌, ◌*◌, ◌^◌, false, [], All, AllPairs, length};
ghost use Rattle.pmem_base.specs.Counts.{risen};
ghost use Rattle.pmem_base.specs.Layout.{data_lines, device_lines};
ghost use Rattle.pmem_base.specs.Lines.{IsLine};
ghost use Rattle.pmem_base.specs.Registers.{not_done, old_major, IsGroup, IsValidRegs};
ghost use Rattle.seal_ledger.specs.Notes.{HasRoom};
ghost use Rattle.page_reencrypt.specs.Registers.{registers_with_done};
ghost use Rattle.pmem_engine.specs.Committing.{next_seal_of, entries_of, HasLineDone};
ghost use Rattle.pmem_engine.specs.CallFacts.{IsUsableWith};
ghost use Rattle.pmem_engine.specs.Resealing.{IsNextHeld};
ghost use Rattle.pmem_engine.specs.Promised.{SealsAnew, FollowsReseal, EndsReseal, FollowsResealGroup};

use crate::engine::OnChip;
use crate::fault::LineFault;
use board::Board;
use commit_regs::{arm, finish_armed};
use line_seal::{put_tag, seal};
use page_reencrypt::{find_open, left, mark, next_left};
use pmem_base::{Ctr, Cut, Line, Progress, Regs, Tag};
use seal_ledger::Audit;
use split_counters::unpack;
use suite::Suite;

/// A line about to be resealed: its counter, cipher and tag, and its tag line with that tag.
#[derive(Clone, Copy, Debug, PartialEq, Eq)]
pub(crate) struct NextSeal {
    pub(crate) at: u32,
    pub(crate) ctr: Ctr,
    pub(crate) cipher: Line,
    pub(crate) tag: Tag,
    pub(crate) tag_line: Line,
}

/// A line that a register holds: its last counter, and the one that it gets.
#[derive(Clone, Copy, Debug, PartialEq, Eq)]
struct HeldLine {
    at: u32,
    now: Ctr,
    next: Ctr,
}

// The lowest line not done of a register's page, and its counters.
fn held_line(register: &Progress) -> HeldLine
    requires page { 64 * register.now.page + 64 < 2 ^ 32 }
    requires major { old_major register.now < 2 ^ 64 - 1 }
    requires some_left { 0 < length (not_done register.now) }
    ensures { IsNextHeld register.now result }
{
    let i = next_left(register).unwrap_or(0);
    let old = unpack(&register.old);
    HeldLine {
        at: 64 * register.page + u32::from(i),
        now: Ctr {
            major: old.major,
            minor: old.minors[usize::from(i)],
        },
        next: Ctr {
            major: old.major + 1,
            minor: 0,
        },
    }
}

// Makes the cipher and the tag of a plain line.
pub(crate) fn next_seal<S: Suite>(
    suite: &mut S,
    at: u32,
    ctr: Ctr,
    plain: &Line,
    tag_line: &Line,
) -> NextSeal
    ensures seal { result ≡ next_seal_of (S.formulas_of (S.keys suite.old)) at ctr plain.now tag_line.now }
    ensures keys { S.keys suite.new ≡ S.keys suite.old }
    ensures tags { S.tags suite.new ≡ risen (S.tags suite.old) }
    ensures digests { S.digests suite.new ≡ S.digests suite.old }
    ensures whole { IsLine plain.now }
{
    plain.is_whole();
    let (cipher, tag) = seal(suite, at, ctr, plain);
    let mut tag_line = *tag_line;
    put_tag(&mut tag_line, at, &tag);
    NextSeal {
        at,
        ctr,
        cipher,
        tag,
        tag_line,
    }
}

// The registers with this line done; a page's register goes with its last line.
pub(crate) fn done_in(regs: &mut Regs, at: u32)
    requires some_left { All (λ register. 0 < length (not_done register)) regs.old.progress.items }
    requires distinct { AllPairs (λ a b. a.page ≢ b.page) regs.old.progress.items }
    ensures progress { regs.new.progress.items ≡ registers_with_done regs.old.progress.items at }
    ensures root { regs.new.root ≡ regs.old.root }
    ensures group { regs.new.group ≡ regs.old.group }
    ensures loss { regs.new.loss ≡ regs.old.loss }
{
    if let Some(n) = find_open(&regs.progress, at / 64) {
        let n = usize::from(n);
        match mark(&regs.progress[n], (at % 64) as u8) {
            Some(register) => regs.progress[n] = register,
            None => {
                regs.progress.remove(n);
            }
        }
    }
}

impl OnChip {
    // Seals the lowest line not done of register `n`'s page under the page's new major and 0. The
    // answer is the line, and how many lines of the page are left.
    pub(crate) fn reseal<B: Board, S: Suite, A: Audit>(
        &self,
        board: &mut B,
        suite: &mut S,
        audit: &mut A,
        n: usize,
    ) -> Result<(u32, u8), LineFault>
        requires usable { IsUsableWith self.now.shape false (B.device board.old) (A.ledger audit.old) }
        requires room { HasRoom (A.ledger audit.old) (A.capacity audit.old) 1 }
        requires register { n < length (B.device board.old).regs.progress.items }
        ensures resealed { SealsAnew B.Board S.Suite A.Audit self.now board.old suite.old audit.old
            self.now board.new suite.new audit.new n result }
        ensures plan { FollowsReseal B.Board S.Suite A.Audit self.now board.old suite.old audit.old
            self.now board.new suite.new audit.new n result }
        ensures capacity { A.capacity audit.new ≡ A.capacity audit.old }
        ensures keys { S.keys suite.new ≡ S.keys suite.old }
    {
        self.has_shape();
        let register = board.regs().progress[n];
        let held = held_line(&register);
        let unsealed = self.unseal_line(board, suite, audit, held.at, held.now)?;
        let next = next_seal(
            suite,
            held.at,
            held.next,
            &unsealed.plain,
            &unsealed.tag_line,
        );
        self.commit_reseal(board, audit, &next)?;
        Ok((held.at, left(&register) - 1))
    }

    // Commits a seal that leaves the tree as it is.
    fn commit_reseal<B: Board, A: Audit>(
        &self,
        board: &mut B,
        audit: &mut A,
        next: &NextSeal,
    ) -> Result<(), Cut>
        requires line { next.now.at < data_lines self.now.shape }
        requires size { (B.device board.old).size ≡ device_lines self.now.shape }
        requires valid { IsValidRegs self.now.shape (B.device board.old).regs }
        requires no_group { (B.device board.old).regs.group.items ≡ [] }
        requires lines { (A.ledger audit.old).data_lines ≡ data_lines self.now.shape }
        requires room { HasRoom (A.ledger audit.old) (A.capacity audit.old) 1 }
        ensures ended { EndsReseal B.Board A.Audit self.now board.old audit.old
            self.now board.new audit.new next.now result }
        ensures plan { FollowsResealGroup B.Board A.Audit self.now board.old audit.old
            self.now board.new audit.new next.now result }
        ensures capacity { A.capacity audit.new ≡ A.capacity audit.old }
    {
        let mut regs = Regs::empty();
        regs.set(board.regs());
        self.put_seal(&mut regs, next);
        arm(board, &regs)?;
        audit.note_seal(next.at, next.ctr, &next.cipher, &next.tag);
        finish_armed(board, &mut regs)
    }

    // Lets registers with no group arm a seal: its line done, its cipher and its tag line in the group.
    #[inline(always)]
    pub(crate) fn put_seal(&self, regs: &mut Regs, next: &NextSeal)
        requires line { next.now.at < data_lines self.now.shape }
        requires valid { IsValidRegs self.now.shape regs.old }
        requires no_group { regs.old.group.items ≡ [] }
        ensures line_done { HasLineDone next.now.at regs.old regs.new }
        ensures group { regs.new.group.items ≡ entries_of self.now.shape next.now }
        ensures is_group { IsGroup (device_lines self.now.shape) regs.new.group.items }
    {
        done_in(regs, next.at);
        next.cipher.is_whole();
        next.tag_line.is_whole();
        regs.group.push((next.at, next.cipher));
        regs.group.push((self.geo.tag_line(next.at), next.tag_line));
    }
}
