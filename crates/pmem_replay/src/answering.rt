//! One command after another.
ghost use Rattle.std.specs.Prelude.{◌≡◌, false, length, IfOk, OnOk, OnErr, IsTrue};
ghost use Rattle.pmem_base.specs.Ranges.{IsCommand};
ghost use Rattle.plain_model.specs.Run.{takes_memory};
ghost use Rattle.pmem_replay.specs.World.{setup_of_world};
ghost use Rattle.pmem_replay.specs.Replies.{with_marks_since};
ghost use Rattle.pmem_replay.specs.Logged.{IsLogged, IsLogKept};
ghost use Rattle.pmem_replay.specs.Stepped.{HasStepped, reply_in, AddsFewSteps, CanWantMemory};

use crate::{Reply, World};
use access_log::AccessLog;
use pmem_base::{Answer, Command, MemFault};
use std::alloc::Global;
use suite::Counted;

impl<S: Counted + Drop> World<S> {
    /// Answers a command. Errors: running out of memory, and then nothing changes.
    pub fn step(&mut self, alloc: Global, command: &Command) -> Result<Reply, MemFault>
        requires running { self.old.shown ≡ false }
        requires command { IsCommand command.now }
        ensures stepped { IfOk result (λ reply. HasStepped (setup_of_world S.formulas_of self.old) self.old command.now (reply_in self.new reply) self.new) }
        ensures from { IfOk result (λ reply. reply.from ≡ length self.old.ledger.marks) }
        ensures to { IfOk result (λ reply. reply.to ≡ length self.new.ledger.marks) }
        ensures few { IfOk result (λ _. AddsFewSteps self.old self.new) }
        ensures err { OnErr result (self.new ≡ self.old) }
        ensures wanting { OnErr result (CanWantMemory self.old.state command.now) }
        ensures memory { OnErr result (IsTrue (takes_memory command.now)) }
    {
        let mut log = AccessLog::none();
        self.step_logged(alloc, command, &mut log)
    }

    /// Answers a command, and logs its accesses of the board, if a log is kept. Errors: running out of memory, and then
    /// nothing of the world changes. If only memory for the log runs out, the command is answered, and the log lost.
    pub fn step_logged(
        &mut self,
        alloc: Global,
        command: &Command,
        log: &mut AccessLog,
    ) -> Result<Reply, MemFault>
        requires running { self.old.shown ≡ false }
        requires command { IsCommand command.now }
        ensures stepped { IfOk result (λ reply. HasStepped (setup_of_world S.formulas_of self.old) self.old command.now (reply_in self.new reply) self.new) }
        ensures from { IfOk result (λ reply. reply.from ≡ length self.old.ledger.marks) }
        ensures to { IfOk result (λ reply. reply.to ≡ length self.new.ledger.marks) }
        ensures few { IfOk result (λ _. AddsFewSteps self.old self.new) }
        ensures err { OnErr result (self.new ≡ self.old) }
        ensures wanting { OnErr result (CanWantMemory self.old.state command.now) }
        ensures memory { OnErr result (IsTrue (takes_memory command.now)) }
        ensures logged { OnOk result (IsLogged command.now log.old self.old.board log.new self.new.board) }
        ensures kept { IsLogKept self.old.shape self.old.state command.now log.old log.new }
    {
        self.holds();
        let from = self.marks().len();
        let answer = self.answer(alloc, command, log)?;
        Ok(Reply {
            from,
            to: self.marks().len(),
            answer,
        })
    }

    /// What a command answers, whose accesses of the board are logged.
    #[tactic(auto, using(crate::proofs::Steps::PartsOfWorld::unmarked))]
    fn answer(
        &mut self,
        alloc: Global,
        command: &Command,
        log: &mut AccessLog,
    ) -> Result<Answer, MemFault>
        requires running { self.old.shown ≡ false }
        requires command { IsCommand command.now }
        ensures stepped { IfOk result (λ answer. HasStepped (setup_of_world S.formulas_of self.old) self.old command.now (with_marks_since self.old self.new answer) self.new) }
        ensures err { OnErr result (self.new ≡ self.old) }
        ensures wanting { OnErr result (CanWantMemory self.old.state command.now) }
        ensures memory { OnErr result (IsTrue (takes_memory command.now)) }
        ensures logged { OnOk result (IsLogged command.now log.old self.old.board log.new self.new.board) }
        ensures kept { IsLogKept self.old.shape self.old.state command.now log.old log.new }
    {
        match command {
            Command::Post { port, at, line } => Ok(self.post(*port, *at, line)),
            Command::Part {
                port,
                at,
                from,
                count,
                line,
            } => Ok(self.part(*port, *at, *from, *count, line)),
            Command::Drain { port } => self.drain(*port, log),
            Command::Fence { port } => self.fence(*port, log),
            Command::Read { port, at } => Ok(self.read(*port, *at, log)),
            Command::Turn => self.turn(log),
            Command::Flush => Ok(self.flush(log)),
            Command::Cut { n } => Ok(self.cut(*n)),
            Command::Off => Ok(self.off()),
            Command::On => self.on(alloc, log),
            Command::Poke { at, line } => Ok(self.poke(*at, line)),
            Command::Flip { at, bit } => Ok(self.flip(*at, *bit)),
            Command::Move { from, to } => Ok(self.move_line(*from, *to)),
            Command::Snap => self.snap(),
            Command::Back { at } => Ok(self.back(*at)),
            Command::Peek { at } => Ok(self.peek(*at)),
            Command::Stat => Ok(self.stat()),
            Command::Loss { n } => Ok(self.loss(*n, log)),
        }
    }
}
