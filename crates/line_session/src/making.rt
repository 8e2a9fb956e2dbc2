//! A call of the store in a session.
ghost use Rattle.std.specs.Prelude.{◌≡◌, ◌<◌, ◌≤◌, true, false, IfSome, IsSomeAnd, IfOk, OnErr, None, if◌then◌else◌};
ghost use Rattle.trace_text.specs.Logged.{IsLoggedBy};
ghost use Rattle.line_session.specs.State.{setup_in};
ghost use Rattle.line_session.specs.World.{IsLineWorld};
ghost use Rattle.line_session.specs.Made.{IsDoneUnder, IsRoomWanted, undone};

use crate::calls::{LineStore, StoreCall, call as make_call};
use crate::marks::is_kept;
use crate::session::LineSession;
use access_log::AccessLog;
use pmem_base::MemFault;
use seal_ledger::Audit;
use suite::Suite;

/// What a call of the store comes to in a session.
#[derive(Clone, Copy)]
pub enum Done<V, F> {
    /// Power is off, so nothing was done.
    Off,
    /// The line doesn't exist.
    Range,
    /// The call took `steps` persist steps, and ended this way. `sealed`: in a cut, whether an own seal of its line is
    /// among its marks.
    Ended {
        steps: u64,
        sealed: bool,
        answer: Result<V, F>,
    },
}

/// Whether a line that is asked for is there.
fn has_asked(asked: Option<u64>, lines: u32) -> bool
    ensures there { result ≡ true → IfSome asked (λ at. at < lines) }
    ensures not { result ≡ false → IsSomeAnd asked (λ at. lines ≤ at) }
{
    match asked {
        Some(at) => at < u64::from(lines),
        None => true,
    }
}

/// Drops the store if power was cut.
fn drop_if<L: LineStore>(store: &mut Option<L>, cut: bool)
    ensures { store.new ≡ (if cut then None else store.old) }
{
    if cut {
        *store = None;
    }
}

impl<S: Suite + Drop, L: LineStore> LineSession<S, L> {
    /// Makes a call of the store. Errors: running out of memory for its marks, and then nothing is done.
    pub fn make<C: StoreCall<Store = L>>(
        &mut self,
        call: &C,
        log: &mut AccessLog,
    ) -> Result<Done<C::Value, C::Fault>, MemFault>
        requires can { IfSome self.old.store (λ store. C.can call.now store) }
        ensures world { IsLineWorld L.engine (setup_in S.formulas_of self.old.state) self.old }
        ensures done { IfOk result (λ done. IsDoneUnder S.formulas_of L.engine L.lines (C.relation call.now) (C.asked call.now) (C.own call.now)
            self.old done self.new) }
        ensures err { OnErr result (self.new ≡ self.old) }
        ensures wanting { OnErr result (IsRoomWanted L.lines (C.asked call.now) (C.room call.now) self.old) }
        ensures logged { IsLoggedBy (undone result) log.old self.old.state.board log.new self.new.state.board }
    {
        let Some(store) = &mut self.store else {
            return Ok(Done::Off);
        };
        if !has_asked(call.asked(), store.lines()) {
            return Ok(Done::Range);
        }
        self.ledger.reserve(call.room())?;
        let from = self.ledger.marks().len();
        let own = call.own(store);
        let done = make_call(
            call,
            store,
            &mut self.board,
            &mut self.suite,
            &mut self.ledger,
            log,
        );
        let cut = C::is_cut(&done.answer);
        drop_if(&mut self.store, cut);
        Ok(Done::Ended {
            steps: done.taken.steps(),
            sealed: is_kept(&self.ledger, from, own, cut),
            answer: done.answer,
        })
    }
}
