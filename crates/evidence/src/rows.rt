//! Traces with their replies, each a chain of legal replies that fit.
ghost use Rattle.std.specs.Prelude.{ℕ, ◌≡◌, ◌+◌, ◌-◌, ◌^◌, List, [], ◌∷◌, ◌++◌};
ghost use Rattle.evidence.specs.Rows.{weak_setup, blur_setup};
ghost use Rattle.evidence.specs.Traces as traces;
ghost use Rattle.pmem_base.specs.Lines.{zero_line};
ghost use Rattle.evidence.specs.Chains.{IsChain};
ghost use Rattle.plain_model.specs.State.{start_state};
ghost use Rattle.evidence.specs.Samples.{ctr, short_tag, weak};
ghost use Rattle.evidence.specs.Traces.{IsTraceOf, IsTraceFrom, view_at_end, weak_seal};
ghost use Rattle.pmem_base.specs.declared.answers.Mark.TheVariants.{Begin, Seal};

/// What a peek shows before and after a write.
pub fn peeks()
    ensures { IsTraceOf weak_setup traces.peeks }
{}

/// A cut before the arming latch.
pub fn cut_lost()
    ensures { IsTraceOf weak_setup traces.cut_lost }
{}

/// A cut after the arming latch, and a cut of recovery.
pub fn cut_kept()
    ensures { IsTraceOf weak_setup traces.cut_kept }
{}

/// A refusal of a flipped line, and its healing.
pub fn flipped()
    ensures { IsTraceOf weak_setup traces.flipped }
{}

/// A line flipped twice is read.
pub fn flipped_back()
    ensures { IsTraceOf weak_setup traces.flipped_back }
{}

/// A replay ends in a wrong root.
pub fn replayed()
    ensures { IsTraceOf weak_setup traces.replayed }
{}

/// A tampered node is refused.
pub fn node_flipped()
    ensures { IsTraceOf weak_setup traces.node_flipped }
{}

/// A fence of three writes.
pub fn fenced()
    ensures { IsTraceOf weak_setup traces.fenced }
{}

/// A short write.
pub fn parted()
    ensures { IsTraceOf weak_setup traces.parted }
{}

/// A smaller stop-loss number.
pub fn loss_lowered()
    ensures { IsTraceOf weak_setup traces.loss_lowered }
{}

/// A forged tag.
pub fn forged()
    ensures { IsTraceOf weak_setup traces.forged }
{}

/// A collision.
pub fn clashed()
    ensures { IsTraceOf traces.major_one traces.clashed }
{}

/// Two equal tags.
pub fn twinned()
    ensures { IsTraceOf blur_setup traces.twinned }
{}

/// An overflow that opens page 0.
pub fn overflowed()
    ensures { IsTraceFrom (view_at_end (0 ∷ [])) traces.overflowed }
{}

/// All turns of that page, and then none.
pub fn all_turned()
    ensures { IsTraceFrom (view_at_end (0 ∷ [])) traces.all_turned }
{}

/// A cut turn, recovery, and the next turn.
pub fn turn_cut()
    ensures { IsTraceFrom (view_at_end (0 ∷ [])) traces.turn_cut }
{}

/// Four open pages, and a fifth.
pub fn five_opened()
    ensures { IsTraceFrom (view_at_end (0 ∷ 64 ∷ 128 ∷ 192 ∷ 256 ∷ [])) traces.five_opened }
{}

/// A short write into a flipped line.
pub fn part_refused()
    ensures { IsTraceOf weak_setup traces.part_refused }
{}

/// A short write refused in a fence, after an overflow of its page.
pub fn fence_refused()
    ensures { IsTraceFrom (view_at_end (0 ∷ [])) traces.fence_refused }
{}

/// A write whose counter is used up.
pub fn spent()
    ensures { traces.IsSpentTrace traces.spent_trace }
{}

/// A refusal while an open page is finished for an overflow of that page.
pub fn finish_refused()
    ensures { IsTraceFrom traces.nearly_done traces.finish_refused }
{}

/// An overflow of a page whose finishing succeeds, and the first turn after it.
pub fn finished()
    ensures { IsTraceFrom traces.nearly_done traces.finished }
{}
