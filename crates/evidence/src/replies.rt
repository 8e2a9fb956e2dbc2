//! The first post and drain of a formatted memory.
ghost use Rattle.std.specs.Prelude.{ℕ, ◌≡◌, ◌+◌, ◌-◌, ◌^◌, List, [], ◌∷◌, ◌++◌, replicate, Some, None};
ghost use Rattle.pmem_base.specs.declared.answers.Answer.TheVariants as Say;
ghost use Rattle.pmem_base.specs.declared.commands.Command.TheVariants as Do;
ghost use Rattle.plain_model.specs.Asked.{marks_asked};
ghost use Rattle.plain_model.specs.View.{true_line};
ghost use Rattle.plain_model.specs.Fits.{Fits};
ghost use Rattle.plain_model.specs.Shown.{IsLegal};
ghost use Rattle.evidence.specs.Samples.{weak, short_tag};
ghost use Rattle.evidence.specs.Rows.{weak_setup, formatted, formatted_view, one_waiting, one_drained_view, zero_post, zero_seal, drained_reply, plain};

/// The first drain of line 0 asks for its seal under 0.1.
pub fn first_drain_asked()
    ensures { marks_asked weak one_waiting formatted_view (Do.Drain 0) ≡ Some (zero_seal ∷ []) }
{}

/// The root of a formatted device, and after one seal of line 0.
pub fn roots()
    ensures formatted { weak.digest_of 0 (true_line weak_setup formatted_view 0) ≡ short_tag 0x15 }
    ensures one_sealed { weak.digest_of 0 (true_line weak_setup one_drained_view 0) ≡ short_tag 0x17 }
{}

/// A post answered ok is legal and fits.
pub fn post_ok()
    ensures legal { IsLegal weak_setup formatted formatted_view zero_post (plain Say.Ok) }
    ensures fits { Fits weak_setup formatted formatted_view zero_post (plain Say.Ok) }
{}

/// A drain with its seal and seven steps is legal and fits.
pub fn drain_ok()
    ensures legal { IsLegal weak_setup one_waiting formatted_view (Do.Drain 0) drained_reply }
    ensures fits { Fits weak_setup one_waiting formatted_view (Do.Drain 0) drained_reply }
{}
