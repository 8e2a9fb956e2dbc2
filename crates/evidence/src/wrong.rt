//! Replies that are wrong, each refuted.
ghost use Rattle.std.specs.Prelude.{ℕ, ◌≡◌, ◌+◌, ◌-◌, ◌^◌, List, [], ◌∷◌, ◌++◌, replicate, map, Some, None};
ghost use Rattle.std.specs.List.{range_with_len};
ghost use Rattle.pmem_base.specs.Lines.{zero_line, filled_line, line_of};
ghost use Rattle.pmem_base.specs.declared.answers.Answer.TheVariants as Say;
ghost use Rattle.pmem_base.specs.declared.answers.Place.TheVariants as Place;
ghost use Rattle.pmem_base.specs.declared.answers.Mark.TheVariants.{Begin, Seal};
ghost use Rattle.pmem_base.specs.declared.answers.Exhibit.TheVariants.{Clash, Forged, Twin};
ghost use Rattle.pmem_base.specs.declared.commands.Command.TheVariants as Do;
ghost use Rattle.plain_model.specs.Fits.{Fits};
ghost use Rattle.plain_model.specs.Shown.{IsLegal};
ghost use Rattle.evidence.specs.Samples.{weak, short_tag, ctr, counting_line};
ghost use Rattle.evidence.specs.Rows.{weak_setup, formatted, formatted_view, one_waiting, zero_post, zero_seal, plain, marked, flipped_state, blur_setup, blur_off, off_state, node_flipped_state, page_open_view, one_drained, all_clean, one_drained_view};
ghost use Rattle.evidence.specs.Traces.{weak_seal, whole_page_seals, view_at_end};

/// A read that prints another line is not legal.
pub fn wrong_line()
    ensures { ¬ IsLegal weak_setup formatted formatted_view (Do.Read 0 0) (plain (Say.Got (filled_line 1) 0)) }
{}

/// Without tampering no data line is refused.
pub fn refused_untampered()
    ensures { ¬ IsLegal weak_setup formatted formatted_view (Do.Read 0 0) (plain (Say.Refused None (Place.Line 0) 0)) }
{}

/// Nor is a metadata line.
pub fn refused_meta_untampered()
    ensures { ¬ IsLegal weak_setup formatted formatted_view (Do.Read 0 0) (plain (Say.Refused None (Place.Meta 0) 0)) }
{}

/// Without a fuse nothing is cut.
pub fn cut_without_fuse()
    ensures { ¬ IsLegal weak_setup formatted formatted_view (Do.Read 0 0) (plain (Say.Cut 0)) }
{}

/// A line in range is not answered `range`.
pub fn range_in_range()
    ensures { ¬ IsLegal weak_setup formatted formatted_view (Do.Read 0 0) (plain Say.Range) }
{}

/// A line flipped under power is not printed.
pub fn spoiled_line()
    ensures { ¬ IsLegal weak_setup flipped_state formatted_view (Do.Read 0 5) (plain (Say.Got zero_line 0)) }
{}

/// A seal under the old counter doesn't fit.
pub fn old_counter()
    ensures { ¬ Fits weak_setup one_waiting formatted_view (Do.Drain 0) (marked (weak_seal 0 (ctr 0 0) zero_line ∷ []) (Say.Drained 7)) }
{}

/// Nor does a drain without its seal.
pub fn no_seal()
    ensures { ¬ Fits weak_setup one_waiting formatted_view (Do.Drain 0) (plain (Say.Drained 7)) }
{}

/// Nor one with too many steps.
pub fn too_many_steps()
    ensures { ¬ Fits weak_setup one_waiting formatted_view (Do.Drain 0) (marked (zero_seal ∷ []) (Say.Drained 12)) }
{}

/// A peek that shows a line in the clear doesn't fit.
pub fn clear_peek()
    ensures { ¬ Fits weak_setup formatted formatted_view (Do.Peek 0) (plain (Say.Raw zero_line)) }
{}

/// A read that takes a step although nothing can be dirty doesn't fit.
pub fn read_step()
    ensures { ¬ Fits weak_setup formatted formatted_view (Do.Read 0 0) (plain (Say.Got zero_line 1)) }
{}

/// A collision of two equal lines is not legal.
pub fn equal_clash()
    ensures { ¬ IsLegal weak_setup flipped_state formatted_view (Do.Read 0 0) (plain (Say.Shown (Clash 5 zero_line zero_line))) }
{}

/// An overflow that keeps the major doesn't fit.
pub fn kept_major()
    ensures { ¬ Fits weak_setup one_waiting (view_at_end (0 ∷ [])) (Do.Drain 0) (marked (Begin 0 ∷ weak_seal 0 (ctr 0 1) zero_line ∷ []) (Say.Drained 7)) }
{}

/// Nor does one that seals the whole page within the drain.
pub fn whole_page_sealed()
    ensures { ¬ Fits weak_setup one_waiting (view_at_end (0 ∷ [])) (Do.Drain 0) (marked whole_page_seals (Say.Drained 259)) }
{}

/// Nor one without its begin.
pub fn no_begin()
    ensures { ¬ Fits weak_setup one_waiting (view_at_end (0 ∷ [])) (Do.Drain 0) (marked (weak_seal 0 (ctr 1 1) zero_line ∷ []) (Say.Drained 7)) }
{}

/// A drain that was cut and lost may show its begin, and nothing more.
pub fn lost_after_begin()
    ensures begun { Fits weak_setup one_waiting (view_at_end (0 ∷ [])) (Do.Drain 0) (marked (Begin 0 ∷ []) (Say.CutLost None 4)) }
    ensures sealed { ¬ Fits weak_setup one_waiting (view_at_end (0 ∷ [])) (Do.Drain 0) (marked (Begin 0 ∷ weak_seal 0 (ctr 1 1) zero_line ∷ []) (Say.CutLost None 4)) }
{}

/// A page that can be re-encrypted is not spent.
pub fn not_spent()
    ensures { ¬ Fits weak_setup one_waiting (view_at_end (0 ∷ [])) (Do.Drain 0) (plain (Say.Spent None 0 0)) }
{}

/// No `idle` while a page is open, and no turn while none is.
pub fn wrong_turns()
    ensures idle { ¬ Fits weak_setup formatted page_open_view Do.Turn (plain Say.Idle) }
    ensures turned { ¬ Fits weak_setup formatted formatted_view Do.Turn (marked (weak_seal 1 (ctr 1 0) zero_line ∷ []) (Say.Turned 62 4)) }
    ensures cut { ¬ Fits weak_setup formatted formatted_view Do.Turn (plain (Say.Cut 0)) }
{}

/// A twin without tampering shows its line's last seal.
pub fn other_twin()
    ensures { ¬ IsLegal blur_setup blur_off formatted_view Do.On (plain (Say.Shown (Twin 0 0 2 3 (counting_line 0) (short_tag 0x11)))) }
{}

/// A tampered node is refused on its own paths alone.
pub fn refused_off_path()
    ensures { ¬ IsLegal weak_setup node_flipped_state formatted_view (Do.Read 0 256) (plain (Say.Refused None (Place.Meta 1) 0)) }
{}

/// A flipped line isn't a reason to refuse another line, or its metadata.
pub fn refused_elsewhere()
    ensures other_line { ¬ IsLegal weak_setup flipped_state formatted_view (Do.Read 0 6) (plain (Say.Refused None (Place.Line 6) 0)) }
    ensures named_line { ¬ IsLegal weak_setup flipped_state formatted_view (Do.Read 0 6) (plain (Say.Refused None (Place.Line 5) 0)) }
    ensures metadata { ¬ IsLegal weak_setup flipped_state formatted_view (Do.Read 0 5) (plain (Say.Refused None (Place.Meta 0) 0)) }
{}

/// A block that was never touched isn't flushed.
pub fn flush_of_clean()
    ensures { ¬ Fits weak_setup formatted formatted_view Do.Flush (plain (Say.Flushed 0 1)) }
{}

/// A recovery makes no more trials than the window of each line of the cached blocks.
pub fn too_many_trials()
    ensures { ¬ Fits weak_setup off_state formatted_view Do.On (plain (Say.Recovered 2049 1 0)) }
{}

/// A counter block that shows a minor above the true one doesn't fit, nor does a stale one if nothing is dirty; if its
/// path may be dirty, a stale one does.
pub fn wrong_blocks()
    ensures above { ¬ Fits weak_setup formatted formatted_view (Do.Peek 1285) (plain (Say.Raw (line_of (replicate 8 0 ++ 2 ∷ replicate 55 0)))) }
    ensures stale { ¬ Fits weak_setup all_clean one_drained_view (Do.Peek 1285) (plain (Say.Raw zero_line)) }
    ensures dirty { Fits weak_setup one_drained one_drained_view (Do.Peek 1285) (plain (Say.Raw zero_line)) }
    ensures written { Fits weak_setup all_clean one_drained_view (Do.Peek 1285) (plain (Say.Raw (line_of (replicate 8 0 ++ 2 ∷ replicate 55 0)))) }
{}
