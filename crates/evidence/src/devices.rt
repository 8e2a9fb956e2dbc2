//! What recovery makes of a whole small device.
ghost use Rattle.std.specs.Prelude.{true, false, ℕ, ◌≡◌, ◌≢◌, ◌+◌, ◌-◌, ◌^◌, List, [], ◌∷◌, ◌++◌, replicate, Some, None, length, take};
ghost use Rattle.pmem_base.specs.declared.lines.Line.{Line};
ghost use Rattle.pmem_base.specs.Lines.{zero_line, filled_line, line_at};
ghost use Rattle.pmem_base.specs.Layout as layout;
ghost use Rattle.commit_regs.specs.Groups.{redone};
ghost use Rattle.plain_model.specs.View.{true_line};
ghost use Rattle.pmem_engine.specs.Invariants.{is_doubted};
ghost use Rattle.pmem_recovery.specs.Trials.{tried_minors, lines_tried, first_undecided};
ghost use Rattle.pmem_recovery.specs.Fixed.{fixed_line, found_root};
ghost use Rattle.evidence.specs.Samples.{small_shape, weak, short_tag};
ghost use Rattle.evidence.specs.Devices.{line_1_twice, three_lines, three_lines_after, small_weak, small_blur, view_sealed, device_sealed, regs_sealed, device_wrong_tag, device_unnamed};

/// What recovery finds after one seal: the block and the top are named, and are made again.
pub fn recovered_device()
    ensures whole { length (device_sealed small_weak) ≡ layout.device_lines small_shape }
    ensures block_named { is_doubted small_shape (device_sealed small_weak) 1 ≡ true }
    ensures top_named { is_doubted small_shape (device_sealed small_weak) 0 ≡ true }
    ensures other_unnamed { is_doubted small_shape (device_sealed small_weak) 2 ≡ false }
    ensures tried { length (lines_tried small_shape (device_sealed small_weak)) ≡ 64 }
    ensures minor { tried_minors small_weak (device_sealed small_weak) (regs_sealed small_weak) 0 ≡ 1 ∷ [] }
    ensures other_minor { tried_minors small_weak (device_sealed small_weak) (regs_sealed small_weak) 63 ≡ 0 ∷ [] }
    ensures decided { first_undecided small_weak (device_sealed small_weak) (regs_sealed small_weak) ≡ None }
    ensures block { fixed_line small_weak (device_sealed small_weak) (regs_sealed small_weak) 1 ≡ true_line small_weak (view_sealed small_weak) 1 }
    ensures top { fixed_line small_weak (device_sealed small_weak) (regs_sealed small_weak) 0 ≡ true_line small_weak (view_sealed small_weak) 0 }
    ensures root { found_root small_weak (device_sealed small_weak) (regs_sealed small_weak) ≡ (regs_sealed small_weak).root }
{}

/// Another tag fits no minor; an unnamed block gives another root; blur's tags fit two minors.
pub fn refused_devices()
    ensures no_minor { tried_minors small_weak device_wrong_tag (regs_sealed small_weak) 0 ≡ [] }
    ensures no_counter { first_undecided small_weak device_wrong_tag (regs_sealed small_weak) ≡ Some 0 }
    ensures nothing_tried { lines_tried small_shape device_unnamed ≡ [] }
    ensures wrong_root { found_root small_weak device_unnamed (regs_sealed small_weak) ≢ (regs_sealed small_weak).root }
    ensures two_minors { tried_minors small_blur (device_sealed small_blur) (regs_sealed small_blur) 0 ≡ 0 ∷ 1 ∷ [] }
{}

/// A group is written in its order. Writing it again, after all or the first of its lines were written, gives the same
/// lines.
pub fn group_redone()
    ensures again { (group : List (ℕ × Line)) (lines : List Line) → redone group (redone group lines) ≡ redone group lines }
    ensures after_a_part { (group : List (ℕ × Line)) (n : ℕ) (lines : List Line) → redone group (redone (take n group) lines) ≡ redone group lines }
    ensures in_order { redone line_1_twice three_lines ≡ three_lines_after }
{}
