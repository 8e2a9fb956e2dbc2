//! Texts of answers, marks, commands and replies.
ghost use Rattle.std.specs.Prelude.{ℕ, ◌≡◌, ◌+◌, ◌^◌, List, [], ◌∷◌, ◌++◌, replicate, codes, Ok, Err, Some, None};
ghost use Rattle.pmem_base.specs.Lines.{line_of, zero_line, filled_line};
ghost use Rattle.pmem_base.specs.declared.answers.Place.TheVariants as Place;
ghost use Rattle.pmem_base.specs.declared.answers.Mark.TheVariants.{Begin, Seal};
ghost use Rattle.pmem_base.specs.declared.answers.Exhibit.TheVariants.{Twin};
ghost use Rattle.pmem_base.specs.declared.answers.Answer.TheVariants as Say;
ghost use Rattle.pmem_base.specs.declared.commands.Command.TheVariants as Do;
ghost use Rattle.plain_model.specs.Texts.{mark_text, answer_text, command_text, reply_text};
ghost use Rattle.evidence.specs.Samples.{ctr, short_tag, counting_line};

/// Texts of answers, marks and commands.
pub fn texts_shown()
    ensures drained { answer_text (Say.Drained 7) ≡ codes "ok 7" }
    ensures fenced { answer_text (Say.Fenced 3 16) ≡ codes "ok 3 16" }
    ensures turned { answer_text (Say.Turned 62 4) ≡ codes "ok 62 4" }
    ensures kept { answer_text (Say.CutKept None 4) ≡ codes "cut kept 4" }
    ensures fence_lost { answer_text (Say.CutLost (Some 2) 3) ≡ codes "cut lost 2 3" }
    ensures refused { answer_text (Say.Refused None (Place.Line 5) 0) ≡ codes "refused data 5 0" }
    ensures fence_refused { answer_text (Say.Refused (Some 1) (Place.Meta 5) 0) ≡ codes "refused 1 meta 5 0" }
    ensures root { answer_text (Say.WrongRoot (short_tag 0x17) (short_tag 0x15) 0) ≡ codes "refused root 00000000000000000000000000000017 00000000000000000000000000000015 0" }
    ensures recovered { answer_text (Say.Recovered 256 9 8) ≡ codes "on 256 9 8" }
    ensures none { answer_text Say.NoSnap ≡ codes "none" }
    ensures begun { mark_text (Begin 0) ≡ codes "begin 0" }
    ensures sealed { mark_text (Seal 0 (ctr 0 1) (counting_line 1) (short_tag 0x51)) ≡ codes "seal 0 0.1 00000000000000000000000000000051" }
    ensures moved { command_text (Do.Move 2 0) ≡ codes "move 2 0" }
    ensures part { command_text (Do.Part 0 0 2 2 (line_of (0xaa ∷ 0xbb ∷ replicate 62 0))) ≡ codes "part 0 0 2 aabb" }
    ensures reply { reply_text (record { marks = Begin 3 ∷ []; answer = Say.Drained 7 }) ≡ codes "begin 3\nok 7\n" }
{}
