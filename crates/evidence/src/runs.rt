//! A trace's bytes, its steps, and what is printed of them.
#![tactic(auto, unfolding(pmem_base::specs::Lines::zero_line, plain_model::specs::Defaults::default_shape, plain_model::specs::Defaults::default_keys, plain_model::specs::State::no_flags, pmem_base::specs::WaitingWrites::no_writes, plain_model::specs::State::start_state, plain_model::specs::View::start_view, plain_model::specs::Lines::lines_of, collision_witness::specs::Words::without_return, collision_witness::specs::Words::words_of, collision_witness::specs::Words::number_up_to, plain_model::specs::Words::port_of, collision_witness::specs::Words::hex_bytes, plain_model::specs::Grammar::command_of, plain_model::specs::Grammar::command_among, plain_model::specs::Grammar::reading_of_words, plain_model::specs::Grammar::reading_among, plain_model::specs::Texts::answer_text, plain_model::specs::Texts::mark_text, plain_model::specs::Run::start, plain_model::specs::Run::machine_after, plain_model::specs::Run::stop_text, hex::specs::Hex::decode_pairs, hex::specs::Hex::encode_with,))]

ghost use Rattle.std.specs.Prelude.{ℕ, ◌≡◌, ◌+◌, List, [], ◌∷◌, ◌++◌, codes, replicate, Some, None};
ghost use Rattle.pmem_base.specs.declared.commands.Kind.TheVariants as Kind;
ghost use Rattle.plain_model.specs.declared.Stop.TheVariants as Stop;
ghost use Rattle.plain_model.specs.Run.{Ends, output_of};
ghost use Rattle.evidence.specs.Rows.{weak_setup};
ghost use Rattle.evidence.specs.Runs.{hex_zeros, first_steps, first_trace};

/// From a trace's bytes to its steps: a post, a drain and a read, with a comment and a blank line.
pub fn finished_run()
    ensures { Ends weak_setup Stop.Finished first_trace None first_steps }
{}

/// A line outside the grammar ends the run.
pub fn refused_run()
    ensures { Ends weak_setup (Stop.Refused 6 Kind.Word) (first_trace ++ codes "reed 0 0\nread 0 0\n") None first_steps }
{}

/// A failed source leaves a line unfinished.
pub fn cut_short_run()
    ensures { Ends weak_setup Stop.ReadFault (first_trace ++ codes "re") (Some []) first_steps }
{}

/// A run stops for memory only instead of the reply to the next line's command: a malformed line ends the run first.
pub fn starved_run_refuted()
    ensures { ¬ Ends weak_setup Stop.Memory (first_trace ++ codes "reed 0 0\ndrain 0\n") None first_steps }
{}

/// What is printed.
pub fn output_shown()
    ensures finished { output_of first_steps Stop.Finished ≡ codes "ok\nseal 0 0.1 00000000000000000000000000000051\nok 7\nline " ++ hex_zeros ++ codes " 0\n" }
    ensures refused { output_of [] (Stop.Refused 3 Kind.Word) ≡ codes "stop line 3 1\n" }
    ensures failed { output_of [] Stop.ReadFault ≡ codes "stop read\n" }
{}
