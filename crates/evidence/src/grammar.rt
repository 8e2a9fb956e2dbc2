//! Lines and what they are read as.
#![tactic(auto, unfolding(plain_model::specs::Lines::lines_of, collision_witness::specs::Words::without_return, collision_witness::specs::Words::words_of, collision_witness::specs::Words::number_up_to, plain_model::specs::Words::port_of, collision_witness::specs::Words::hex_bytes, collision_witness::specs::Words::some_hex_bytes, plain_model::specs::Grammar::command_of, plain_model::specs::Grammar::command_among, plain_model::specs::Grammar::reading_of_words, plain_model::specs::Grammar::reading_among, hex::specs::Hex::decode_pairs,))]

ghost use Rattle.std.specs.Prelude.{ℕ, ◌≡◌, ◌+◌, ◌-◌, ◌^◌, List, [], ◌∷◌, ◌++◌, replicate, codes, Ok, Err, Some, None};
ghost use Rattle.std.specs.List.{range_with_len};
ghost use Rattle.pmem_base.specs.Lines.{line_of, zero_line, filled_line};
ghost use Rattle.pmem_base.specs.declared.commands.Kind.TheVariants as Kind;
ghost use Rattle.pmem_base.specs.declared.commands.Command.TheVariants as Do;
ghost use Rattle.plain_model.specs.Grammar.{reading_of};
ghost use Rattle.plain_model.specs.Lines.{lines_of};

/// Commands that are read, and lines that are skipped.
pub fn lines_read()
    ensures read { reading_of (codes "  read\t0  0\r") ≡ Ok (Some (Do.Read 0 0)) }
    ensures zeros { reading_of (codes "drain 000") ≡ Ok (Some (Do.Drain 0)) }
    ensures post { reading_of (codes "post 0 5 " ++ replicate 128 0x41) ≡ Ok (Some (Do.Post 0 5 (filled_line 0xaa))) }
    ensures largest { reading_of (codes "read 0 18446744073709551615") ≡ Ok (Some (Do.Read 0 (2 ^ 64 - 1))) }
    ensures comment { reading_of (codes " # note\r") ≡ Ok None }
    ensures blank { reading_of (codes " \t ") ≡ Ok None }
    ensures empty { reading_of [] ≡ Ok None }
{}

/// Lines that are refused, each with its kind.
pub fn lines_refused()
    ensures unknown { reading_of (codes "reed 0 0") ≡ Err Kind.Word }
    ensures upper_case { reading_of (codes "READ 0 0") ≡ Err Kind.Word }
    ensures few { reading_of (codes "read 0") ≡ Err Kind.Count }
    ensures many { reading_of (codes "drain 0 1") ≡ Err Kind.Count }
    ensures count_first { reading_of (codes "read x") ≡ Err Kind.Count }
    ensures port_above { reading_of (codes "read 8 0") ≡ Err Kind.Port }
    ensures port_no_number { reading_of (codes "read x 0") ≡ Err Kind.Number }
    ensures leftmost { reading_of (codes "read 9 x") ≡ Err Kind.Port }
    ensures too_large { reading_of (codes "read 0 18446744073709551616") ≡ Err Kind.Number }
    ensures long_number { reading_of (codes "read 0 000000000000000000001") ≡ Err Kind.Number }
    ensures short_hex { reading_of (codes "post 0 0 " ++ replicate 127 0x30) ≡ Err Kind.Hex }
    ensures long_line { reading_of (replicate 1025 0x61) ≡ Err Kind.Long }
    ensures long_comment { reading_of (0x23 ∷ replicate 1024 0x61) ≡ Err Kind.Long }
    ensures not_too_long { reading_of (replicate 1024 0x61) ≡ Err Kind.Word }
{}

/// Commands of several kinds.
pub fn verbs_read()
    ensures part { reading_of (codes "part 0 0 2 aaBB") ≡ Ok (Some (Do.Part 0 0 2 2 (line_of (0xaa ∷ 0xbb ∷ replicate 62 0)))) }
    ensures odd_part { reading_of (codes "part 0 0 0 0") ≡ Err Kind.Hex }
    ensures turn { reading_of (codes "turn") ≡ Ok (Some Do.Turn) }
    ensures many { reading_of (codes "turn 1") ≡ Err Kind.Count }
    ensures cut { reading_of (codes "cut 3") ≡ Ok (Some (Do.Cut 3)) }
    ensures moved { reading_of (codes "move 2 0") ≡ Ok (Some (Do.Move 2 0)) }
{}

/// A trace's bytes are split at each LF, and a rest is a line if it has a byte.
pub fn lines_cut()
    ensures none { lines_of [] ≡ [] }
    ensures blank { lines_of (10 ∷ []) ≡ [] ∷ [] }
    ensures rest { lines_of (codes "a\n\nb") ≡ codes "a" ∷ [] ∷ codes "b" ∷ [] }
    ensures whole { lines_of (codes "a\nb\n") ≡ codes "a" ∷ codes "b" ∷ [] }
{}
