//! Pads, tags, digests, counter blocks, paths and the layout at worked values.
ghost use Rattle.std.specs.Prelude.{true, false, ℕ, ◌≡◌, ◌+◌, ◌-◌, ◌/◌, ◌^◌, ◌≤◌, ◌<◌, List, [], ◌∷◌, ◌++◌, replicate, slice_index};
ghost use Rattle.std.specs.List.{range_with_len};
ghost use Rattle.pmem_base.specs.Lines.{line_of, zero_line, filled_line};
ghost use Rattle.pmem_base.specs.Layout as layout;
ghost use Rattle.pmem_base.specs.Shape.{Shape};
ghost use Rattle.suite.specs.Formulas.{cipher_of};
ghost use Rattle.split_counters.specs.Blocks.{packed, unpacked};
ghost use Rattle.bonsai_tree.specs.Positions.{path_of, level_of, parent, child_slot, is_on_path};
ghost use Rattle.plain_model.specs.Defaults.{default_shape};
ghost use Rattle.evidence.specs.Positions.{position_over};
ghost use Rattle.evidence.specs.Samples.{small_shape, three_levels, weak, blur, ctr, counting_line, short_tag, one_byte_line};

/// The weak suite's pad, tag and digest of the written examples, and blur's tag.
pub fn weak_examples()
    ensures pad { weak.pad_of 0 (ctr 0 0) ≡ counting_line 0 }
    ensures tag { weak.tag_of 0 (ctr 0 1) (counting_line 1) ≡ short_tag 0x51 }
    ensures blurred { blur.tag_of 0 (ctr 0 1) (counting_line 1) ≡ short_tag 0x50 }
    ensures digest { weak.digest_of 5 (one_byte_line 1) ≡ short_tag 0x05 }
    ensures digest_of_zero { weak.digest_of 0 zero_line ≡ short_tag 0x01 }
    ensures cipher { cipher_of weak 4032 (ctr 0 1) zero_line ≡ line_of (range_with_len 0xc1 63 ++ 0 ∷ []) }
    ensures tag_4032 { weak.tag_of 4032 (ctr 0 1) (cipher_of weak 4032 (ctr 0 1) zero_line) ≡ short_tag 0x1e }
{}

/// Two counter blocks' bytes, and back.
pub fn block_examples()
    ensures minor_0 { packed (record { major = 0; minors = 1 ∷ replicate 63 0 }) ≡ line_of (replicate 8 0 ++ 2 ∷ replicate 55 0) }
    ensures minor_5 { packed (record { major = 0; minors = replicate 5 0 ++ 1 ∷ replicate 58 0 }) ≡ line_of (replicate 13 0 ++ 0x40 ∷ replicate 50 0) }
    ensures back { unpacked (line_of (replicate 13 0 ++ 0x40 ∷ replicate 50 0)) ≡ record { major = 0; minors = replicate 5 0 ++ 1 ∷ replicate 58 0 } }
{}

/// Paths of the tree.
pub fn path_examples()
    ensures two { path_of default_shape 0 ≡ 0 ∷ 1 ∷ 5 ∷ [] }
    ensures three { path_of three_levels 0 ≡ 0 ∷ 1 ∷ 5 ∷ 21 ∷ [] }
    ensures last { path_of three_levels 63 ≡ 0 ∷ 4 ∷ 20 ∷ 84 ∷ [] }
    ensures levels { level_of 84 ≡ 3 }
    ensures deepest { level_of 5460 ≡ 6 }
    ensures above { parent 5 ≡ 1 }
    ensures slot { child_slot 84 ≡ 3 }
{}

/// A position on a page's path lies as far into its level as there are whole subtrees of that level before the page.
pub fn path_positions()
    ensures { (shape : Shape) (page x : ℕ) → shape.levels ≤ 6 → page < layout.pages shape → is_on_path shape page x ≡ true
        → x ≡ position_over shape page (level_of x) }
{}

/// The default device: its parts and its size.
pub fn layout_examples()
    ensures data { layout.data_lines default_shape ≡ 1024 }
    ensures tags { layout.tag_line default_shape 0 ≡ 1024 }
    ensures last_tags { layout.tag_line default_shape 1023 ≡ 1279 }
    ensures first_meta { layout.meta_line default_shape 0 ≡ 1280 }
    ensures last_meta { layout.meta_line default_shape 20 ≡ 1300 }
    ensures metas { layout.meta_lines default_shape ≡ 21 }
    ensures counter_shadow { layout.shadow_line default_shape 0 ≡ 1301 }
    ensures tree_shadow { layout.shadow_line default_shape 1 ≡ 1302 }
    ensures size { layout.device_lines default_shape ≡ 1303 }
    ensures largest { layout.device_lines (record { levels = 6; sets = 64; ways = 8; loss = 4; major = 0; persist = 0; shadow = true; durable = false; combines = false }) ≡ 333365 }
{}
