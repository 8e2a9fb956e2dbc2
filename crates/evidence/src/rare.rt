//! Random traces in which rarer answers come.
ghost use Rattle.std.specs.Prelude.{take, drop};
ghost use Rattle.evidence.specs.Traces.{IsTraceOf, IsTraceAfter};
ghost use Rattle.evidence.specs.Rare as rare;

/// With tampering, 60 commands.
pub fn rare_1()
    ensures { IsTraceOf rare.rare_1_setup rare.rare_1 }
{}

/// With tampering, 60 commands.
pub fn rare_2()
    ensures { IsTraceOf rare.rare_2_setup rare.rare_2 }
{}

/// Without tampering, 64 commands.
pub fn rare_3()
    ensures { IsTraceAfter rare.rare_3_setup rare.rare_3_before rare.rare_3 }
{}

/// With tampering, 64 commands, part 1.
pub fn rare_4_part_1()
    ensures { IsTraceAfter rare.rare_4_setup (take 248 rare.rare_4) (take 5 (drop 248 rare.rare_4)) }
{}

/// With tampering, 64 commands, part 2.
pub fn rare_4_part_2()
    ensures { IsTraceAfter rare.rare_4_setup (take 253 rare.rare_4) (take 5 (drop 253 rare.rare_4)) }
{}

/// With tampering, 64 commands, part 3.
pub fn rare_4_part_3()
    ensures { IsTraceAfter rare.rare_4_setup (take 258 rare.rare_4) (take 5 (drop 258 rare.rare_4)) }
{}

/// With tampering, 64 commands, part 5: what comes between isn't proved.
pub fn rare_4_part_5()
    ensures { IsTraceAfter rare.rare_4_setup (take 268 rare.rare_4) (take 5 (drop 268 rare.rare_4)) }
{}

/// With tampering, 64 commands, part 6.
pub fn rare_4_part_6()
    ensures { IsTraceAfter rare.rare_4_setup (take 273 rare.rare_4) (take 5 (drop 273 rare.rare_4)) }
{}

/// With tampering, 64 commands, part 7.
pub fn rare_4_part_7()
    ensures { IsTraceAfter rare.rare_4_setup (take 278 rare.rare_4) (take 5 (drop 278 rare.rare_4)) }
{}

/// With tampering, 64 commands, part 8.
pub fn rare_4_part_8()
    ensures { IsTraceAfter rare.rare_4_setup (take 283 rare.rare_4) (take 5 (drop 283 rare.rare_4)) }
{}

/// With tampering, 64 commands, part 9.
pub fn rare_4_part_9()
    ensures { IsTraceAfter rare.rare_4_setup (take 288 rare.rare_4) (take 5 (drop 288 rare.rare_4)) }
{}

/// With tampering, 64 commands, part 10.
pub fn rare_4_part_10()
    ensures { IsTraceAfter rare.rare_4_setup (take 293 rare.rare_4) (take 5 (drop 293 rare.rare_4)) }
{}

/// With tampering, 64 commands, part 11.
pub fn rare_4_part_11()
    ensures { IsTraceAfter rare.rare_4_setup (take 298 rare.rare_4) (take 5 (drop 298 rare.rare_4)) }
{}

/// With tampering, 64 commands, part 12.
pub fn rare_4_part_12()
    ensures { IsTraceAfter rare.rare_4_setup (take 303 rare.rare_4) (take 5 (drop 303 rare.rare_4)) }
{}

/// With tampering, 64 commands, part 13.
pub fn rare_4_part_13()
    ensures { IsTraceAfter rare.rare_4_setup (take 308 rare.rare_4) (take 5 (drop 308 rare.rare_4)) }
{}

/// With tampering, 23 commands.
pub fn rare_5()
    ensures { IsTraceOf rare.rare_5_setup rare.rare_5 }
{}

/// Without tampering, 60 commands.
pub fn rare_6()
    ensures { IsTraceOf rare.rare_6_setup rare.rare_6 }
{}

/// With tampering, 64 commands, part 1.
pub fn rare_7_part_1()
    ensures { IsTraceAfter rare.rare_7_setup (take 248 rare.rare_7) (take 12 (drop 248 rare.rare_7)) }
{}

/// With tampering, 64 commands, part 2.
pub fn rare_7_part_2()
    ensures { IsTraceAfter rare.rare_7_setup (take 260 rare.rare_7) (take 12 (drop 260 rare.rare_7)) }
{}

/// With tampering, 64 commands, part 3.
pub fn rare_7_part_3()
    ensures { IsTraceAfter rare.rare_7_setup (take 272 rare.rare_7) (take 12 (drop 272 rare.rare_7)) }
{}

/// With tampering, 64 commands, part 4.
pub fn rare_7_part_4()
    ensures { IsTraceAfter rare.rare_7_setup (take 284 rare.rare_7) (take 12 (drop 284 rare.rare_7)) }
{}

/// With tampering, 64 commands, part 5.
pub fn rare_7_part_5()
    ensures { IsTraceAfter rare.rare_7_setup (take 296 rare.rare_7) (take 12 (drop 296 rare.rare_7)) }
{}

/// With tampering, 64 commands, part 6.
pub fn rare_7_part_6()
    ensures { IsTraceAfter rare.rare_7_setup (take 308 rare.rare_7) (take 12 (drop 308 rare.rare_7)) }
{}

/// With tampering, 60 commands.
pub fn rare_8()
    ensures { IsTraceOf rare.rare_8_setup rare.rare_8 }
{}

/// With tampering, 60 commands.
pub fn rare_9()
    ensures { IsTraceOf rare.rare_9_setup rare.rare_9 }
{}
