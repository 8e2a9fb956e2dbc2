//! Random traces, with the replies of a program written apart from these definitions.
ghost use Rattle.evidence.specs.Traces.{IsTraceOf, IsTraceAfter};
ghost use Rattle.evidence.specs.Random as random;

/// Without tampering, 80 commands.
pub fn calm_one()
    ensures { IsTraceOf random.calm_one_setup random.calm_one }
{}

/// Without tampering, 80 commands.
pub fn calm_two()
    ensures { IsTraceOf random.calm_two_setup random.calm_two }
{}

/// Without tampering, 320 commands: the last of them.
pub fn calm_pages()
    ensures { IsTraceAfter random.calm_pages_setup random.calm_pages_before random.calm_pages }
{}

/// With tampering, 80 commands.
pub fn tampered_one()
    ensures { IsTraceOf random.tampered_one_setup random.tampered_one }
{}

/// With tampering, 80 commands.
pub fn tampered_two()
    ensures { IsTraceOf random.tampered_two_setup random.tampered_two }
{}

/// With tampering, 80 commands.
pub fn tampered_three()
    ensures { IsTraceOf random.tampered_three_setup random.tampered_three }
{}

/// With tampering, 80 commands.
pub fn tampered_four()
    ensures { IsTraceOf random.tampered_four_setup random.tampered_four }
{}

/// With tampering, 80 commands.
pub fn tampered_five()
    ensures { IsTraceOf random.tampered_five_setup random.tampered_five }
{}

/// With tampering, 318 commands: the last of them.
pub fn tampered_pages()
    ensures { IsTraceAfter random.tampered_pages_setup random.tampered_pages_before random.tampered_pages }
{}

/// Without tampering, 22 commands.
pub fn blurred()
    ensures { IsTraceOf random.blurred_setup random.blurred }
{}
