//! The places of the logical lines: of n + 1 places, n hold one line each, and one is the gap.
ghost use Rattle.std.specs.Prelude.{◌≡◌, ◌≤◌, ◌<◌, ◌^◌};
ghost use Rattle.start_gap.specs.Wear.{IsWear, place_of, next_wear, source_of};

/// How far the lines are turned (`start`, below n), and which place is the gap (`gap`, at most n).
#[derive(Clone, Copy, Debug, PartialEq, Eq)]
pub struct Wear {
    pub start: u32,
    pub gap: u32,
}

/// The place of a logical line: the line turned by the start, and one further from the gap on.
pub fn place(n: u32, wear: &Wear, line: u32) -> u32
    requires lines { n ≤ 2 ^ 30 }
    requires wear { IsWear n wear.now }
    requires line { line < n }
    ensures place { result ≡ place_of n wear.now line }
    ensures within { result ≤ n }
{
    let turned = (line + wear.start) % n;
    if turned < wear.gap {
        turned
    } else {
        turned + 1
    }
}

/// The wear after a move: the gap goes down by one place. From place 0 it goes to place n, and the lines
/// are turned by one more.
pub fn next(n: u32, wear: &Wear) -> Wear
    requires lines { n ≤ 2 ^ 30 }
    requires wear { IsWear n wear.now }
    ensures next { result ≡ next_wear n wear.now }
    ensures wear { IsWear n result }
{
    if wear.gap == 0 {
        Wear {
            start: (wear.start + 1) % n,
            gap: n,
        }
    } else {
        Wear {
            start: wear.start,
            gap: wear.gap - 1,
        }
    }
}

/// The place whose line a move copies into the gap: the one below it, or place n if the gap is place 0.
pub fn source(n: u32, wear: &Wear) -> u32
    requires { IsWear n wear.now }
    ensures source { result ≡ source_of n wear.now }
    ensures within { result ≤ n }
{
    if wear.gap == 0 { n } else { wear.gap - 1 }
}
