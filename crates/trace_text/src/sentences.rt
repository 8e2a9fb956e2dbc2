//! Words and up to three numbers appended to a text.
ghost use Rattle.std.specs.Prelude.{◌≡◌, ◌≤◌, ◌+◌, ◌∷◌, [], ◌++◌, length, decimal};
ghost use Rattle.collision_witness.specs.Texts.{sentence};

use arrayvec::ArrayVec;
use collision_witness::push_counts;

/// Appends words and a number, with a space before it.
pub fn push_with_number(text: &mut ArrayVec<u8, 512>, words: &[u8], number: u64)
    requires { length text.old.items + length words.now + 21 ≤ 512 }
    ensures text { text.new.items ≡ text.old.items ++ sentence (words.now ∷ decimal number ∷ []) }
    ensures length { length text.new.items ≤ length text.old.items + length words.now + 21 }
{
    push_counts(text, words, &[number]);
}

/// Appends words and two numbers, with a space before each.
pub fn push_with_two(text: &mut ArrayVec<u8, 512>, words: &[u8], first: u64, second: u64)
    requires { length text.old.items + length words.now + 42 ≤ 512 }
    ensures text { text.new.items ≡ text.old.items
        ++ sentence (words.now ∷ decimal first ∷ decimal second ∷ []) }
    ensures length { length text.new.items ≤ length text.old.items + length words.now + 42 }
{
    push_counts(text, words, &[first, second]);
}

/// Appends words and three numbers, with a space before each.
pub fn push_with_three(
    text: &mut ArrayVec<u8, 512>,
    words: &[u8],
    first: u64,
    second: u64,
    third: u64,
)
    requires { length text.old.items + length words.now + 63 ≤ 512 }
    ensures text { text.new.items ≡ text.old.items
        ++ sentence (words.now ∷ decimal first ∷ decimal second ∷ decimal third ∷ []) }
    ensures length { length text.new.items ≤ length text.old.items + length words.now + 63 }
{
    push_counts(text, words, &[first, second, third]);
}
