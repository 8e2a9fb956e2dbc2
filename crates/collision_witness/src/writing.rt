//! The texts of exhibits.
ghost use Rattle.std.specs.Prelude.{◌≡◌, ◌<◌, ◌≤◌, ◌+◌, ◌∷◌, [], ◌++◌, length, codes, Ok};
ghost use Rattle.collision_witness.specs.Exhibits.{AreSmallMinors};
ghost use Rattle.pmem_base.specs.Ranges.{IsExhibitValue};
ghost use Rattle.collision_witness.specs.Reading.{exhibit_of_line};
ghost use Rattle.collision_witness.specs.Texts.{exhibit_text, counter_text, line_text, hex_text};

use crate::texts::{push_bytes, push_counts, push_line, push_number, push_tag};
use arrayvec::ArrayVec;
use pmem_base::{Ctr, Exhibit, Line, Tag};

/// Appends a counter, with a dot between its numbers.
pub fn push_counter(text: &mut ArrayVec<u8, 512>, ctr: Ctr)
    requires { length text.old.items + 41 ≤ 512 }
    ensures text { text.new.items ≡ text.old.items ++ counter_text ctr }
    ensures length { length text.new.items ≤ length text.old.items + 41 }
{
    push_number(text, ctr.major);
    push_bytes(text, b".");
    push_number(text, u64::from(ctr.minor));
}

/// Appends a space, a line, a space and a tag.
fn push_cipher(text: &mut ArrayVec<u8, 512>, cipher: &Line, tag: &Tag)
    requires { length text.old.items + 162 ≤ 512 }
    ensures text { text.new.items ≡ text.old.items ++ 32 ∷ line_text cipher.now ++ 32 ∷ hex_text tag.now }
    ensures length { length text.new.items ≡ length text.old.items + 162 }
{
    push_bytes(text, b" ");
    push_line(text, cipher);
    push_bytes(text, b" ");
    push_tag(text, tag);
}

/// Puts the text of an exhibit into an empty text, without its LF, as `shown_text` does for a new
/// one.
#[tactic(auto, unfolding(crate::specs::Texts::exhibit_text))]
pub fn push_shown(text: &mut ArrayVec<u8, 512>, shown: &Exhibit)
    requires empty { text.old.items ≡ [] }
    requires minors { AreSmallMinors shown.now }
    ensures text { text.new.items ≡ exhibit_text shown.now }
    ensures length { length text.new.items < 512 }
{
    match *shown {
        Exhibit::Clash {
            x,
            ref first,
            ref second,
        } => {
            push_counts(text, b"clash", &[u64::from(x)]);
            push_bytes(text, b" ");
            push_line(text, first);
            push_bytes(text, b" ");
            push_line(text, second);
        }
        Exhibit::Forged {
            at,
            ctr,
            ref cipher,
            ref tag,
        } => {
            push_counts(text, b"forged", &[u64::from(at)]);
            push_bytes(text, b" ");
            push_counter(text, ctr);
            push_cipher(text, cipher, tag);
        }
        Exhibit::Twin {
            at,
            major,
            low,
            high,
            ref cipher,
            ref tag,
        } => {
            let numbers = [u64::from(at), major, u64::from(low), u64::from(high)];
            push_counts(text, b"twin", &numbers);
            push_cipher(text, cipher, tag);
        }
    }
}

/// The text of an exhibit, without its LF: its kind's word, then its numbers, then its lines and its
/// tag in hex. `read_shown` reads it back.
pub fn shown_text(shown: &Exhibit) -> ArrayVec<u8, 512>
    requires minors { AreSmallMinors shown.now }
    ensures text { result.items ≡ exhibit_text shown.now }
    ensures room { length result.items < 512 }
    ensures read_back { IsExhibitValue shown.now → exhibit_of_line result.items ≡ Ok shown.now }
{
    let mut text = ArrayVec::new();
    push_shown(&mut text, shown);
    text
}
