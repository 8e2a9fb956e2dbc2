//! The seal of a data line, and its tag line.
ghost use Rattle.std.specs.Prelude.{◌≡◌};
ghost use Rattle.pmem_base.specs.Counts.{risen};
ghost use Rattle.asit_shadow.specs.Paths.{tag_only};
ghost use Rattle.asit_shadow.specs.Writing.{IsSealMade};

use counter_tree::LineSeal;
use line_seal::{put_tag, seal};
use pmem_base::{Ctr, Line, Tag};
use suite::Suite;

/// The seal of a plain line under a counter.
pub(crate) fn sealed<S: Suite>(suite: &mut S, at: u32, counter: u64, line: &Line) -> LineSeal
    ensures made { IsSealMade (S.formulas_of (S.keys suite.old)) at counter line.now result }
    ensures keys { S.keys suite.new ≡ S.keys suite.old }
    ensures pads { S.pads suite.new ≡ risen (S.pads suite.old) }
    ensures tags { S.tags suite.new ≡ risen (S.tags suite.old) }
    ensures digests { S.digests suite.new ≡ S.digests suite.old }
{
    let ctr = Ctr {
        major: counter,
        minor: 0,
    };
    let (cipher, tag) = seal(suite, at, ctr, line);
    line.is_whole();
    LineSeal {
        counter,
        cipher,
        tag,
    }
}

/// The tag line of a tag.
pub(crate) fn tag_line(tag: &Tag) -> Line
    ensures { result ≡ tag_only tag.now }
{
    let mut tags = Line::default();
    put_tag(&mut tags, 0, tag);
    tags
}
