//! Exhibits, read from a line and tried.
ghost use Rattle.std.specs.Prelude.{◌≡◌, ◌<◌, ◌≤◌, ◌≢◌, ◌⊎◌, ◌↔◌, IsTrue, IfSome, Some, None};
ghost use Rattle.std.specs.Io.KnownBytes.{prepend_known};
ghost use Rattle.plain_model.specs.declared.Stop.TheVariants as Stop;
ghost use Rattle.collision_witness.specs.Exhibits.{IsExhibit};
ghost use Rattle.pmem_cli.specs.Causes.{CountsFault};
ghost use Rattle.pmem_cli.specs.Pulling.{IsInTime, PullsInTime, PullsUndecided};
ghost use Rattle.pmem_cli.specs.declared.ending.Ending.TheVariants.{Stopped};
ghost use Rattle.pmem_cli.specs.Wholes.{ForEachWhole, HasGiven, left_in, left_before_in};
ghost use Rattle.pmem_cli.specs.Words.{AreChosen};
ghost use Rattle.pmem_cli.specs.Keys.{formulas_of};
ghost use Rattle.pmem_cli.specs.Checked.{is_skipped, found_with, ChecksLine, ChecksNext, HasCheckedLines, HasLookedFirst, IsChecked};

use crate::ending::Ending;
use crate::lines::{Found, LINE_BYTES, LineReader};
use crate::options::{Choices, SuiteName};
use crate::session::LINE_LIMIT;
use crate::source::{Failed, Source};
use arrayvec::ArrayVec;
use collision_witness::{before_return, holds, next_word, read_shown};
use plain_model::Stop;
use pmem_base::{Exhibit, Kind};

/// Whether a line is skipped: it is blank or a comment, and not too long.
#[tactic(auto, unfolding(crate::specs::Checked::is_skipped))]
fn is_skipped(line: &[u8]) -> bool
    ensures { result ≡ is_skipped line.now }
{
    if line.len() > 1024 {
        return false;
    }
    match next_word(before_return(line)) {
        None => true,
        Some((word, _)) => word.first() == Some(&b'#'),
    }
}

/// The exhibit that is known after a line, given the one that was known before, if any.
#[tactic(auto, unfolding(crate::specs::Checked::found_with))]
fn find_in(found: Option<Exhibit>, line: &[u8]) -> Result<Option<Exhibit>, Kind>
    ensures { result ≡ found_with found line.now }
{
    if is_skipped(line) {
        return Ok(found);
    }
    let shown = read_shown(line)?;
    match found {
        None => Ok(Some(shown)),
        Some(_) => Err(Kind::Count),
    }
}

/// Looks at a line, and says why the check stops, if it does.
fn check_line(number: u32, line: &[u8], found: &mut Option<Exhibit>) -> Option<Stop>
    ensures { ChecksLine result line.now number found.old found.new }
{
    match find_in(*found, line) {
        Err(kind) => Some(Stop::Refused { number, kind }),
        Ok(more) => {
            *found = more;
            None
        }
    }
}

/// Looks at the next line, and says why the check stops, if it does.
fn check_next<S: Source>(
    served: u32,
    reader: &mut LineReader,
    line: &mut ArrayVec<u8, LINE_BYTES>,
    found: &mut Option<Exhibit>,
    trace: &mut S,
) -> Option<Stop>
    requires { served < 1000000 }
    ensures turn { ForEachWhole (S.known trace.new) (λ whole. ChecksNext result (prepend_known reader.old (left_in S.known whole trace.old))
        (prepend_known reader.new (left_in S.known whole trace.new)) (left_in S.known whole trace.new) found.old found.new served) }
    ensures reads { CountsFault (result ≡ Some Stop.ReadFault) (S.faults trace.old) (S.faults trace.new) }
    ensures gave { HasGiven (S.known trace.old) (S.known trace.new) }
    ensures pulls { PullsInTime result (S.pulls trace.old) (S.pulls trace.new) }
    ensures last_pull { ForEachWhole (S.known trace.new) (λ whole. (trace.new ≡ trace.old)
        ⊎ PullsUndecided served (prepend_known reader.old (left_in S.known whole trace.old)) (left_before_in S.known whole trace.new)) }
{
    let number = served + 1;
    match reader.next_line(trace, line) {
        Err(Failed) => Some(Stop::ReadFault),
        Ok(Found::End) => Some(Stop::Finished),
        Ok(Found::Long) => Some(Stop::Refused {
            number,
            kind: Kind::Long,
        }),
        Ok(Found::Line) => check_line(number, line.as_slice(), found),
        Ok(Found::Last) => match check_line(number, line.as_slice(), found) {
            None => Some(Stop::Finished),
            Some(stop) => Some(stop),
        },
    }
}

/// Looks at all lines for the one exhibit, and says why that stops.
fn look<S: Source>(found: &mut Option<Exhibit>, trace: &mut S) -> Stop
    ensures looked { ForEachWhole (S.known trace.new) (λ whole.
        HasCheckedLines result (left_in S.known whole trace.old) (left_in S.known whole trace.new) found.old found.new 0) }
    ensures reads { CountsFault (result ≡ Stop.ReadFault) (S.faults trace.old) (S.faults trace.new) }
    ensures gave { HasGiven (S.known trace.old) (S.known trace.new) }
    ensures in_time { IsInTime (S.pulls trace.old) (S.pulls trace.new) }
    ensures looked_first { ForEachWhole (S.known trace.new) (λ whole. (trace.new ≡ trace.old)
        ⊎ HasLookedFirst found.old 0 (left_in S.known whole trace.old) (left_before_in S.known whole trace.new)) }
{
    let mut reader = LineReader::new();
    let mut line = ArrayVec::new();
    'lines: for served in 0..LINE_LIMIT {
        if let Some(stop) = check_next(served, &mut reader, &mut line, found, trace) {
            return stop;
        }
    }
    match reader.is_ended(trace) {
        Err(Failed) => Stop::ReadFault,
        Ok(true) => Stop::Finished,
        Ok(false) => Stop::TooManyLines,
    }
}

/// Whether an exhibit holds under the chosen suite and keys.
fn holds_under(choices: &Choices, shown: &Exhibit) -> bool
    requires { AreChosen choices.now }
    ensures { IsTrue result ↔ IsExhibit (formulas_of choices.now) shown.now }
{
    match choices.suite_name() {
        SuiteName::Aes => holds(&mut choices.aes_suite(), shown),
        SuiteName::Weak => holds(&mut choices.weak_suite(false), shown),
        SuiteName::Blur => holds(&mut choices.weak_suite(true), shown),
    }
}

/// Reads the one exhibit of a source, and says whether it holds, or why the check stops.
pub(crate) fn check<S: Source>(choices: &Choices, trace: &mut S) -> Ending
    requires { AreChosen choices.now }
    ensures checked { ForEachWhole (S.known trace.new) (λ whole.
        IfSome (left_in S.known whole trace.old) (λ bytes. IsChecked (formulas_of choices.now) result bytes (left_in S.known whole trace.new))) }
    ensures words { result ≢ Stopped Stop.Words }
    ensures write { result ≢ Stopped Stop.WriteFault }
    ensures reads { CountsFault (result ≡ Stopped Stop.ReadFault) (S.faults trace.old) (S.faults trace.new) }
    ensures gave { HasGiven (S.known trace.old) (S.known trace.new) }
    ensures in_time { IsInTime (S.pulls trace.old) (S.pulls trace.new) }
    ensures looked_first { ForEachWhole (S.known trace.new) (λ whole. (trace.new ≡ trace.old)
        ⊎ HasLookedFirst None 0 (left_in S.known whole trace.old) (left_before_in S.known whole trace.new)) }
{
    let mut found = None;
    match look(&mut found, trace) {
        Stop::Finished => match found {
            None => Ending::Stopped(Stop::Refused {
                number: 0,
                kind: Kind::Count,
            }),
            Some(shown) => {
                if holds_under(choices, &shown) {
                    Ending::Holds
                } else {
                    Ending::Fails
                }
            }
        },
        stop => Ending::Stopped(stop),
    }
}
