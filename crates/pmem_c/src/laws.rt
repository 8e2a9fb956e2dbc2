//! That an answer to C is the only one.
ghost use Rattle.pmem_c.specs.Determined.{AnswerIsDetermined};

use pmem_cli::run_is_determined;

/// A law: for the same arguments and the same trace, two answers of `pmem_answer` are one text and one status, whatever
/// the arguments ask for, if neither status is 1, 2 or 4: memory never ended.
pub fn answer_is_determined()
    ensures { AnswerIsDetermined }
{
    run_is_determined();
}
