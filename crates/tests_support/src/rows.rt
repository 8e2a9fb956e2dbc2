//! Tables of worked runs, as one text each.
use std::test::Fail;

/// A worked run.
#[derive(Clone, Copy)]
pub struct Row<'a> {
    /// The words of the command line, or a name for them.
    pub words: &'a str,
    /// The lines that are given, in shorthand.
    pub trace: &'a str,
    /// The exit status.
    pub status: u8,
    /// The lines that are put, in shorthand.
    pub output: &'a str,
}

/// The row of a text, whose last three lines are its arguments, its trace, and `STATUS: OUTPUT`. What comes before is a
/// comment. Errors: the text has fewer lines, or no status.
pub fn row_of(text: &str) -> Result<Row<'_>, Fail> {
    match parts_of(text) {
        Some(row) => Ok(row),
        None => Err(Fail::new(format_args!("not a row: {text}"))),
    }
}

/// The row of a text, or `None` if the text isn't a row.
fn parts_of(text: &str) -> Option<Row<'_>> {
    let (front, end) = text.trim_end().rsplit_once('\n')?;
    let (status, output) = end.split_once(": ")?;
    let (front, trace) = front.rsplit_once('\n')?;
    let words = match front.rsplit_once('\n') {
        Some((_, words)) => words,
        None => front,
    };
    let status = status.trim().parse::<u8>().ok()?;
    Some(Row {
        words: words.trim(),
        trace: trace.trim(),
        status,
        output: output.trim(),
    })
}
