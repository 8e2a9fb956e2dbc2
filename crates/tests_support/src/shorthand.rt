//! Lines in shorthand.
use std::alloc::Global;
use std::test::Fail;

/// Appends a text several times.
fn push_times(text: &str, times: u32, bytes: &mut Vec<u8>) -> Result<(), Fail> {
    for _ in 0..times {
        bytes.extend_from_slice(text.as_bytes())?;
    }
    Ok(())
}

/// Appends 64 bytes in hex, each one greater than the last.
fn push_rising<R: AllocGlobal>(rt: &R, first: u8, bytes: &mut Vec<u8>) -> Result<(), Fail> {
    for more in 0..64_u8 {
        let digits = format!(in rt.alloc(); "{:02x}", first.wrapping_add(more))?;
        bytes.extend_from_slice(digits.as_bytes())?;
    }
    Ok(())
}

/// What stands between an opening and a closing sign.
fn within<'a>(word: &'a str, opening: char, closing: &str) -> Option<&'a str> {
    word.strip_prefix(opening)?.strip_suffix(closing)
}

/// Appends one word in shorthand.
fn push_word<R: AllocGlobal>(rt: &R, word: &str, bytes: &mut Vec<u8>) -> Result<(), Fail> {
    if let Some(first) = within(word, '[', "..]") {
        push_rising(rt, u8::from_str_radix(first, 16).unwrap_or(0), bytes)
    } else if let Some(byte) = within(word, '[', "]") {
        push_times(byte, 64, bytes)
    } else if let Some(byte) = within(word, '{', "}") {
        push_times("0", 30, bytes)?;
        push_times(byte, 1, bytes)
    } else if let Some((times, text)) = word.split_once("*") {
        push_times(text, times.parse::<u32>().unwrap_or(0), bytes)
    } else {
        push_times(word, 1, bytes)
    }
}

/// Appends one line in shorthand, with its LF.
fn push_line<R: AllocGlobal>(rt: &R, line: &str, bytes: &mut Vec<u8>) -> Result<(), Fail> {
    for (number, word) in line.split(' ').enumerate() {
        if number > 0 {
            bytes.push(b' ')?;
        }
        push_word(rt, word, bytes)?;
    }
    bytes.push(b'\n')?;
    Ok(())
}

/// Appends a group of lines in shorthand: `3x LINE & LINE` stands for these lines three times, and `-` takes
/// the last LF away.
fn push_lines<R: AllocGlobal>(rt: &R, text: &str, bytes: &mut Vec<u8>) -> Result<(), Fail> {
    if text == "-" {
        let _ = bytes.pop();
        return Ok(());
    }
    let (times, lines) = match text.split_once("x ") {
        Some((digits, rest)) => match digits.parse::<u32>() {
            Ok(times) => (times, rest),
            Err(_) => (1, text),
        },
        None => (1, text),
    };
    for _ in 0..times {
        for line in lines.split(" & ") {
            push_line(rt, line, bytes)?;
        }
    }
    Ok(())
}

/// The bytes of the first `groups` groups of lines in shorthand, set apart by ` / `. In a line `[aa]` stands for the
/// byte aa 64 times, `[01..]` for 64 bytes, each one greater than the last, `{51}` for 30 zeros and 51, and `9*ab` for
/// nine times ab. A group `3x LINE & LINE` stands for these lines three times, and a group `-` takes the last LF away.
/// Errors: running out of memory.
pub fn front_of<R: AllocGlobal>(rt: &R, text: &str, groups: usize) -> Result<Vec<u8>, Fail> {
    let mut bytes = Vec::new(rt.alloc());
    if text.is_empty() {
        return Ok(bytes);
    }
    for (number, group) in text.split(" / ").enumerate() {
        if number < groups {
            push_lines(rt, group, &mut bytes)?;
        }
    }
    Ok(bytes)
}

/// The bytes of lines in shorthand, as in [`front_of`]. Errors: running out of memory.
pub fn spelled<R: AllocGlobal>(rt: &R, text: &str) -> Result<Vec<u8>, Fail> {
    front_of(rt, text, usize::MAX)
}

/// The arguments of a command line, which spaces set apart. Errors: running out of memory.
pub fn words_of(alloc: Global, line: &str) -> Result<Vec<String>, Fail> {
    let mut words = Vec::new(alloc);
    for word in line.split(' ') {
        if !word.is_empty() {
            words.push(String::from_str(alloc, word)?)?;
        }
    }
    Ok(words)
}
