//! Lines with what they ask for, and answers with their texts.
ghost use Rattle.std.specs.Prelude.{IsTrue};
ghost use Rattle.plain_model.specs.Answers.{is_answer_to};
ghost use Rattle.trace_text.specs.Answers.{HasSmallMinors};

use crate::tests::equal;
use arrayvec::ArrayVec;
use pmem_base::{Answer, Command, Ctr, Exhibit, GhostLine, Kind, Line, Mark, Place, Stat};
use rand_xoshiro::SplitMix64;
use rand_xoshiro::rand_core::SeedableRng;
use rand_xoshiro::rand_core::utils::NextWord;
use std::alloc::{AllocError, Global};
use std::process::Abort;
use std::test::Fail;
use trace_text::{
    Maker, push_bytes, push_number, read_answer, read_command, write_answer, write_command,
    write_mark,
};

/// A text with its short signs spelled out: `%` stands for 126 hex digits, and `$` for 1,020
/// letters.
fn spelled(alloc: Global, line: &str) -> Result<String, AllocError> {
    let mut text = String::new(alloc);
    for c in line.chars() {
        let (piece, times) = match c {
            '%' => ("ab", 63),
            '$' => ("abcdefghij", 102),
            _ => ("", 0),
        };
        for _ in 0..times {
            text.push_str(piece)?;
        }
        if times == 0 {
            text.push(c)?;
        }
    }
    Ok(text)
}

/// Each of these lines in shorthand, which `|` sets apart, is read so.
fn check_lines<R: Abort + AllocGlobal>(
    rt: &R,
    wanted: &Result<Option<Command>, Kind>,
    lines: &str,
) -> Result<(), Fail> {
    for line in lines.split('|') {
        let given = spelled(rt.alloc(), line)?;
        assert_eq!(rt; read_command(given.as_bytes()), *wanted, "at {line}");
    }
    Ok(())
}

#[test]
fn reads_lines(rt: HostRuntime) -> Result<(), Fail> {
    let read = Ok(Some(Command::Read { port: 0, at: 7 }));
    let last = Ok(Some(Command::Read {
        port: 0,
        at: u64::MAX,
    }));
    let drain = Ok(Some(Command::Drain { port: 0 }));
    let post = Ok(Some(Command::Post {
        port: 0,
        at: 5,
        line: Line([0xab; 64]),
    }));
    check_lines(&rt, &Ok(None), "|\r| \t|  # read 0|#$abc")?;
    check_lines(&rt, &Err(Kind::Long), "#$abcd|$abcde|$abcd\r")?;
    check_lines(&rt, &Err(Kind::Word), "$abcd|READ 0 7|re\tad 0 7")?;
    check_lines(&rt, &read, "  read\t0  7\r|read 00 00000000000000000007 ")?;
    check_lines(
        &rt,
        &Err(Kind::Number),
        "read 0 000000000000000000007|read 0 18446744073709551616|read x 0|read 0 7\r\r",
    )?;
    check_lines(&rt, &last, "read 0 18446744073709551615")?;
    check_lines(&rt, &Err(Kind::Port), "read 8 0|read 9 x")?;
    check_lines(&rt, &Ok(Some(Command::Read { port: 7, at: 7 })), "read 7 7")?;
    check_lines(&rt, &Err(Kind::Count), "read 0|read x|read 0 7 0|drain")?;
    check_lines(&rt, &Ok(Some(Command::Turn)), "turn")?;
    check_lines(&rt, &drain, "drain 000")?;
    check_lines(&rt, &post, "post 0 5 %aB")?;
    check_lines(
        &rt,
        &Err(Kind::Hex),
        "post 0 5 %a|post 0 5 %aBc|post 0 5 %ag",
    )?;
    Ok(())
}

/// Commands: a line in shorthand, and the text in shorthand as which it is written.
const COMMANDS: &str = " turn =>turn|\
    post 07 18446744073709551615 %AB=>post 7 18446744073709551615 %ab|\
    part 1 5 62 aaBB=>part 1 5 62 aabb|\
    part 0 0 0 %ab=>part 0 0 0 %ab|\
    drain 7=>drain 7|\
    fence 00=>fence 0|\
    read 3 1=>read 3 1|\
    flush=>flush|\
    cut 003=>cut 3|\
    off=>off|\
    on\r=>on|\
    poke 1303 %ab=>poke 1303 %ab|\
    flip 5 511=>flip 5 511|\
    move 2 0=>move 2 0|\
    snap=>snap|\
    back 1301=>back 1301|\
    peek\t0=>peek 0|\
    stat=>stat|\
    loss 16=>loss 16";

/// A row of commands.
fn check_command<R: Abort + AllocGlobal>(rt: &R, row: &str) -> Result<(), Fail> {
    let Some((line, text)) = row.split_once("=>") else {
        return Err(Fail::new("no text"));
    };
    let given = spelled(rt.alloc(), line)?;
    let wanted = spelled(rt.alloc(), text)?;
    let Ok(Some(command)) = read_command(given.as_bytes()) else {
        return Err(Fail::new(format_args!("no command: {line}")));
    };
    assert_eq!(rt;
        write_command(&command).as_slice(),
        wanted.as_bytes(),
        "at {line}"
    );
    Ok(())
}

#[test]
fn reads_and_writes_commands(rt: HostRuntime) -> Result<(), Fail> {
    for row in COMMANDS.split('|') {
        check_command(&rt, row)?;
    }
    check_lines(
        &rt,
        &Err(Kind::Hex),
        "part 0 0 0 a|part 0 0 0 aab|part 0 0 0 %abab|poke 0 %",
    )?;
    check_lines(&rt, &Err(Kind::Number), "part 0 0 x zz|cut -1|poke x %")?;
    check_lines(
        &rt,
        &Err(Kind::Count),
        "part 0 0 aa|fence 0 0|turn 1|move 2",
    )?;
    check_lines(&rt, &Err(Kind::Port), "drain 8")?;
    check_lines(&rt, &Err(Kind::Word), "lose 16")?;
    Ok(())
}

/// Writes an answer and reads it back.
fn check_answer<R: Abort>(rt: &R, command: Command, answer: Answer, text: &str)
    requires listed { IsTrue (is_answer_to command answer) }
    requires minors { HasSmallMinors answer }
{
    assert_eq!(rt;
        write_answer(&command, &answer).as_slice(),
        text.as_bytes(),
        "{text}"
    );
    assert_eq!(rt;
        read_answer(&command, text.as_bytes()),
        Some(answer),
        "{text}"
    );
}

/// None of these texts in shorthand, which `|` sets apart, is an answer to this command.
fn check_no_answers<R: Abort + AllocGlobal>(
    rt: &R,
    command: Command,
    texts: &str,
) -> Result<(), Fail> {
    for text in texts.split('|') {
        let given = spelled(rt.alloc(), text)?;
        assert_eq!(rt; read_answer(&command, given.as_bytes()), None, "at {text}");
    }
    Ok(())
}

#[test]
fn refuses_texts(rt: HostRuntime) -> Result<(), Fail> {
    let (drain, fence) = (Command::Drain { port: 0 }, Command::Fence { port: 0 });
    let (read, on) = (Command::Read { port: 0, at: 7 }, Command::On);
    check_no_answers(
        &rt,
        drain,
        "|ok|ok 07|ok  7| ok 7|ok 7 |ok 7\r|OK 7|ok 18446744073709551616|ok 3 16|cut 4|cut kept 2 4|refused 0 data 5 0|refused page 5 0|refused data 4294967296 0|idle",
    )?;
    check_no_answers(
        &rt,
        fence,
        "ok 7|ok 256 7|cut kept 4|refused data 5 0|spent 0 0|empty",
    )?;
    check_no_answers(&rt, read, "line %AB 0|line %a 0|already")?;
    check_no_answers(
        &rt,
        on,
        "on 1 2|refused counter 5|twin 0 0 0 128 %ab 00000000000000000000000000000050|clash 05 %ab %ab|clash 5 %ab %AB",
    )?;
    check_no_answers(&rt, Command::Flush, "ok 4294967296 1|clash 5 %ab %ab")?;
    check_no_answers(&rt, Command::Turn, "ok 256 1")?;
    check_no_answers(&rt, Command::Stat, "stat 1 2 3 4")?;
    check_no_answers(&rt, Command::Cut { n: 0 }, "ok 0")?;
    check_no_answers(&rt, Command::Loss { n: 4 }, "ok")?;
    Ok(())
}

#[test]
fn makes_samples(rt: HostRuntime) {
    let mut words = SplitMix64::from_seed([0; 8]);
    equal(&rt, words.next_word(), 0xe220_a839_7b1d_cdaf);
    equal(&rt, words.next_word(), 0x6e78_9e6a_a1b9_65f4);
    equal(&rt, words.next_word(), 0x06c4_5d18_8009_454f);
    equal(&rt, words.next_word(), 0xf88b_b8a8_724c_81ec);
    equal(&rt, words.next_word(), 0x1b39_896a_51a8_749b);
    let mut maker = Maker::new(0);
    equal(&rt, maker.next(), Command::Flush);
    equal(
        &rt,
        maker.next(),
        Command::Post {
            port: 7,
            at: 357,
            line: Line([0x78; 64]),
        },
    );
    equal(&rt, maker.next(), Command::Flush);
    equal(&rt, maker.next(), Command::Read { port: 6, at: 129 });
    equal(&rt, maker.next(), Command::Drain { port: 1 });
    let mut maker = Maker::new(7);
    for _ in 0..506 {
        let _ = maker.next();
    }
    equal(&rt, maker.next(), Command::Drain { port: 1 });
    equal(&rt, maker.next(), Command::Cut { n: 2 });
    equal(
        &rt,
        maker.next(),
        Command::Post {
            port: 0,
            at: 515,
            line: Line([0xb3; 64]),
        },
    );
    equal(&rt, maker.next(), Command::Fence { port: 0 });
    equal(&rt, maker.next(), Command::Off);
    equal(&rt, maker.next(), Command::On);
    equal(&rt, maker.next(), Command::Read { port: 3, at: 1 });
}

#[test]
fn writes_texts(rt: HostRuntime) {
    let drain = Command::Drain { port: 0 };
    let fence = Command::Fence { port: 0 };
    check_answer(&rt, drain, Answer::Drained { steps: 7 }, "ok 7");
    check_answer(
        &rt,
        fence,
        Answer::Fenced {
            drained: 3,
            steps: 16,
        },
        "ok 3 16",
    );
    check_answer(
        &rt,
        drain,
        Answer::CutKept {
            drained: None,
            steps: 4,
        },
        "cut kept 4",
    );
    check_answer(
        &rt,
        fence,
        Answer::CutLost {
            drained: Some(2),
            steps: 3,
        },
        "cut lost 2 3",
    );
    let data = Answer::Refused {
        drained: None,
        place: Place::Line { at: 5 },
        steps: 0,
    };
    check_answer(&rt, Command::Turn, data, "refused data 5 0");
    let meta = Answer::Refused {
        drained: Some(1),
        place: Place::Meta { x: 5 },
        steps: 0,
    };
    check_answer(&rt, fence, meta, "refused 1 meta 5 0");
    check_answer(
        &rt,
        drain,
        Answer::Spent {
            drained: None,
            page: 0,
            steps: 0,
        },
        "spent 0 0",
    );
    let root = Answer::WrongRoot {
        kept: [0x1f; 16],
        found: [0; 16],
        steps: 10,
    };
    let root_text =
        "refused root 1f1f1f1f1f1f1f1f1f1f1f1f1f1f1f1f 00000000000000000000000000000000 10";
    check_answer(&rt, Command::On, root, root_text);
    let recovered = Answer::Recovered {
        trials: 256,
        digests: 9,
        steps: 8,
    };
    check_answer(&rt, Command::On, recovered, "on 256 9 8");
    check_answer(&rt, Command::Back { at: 1 }, Answer::NoSnap, "none");
    let counts = Answer::Counts(Stat {
        reads: 4,
        writes: 5,
        latches: 2,
        tags: 1,
        digests: 6,
    });
    check_answer(&rt, Command::Stat, counts, "stat 4 5 2 1 6");
    let turned = Answer::Turned { left: 62, steps: 4 };
    check_answer(&rt, Command::Turn, turned, "ok 62 4");
    check_answer(
        &rt,
        Command::Flush,
        Answer::Flushed { x: 5, steps: 1 },
        "ok 5 1",
    );
    let twin = Exhibit::Twin {
        at: 0,
        major: 0,
        low: 0,
        high: 1,
        cipher: Line([0x5a; 64]),
        tag: [0x50; 16],
    };
    let twin_text =
        "twin 0 0 0 1 5a5a5a5a5a5a5a5a5a5a5a5a5a5a5a5a5a5a5a5a5a5a5a5a5a5a5a5a5a5a5a5a5a5a5a5a5a5a5a5a5a5a5a5a5a5a5a5a5a5a5a5a5a5a5a5a5a5a5a5a5a5a5a5a 50505050505050505050505050505050";
    check_answer(&rt, Command::On, Answer::Shown(twin), twin_text);

    equal(
        &rt,
        write_mark(&Mark::Begin { page: 0 }).as_slice(),
        b"begin 0".as_slice(),
    );
    let seal = Mark::Seal {
        at: 0,
        ctr: Ctr { major: 0, minor: 1 },
        cipher: GhostLine::of(&Line([0; 64])),
        tag: [0x51; 16],
    };
    let seal_text = b"seal 0 0.1 51515151515151515151515151515151";
    equal(&rt, write_mark(&seal).as_slice(), seal_text.as_slice());

    let mut text = ArrayVec::new();
    push_bytes(&mut text, b"stop line ");
    push_number(&mut text, 18_446_744_073_709_551_615);
    equal(
        &rt,
        text.as_slice(),
        b"stop line 18446744073709551615".as_slice(),
    );
}
