//! What lines ask for.
use super::check;
use crate::tests::{equal, spelled};
use pmem_base::{Kind, Line};
use std::process::Abort;
use std::test::Fail;
use tree_session::{TreeCommand, read_tree_command};

/// A line has to ask for this, or to be faulty so.
fn means(rt: &impl Abort, line: &str, wanted: Result<Option<TreeCommand>, Kind>) {
    equal(
        rt,
        (line, read_tree_command(line.as_bytes())),
        (line, wanted),
    );
}

#[test]
fn lines_are_commands_or_faulty(rt: HostRuntime) -> Result<(), Fail> {
    means(&rt, "", Ok(None));
    means(&rt, "\r", Ok(None));
    means(&rt, " \t", Ok(None));
    means(&rt, " # off", Ok(None));
    means(&rt, "on", Ok(Some(TreeCommand::On)));
    means(&rt, " off\t\r", Ok(Some(TreeCommand::Off)));
    means(&rt, "snap", Ok(Some(TreeCommand::Snap)));
    means(&rt, "on\r\r", Err(Kind::Word));
    means(&rt, "read\t0007", Ok(Some(TreeCommand::Read { at: 7 })));
    means(
        &rt,
        "back 18446744073709551615",
        Ok(Some(TreeCommand::Back { at: u64::MAX })),
    );
    means(&rt, "back 18446744073709551616", Err(Kind::Number));
    means(&rt, "cut 0", Ok(Some(TreeCommand::Cut { n: 0 })));
    means(&rt, "cut 000000000000000000000", Err(Kind::Number));
    means(&rt, "turn", Err(Kind::Word));
    means(&rt, "place 0", Err(Kind::Word));
    means(&rt, "Write 0", Err(Kind::Word));
    means(&rt, "write", Err(Kind::Count));
    means(&rt, "write 0", Err(Kind::Count));
    means(&rt, "write 0 aa 0", Err(Kind::Count));
    means(&rt, "write x aa", Err(Kind::Number));
    means(&rt, "write 0 aa", Err(Kind::Hex));
    means(&rt, "read", Err(Kind::Count));
    means(&rt, "read 0 0", Err(Kind::Count));
    means(&rt, "poke 0", Err(Kind::Count));
    means(&rt, "poke -1 aa", Err(Kind::Number));
    means(&rt, "poke 0 aa", Err(Kind::Hex));
    means(&rt, "snap 0", Err(Kind::Count));
    means(&rt, "back", Err(Kind::Count));
    means(&rt, "cut", Err(Kind::Count));
    means(&rt, "off 0", Err(Kind::Count));
    means(&rt, "on #", Err(Kind::Count));
    equal(&rt, read_tree_command(&[b'#'; 1024]), Ok(None));
    equal(&rt, read_tree_command(&[b'#'; 1025]), Err(Kind::Long));
    let line = spelled(rt.alloc(), "write 5 [Aa]")?;
    let write = TreeCommand::Write {
        at: 5,
        line: Line([0xaa; 64]),
    };
    equal(&rt, read_tree_command(line.as_bytes()), Ok(Some(write)));
    let line = spelled(rt.alloc(), "poke 150 [0f]")?;
    let poke = TreeCommand::Poke {
        at: 150,
        line: Line([0x0f; 64]),
    };
    equal(&rt, read_tree_command(line.as_bytes()), Ok(Some(poke)));
    Ok(())
}

#[test]
fn skipped_and_malformed_lines_do_nothing(rt: HostRuntime) -> Result<(), Fail> {
    check(
        &rt,
        1,
        1,
        "# on: skipped / write 0: miscounted / read 0: line [00] 0 / write 0 [11]: ok 6",
    )
}
