//! Whole runs of the sessions that have commands of their own, over memory.
use std::process::Abort;
use std::test::Fail;
use tests_support::{NEVER, PLACES, check_end, check_faults, check_rows, ran};

#[test]
fn answers_sessions(rt: HostRuntime) -> Result<(), Fail> {
    check_rows(
        &rt,
        "
        wear --suite weak --every 1
        write 0 [aa] / place 0 / place 1021 / read 0 / write 1021 [bb]
        0: ok 17 / at 0 / at 1022 / line [aa] 0 / ok 12

        wear --suite weak --every 1
        cut 8 / write 0 [aa] / on / read 0
        0: ok / cut kept 8 / on 0 1022 5 / line [aa] 0

        wear --suite weak --every=1 --log
        cut 8 / write 0 [aa] / place 0 / off
        0: work 0 0 / ok / look 1281 / look 1285 / line 1302 / line 1302 / line 1301 / look 1024 / latch 2 / line 0 / line 1024 / latch 0 / look 1021 / look 1279 / line 1302 / work 2 5 / cut kept 8 / work 0 0 / off / work 0 0 / off

        wear
        write 5 [11] / # a comment /  / read 5 / read 1021 / read 1022 / place 1022
        0: ok 7 / line [11] 0 / line [00] 0 / range / range

        wear --levels 1 --sets=1 --ways 1 --loss 1 --major 0 --suite weak --key 000102030405060708090a0b0c0d0e0f --tag-key 01 --every 2
        write 0 [aa] / write 0 [bb] / place 253 / write 0 [cc] / read 0 / off / on
        0: ok 7 / ok 16 / at 254 / ok 6 / line [cc] 0 / ok / on 0 253 3

        wear --suite blur --loss 2 --levels 1 --every=3
        write 0 [00] / off / on / read 0
        6: ok 6 / ok / twin 0 0 0 1 [01..] {50}

        wear --levels 1
        read 0 / read 0 0
        5: line [00] 0 / stop line 2 2

        wear
        post 0 0 [00]
        5: stop line 1 1

        txn --suite weak
        begin / put 0 [11] / put 64 [22] / read 0 / commit / read 64
        0: ok / ok / ok / line [11] 0 / ok 30 / line [22] 0

        txn --suite weak
        begin / put 0 [11] / put 64 [22] / cut 11 / commit / on / read 0
        0: ok / ok / ok / ok / cut lost 11 / on 0 5 / line [00] 0

        txn --suite weak
        begin / put 0 [11] / put 64 [22] / cut 12 / commit / on / read 0
        0: ok / ok / ok / ok / cut kept 12 / on 2 26 / line [11] 0

        txn --log --suite weak
        begin / put 0 [11] / cut 9 / commit / # a comment / read 0
        0: work 0 0 / ok / work 0 0 / ok / work 0 0 / ok / line 1302 / line 1302 / line 1301 / look 1276 / latch 2 / line 1009 / line 1276 / latch 0 / look 1276 / latch 2 / line 1008 / work 2 6 / cut kept 9 / work 0 0 / off

        txn --suite weak --levels 1
        begin / put 239 [11] / put 240 [11] / # a comment / commit / commit /  / read 239 / off / read 0 / on
        0: ok / ok / range / ok 18 / closed / line [11] 0 / ok / off / on 0 4

        txn --levels 1 --sets=1 --ways 1 --loss 1 --major 0 --suite weak --key 000102030405060708090a0b0c0d0e0f --tag-key 01
        begin / put 0 [11] / cut 9 / commit / on / read 0
        0: ok / ok / ok / cut kept 9 / on 1 20 / line [11] 0

        txn --suite blur --loss 2 --levels 1
        begin / put 0 [00] / commit / off / on / read 0
        6: ok / ok / ok 20 / ok / twin 0 0 0 1 [01..] {50}

        txn --levels 1
        abort / begin 1
        5: closed / stop line 2 2

        txn
        write 0 [11]
        5: stop line 1 1

        tree --suite weak
        write 5 [11] / cut 1 / write 5 [22] / on / read 5
        0: ok 7 / ok / cut kept 1 / on 21 6 / line [22] 0

        tree --suite weak
        poke 5 [00] / read 5
        0: ok / refused data 5 0

        tree --suite weak
        write 5 [11] / off / poke 151 [00] / on
        0: ok 7 / ok / ok / refused shadow {10} {13} 0

        tree --suite weak
        write 5 [11] / off / poke 149 [00] / on / read 5
        6: ok 7 / ok / ok / clash 5 [00] 00000001000000000000000000000001000000000000000000000000000000000000000000000000000000000000000000000000000000000000000000000000

        tree --suite weak --log --levels 1 --sets=1 --key 000102030405060708090a0b0c0d0e0f --tag-key 10
        write 5 [11] / write 0 [22] / poke 5 [33] / read 5
        6: look 34 / latch 4 / line 5 / line 21 / line 37 / line 38 / latch 0 / work 2 4 / ok 6 / look 33 / line 34 / latch 4 / line 0 / line 16 / line 37 / line 38 / latch 0 / work 3 4 / ok 7 / work 0 0 / ok / look 34 / line 33 / look 5 / look 21 / work 3 0 / forged 5 1.0 [33] {14}

        tree --suite weak --levels 1 --sets 1
        write 0 [11] / write 4 [22] / poke 33 00000000000000000000000000000001000000000000000000000000000000000000000000000000000000000000000000000000000000000000000000000091 / read 0
        6: ok 6 / ok 7 / ok / forged 2147483649 1.0 00000000000000000000000000000001000000000000000000000000000000000000000000000000000000000000000000000000000000000000000000000000 {91}

        check --suite weak
        clash 5 [00] 00000001000000000000000000000001000000000000000000000000000000000000000000000000000000000000000000000000000000000000000000000000
        0: holds

        check --suite weak
        forged 5 1.0 [33] {14}
        0: holds

        check --suite weak
        forged 2147483649 1.0 00000000000000000000000000000001000000000000000000000000000000000000000000000000000000000000000000000000000000000000000000000000 {91}
        0: holds

        tree
        write 5 [11] / off / on / read 5 / read 64 / snap / back 158
        0: ok 7 / ok / on 21 0 / line [11] 0 / range / ok / range

        tree --levels 1
        read 0 / place 0
        5: line [00] 0 / stop line 2 1",
    )
}

/// Options that a command doesn't have, or has twice, or with another value, a line each.
const REFUSED: &str = "wear x
    wear --every
    wear --every 0
    wear --every 1000001
    wear --every 1 --every 1
    wear --every 1x
    wear --levels 7
    wear --nothing 1
    run --every 1
    check --every 1
    txn x
    txn --every 1
    txn --levels 7
    txn --loss 3
    txn --log=1
    tree --log --log
    tree x
    tree --every 1
    tree --ways 1
    tree --loss 1
    tree --major 0
    tree --levels 0
    tree --sets 65
    tree --sets 1 --sets 1
    tree --suite";

/// Options that a command doesn't take: nothing is read.
fn check_refusal<R: Abort + AllocGlobal>(rt: &R, words: &str) -> Result<(), Fail> {
    let told = ran(rt, words, b"read 0", (0, NEVER), PLACES)?;
    check_end(words, told, 2, b"stop words\n")?;
    Ok(())
}

#[test]
fn refuses_options(rt: HostRuntime) -> Result<(), Fail> {
    for words in REFUSED.split('\n') {
        check_refusal(&rt, words.trim())?;
    }
    Ok(())
}

/// Each pull and each push fails in turn, a byte at a time: the words, the trace, and for each line its reply.
#[test]
fn stops_sessions_at_each_fault(rt: HostRuntime) -> Result<(), Fail> {
    check_faults(
        &rt,
        "
        wear --suite weak --levels 1 --every 1
        write 0 [11] / cut 8 / write 0 [22] / on / read 0
        0: ok 15 / ok / cut kept 8 / on 0 253 5 / line [22] 0

        wear --suite blur --loss 2 --levels 1 --every 3
        write 0 [00] / off / on
        6: ok 6 / ok / twin 0 0 0 1 [01..] {50}

        wear --levels 1
        place 0 / plaice 0
        5: at 0 / stop line 2 1

        txn --suite weak --levels 1
        begin / put 0 [11] / cut 8 / commit / on / read 0
        0: ok / ok / ok / cut kept 8 / on 1 18 / line [11] 0

        tree --suite weak --levels 1
        write 0 [11] / cut 1 / write 0 [22] / on / read 0
        0: ok 6 / ok / cut kept 1 / on 21 5 / line [22] 0

        tree --suite weak --levels 1
        write 5 [11] / write 0 [22] / poke 5 [33] / read 5
        6: ok 6 / ok 6 / ok / forged 5 1.0 [33] {14}

        tree --levels 1
        write 0 [11] / reed 0
        5: ok 6 / stop line 2 1",
    )
}

/// The limit on lines.
fn check_limits<R: Abort + AllocGlobal>(rt: &R, words: &str) -> Result<(), Fail> {
    let mut trace = vec![in rt.alloc(); b'\n'; 1_000_000]?;
    let found = ran(rt, words, trace.as_slice(), (NEVER, NEVER), PLACES)?;
    check_end(words, found, 0, b"")?;
    trace.push(b'\n')?;
    let found = ran(rt, words, trace.as_slice(), (NEVER, NEVER), PLACES)?;
    check_end(words, found, 7, b"stop lines\n")?;
    Ok(())
}

#[test]
fn keeps_limits_of_sessions(rt: HostRuntime) -> Result<(), Fail> {
    check_limits(&rt, "wear --levels 1")?;
    check_limits(&rt, "txn --levels 1")?;
    check_limits(&rt, "tree --levels 1")?;
    Ok(())
}
