//! Whole runs over memory.
use crate::tests::equal;
use pmem_cli::{StdSink, StdSource, run};
use sha2::{Digest, Sha256};
use std::process::Abort;
use std::test::Fail;
use tests_support::{
    NEVER, PLACES, check_end, check_faults, check_rows, ran, row_of, spelled, words_of,
};

#[test]
fn answers_traces(rt: HostRuntime) -> Result<(), Fail> {
    check_rows(
        &rt,
        "
        run
        -
        0: -

        run
        read 0 0
        0: line [00] 0

        run --suite weak
        post 0 3 [aa] / read 0 3 / read 1 3
        0: ok / line [aa] 0 / line [00] 0

        run
        17x post 2 0 [00] / drain 5
        0: 16x ok / full / empty

        run --suite weak
        peek 0 / post 0 0 [00] / drain 0 / peek 0 / peek 1024 / stat
        0: raw [00..] / ok / seal 0 0.1 {51} / ok 7 / raw [01..] / raw 00000000000000000000000000000051000000000000000000000000000000510000000000000000000000000000001200000000000000000000000000000053 / stat 4 5 2 1 6

        run --suite weak
        post 0 0 [11] / cut 0 / drain 0 / on / read 0 0
        0: ok / ok / cut lost 0 / on 0 1 0 / line [00] 0

        run --suite weak
        post 0 0 [11] / cut 4 / drain 0 / on / read 0 0
        0: ok / ok / seal 0 0.1 {51} / cut kept 4 / on 256 9 8 / line [11] 0

        run --suite weak
        post 0 0 [11] / cut 3 / drain 0 / on / read 0 0
        0: ok / ok / cut lost 3 / on 256 9 2 / line [00] 0

        run --suite weak
        post 0 0 [11] / cut 4 / drain 0 / cut 3 / on / on / read 0 0 / post 0 0 [11] / drain 0
        0: ok / ok / seal 0 0.1 {51} / cut kept 4 / ok / cut 3 / on 256 9 5 / line [11] 0 / ok / seal 0 0.2 {12} / ok 7

        run --suite weak
        post 0 0 [00] / drain 0 / post 0 0 [00] / drain 0 / post 0 0 [00] / drain 0 / off / on / post 0 0 [00] / drain 0
        0: ok / seal 0 0.1 {51} / ok 7 / ok / seal 0 0.2 {12} / ok 4 / ok / seal 0 0.3 {53} / ok 4 / ok / on 256 9 5 / ok / seal 0 0.4 {14} / ok 8

        run --suite weak
        128x post 0 0 [00] & drain 0 / 64x turn
        0: .. / ok 3 4 / seal 61 1.0 {2c} / ok 2 4 / seal 62 1.0 {6f} / ok 1 4 / seal 63 1.0 {2e} / ok 0 4 / idle

        run --suite weak
        128x post 0 0 [00] & drain 0 / turn / post 0 5 [55] / drain 0 / cut 0 / turn / on / read 0 1 / read 0 2 / read 0 5 / turn
        0: .. / ok / cut 0 / on 12 9 5 / line [00] 0 / line [00] 0 / line [55] 0 / seal 2 1.0 {53} / ok 60 4

        run --suite weak
        flip 5 0 / read 0 5 / post 0 5 [77] / drain 0 / read 0 5
        0: ok / refused data 5 0 / ok / seal 5 0.1 {14} / ok 7 / line [77] 0

        run --suite weak
        snap / post 0 0 [00] / drain 0 / 4x flush / back 0 / back 1024 / back 1285 / off / on
        0: ok / ok / seal 0 0.1 {51} / ok 7 / ok 0 1 / ok 1 1 / ok 5 1 / clean / 4x ok / refused root {17} {15} 0

        run --suite weak
        flip 5 0 / flip 5 8 / read 0 5
        6: ok / ok / forged 5 0.0 04070708090a0b0c0d0e0f101112131415161718191a1b1c1d1e1f202122232425262728292a2b2c2d2e2f303132333435363738393a3b3c3d3e3f4041424344 {55}

        run --suite weak --major 1
        poke 1285 01000000000000000000000000000000000000000000000000000000000000000000000000000000000000000000000000000000000000000000000000000000 / read 0 0
        6: ok / clash 5 01000000000000000000000000000000000000000000000000000000000000000000000000000000000000000000000000000000000000000000000000000000 00000000000000010000000000000000000000000000000000000000000000000000000000000000000000000000000000000000000000000000000000000000

        run --suite blur --loss 2
        post 0 0 [00] / drain 0 / off / on
        6: ok / seal 0 0.1 {50} / ok 7 / ok / twin 0 0 0 1 [01..] {50}

        run --log --suite weak
        read 0 0 / post 0 0 [11] / drain 0 / flush / loss 2 / off / read 0 0
        0: look 1280 / look 1281 / look 1285 / look 0 / look 1024 / work 1 3 / line [00] 0 / work 0 0 / ok / line 1302 / line 1302 / line 1301 / look 1024 / latch 2 / line 0 / line 1024 / latch 0 / work 1 3 / seal 0 0.1 {51} / ok 7 / line 1280 / work 0 0 / ok 0 1 / line 1285 / latch 0 / work 0 0 / ok 2 / work 0 0 / ok / work 0 0 / off",
    )
}

#[test]
fn keeps_and_combines_waiting_writes(rt: HostRuntime) -> Result<(), Fail> {
    check_rows(
        &rt,
        "
        run --suite weak --queue durable
        post 0 0 [11] / cut 0 / drain 0 / on / read 0 0 / drain 0 / drain 0
        0: ok / ok / cut lost 0 / on 0 1 0 / line [11] 0 / seal 0 0.1 {51} / ok 7 / empty

        run --suite weak --queue durable
        post 0 0 [11] / cut 4 / drain 0 / on / read 0 0 / drain 0
        0: ok / ok / seal 0 0.1 {51} / cut kept 4 / on 256 9 8 / line [11] 0 / empty

        run --suite weak --queue durable
        post 0 0 [11] / off / read 0 0 / drain 0 / on / read 0 0 / read 1 0 / drain 0
        0: ok / ok / off / off / on 0 1 0 / line [11] 0 / line [00] 0 / seal 0 0.1 {51} / ok 7

        run --suite weak --queue durable
        post 0 0 [11] / post 0 1 [22] / post 0 2 [33] / post 3 9 [44] / cut 9 / fence 0 / on / read 3 9 / read 0 2 / fence 0
        0: 5x ok / seal 0 0.1 {51} / seal 1 0.1 {10} / cut kept 1 9 / on 256 9 8 / line [44] 0 / line [33] 0 / seal 2 0.1 {53} / ok 1 7

        run --suite weak --queue durable
        post 0 0 [11] / cut 4 / drain 0 / post 0 0 [22] / cut 3 / on / on / read 0 0 / drain 0
        0: ok / ok / seal 0 0.1 {51} / cut kept 4 / off / ok / cut 3 / on 256 9 5 / line [11] 0 / empty

        run --suite weak --queue durable
        flip 0 0 / part 0 0 0 ff / off / on / drain 0 / drain 0
        0: 3x ok / on 0 1 0 / refused data 0 0 / empty

        run --suite weak --queue durable
        16x post 2 0 [00] / off / on / post 2 0 [00] / post 1 0 [00]
        0: 17x ok / on 0 1 0 / full / ok

        run --suite weak --queue=volatile
        post 0 0 [11] / off / on / read 0 0 / drain 0
        0: ok / ok / on 0 1 0 / line [00] 0 / empty

        run --suite weak --combine on
        post 0 0 [11] / post 0 0 [22] / read 0 0 / drain 0 / drain 0 / read 0 0
        0: ok / ok / line [22] 0 / seal 0 0.1 {51} / ok 7 / empty / line [22] 0

        run --suite weak --combine on
        post 0 0 [11] / part 0 0 0 aa / post 0 0 [22] / read 0 0 / fence 0 / read 0 0
        0: 3x ok / line [22] 0 / seal 0 0.1 {51} / seal 0 0.2 {a9} / seal 0 0.3 {53} / ok 3 15 / line [22] 0

        run --suite weak --combine on
        post 0 0 [11] / part 0 0 0 aa / 3x drain 0
        0: ok / ok / seal 0 0.1 {51} / ok 7 / seal 0 0.2 {a9} / ok 4 / empty

        run --suite weak --combine on
        post 0 0 [11] / part 0 0 0 aa / post 0 0 [22] / post 0 0 [33] / read 0 0 / fence 0
        0: 4x ok / line [33] 0 / seal 0 0.1 {51} / seal 0 0.2 {a9} / seal 0 0.3 {53} / ok 3 15

        run --suite weak --combine on
        post 0 0 [11] / post 1 0 [22] / read 0 0 / read 1 0 / fence 0 / fence 1
        0: ok / ok / line [11] 0 / line [22] 0 / seal 0 0.1 {51} / ok 1 7 / seal 0 0.2 {12} / ok 1 4

        run --suite weak --combine on
        post 0 0 [11] / post 0 1 [22] / post 0 0 [33] / 3x drain 0
        0: 3x ok / seal 0 0.1 {51} / ok 7 / seal 1 0.1 {10} / ok 4 / empty

        run --suite weak --combine on
        post 0 0 [00] / post 0 1 [00] / post 0 2 [00] / post 0 3 [00] / post 0 4 [00] / post 0 5 [00] / post 0 6 [00] / post 0 7 [00] / post 0 8 [00] / post 0 9 [00] / post 0 10 [00] / post 0 11 [00] / post 0 12 [00] / post 0 13 [00] / post 0 14 [00] / post 0 15 [00] / post 0 3 [77] / post 0 16 [00] / part 0 3 0 aa / read 0 3
        0: 17x ok / full / full / line [77] 0

        run --suite weak --combine on
        post 0 0 [11] / part 0 0 0 [22] / part 0 0 0 [33] / drain 0 / drain 0 / read 0 0
        0: 3x ok / seal 0 0.1 {51} / ok 7 / empty / line [33] 0

        run --suite weak --combine on --queue durable
        post 0 0 [11] / off / post 0 0 [22] / on / post 0 0 [33] / cut 0 / drain 0 / on / post 0 0 [44] / drain 0 / drain 0 / read 0 0
        0: ok / ok / off / on 0 1 0 / ok / ok / cut lost 0 / on 0 1 0 / ok / seal 0 0.1 {51} / ok 7 / empty / line [44] 0

        run --suite weak --combine off
        post 0 0 [11] / post 0 0 [22] / fence 0
        0: ok / ok / seal 0 0.1 {51} / seal 0 0.2 {12} / ok 2 11",
    )
}

#[test]
fn answers_traces_that_are_cut_at_each_step(rt: HostRuntime) -> Result<(), Fail> {
    check_rows(
        &rt,
        "
        run --suite weak --sets 1 --ways 1 --levels 3
        post 0 0 [00] / drain 0 / post 0 4032 [00] / drain 0 / post 0 0 [99] / drain 0
        0: ok / seal 0 0.1 {51} / ok 8 / ok / seal 4032 0.1 {1e} / ok 10 / ok / seal 0 0.2 {12} / ok 10

        run --suite weak --sets 1 --ways 1 --levels 3
        post 0 0 [00] / drain 0 / post 0 4032 [00] / drain 0 / post 0 0 [99] / cut 0 / drain 0 / on / read 0 4032 / read 0 0
        0: ok / seal 0 0.1 {51} / ok 8 / ok / seal 4032 0.1 {1e} / ok 10 / ok / ok / cut lost 0 / on 256 13 6 / line [00] 0 / line [00] 0

        run --suite weak --sets 1 --ways 1 --levels 3
        post 0 0 [00] / drain 0 / post 0 4032 [00] / drain 0 / post 0 0 [99] / cut 1 / drain 0 / on / read 0 4032 / read 0 0
        0: ok / seal 0 0.1 {51} / ok 8 / ok / seal 4032 0.1 {1e} / ok 10 / ok / ok / cut lost 1 / on 256 13 5 / line [00] 0 / line [00] 0

        run --suite weak --sets 1 --ways 1 --levels 3
        post 0 0 [00] / drain 0 / post 0 4032 [00] / drain 0 / post 0 0 [99] / cut 2 / drain 0 / on / read 0 4032 / read 0 0
        0: ok / seal 0 0.1 {51} / ok 8 / ok / seal 4032 0.1 {1e} / ok 10 / ok / ok / cut lost 2 / on 256 13 4 / line [00] 0 / line [00] 0

        run --suite weak --sets 1 --ways 1 --levels 3
        post 0 0 [00] / drain 0 / post 0 4032 [00] / drain 0 / post 0 0 [99] / cut 3 / drain 0 / on / read 0 4032 / read 0 0
        0: ok / seal 0 0.1 {51} / ok 8 / ok / seal 4032 0.1 {1e} / ok 10 / ok / ok / cut lost 3 / on 255 13 3 / line [00] 0 / line [00] 0

        run --suite weak --sets 1 --ways 1 --levels 3
        post 0 0 [00] / drain 0 / post 0 4032 [00] / drain 0 / post 0 0 [99] / cut 4 / drain 0 / on / read 0 4032 / read 0 0
        0: ok / seal 0 0.1 {51} / ok 8 / ok / seal 4032 0.1 {1e} / ok 10 / ok / ok / cut lost 4 / on 255 13 3 / line [00] 0 / line [00] 0

        run --suite weak --sets 1 --ways 1 --levels 3
        post 0 0 [00] / drain 0 / post 0 4032 [00] / drain 0 / post 0 0 [99] / cut 5 / drain 0 / on / read 0 4032 / read 0 0
        0: ok / seal 0 0.1 {51} / ok 8 / ok / seal 4032 0.1 {1e} / ok 10 / ok / ok / cut lost 5 / on 255 13 3 / line [00] 0 / line [00] 0

        run --suite weak --sets 1 --ways 1 --levels 3
        post 0 0 [00] / drain 0 / post 0 4032 [00] / drain 0 / post 0 0 [99] / cut 6 / drain 0 / on / read 0 4032 / read 0 0
        0: ok / seal 0 0.1 {51} / ok 8 / ok / seal 4032 0.1 {1e} / ok 10 / ok / ok / cut lost 6 / on 255 13 3 / line [00] 0 / line [00] 0

        run --suite weak --sets 1 --ways 1 --levels 3
        post 0 0 [00] / drain 0 / post 0 4032 [00] / drain 0 / post 0 0 [99] / cut 7 / drain 0 / on / read 0 4032 / read 0 0
        0: ok / seal 0 0.1 {51} / ok 8 / ok / seal 4032 0.1 {1e} / ok 10 / ok / ok / seal 0 0.2 {12} / cut kept 7 / on 255 13 9 / line [00] 0 / line [99] 0

        run --suite weak --sets 1 --ways 1 --levels 3
        post 0 0 [00] / drain 0 / post 0 4032 [00] / drain 0 / post 0 0 [99] / cut 8 / drain 0 / on / read 0 4032 / read 0 0
        0: ok / seal 0 0.1 {51} / ok 8 / ok / seal 4032 0.1 {1e} / ok 10 / ok / ok / seal 0 0.2 {12} / cut kept 8 / on 255 13 9 / line [00] 0 / line [99] 0

        run --suite weak --sets 1 --ways 1 --levels 3
        post 0 0 [00] / drain 0 / post 0 4032 [00] / drain 0 / post 0 0 [99] / cut 9 / drain 0 / on / read 0 4032 / read 0 0
        0: ok / seal 0 0.1 {51} / ok 8 / ok / seal 4032 0.1 {1e} / ok 10 / ok / ok / seal 0 0.2 {12} / cut kept 9 / on 255 13 9 / line [00] 0 / line [99] 0

        run --suite weak --sets 1 --ways 1 --levels 3
        post 0 0 [00] / drain 0 / post 0 4032 [00] / drain 0 / post 0 0 [99] / cut 10 / drain 0
        0: ok / seal 0 0.1 {51} / ok 8 / ok / seal 4032 0.1 {1e} / ok 10 / ok / ok / seal 0 0.2 {12} / ok 10",
    )
}

#[test]
fn answers_traces_that_are_stopped_or_refused(rt: HostRuntime) -> Result<(), Fail> {
    check_rows(
        &rt,
        "
        run --suite weak
        post 0 0 [00] / drain 0 / off / snap / poke 1301 [00] / poke 1302 [00] / on / back 1301 / back 1302 / on / read 0 0
        0: ok / seal 0 0.1 {51} / ok 7 / 4x ok / refused root {17} {15} 0 / ok / ok / on 256 9 5 / line [00] 0

        run --major 18446744073709551615
        128x post 0 0 [33] & drain 0 / drain 0 / read 0 0
        0: .. / ok 4 / ok / seal 0 18446744073709551615.127 d4c1fe8561113d75dda9d546e4ee804e / ok 4 / ok / spent 0 0 / empty / line [33] 0

        run
        read 8 0
        5: stop line 1 4

        run
        post 0 0 127*0
        5: stop line 1 5

        run
        1025*a
        5: stop line 1 6

        run
        read 0 0 / reed 0 0
        5: line [00] 0 / stop line 2 1

        run
        read 0 1024
        0: range

        run
        flush / post 7 357 [78] / flush / read 6 129 / drain 1 / stat
        0: clean / ok / clean / line [00] 0 / empty / stat 5 0 0 1 3

        run --suite weak
        post 3 0 [00] / post 3 64 [00] / post 3 0 [22] / fence 3 / fence 3
        0: ok / ok / ok / seal 0 0.1 {51} / seal 64 0.1 {91} / seal 0 0.2 {12} / ok 3 16 / ok 0 0

        run
        back 0 / poke 1303 [00] / flip 0 512 / on / turn / flush / off / off / read 0 0 / stat
        0: none / range / range / already / idle / clean / ok / off / off / stat 0 0 0 0 0

        run --suite weak
        flip 1281 0 / read 0 0 / read 0 256
        0: ok / refused meta 1 0 / line [00] 0

        run --suite weak
        post 0 0 [00] / drain 0 / off / flip 0 7 / on / flip 0 7 / on
        0: ok / seal 0 0.1 {51} / ok 7 / ok / ok / refused counter 0 0 / ok / on 256 9 5

        run
        # note\r / \r /   read\t0  0\r / stat / -
        0: line [00] 0 / stat 5 0 0 1 3

        run --suite weak
        flip 5 0 / flip 5 0 / read 0 5
        0: ok / ok / line [00] 0

        run
        17x post 0 0 [00]
        0: 16x ok / full

        run --levels 6
        read 0 262143 / read 0 262144
        0: line [00] 0 / range

        run --suite weak
        snap / post 0 0 [00] / drain 0 / back 0 / back 1024 / back 1285 / off / on / read 0 0
        0: ok / ok / seal 0 0.1 {51} / ok 7 / 4x ok / refused root {17} {15} 0 / off",
    )
}

#[test]
fn answers_traces_of_recoveries_and_parts(rt: HostRuntime) -> Result<(), Fail> {
    check_rows(
        &rt,
        "
        run --suite weak
        read 0 0 / stat / read 0 1 / stat
        0: line [00] 0 / stat 5 0 0 1 3 / line [00] 0 / stat 7 0 0 2 3

        run --suite weak
        post 0 0 [00] / drain 0 / flush / flush / flush
        0: ok / seal 0 0.1 {51} / ok 7 / ok 0 1 / ok 1 1 / ok 5 1

        run --suite weak
        post 0 0 [00] / drain 0 / off / flip 1024 127 / on
        0: ok / seal 0 0.1 {51} / ok 7 / ok / ok / refused counter 0 0

        run --suite weak
        post 0 0 [00] / drain 0 / off / flip 1024 120 / on
        0: ok / seal 0 0.1 {51} / ok 7 / ok / ok / refused root {17} {15} 0

        run --suite weak
        post 0 0 [00] / drain 0 / off / flip 1285 0 / on
        0: ok / seal 0 0.1 {51} / ok 7 / ok / ok / refused root {17} {16} 0

        run --suite weak
        post 0 0 [00] / drain 0 / off / flip 1281 0 / on
        0: ok / seal 0 0.1 {51} / ok 7 / ok / ok / on 256 9 5

        run --suite weak
        post 0 0 [00] / drain 0 / off / flip 1282 0 / on
        0: ok / seal 0 0.1 {51} / ok 7 / ok / ok / refused root {17} {16} 0

        run --suite weak
        post 0 0 [00] / drain 0 / off / poke 1301 [00] / on
        0: ok / seal 0 0.1 {51} / ok 7 / ok / ok / refused root {17} {15} 0

        run --suite weak
        post 0 0 [00] / drain 0 / off / poke 1302 [00] / on
        0: ok / seal 0 0.1 {51} / ok 7 / ok / ok / refused root {17} {15} 0

        run --suite weak
        post 0 0 [00] / drain 0 / off / move 2 0 / on
        0: ok / seal 0 0.1 {51} / ok 7 / ok / ok / refused counter 0 0

        run --suite weak
        post 0 0 [00] / drain 0 / off / move 1 0 / on
        0: ok / seal 0 0.1 {51} / ok 7 / ok / ok / on 256 9 5

        run --suite weak
        post 0 0 [11] / cut 4 / drain 0 / poke 0 [ff] / on / read 0 0
        0: ok / ok / seal 0 0.1 {51} / cut kept 4 / ok / on 256 9 8 / line [11] 0

        run --suite weak
        flip 1024 0 / read 0 0
        0: ok / refused data 0 0

        run --suite weak
        post 0 0 [00] / drain 0 / flip 1285 0 / read 0 0
        0: ok / seal 0 0.1 {51} / ok 7 / ok / line [00] 0

        run --suite weak
        post 0 0 [11] / drain 0 / part 0 0 2 aabb / read 0 0 / drain 0 / read 0 0
        0: ok / seal 0 0.1 {51} / ok 7 / ok / line 1111aabb111111111111111111111111111111111111111111111111111111111111111111111111111111111111111111111111111111111111111111111111 0 / seal 0 0.2 {03} / ok 4 / line 1111aabb111111111111111111111111111111111111111111111111111111111111111111111111111111111111111111111111111111111111111111111111 0

        run --suite weak
        flip 0 0 / part 0 0 0 ff / read 0 0 / drain 0 / read 0 0
        0: ok / ok / refused data 0 0 / refused data 0 0 / refused data 0 0

        run --suite weak
        part 0 0 60 0011223344
        0: range

        run --suite weak
        part 0 0 0 0
        5: stop line 1 5

        run --suite weak
        128x post 0 0 [00] & drain 0 / 128x post 0 64 [00] & drain 0 / 64x turn
        0: .. / seal 61 1.0 {2c} / ok 2 4 / seal 62 1.0 {6f} / ok 1 4 / seal 63 1.0 {2e} / ok 0 4 / seal 65 1.0 {50} / ok 62 4

        run --suite weak
        128x post 0 0 [00] & drain 0 / 128x post 0 64 [00] & drain 0 / 128x post 0 128 [00] & drain 0 / 128x post 0 192 [00] & drain 0 / 128x post 0 256 [00] & drain 0
        0: .. / seal 59 1.0 {2a} / seal 60 1.0 {6d} / seal 61 1.0 {2c} / seal 62 1.0 {6f} / seal 63 1.0 {2e} / begin 4 / seal 256 1.1 {11} / ok 259

        run --suite weak
        post 0 0 [00] / drain 0 / loss 2 / off / on
        0: ok / seal 0 0.1 {51} / ok 7 / ok 2 / ok / on 127 9 4

        run --suite weak
        loss 16 / loss 16 / loss 3 / post 0 0 [00] / drain 0 / off / on
        0: ok 1 / ok 0 / range / ok / seal 0 0.1 {51} / ok 7 / ok / on 1024 9 5

        run --suite weak
        post 0 0 [00] / drain 0 / cut 1 / loss 1 / on / read 0 0
        0: ok / seal 0 0.1 {51} / ok 7 / ok / cut 1 / on 255 9 4 / line [00] 0",
    )
}

/// A long sample trace: the replies are those of another program, by their SHA-256.
#[test]
fn answers_a_sample_trace(rt: HostRuntime) -> Result<(), Fail> {
    let (_, trace) = ran(&rt, "make 7 2000", b"", (NEVER, NEVER), PLACES)?;
    let (status, replies) = ran(&rt, "run", trace.as_slice(), (NEVER, NEVER), PLACES)?;
    equal(&rt, status, 0);
    let digest = Sha256::digest(replies.as_slice());
    assert!(rt;
        digest
            .as_slice()
            .starts_with(&[0x93, 0x4a, 0xb4, 0xc6, 0x89, 0xac, 0xcb, 0xdb])
    );
    Ok(())
}

/// Arguments that aren't a command, a line each.
const REFUSED: &str = "ran
    --help
    run x
    run --
    run --loss
    run --loss 3
    run --levels 7
    run --sets=0
    run --ways 2 --ways 2
    run --log --log
    run --log=1
    check --log
    run --queue kept
    run --queue durable --queue durable
    run --combine
    run --combine 1
    wear --queue durable
    wear --combine on
    txn --queue volatile
    txn --combine=off
    tree --queue durable
    check --queue volatile
    make 1
    make 1 1000000
    make 1 2 3
    sample 0
    sample 18446744073709551616 5
    check x
    check --levels 2
    check --suite
    check --suite=weak --suite weak
    check -suite weak
    check --key 0g
    check --tag-key=";

/// Arguments that aren't a command: nothing is read, and a sink that fails changes no status.
fn check_refusal<R: Abort + AllocGlobal>(rt: &R, words: &str) -> Result<(), Fail> {
    let told = ran(rt, words, b"read 0 0", (0, NEVER), PLACES)?;
    check_end(words, told, 2, b"stop words\n")?;
    let untold = ran(rt, words, b"read 0 0", (0, 0), PLACES)?;
    check_end(words, untold, 2, b"")?;
    Ok(())
}

#[test]
fn refuses_words(rt: HostRuntime) -> Result<(), Fail> {
    check_refusal(&rt, "")?;
    for words in REFUSED.split('\n') {
        check_refusal(&rt, words.trim())?;
    }
    Ok(())
}

/// Samples: the words, no trace, the status and the output.
const SAMPLES: &str = "
    make 0 5
    -
    0: flush / post 7 357 [78] / flush / read 6 129 / drain 1 / stat

    make 0 0
    -
    0: stat

    sample 0 5
    -
    0: stat 5 0 0 1 3

    sample 7 2000
    -
    0: stat 4436 1761 1150 6697 2058

    sample 7 20000
    -
    0: stat 51592 17613 11644 66445 19925

    sample 7 20000
    -
    0: stat 51592 17613 11644 66445 19925";

/// A sample trace, which pulls nothing: the push that fails, the places, the status and the output.
fn check_sample<R: Abort + AllocGlobal>(
    rt: &R,
    words: &str,
    push: u64,
    places: usize,
    status: u8,
    output: &str,
) -> Result<(), Fail> {
    let found = ran(rt, words, b"", (0, push), places)?;
    check_end(words, found, status, spelled(rt, output)?.as_slice())?;
    Ok(())
}

#[test]
fn makes_samples(rt: HostRuntime) -> Result<(), Fail> {
    for text in SAMPLES.split("\n\n") {
        let row = row_of(text)?;
        check_sample(&rt, row.words, NEVER, PLACES, row.status, row.output)?;
    }
    check_sample(&rt, "make 0 5", 0, PLACES, 4, "")?;
    check_sample(&rt, "make 0 1", NEVER, 8, 4, "flush / st / -")?;
    check_sample(&rt, "sample 0 5", 0, PLACES, 4, "")?;
    Ok(())
}

/// The check of an exhibit of which a pull or a push fails: the words behind `check`, the lines, the pull and the push that
/// fail, the status and the output.
fn check_exhibit<R: Abort + AllocGlobal>(
    rt: &R,
    options: &str,
    lines: &str,
    failing: (u64, u64),
    status: u8,
    output: &str,
) -> Result<(), Fail> {
    let words = format!(in rt.alloc(); "check {options}")?;
    let given = spelled(rt, lines)?;
    let found = ran(rt, words.as_str(), given.as_slice(), failing, PLACES)?;
    let told = spelled(rt, output)?;
    check_end(words.as_str(), found, status, told.as_slice())?;
    Ok(())
}

#[test]
fn checks_exhibits(rt: HostRuntime) -> Result<(), Fail> {
    check_rows(
        &rt,
        "
        check --suite weak
        clash 5 01000000000000000000000000000000000000000000000000000000000000000000000000000000000000000000000000000000000000000000000000000000 00000000000000010000000000000000000000000000000000000000000000000000000000000000000000000000000000000000000000000000000000000000
        0: holds

        check --tag-key=FF --suite=weak --key 000102030405060708090A0b0c0d0e0f
        # note\r /   / clash 5 01000000000000000000000000000000000000000000000000000000000000000000000000000000000000000000000000000000000000000000000000000000 00000000000000010000000000000000000000000000000000000000000000000000000000000000000000000000000000000000000000000000000000000000
        0: holds

        check
        clash 5 01000000000000000000000000000000000000000000000000000000000000000000000000000000000000000000000000000000000000000000000000000000 00000000000000010000000000000000000000000000000000000000000000000000000000000000000000000000000000000000000000000000000000000000
        8: fails

        check --suite weak
        clash 5 [00] 01000000000000000000000000000000000000000000000000000000000000000000000000000000000000000000000000000000000000000000000000000000
        8: fails

        check --suite weak
        forged 5 0.0 [04..] {55}
        8: fails

        check --suite weak
        forged 0 0.1 [01..] {51}
        0: holds

        check --suite blur
        twin 0 0 0 1 [01..] {50}
        0: holds

        check --suite weak
        twin 0 0 0 1 [01..] {50}
        8: fails

        check --suite blur
        twin 0 0 1 1 [01..] {50}
        8: fails

        check --suite blur
        twin 0 0 1 0 [01..] {50}
        8: fails

        check --suite blur
        twin 0 0 2 1 [01..] {50}
        8: fails

        check
        -
        5: stop line 0 2

        check --suite weak
        clash 5 01000000000000000000000000000000000000000000000000000000000000000000000000000000000000000000000000000000000000000000000000000000 00000000000000010000000000000000000000000000000000000000000000000000000000000000000000000000000000000000000000000000000000000000 / clash 5 [00] 01000000000000000000000000000000000000000000000000000000000000000000000000000000000000000000000000000000000000000000000000000000
        5: stop line 2 2

        check
        clash 5 01000000000000000000000000000000000000000000000000000000000000000000000000000000000000000000000000000000000000000000000000000000 00000000000000010000000000000000000000000000000000000000000000000000000000000000000000000000000000000000000000000000000000000000 /  / clash 5
        5: stop line 3 2

        check
        clash 5 01000000000000000000000000000000000000000000000000000000000000000000000000000000000000000000000000000000000000000000000000000000 00000000000000010000000000000000000000000000000000000000000000000000000000000000000000000000000000000000000000000000000000000000 / clash x 0 0
        5: stop line 2 3

        check
        clash 4294967296 [00] [11]
        5: stop line 1 3

        check
        clash 5 [00] 127*1
        5: stop line 1 5

        check
        clash 5 01000000000000000000000000000000000000000000000000000000000000000000000000000000000000000000000000000000000000000000000000000000 00000000000000010000000000000000000000000000000000000000000000000000000000000000000000000000000000000000000000000000000000000000 / 1025*a
        5: stop line 2 6

        check
        read 0 0
        5: stop line 1 1",
    )?;
    let first =
        "clash 5 01000000000000000000000000000000000000000000000000000000000000000000000000000000000000000000000000000000000000000000000000000000 00000000000000010000000000000000000000000000000000000000000000000000000000000000000000000000000000000000000000000000000000000000";
    check_exhibit(&rt, "", " / #", (NEVER, NEVER), 5, "stop line 0 2")?;
    check_exhibit(&rt, "--suite weak", first, (0, NEVER), 3, "stop read")?;
    check_exhibit(&rt, "--suite weak", first, (1, NEVER), 3, "stop read")?;
    check_exhibit(&rt, "--suite weak", first, (2, NEVER), 0, "holds")?;
    check_exhibit(&rt, "--suite weak", first, (NEVER, 0), 4, "")?;
    check_exhibit(&rt, "--suite weak", first, (0, 0), 4, "")?;
    Ok(())
}

#[test]
fn stops_at_each_fault(rt: HostRuntime) -> Result<(), Fail> {
    check_faults(
        &rt,
        "
        run --suite weak --levels 1
        post 0 0 [11] / cut 4 / drain 0 / cut 3 / on / on / read 0 0 / post 0 0 [11] / drain 0
        0: ok / ok / seal 0 0.1 {51} & cut kept 4 / ok / cut 3 / on 256 5 4 / line [11] 0 / ok / seal 0 0.2 {12} & ok 6

        run --suite blur --loss 2 --levels 1
        post 0 0 [00] / drain 0 / off / on
        6: ok / seal 0 0.1 {50} & ok 6 / ok / twin 0 0 0 1 [01..] {50}

        run --levels 1
        read 0 0 / reed 0 0
        5: line [00] 0 / stop line 2 1",
    )
}

/// The greatest chunks: the pull and the push that fail, the places, the status and the output.
fn check_chunks<R: Abort + AllocGlobal>(
    rt: &R,
    trace: &str,
    failing: (u64, u64),
    places: usize,
    status: u8,
    output: &str,
) -> Result<(), Fail> {
    let given = spelled(rt, trace)?;
    let found = ran(rt, "run", given.as_slice(), failing, places)?;
    check_end(trace, found, status, spelled(rt, output)?.as_slice())?;
    Ok(())
}

#[test]
fn tells_faults(rt: HostRuntime) -> Result<(), Fail> {
    check_chunks(&rt, "read 0 0", (0, NEVER), PLACES, 3, "stop read")?;
    check_chunks(
        &rt,
        "read 0 0 / re / -",
        (1, NEVER),
        PLACES,
        3,
        "line [00] 0 / stop read",
    )?;
    // No pull follows the end.
    check_chunks(&rt, "read 0 0 / -", (2, NEVER), PLACES, 0, "line [00] 0")?;
    check_chunks(&rt, "read 0 0", (NEVER, 0), PLACES, 4, "")?;
    // The replies are pushed before the next pull, and no push follows.
    check_chunks(&rt, "read 0 0 / re / -", (1, 1), PLACES, 4, "line [00] 0")?;
    check_chunks(&rt, "read 0 0", (NEVER, NEVER), 8, 4, "line 000 / -")?;
    Ok(())
}

/// A limit on lines: a beginning, a byte a number of times, an end, and the status and the output.
fn check_limit<R: Abort + AllocGlobal>(
    rt: &R,
    words: &str,
    front: &str,
    (byte, count): (u8, usize),
    end: &str,
    pull: u64,
    status: u8,
    output: &str,
) -> Result<(), Fail> {
    let mut trace = spelled(rt, front)?;
    trace.extend_from_slice(vec![in rt.alloc(); byte; count]?.as_slice())?;
    trace.extend_from_slice(spelled(rt, end)?.as_slice())?;
    let found = ran(rt, words, trace.as_slice(), (pull, NEVER), PLACES)?;
    check_end(output, found, status, spelled(rt, output)?.as_slice())?;
    Ok(())
}

#[test]
fn keeps_limits(rt: HostRuntime) -> Result<(), Fail> {
    check_limit(&rt, "run", "", (b'\n', 1_000_000), "", NEVER, 0, "")?;
    check_limit(
        &rt,
        "run",
        "",
        (b'\n', 1_000_001),
        "",
        NEVER,
        7,
        "stop lines",
    )?;
    check_limit(
        &rt,
        "run",
        "",
        (b'\n', 1_000_000),
        "x / -",
        NEVER,
        7,
        "stop lines",
    )?;
    check_limit(
        &rt,
        "run",
        "read 0 0",
        (b'\n', 999_999),
        "read 0 0",
        NEVER,
        7,
        "line [00] 0 / stop lines",
    )?;
    check_limit(
        &rt,
        "run",
        "read 0 0",
        (b'\n', 999_998),
        "read 0 0 / -",
        NEVER,
        0,
        "2x line [00] 0",
    )?;
    check_limit(
        &rt,
        "run",
        "",
        (b'\n', 999_999),
        "reed 0 0",
        NEVER,
        5,
        "stop line 1000000 1",
    )?;
    check_limit(
        &rt,
        "check",
        "",
        (b'\n', 1_000_000),
        "",
        NEVER,
        5,
        "stop line 0 2",
    )?;
    check_limit(
        &rt,
        "check",
        "",
        (b'\n', 1_000_001),
        "",
        NEVER,
        7,
        "stop lines",
    )?;
    check_limit(&rt, "run", "", (b'a', 1_024), "", NEVER, 5, "stop line 1 1")?;
    check_limit(&rt, "run", "", (b'a', 1_025), "", NEVER, 5, "stop line 1 6")?;
    check_limit(
        &rt,
        "run",
        "",
        (b'#', 1_024),
        " / read 0 0",
        NEVER,
        0,
        "line [00] 0",
    )?;
    check_limit(
        &rt,
        "run",
        "",
        (b'#', 1_025),
        " / read 0 0",
        NEVER,
        5,
        "stop line 1 6",
    )?;
    check_limit(&rt, "run", "", (b'a', 1_025), "", 1, 5, "stop line 1 6")?;
    check_limit(&rt, "run", "", (b'a', 1_024), "", 1, 3, "stop read")?;
    Ok(())
}

#[test]
fn runs_over_readers_and_writers(rt: HostRuntime) -> Result<(), Fail> {
    let alloc = rt.alloc();
    let words = words_of(alloc, "run")?;
    let mut bytes = Vec::new(alloc);
    let mut trace = StdSource::new(b"read 0 1024\n".as_slice());
    let mut out = StdSink::new(&mut bytes);
    let status = run(alloc, words.as_slice(), &mut trace, &mut out);
    drop(out);
    equal(&rt, status, 0);
    equal(&rt, bytes.as_slice(), b"range\n".as_slice());
    Ok(())
}
