//! Each answer of each command.
use super::check;
use std::test::Fail;

/// One level of one set: every answer but `spent` and an exhibit.
const EACH_ANSWER: &str =
    "back 3: none / read 0: line [00] 0 / write 15 [aa]: ok 6 / read 15: line [aa] 0 / write 16 [bb]: range / \
    read 16: range / read 18446744073709551615: range / write 18446744073709551615 [bb]: range / on: already / \
    snap: ok / back 39: range / poke 39 [00]: range / write 0 [cc]: ok 7 / read 0: line [cc] 0 / \
    read 15: line [aa] 1 / write 4 [dd]: ok 6 / read 0: line [cc] 1 / cut 2: ok / write 4 [ee]: cut kept 2 / \
    off: off / write 4 [ee]: off / read 4: off / off: off / poke 18446744073709551615 [00]: range / back 3: ok / \
    snap: ok / on: on 5 5 / on: already / read 4: line [ee] 0 / cut 0: ok / read 0: cut 0 / read 0: off / \
    off: off / on: on 5 0 / cut 1: ok / write 0 [12]: cut lost 1 / on: on 5 0 / cut 0: ok / \
    write 0 [13]: cut lost 0 / on: on 5 0 / cut 3: ok / on: already / read 0: line [cc] 1 / \
    write 0 [14]: cut kept 2 / cut 4: ok / on: cut 4 / on: on 5 5 / read 0: line [14] 0 / snap: ok / \
    poke 0 ff000000000000000000000000000000000000000000000000000000000000000000000000000000000000000000000000000000000000000000000000000000: ok / \
    read 0: refused data 0 0 / write 4 [15]: ok 7 / \
    poke 16 ff000000000000000000000000000000000000000000000000000000000000000000000000000000000000000000000000000000000000000000000000000000: ok / \
    read 0: refused data 0 1 / back 0: ok / read 0: refused data 0 0 / back 16: ok / read 0: line [14] 0 / \
    write 9 [16]: ok 6 / \
    poke 33 ff000000000000000000000000000000000000000000000000000000000000000000000000000000000000000000000000000000000000000000000000000000: ok / \
    read 0: refused node 1 0 / write 0 [17]: refused node 1 0 / read 9: line [16] 0 / back 33: ok / \
    read 0: refused node 1 0 / write 0 [18]: refused node 1 0 / off: ok / snap: ok / \
    poke 38 ff000000000000000000000000000000000000000000000000000000000000000000000000000000000000000000000000000000000000000000000000000000: ok / \
    on: refused shadow 00000000000000000000000000000000 000000000000000000000000000000fa 0 / back 38: ok / \
    on: on 5 0 / read 0: refused node 1 0 / cut 18446744073709551615: ok / write 0 [19]: refused node 1 0 / \
    read 0: refused node 1 0 / off: ok / cut 0: ok / on: on 5 0 / off: ok";

/// Each cut of a write for which a dirty node gives way, and each cut of a recovery with a group to finish.
const EACH_CUT: &str =
    "write 0 [40]: ok 6 / cut 0: ok / write 4 [10]: cut lost 0 / on: on 5 0 / off: ok / on: on 5 0 / \
    read 0: line [40] 0 / read 4: line [00] 1 / write 0 [41]: ok 6 / cut 1: ok / write 4 [11]: cut lost 1 / \
    on: on 5 0 / off: ok / on: on 5 0 / read 0: line [41] 0 / read 4: line [00] 1 / write 0 [42]: ok 6 / \
    cut 2: ok / write 4 [12]: cut kept 2 / on: on 5 5 / off: ok / on: on 5 0 / read 0: line [42] 1 / \
    read 4: line [12] 0 / write 0 [43]: ok 6 / cut 3: ok / write 4 [13]: cut kept 3 / on: on 5 5 / off: ok / \
    on: on 5 0 / read 0: line [43] 1 / read 4: line [13] 0 / write 0 [44]: ok 6 / cut 4: ok / \
    write 4 [14]: cut kept 4 / on: on 5 5 / off: ok / on: on 5 0 / read 0: line [44] 1 / read 4: line [14] 0 / \
    write 0 [45]: ok 6 / cut 5: ok / write 4 [15]: cut kept 5 / on: on 5 5 / off: ok / on: on 5 0 / \
    read 0: line [45] 1 / read 4: line [15] 0 / write 0 [46]: ok 6 / cut 6: ok / write 4 [16]: cut kept 6 / \
    on: on 5 5 / off: ok / on: on 5 0 / read 0: line [46] 1 / read 4: line [16] 0 / write 0 [47]: ok 6 / \
    cut 7: ok / write 4 [17]: ok 7 / on: already / off: ok / on: on 5 0 / read 0: line [47] 1 / \
    read 4: line [17] 0 / write 0 [48]: ok 6 / cut 8: ok / write 4 [18]: ok 7 / on: already / off: ok / \
    on: on 5 0 / read 0: line [48] 1 / read 4: line [18] 0 / cut 3: ok / write 8 [20]: cut kept 3 / cut 0: ok / \
    on: cut 0 / on: on 5 5 / read 8: line [20] 0 / read 0: line [48] 1 / read 4: line [18] 0 / cut 3: ok / \
    write 8 [21]: cut kept 3 / cut 1: ok / on: cut 1 / on: on 5 5 / read 8: line [21] 0 / read 0: line [48] 1 / \
    read 4: line [18] 0 / cut 3: ok / write 8 [22]: cut kept 3 / cut 2: ok / on: cut 2 / on: on 5 5 / \
    read 8: line [22] 0 / read 0: line [48] 1 / read 4: line [18] 0 / cut 3: ok / write 8 [23]: cut kept 3 / \
    cut 3: ok / on: cut 3 / on: on 5 5 / read 8: line [23] 0 / read 0: line [48] 1 / read 4: line [18] 0 / \
    cut 3: ok / write 8 [24]: cut kept 3 / cut 4: ok / on: cut 4 / on: on 5 5 / read 8: line [24] 0 / \
    read 0: line [48] 1 / read 4: line [18] 0 / cut 3: ok / write 8 [25]: cut kept 3 / cut 5: ok / on: on 5 5 / \
    on: already / read 8: line [25] 0 / read 0: cut 0 / read 4: off";

/// A data line is put back as it was: its tag fits under its new counter too.
const OLD_LINE_SHOWN: &str =
    "snap: ok / write 0 [11]: ok 6 / read 4: line [00] 1 / write 0 [22]: ok 6 / back 0: ok / \
    read 0: forged 0 2.0 000102030405060708090a0b0c0d0e0f101112131415161718191a1b1c1d1e1f202122232425262728292a2b2c2d2e2f303132333435363738393a3b3c3d3e3f 00000000000000000000000000000012";

/// Two counters of a node change places, which its tag and its version let through, and a read fetches it.
const NODE_SHOWN_TO_READ: &str = "write 0 [11]: ok 6 / write 0 [22]: ok 6 / write 4 [33]: ok 7 / \
    poke 33 00000000000000000000000000000002000000000000000000000000000000000000000000000000000000000000000000000000000000000000000000000091: ok / \
    read 4: line [33] 0 / \
    read 1: forged 2147483649 2.0 00000000000000000000000000000002000000000000000000000000000000000000000000000000000000000000000000000000000000000000000000000000 00000000000000000000000000000091";

/// Two counters of a node change places, which its tag and its version let through, and a write fetches it.
const NODE_SHOWN_TO_WRITE: &str = "write 0 [11]: ok 6 / write 0 [22]: ok 6 / write 4 [33]: ok 7 / \
    poke 33 00000000000000000000000000000002000000000000000000000000000000000000000000000000000000000000000000000000000000000000000000000091: ok / \
    read 4: line [33] 0 / \
    write 1 [44]: forged 2147483649 2.0 00000000000000000000000000000002000000000000000000000000000000000000000000000000000000000000000000000000000000000000000000000000 00000000000000000000000000000091";

// The write that was cut after its arming latch is kept, and recovery finishes it.
#[test]
fn armed_write_is_kept(rt: HostRuntime) -> Result<(), Fail> {
    check(
        &rt,
        2,
        4,
        "write 5 [11]: ok 7 / cut 1: ok / write 5 [22]: cut kept 1 / on: on 21 6 / read 5: line [22] 0",
    )
}

#[test]
fn changed_line_is_refused(rt: HostRuntime) -> Result<(), Fail> {
    check(&rt, 2, 4, "poke 5 [00]: ok / read 5: refused data 5 0")
}

#[test]
fn changed_slot_is_refused(rt: HostRuntime) -> Result<(), Fail> {
    check(
        &rt,
        2,
        4,
        "write 5 [11]: ok 7 / off: ok / poke 151 [00]: ok / \
        on: refused shadow 00000000000000000000000000000010 00000000000000000000000000000013 0",
    )
}

// The digests of the shadow tree are one byte each: another top's slot line has the root.
#[test]
fn slots_of_one_root_clash(rt: HostRuntime) -> Result<(), Fail> {
    check(
        &rt,
        2,
        4,
        "write 5 [11]: ok 7 / off: ok / poke 149 [00]: ok / on: clash 5 [00] \
        00000001000000000000000000000001000000000000000000000000000000000000000000000000000000000000000000000000\
        000000000000000000000000",
    )
}

#[test]
fn each_answer_comes(rt: HostRuntime) -> Result<(), Fail> {
    check(&rt, 1, 1, EACH_ANSWER)
}

#[test]
fn each_cut_keeps_or_loses(rt: HostRuntime) -> Result<(), Fail> {
    check(&rt, 1, 1, EACH_CUT)
}

#[test]
fn forged_line_is_shown(rt: HostRuntime) -> Result<(), Fail> {
    check(&rt, 1, 1, OLD_LINE_SHOWN)
}

#[test]
fn forged_node_is_shown(rt: HostRuntime) -> Result<(), Fail> {
    check(&rt, 1, 1, NODE_SHOWN_TO_READ)?;
    check(&rt, 1, 1, NODE_SHOWN_TO_WRITE)
}
