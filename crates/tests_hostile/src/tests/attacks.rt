//! What an attacker on the bus tries, in addition to the worked rows: for each row the setting, the trace, the status,
//! and the replies, or the end of them if they begin with `..`. The answers are those of another program.
use super::tampering::check_rows;
use std::test::Fail;

/// Parts of a line put back as they were before its last write, with power on.
#[test]
fn old_parts_are_refused(rt: HostRuntime) -> Result<(), Fail> {
    check_rows(
        &rt,
        "
        // The old cipher alone: the tag is that of the new one.
        aes
        post 0 0 [11] / drain 0 / snap / post 0 0 [22] / drain 0 / back 0 / read 0 0
        0: ok / seal 0 0.1 e2c86073b7116cbb9fc299fe0e5168ee / ok 7 / ok / ok / seal 0 0.2 c8c57075ce2b4ef7d5f8681325794aaa / ok 4 / ok / refused data 0 0

        // The old tag alone: it is that of the old cipher.
        aes
        post 0 0 [11] / drain 0 / snap / post 0 0 [22] / drain 0 / back 1024 / read 0 0
        0: ok / seal 0 0.1 e2c86073b7116cbb9fc299fe0e5168ee / ok 7 / ok / ok / seal 0 0.2 c8c57075ce2b4ef7d5f8681325794aaa / ok 4 / ok / refused data 0 0

        // Old cipher and tag fit each other, but not the present counter.
        aes
        post 0 0 [11] / drain 0 / snap / post 0 0 [22] / drain 0 / back 0 / back 1024 / read 0 0
        0: ok / seal 0 0.1 e2c86073b7116cbb9fc299fe0e5168ee / ok 7 / ok / ok / seal 0 0.2 c8c57075ce2b4ef7d5f8681325794aaa / ok 4 / ok / ok / refused data 0 0

        // The old counter block alone: the one in the cache counts, so nothing is refused.
        aes
        post 0 0 [11] / drain 0 / snap / post 0 0 [22] / drain 0 / back 1285 / read 0 0
        0: ok / seal 0 0.1 e2c86073b7116cbb9fc299fe0e5168ee / ok 7 / ok / ok / seal 0 0.2 c8c57075ce2b4ef7d5f8681325794aaa / ok 4 / ok / line [22] 0

        // All three: the block in the cache counts, and the old tag is not of its counter.
        aes
        post 0 0 [11] / drain 0 / snap / post 0 0 [22] / drain 0 / back 0 / back 1024 / back 1285 / read 0 0
        0: ok / seal 0 0.1 e2c86073b7116cbb9fc299fe0e5168ee / ok 7 / ok / ok / seal 0 0.2 c8c57075ce2b4ef7d5f8681325794aaa / ok 4 / ok / ok / ok / refused data 0 0

        // All three, once the block gave way in the cache: the node above it has another digest.
        narrow
        post 0 0 [11] / drain 0 / snap / post 0 0 [22] / drain 0 / post 0 960 [33] / drain 0 / back 0 / back 1024 / back 1285 / read 0 0
        0: ok / seal 0 0.1 e2c86073b7116cbb9fc299fe0e5168ee / ok 7 / ok / ok / seal 0 0.2 c8c57075ce2b4ef7d5f8681325794aaa / ok 4 / ok / seal 960 0.1 621fe73d3d70c1d8b77c39a7cf8f0ded / ok 8 / ok / ok / ok / refused meta 5 1

        // The node above it too: the top, which is cached, has another digest of it.
        narrow
        post 0 0 [11] / drain 0 / snap / post 0 0 [22] / drain 0 / post 0 960 [33] / drain 0 / back 0 / back 1024 / back 1285 / back 1281 / read 0 0
        0: ok / seal 0 0.1 e2c86073b7116cbb9fc299fe0e5168ee / ok 7 / ok / ok / seal 0 0.2 c8c57075ce2b4ef7d5f8681325794aaa / ok 4 / ok / seal 960 0.1 621fe73d3d70c1d8b77c39a7cf8f0ded / ok 8 / ok / ok / ok / ok / refused meta 1 0

        // Put back and then written whole: the old bytes are gone.
        aes
        post 0 0 [11] / drain 0 / snap / post 0 0 [22] / drain 0 / back 0 / back 1024 / post 0 0 [44] / drain 0 / read 0 0
        0: ok / seal 0 0.1 e2c86073b7116cbb9fc299fe0e5168ee / ok 7 / ok / ok / seal 0 0.2 c8c57075ce2b4ef7d5f8681325794aaa / ok 4 / ok / ok / ok / seal 0 0.3 4745bc4d712f794d320d16f2ac86aced / ok 4 / line [44] 0

        // Put back and then written in part: the line is checked before.
        aes
        post 0 0 [11] / drain 0 / snap / post 0 0 [22] / drain 0 / back 0 / back 1024 / part 0 0 0 44 / drain 0 / read 0 0
        0: ok / seal 0 0.1 e2c86073b7116cbb9fc299fe0e5168ee / ok 7 / ok / ok / seal 0 0.2 c8c57075ce2b4ef7d5f8681325794aaa / ok 4 / ok / ok / ok / refused data 0 0 / refused data 0 0",
    )
}

/// Parts of a line put back as they were before its last write, with power off.
#[test]
fn old_parts_are_refused_after_power(rt: HostRuntime) -> Result<(), Fail> {
    check_rows(
        &rt,
        "
        // The old cipher alone: no counter in the window gives the tag.
        aes
        post 0 0 [11] / drain 0 / snap / post 0 0 [22] / drain 0 / off / back 0 / on
        0: ok / seal 0 0.1 e2c86073b7116cbb9fc299fe0e5168ee / ok 7 / ok / ok / seal 0 0.2 c8c57075ce2b4ef7d5f8681325794aaa / ok 4 / ok / ok / refused counter 0 0

        // The old tag alone: no counter in the window gives it.
        aes
        post 0 0 [11] / drain 0 / snap / post 0 0 [22] / drain 0 / off / back 1024 / on
        0: ok / seal 0 0.1 e2c86073b7116cbb9fc299fe0e5168ee / ok 7 / ok / ok / seal 0 0.2 c8c57075ce2b4ef7d5f8681325794aaa / ok 4 / ok / ok / refused counter 0 0

        // The old counter block alone: it is named, so its minors are found by trials.
        aes
        post 0 0 [11] / drain 0 / snap / post 0 0 [22] / drain 0 / off / back 1285 / on / read 0 0
        0: ok / seal 0 0.1 e2c86073b7116cbb9fc299fe0e5168ee / ok 7 / ok / ok / seal 0 0.2 c8c57075ce2b4ef7d5f8681325794aaa / ok 4 / ok / ok / on 256 9 5 / line [22] 0

        // Old cipher and tag: the trials find the old counter, whose root is not the one on the chip.
        aes
        post 0 0 [11] / drain 0 / snap / post 0 0 [22] / drain 0 / off / back 0 / back 1024 / on
        0: ok / seal 0 0.1 e2c86073b7116cbb9fc299fe0e5168ee / ok 7 / ok / ok / seal 0 0.2 c8c57075ce2b4ef7d5f8681325794aaa / ok 4 / ok / ok / ok / refused root 71e952f16b94871fba00bfee07572964 bdccd2bc398d3a2c80aeedbf02f1b2e3 0

        // The whole old device: its root is not the one on the chip.
        aes
        post 0 0 [11] / drain 0 / snap / post 0 0 [22] / drain 0 / off / back 0 / back 1024 / back 1285 / back 1281 / back 1280 / back 1301 / back 1302 / on
        0: ok / seal 0 0.1 e2c86073b7116cbb9fc299fe0e5168ee / ok 7 / ok / ok / seal 0 0.2 c8c57075ce2b4ef7d5f8681325794aaa / ok 4 / ok / ok / ok / ok / ok / ok / ok / ok / refused root 71e952f16b94871fba00bfee07572964 bdccd2bc398d3a2c80aeedbf02f1b2e3 0

        // The old block where nothing is named: recovery does not look at it, the read finds another digest.
        aes
        post 0 0 [11] / drain 0 / off / on / snap / post 0 0 [22] / drain 0 / off / on / off / back 1285 / on / read 0 0
        0: ok / seal 0 0.1 e2c86073b7116cbb9fc299fe0e5168ee / ok 7 / ok / on 256 9 5 / ok / ok / seal 0 0.2 c8c57075ce2b4ef7d5f8681325794aaa / ok 7 / ok / on 255 9 5 / ok / ok / on 0 1 0 / refused meta 5 0

        // The node above it too: recovery looks at the top alone, and a read finds the node.
        aes
        post 0 0 [11] / drain 0 / off / on / snap / post 0 0 [22] / drain 0 / off / on / off / back 1285 / back 1281 / on
        0: ok / seal 0 0.1 e2c86073b7116cbb9fc299fe0e5168ee / ok 7 / ok / on 256 9 5 / ok / ok / seal 0 0.2 c8c57075ce2b4ef7d5f8681325794aaa / ok 7 / ok / on 255 9 5 / ok / ok / ok / on 0 1 0

        // Old cipher and tag where nothing is named: the read refuses them.
        aes
        post 0 0 [11] / drain 0 / off / on / snap / post 0 0 [22] / drain 0 / off / on / off / back 0 / back 1024 / on / read 0 0
        0: ok / seal 0 0.1 e2c86073b7116cbb9fc299fe0e5168ee / ok 7 / ok / on 256 9 5 / ok / ok / seal 0 0.2 c8c57075ce2b4ef7d5f8681325794aaa / ok 7 / ok / on 255 9 5 / ok / ok / ok / on 0 1 0 / refused data 0 0

        // The whole old device where nothing is named: its root is not the one on the chip.
        aes
        post 0 0 [11] / drain 0 / off / on / snap / post 0 0 [22] / drain 0 / off / on / off / back 0 / back 1024 / back 1285 / back 1281 / back 1280 / on
        0: ok / seal 0 0.1 e2c86073b7116cbb9fc299fe0e5168ee / ok 7 / ok / on 256 9 5 / ok / ok / seal 0 0.2 c8c57075ce2b4ef7d5f8681325794aaa / ok 7 / ok / on 255 9 5 / ok / ok / ok / ok / ok / ok / refused root 71e952f16b94871fba00bfee07572964 bdccd2bc398d3a2c80aeedbf02f1b2e3 0

        // The old block under power: after a recovery nothing is cached, so it is fetched and refused.
        aes
        post 0 0 [11] / drain 0 / off / on / snap / post 0 0 [22] / drain 0 / off / on / back 1285 / read 0 0
        0: ok / seal 0 0.1 e2c86073b7116cbb9fc299fe0e5168ee / ok 7 / ok / on 256 9 5 / ok / ok / seal 0 0.2 c8c57075ce2b4ef7d5f8681325794aaa / ok 7 / ok / on 255 9 5 / ok / refused meta 5 0

        // The old node above it: pages below it are refused, others are not.
        aes
        post 0 0 [11] / drain 0 / off / on / snap / post 0 0 [22] / drain 0 / off / on / back 1281 / read 0 0 / read 0 256
        0: ok / seal 0 0.1 e2c86073b7116cbb9fc299fe0e5168ee / ok 7 / ok / on 256 9 5 / ok / ok / seal 0 0.2 c8c57075ce2b4ef7d5f8681325794aaa / ok 7 / ok / on 255 9 5 / ok / refused meta 1 0 / line [00] 0

        // The old top: it is not the one whose digest is on the chip, so every page is refused.
        aes
        post 0 0 [11] / drain 0 / off / on / snap / post 0 0 [22] / drain 0 / off / on / back 1280 / read 0 0 / read 0 1023
        0: ok / seal 0 0.1 e2c86073b7116cbb9fc299fe0e5168ee / ok 7 / ok / on 256 9 5 / ok / ok / seal 0 0.2 c8c57075ce2b4ef7d5f8681325794aaa / ok 7 / ok / on 255 9 5 / ok / refused meta 0 0 / refused meta 0 0

        // The whole old device under power: the old top is not the one on the chip.
        aes
        post 0 0 [11] / drain 0 / off / on / snap / post 0 0 [22] / drain 0 / off / on / back 0 / back 1024 / back 1285 / back 1281 / back 1280 / read 0 0
        0: ok / seal 0 0.1 e2c86073b7116cbb9fc299fe0e5168ee / ok 7 / ok / on 256 9 5 / ok / ok / seal 0 0.2 c8c57075ce2b4ef7d5f8681325794aaa / ok 7 / ok / on 255 9 5 / ok / ok / ok / ok / ok / refused meta 0 0

        // Parts put back one by one: the old counter fits, but never the root.
        aes
        post 0 0 [11] / drain 0 / snap / post 0 0 [22] / drain 0 / off / back 0 / on / back 1024 / on / snap / back 0 / on
        0: ok / seal 0 0.1 e2c86073b7116cbb9fc299fe0e5168ee / ok 7 / ok / ok / seal 0 0.2 c8c57075ce2b4ef7d5f8681325794aaa / ok 4 / ok / ok / refused counter 0 0 / ok / refused root 71e952f16b94871fba00bfee07572964 bdccd2bc398d3a2c80aeedbf02f1b2e3 0 / ok / ok / refused root 71e952f16b94871fba00bfee07572964 bdccd2bc398d3a2c80aeedbf02f1b2e3 0

        // Cipher and tag from before the last write-back of the block: their counter is below its window.
        aes
        post 0 0 [11] / drain 0 / snap / post 0 0 [22] / drain 0 / post 0 0 [33] / drain 0 / post 0 0 [44] / drain 0 / post 0 0 [55] / drain 0 / off / back 0 / back 1024 / on
        0: ok / seal 0 0.1 e2c86073b7116cbb9fc299fe0e5168ee / ok 7 / ok / ok / seal 0 0.2 c8c57075ce2b4ef7d5f8681325794aaa / ok 4 / ok / seal 0 0.3 53731a88f5fa2c7ecbd582ce65406d21 / ok 4 / ok / seal 0 0.4 293c4765083fb75e16e995000ee3755a / ok 5 / ok / seal 0 0.5 0ddca64d9d80ab42aeb403ddc50b54c4 / ok 4 / ok / ok / ok / refused counter 0 0

        // A block from before a smaller stop-loss number: the present counter is above its window.
        aes
        post 0 0 [11] / drain 0 / snap / loss 2 / post 0 0 [22] / drain 0 / off / back 1285 / on
        0: ok / seal 0 0.1 e2c86073b7116cbb9fc299fe0e5168ee / ok 7 / ok / ok 2 / ok / seal 0 0.2 c8c57075ce2b4ef7d5f8681325794aaa / ok 5 / ok / ok / refused counter 0 0

        // The same without a later write: the counter is in its window, and is found.
        aes
        post 0 0 [11] / drain 0 / snap / loss 2 / off / back 1285 / on / read 0 0
        0: ok / seal 0 0.1 e2c86073b7116cbb9fc299fe0e5168ee / ok 7 / ok / ok 2 / ok / ok / on 128 9 5 / line [11] 0

        // A changed cipher put back as it was: after the refusal recovery goes through.
        aes
        post 0 0 [11] / drain 0 / off / snap / poke 0 [ff] / on / back 0 / on / read 0 0
        0: ok / seal 0 0.1 e2c86073b7116cbb9fc299fe0e5168ee / ok 7 / ok / ok / ok / refused counter 0 0 / ok / on 256 9 5 / line [11] 0",
    )
}

/// Parts swapped, or put to places of others.
#[test]
fn moved_parts_are_refused(rt: HostRuntime) -> Result<(), Fail> {
    check_rows(
        &rt,
        "
        // Two ciphers swapped: each has the other one's tag beside it.
        aes
        post 0 0 [11] / drain 0 / post 0 1 [22] / drain 0 / move 0 900 / move 1 0 / move 900 1 / read 0 0 / read 0 1
        0: ok / seal 0 0.1 e2c86073b7116cbb9fc299fe0e5168ee / ok 7 / ok / seal 1 0.1 6404715d751acd5afa07ed4112aee5c8 / ok 4 / ok / ok / ok / refused data 0 0 / refused data 1 0

        // Swapped with their tags: a tag is also of the line's number.
        aes
        post 0 0 [11] / drain 0 / post 0 1 [22] / drain 0 / move 0 900 / move 1 0 / move 900 1 / poke 1024 6404715d751acd5afa07ed4112aee5c8e2c86073b7116cbb9fc299fe0e5168eedca7c523fbf57b0fba0827fd0173b66d1e684b8b9b717eca346c9a03cf8b76f8 / read 0 0 / read 0 1
        0: ok / seal 0 0.1 e2c86073b7116cbb9fc299fe0e5168ee / ok 7 / ok / seal 1 0.1 6404715d751acd5afa07ed4112aee5c8 / ok 4 / ok / ok / ok / ok / refused data 0 0 / refused data 1 0

        // The same under weak tags, which are of the number too.
        weak
        post 0 0 [11] / drain 0 / post 0 1 [22] / drain 0 / move 0 900 / move 1 0 / move 900 1 / poke 1024 00000000000000000000000000000010000000000000000000000000000000510000000000000000000000000000001200000000000000000000000000000053 / read 0 0 / read 0 1
        0: ok / seal 0 0.1 {51} / ok 7 / ok / seal 1 0.1 {10} / ok 4 / ok / ok / ok / ok / refused data 0 0 / refused data 1 0

        // A line with its tag in the same place of another page: the number is another.
        aes
        post 0 0 [11] / drain 0 / post 0 64 [22] / drain 0 / move 0 64 / move 1024 1040 / read 0 64
        0: ok / seal 0 0.1 e2c86073b7116cbb9fc299fe0e5168ee / ok 7 / ok / seal 64 0.1 7f05569c31f81b3e93a140dcf7f4bbc5 / ok 5 / ok / ok / refused data 64 0

        // The same with power off: no counter fits.
        aes
        post 0 0 [11] / drain 0 / post 0 64 [22] / drain 0 / off / move 0 64 / move 1024 1040 / on
        0: ok / seal 0 0.1 e2c86073b7116cbb9fc299fe0e5168ee / ok 7 / ok / seal 64 0.1 7f05569c31f81b3e93a140dcf7f4bbc5 / ok 5 / ok / ok / ok / refused counter 64 0

        // Two counter blocks swapped: a digest is also of the position.
        aes
        post 0 0 [11] / drain 0 / post 0 65 [22] / drain 0 / post 0 256 [33] / drain 0 / off / on / move 1285 900 / move 1286 1285 / move 900 1286 / read 0 0 / read 0 65 / read 0 256
        0: ok / seal 0 0.1 e2c86073b7116cbb9fc299fe0e5168ee / ok 7 / ok / seal 65 0.1 953156a90faa03369ea4d0577add6ee9 / ok 5 / ok / seal 256 0.1 c74b57523d4aafc9595e50c2d102ebbe / ok 6 / ok / on 768 13 8 / ok / ok / ok / refused meta 5 0 / refused meta 6 0 / line [33] 0

        // The block of another page in the place of a named one: its minors are found by trials.
        aes
        post 0 0 [11] / drain 0 / post 0 65 [22] / drain 0 / off / move 1286 1285 / on / read 0 0 / read 0 65
        0: ok / seal 0 0.1 e2c86073b7116cbb9fc299fe0e5168ee / ok 7 / ok / seal 65 0.1 953156a90faa03369ea4d0577add6ee9 / ok 5 / ok / ok / on 512 9 6 / line [11] 0 / line [22] 0

        // A node in the place of another: a digest is of the position, and pages elsewhere are not refused.
        aes
        post 0 0 [11] / drain 0 / post 0 65 [22] / drain 0 / post 0 256 [33] / drain 0 / off / on / move 1282 1281 / read 0 0 / read 0 256
        0: ok / seal 0 0.1 e2c86073b7116cbb9fc299fe0e5168ee / ok 7 / ok / seal 65 0.1 953156a90faa03369ea4d0577add6ee9 / ok 5 / ok / seal 256 0.1 c74b57523d4aafc9595e50c2d102ebbe / ok 6 / ok / on 768 13 8 / ok / refused meta 1 0 / line [33] 0

        // A node in the place of the top: its digest is not the one on the chip.
        aes
        post 0 0 [11] / drain 0 / post 0 65 [22] / drain 0 / post 0 256 [33] / drain 0 / off / on / move 1281 1280 / read 0 0
        0: ok / seal 0 0.1 e2c86073b7116cbb9fc299fe0e5168ee / ok 7 / ok / seal 65 0.1 953156a90faa03369ea4d0577add6ee9 / ok 5 / ok / seal 256 0.1 c74b57523d4aafc9595e50c2d102ebbe / ok 6 / ok / on 768 13 8 / ok / refused meta 0 0

        // The same where the top is named: it is made anew from the nodes below it.
        aes
        post 0 0 [11] / drain 0 / off / move 1281 1280 / on / read 0 0
        0: ok / seal 0 0.1 e2c86073b7116cbb9fc299fe0e5168ee / ok 7 / ok / ok / on 256 9 5 / line [11] 0

        // A counter block in the place of a cipher: the tag is not of it, and line 1 is as it was.
        aes
        post 0 0 [11] / drain 0 / post 0 65 [22] / drain 0 / post 0 256 [33] / drain 0 / off / on / move 1285 0 / read 0 0 / read 0 1
        0: ok / seal 0 0.1 e2c86073b7116cbb9fc299fe0e5168ee / ok 7 / ok / seal 65 0.1 953156a90faa03369ea4d0577add6ee9 / ok 5 / ok / seal 256 0.1 c74b57523d4aafc9595e50c2d102ebbe / ok 6 / ok / on 768 13 8 / ok / refused data 0 0 / line [00] 0",
    )
}

/// What the shadow tables name.
#[test]
fn tables_are_tampered_with(rt: HostRuntime) -> Result<(), Fail> {
    check_rows(
        &rt,
        "
        // The block is named by a slot of another set: a name counts in any slot.
        weak
        post 0 0 [11] / drain 0 / off / poke 1301 00000000000000000000000600000000000000000000000000000000000000000000000000000000000000000000000000000000000000000000000000000000 / on
        0: ok / seal 0 0.1 {51} / ok 7 / ok / ok / on 256 9 5

        // Names of no block: the block that was dirty is not named.
        weak
        post 0 0 [11] / drain 0 / off / poke 1301 [ff] / on
        0: ok / seal 0 0.1 {51} / ok 7 / ok / ok / refused root {17} {15} 0

        // Names of no node: the nodes that were dirty are not named.
        weak
        post 0 0 [11] / drain 0 / off / poke 1302 [ff] / on
        0: ok / seal 0 0.1 {51} / ok 7 / ok / ok / refused root {17} {15} 0

        // The block is named twice: it is tried once.
        weak
        post 0 0 [11] / drain 0 / off / poke 1301 00000000000000000000000600000006000000000000000000000000000000000000000000000000000000000000000000000000000000000000000000000000 / on
        0: ok / seal 0 0.1 {51} / ok 7 / ok / ok / on 256 9 5

        // Named by each slot: it is tried once.
        weak
        post 0 0 [11] / drain 0 / off / poke 1301 00000006000000060000000600000006000000060000000600000006000000060000000000000000000000000000000000000000000000000000000000000000 / on
        0: ok / seal 0 0.1 {51} / ok 7 / ok / ok / on 256 9 5

        // Another page is named in its place: the block itself is not tried.
        weak
        post 0 0 [11] / drain 0 / off / poke 1301 00000000000000000000000700000000000000000000000000000000000000000000000000000000000000000000000000000000000000000000000000000000 / on
        0: ok / seal 0 0.1 {51} / ok 7 / ok / ok / refused root {17} {15} 0

        // Another page is named beside it: its trials find the counters that it has.
        weak
        post 0 0 [11] / drain 0 / off / poke 1301 00000000000000000000000600000007000000000000000000000000000000000000000000000000000000000000000000000000000000000000000000000000 / on
        0: ok / seal 0 0.1 {51} / ok 7 / ok / ok / on 512 9 5

        // A node in the table of blocks names no block.
        weak
        post 0 0 [11] / drain 0 / off / poke 1301 00000000000000000000000200000000000000000000000000000000000000000000000000000000000000000000000000000000000000000000000000000000 / on
        0: ok / seal 0 0.1 {51} / ok 7 / ok / ok / refused root {17} {15} 0

        // The block is named past the last slot, where nothing counts.
        weak
        post 0 0 [11] / drain 0 / off / poke 1301 00000000000000000000000000000000000000000000000000000000000000000000000600000000000000000000000000000000000000000000000000000000 / on
        0: ok / seal 0 0.1 {51} / ok 7 / ok / ok / refused root {17} {15} 0

        // Others are named past the last slot, where nothing counts.
        weak
        post 0 0 [11] / drain 0 / off / poke 1301 00000000000000000000000600000000000000000000000000000000000000000000000700000008000000090000000a00000000000000000000000000000000 / on
        0: ok / seal 0 0.1 {51} / ok 7 / ok / ok / on 256 9 5

        // A number beside it that no metadata line has names nothing.
        weak
        post 0 0 [11] / drain 0 / off / poke 1301 00000000000000000000000600000016000000000000000000000000000000000000000000000000000000000000000000000000000000000000000000000000 / on
        0: ok / seal 0 0.1 {51} / ok 7 / ok / ok / on 256 9 5

        // Nor does the greatest number.
        weak
        post 0 0 [11] / drain 0 / off / poke 1301 000000000000000000000006ffffffff000000000000000000000000000000000000000000000000000000000000000000000000000000000000000000000000 / on
        0: ok / seal 0 0.1 {51} / ok 7 / ok / ok / on 256 9 5

        // Tables cleared under power: the next name is written with the others of its table.
        weak
        post 0 0 [11] / drain 0 / poke 1301 [00] / poke 1302 [00] / post 0 64 [22] / drain 0 / off / on
        0: ok / seal 0 0.1 {51} / ok 7 / ok / ok / ok / seal 64 0.1 {91} / ok 5 / ok / on 512 1 3

        // Cleared, and no name is due any more: the next recovery finds nothing named.
        weak
        post 0 0 [11] / drain 0 / poke 1301 [00] / post 0 0 [22] / drain 0 / off / on
        0: ok / seal 0 0.1 {51} / ok 7 / ok / ok / seal 0 0.2 {12} / ok 4 / ok / refused root {11} {15} 0

        // Old tables, which name another page.
        weak
        post 0 0 [11] / drain 0 / off / snap / on / post 0 64 [22] / drain 0 / off / back 1301 / back 1302 / on
        0: ok / seal 0 0.1 {51} / ok 7 / ok / ok / on 256 9 5 / ok / seal 64 0.1 {91} / ok 7 / ok / ok / ok / refused root {15} {17} 0

        // Old tables, which name nothing.
        weak
        post 0 0 [11] / drain 0 / off / on / snap / post 0 0 [22] / drain 0 / off / back 1301 / back 1302 / on
        0: ok / seal 0 0.1 {51} / ok 7 / ok / on 256 9 5 / ok / ok / seal 0 0.2 {12} / ok 7 / ok / ok / ok / refused root {11} {17} 0",
    )
}

/// Between the cut of a write, once its group is armed, and its recovery.
#[test]
fn armed_groups_are_tampered_with(rt: HostRuntime) -> Result<(), Fail> {
    check_rows(
        &rt,
        "
        // Its cipher, before the redo: it is written anew.
        weak
        post 0 0 [11] / cut 4 / drain 0 / poke 0 [ff] / on / read 0 0
        0: ok / ok / seal 0 0.1 {51} / cut kept 4 / ok / on 256 9 8 / line [11] 0

        // Its cipher, within the redo.
        weak
        post 0 0 [11] / cut 5 / drain 0 / poke 0 [ff] / on / read 0 0
        0: ok / ok / seal 0 0.1 {51} / cut kept 5 / ok / on 256 9 8 / line [11] 0

        // Its cipher, before the group is emptied.
        weak
        post 0 0 [11] / cut 6 / drain 0 / poke 0 [ff] / on / read 0 0
        0: ok / ok / seal 0 0.1 {51} / cut kept 6 / ok / on 256 9 8 / line [11] 0

        // Its tag line, before the redo: it is written anew.
        weak
        post 0 0 [11] / cut 4 / drain 0 / poke 1024 [ff] / on / read 0 0
        0: ok / ok / seal 0 0.1 {51} / cut kept 4 / ok / on 256 9 8 / line [11] 0

        // Its tag line, within the redo.
        weak
        post 0 0 [11] / cut 5 / drain 0 / poke 1024 [ff] / on / read 0 0
        0: ok / ok / seal 0 0.1 {51} / cut kept 5 / ok / on 256 9 8 / line [11] 0

        // Its tag line, before the group is emptied.
        weak
        post 0 0 [11] / cut 6 / drain 0 / poke 1024 [ff] / on / read 0 0
        0: ok / ok / seal 0 0.1 {51} / cut kept 6 / ok / on 256 9 8 / line [11] 0

        // Its counter block, which is in the group with every write: it is written anew.
        each
        post 0 0 [11] / cut 4 / drain 0 / poke 1285 [ff] / on / read 0 0
        0: ok / ok / seal 0 0.1 {51} / cut kept 4 / ok / on 64 9 8 / line [11] 0

        // Another line of its page: under its tag another minor is found, and so another root.
        weak
        post 0 0 [11] / cut 4 / drain 0 / flip 1 0 / on
        0: ok / ok / seal 0 0.1 {51} / cut kept 4 / ok / refused root {17} {13} 3

        // A tag line that is not in the group: another minor is found, and so another root.
        weak
        post 0 0 [11] / cut 4 / drain 0 / flip 1025 120 / on
        0: ok / ok / seal 0 0.1 {51} / cut kept 4 / ok / refused root {17} {37} 3

        // The table of blocks, which is not in the group: nothing is named.
        weak
        post 0 0 [11] / cut 4 / drain 0 / poke 1301 [00] / on
        0: ok / ok / seal 0 0.1 {51} / cut kept 4 / ok / refused root {17} {15} 3

        // The old cipher put back before the redo: it is written anew.
        weak
        post 0 0 [22] / drain 0 / snap / post 0 0 [11] / cut 2 / drain 0 / back 0 / on / read 0 0
        0: ok / seal 0 0.1 {51} / ok 7 / ok / ok / ok / seal 0 0.2 {12} / cut kept 2 / ok / on 256 9 8 / line [11] 0",
    )
}

/// Between two cuts of one recovery: it redoes the cipher, the tag line and their latch, writes the block and two nodes, and clears two tables.
#[test]
fn recoveries_are_tampered_with(rt: HostRuntime) -> Result<(), Fail> {
    check_rows(
        &rt,
        "
        // The cipher, after 0 steps: it is redone.
        weak
        post 0 0 [11] / cut 4 / drain 0 / cut 0 / on / poke 0 [ff] / on
        0: ok / ok / seal 0 0.1 {51} / cut kept 4 / ok / cut 0 / ok / on 256 9 8

        // The cipher, after 1 steps: it is redone.
        weak
        post 0 0 [11] / cut 4 / drain 0 / cut 1 / on / poke 0 [ff] / on
        0: ok / ok / seal 0 0.1 {51} / cut kept 4 / ok / cut 1 / ok / on 256 9 8

        // The cipher, after 2 steps: it is redone.
        weak
        post 0 0 [11] / cut 4 / drain 0 / cut 2 / on / poke 0 [ff] / on
        0: ok / ok / seal 0 0.1 {51} / cut kept 4 / ok / cut 2 / ok / on 256 9 8

        // The cipher, after 3 steps: the group is empty, and no counter gives the tag.
        weak
        post 0 0 [11] / cut 4 / drain 0 / cut 3 / on / poke 0 [ff] / on
        0: ok / ok / seal 0 0.1 {51} / cut kept 4 / ok / cut 3 / ok / refused counter 0 0

        // The cipher, after 4 steps: the group is empty, and no counter gives the tag.
        weak
        post 0 0 [11] / cut 4 / drain 0 / cut 4 / on / poke 0 [ff] / on
        0: ok / ok / seal 0 0.1 {51} / cut kept 4 / ok / cut 4 / ok / refused counter 0 0

        // The cipher, after 5 steps: the group is empty, and no counter gives the tag.
        weak
        post 0 0 [11] / cut 4 / drain 0 / cut 5 / on / poke 0 [ff] / on
        0: ok / ok / seal 0 0.1 {51} / cut kept 4 / ok / cut 5 / ok / refused counter 0 0

        // The cipher, after 6 steps: the group is empty, and no counter gives the tag.
        weak
        post 0 0 [11] / cut 4 / drain 0 / cut 6 / on / poke 0 [ff] / on
        0: ok / ok / seal 0 0.1 {51} / cut kept 4 / ok / cut 6 / ok / refused counter 0 0

        // The cipher, after 7 steps: no block is named any more, and the read refuses it.
        weak
        post 0 0 [11] / cut 4 / drain 0 / cut 7 / on / poke 0 [ff] / on / read 0 0
        0: ok / ok / seal 0 0.1 {51} / cut kept 4 / ok / cut 7 / ok / on 0 9 1 / refused data 0 0

        // The block, after 3 steps: it is still named, but its major is another.
        weak
        post 0 0 [11] / cut 4 / drain 0 / cut 3 / on / poke 1285 [ff] / on / read 0 0
        0: ok / ok / seal 0 0.1 {51} / cut kept 4 / ok / cut 3 / ok / refused counter 0 0 / off

        // The same once it is written.
        weak
        post 0 0 [11] / cut 4 / drain 0 / cut 4 / on / poke 1285 [ff] / on / read 0 0
        0: ok / ok / seal 0 0.1 {51} / cut kept 4 / ok / cut 4 / ok / refused counter 0 0 / off

        // The node, after 5 steps: it is still named, and made anew.
        weak
        post 0 0 [11] / cut 4 / drain 0 / cut 5 / on / poke 1281 [ff] / on / read 0 0
        0: ok / ok / seal 0 0.1 {51} / cut kept 4 / ok / cut 5 / ok / on 255 9 4 / line [11] 0

        // The top, after 6 steps, once it is written: the same.
        weak
        post 0 0 [11] / cut 4 / drain 0 / cut 6 / on / poke 1280 [ff] / on / read 0 0
        0: ok / ok / seal 0 0.1 {51} / cut kept 4 / ok / cut 6 / ok / on 255 9 3 / line [11] 0

        // The table of blocks, after 6 steps: the block is written and named no more, the nodes are made anew.
        weak
        post 0 0 [11] / cut 4 / drain 0 / cut 6 / on / poke 1301 [ff] / on / read 0 0
        0: ok / ok / seal 0 0.1 {51} / cut kept 4 / ok / cut 6 / ok / on 0 9 2 / line [11] 0

        // The table of nodes, after 7 steps: all is written, and nothing named.
        weak
        post 0 0 [11] / cut 4 / drain 0 / cut 7 / on / poke 1302 [ff] / on / read 0 0
        0: ok / ok / seal 0 0.1 {51} / cut kept 4 / ok / cut 7 / ok / on 0 1 1 / line [11] 0

        // Nodes and tables, after 4 steps: what is not named is not made anew.
        weak
        post 0 0 [11] / cut 4 / drain 0 / cut 4 / on / poke 1281 [00] / poke 1301 [00] / poke 1302 [00] / on
        0: ok / ok / seal 0 0.1 {51} / cut kept 4 / ok / cut 4 / ok / ok / ok / refused root {17} {15} 0

        // Cipher and tag line at each of two cuts within the redo: both are written anew.
        weak
        post 0 0 [11] / cut 4 / drain 0 / cut 2 / on / flip 1024 0 / cut 2 / on / flip 0 0 / on / read 0 0
        0: ok / ok / seal 0 0.1 {51} / cut kept 4 / ok / cut 2 / ok / ok / cut 2 / ok / on 256 9 8 / line [11] 0",
    )
}

/// A page under re-encryption.
#[test]
fn open_pages_are_tampered_with(rt: HostRuntime) -> Result<(), Fail> {
    check_rows(
        &rt,
        "
        // The old cipher of a line that is done: the tag is that of its new one.
        aes
        snap / 128x post 0 0 [00] & drain 0 / turn / back 1 / read 0 1
        0: .. / ok 7 / seal 1 1.0 9f6104a81a92ada4c2f5e0ed4894c30e / ok 62 4 / ok / refused data 1 0

        // With its old tag: the new counter does not give it.
        aes
        snap / 128x post 0 0 [00] & drain 0 / turn / back 1 / back 1024 / read 0 1
        0: .. / seal 1 1.0 9f6104a81a92ada4c2f5e0ed4894c30e / ok 62 4 / ok / ok / refused data 1 0

        // The turn of the next line takes its old tag from the tag line put back.
        aes
        snap / 128x post 0 0 [00] & drain 0 / turn / back 1 / back 1024 / turn / read 0 2
        0: .. / ok / ok / seal 2 1.0 7a2a1a0895a0e307db53ddc145dc54b5 / ok 61 4 / line [00] 0

        // A line that is not done is changed: its turn refuses it, other lines are read.
        aes
        128x post 0 0 [00] & drain 0 / flip 1 0 / turn / read 0 2
        0: .. / seal 0 1.1 d1a4ee62598caa3e49fe5500961f5782 / ok 7 / ok / refused data 1 0 / line [00] 0

        // It is written over: it is done, and the turn takes the next.
        aes
        128x post 0 0 [00] & drain 0 / flip 1 0 / turn / post 0 1 [44] / drain 0 / turn / read 0 1
        0: .. / seal 1 1.1 32dc94a54ce78aa4c49dac7f960701c1 / ok 4 / seal 2 1.0 7a2a1a0895a0e307db53ddc145dc54b5 / ok 61 4 / line [44] 0

        // With power off the old cipher of a line that is done: no counter in the window gives the tag.
        aes
        snap / 128x post 0 0 [00] & drain 0 / turn / off / back 1 / on
        0: .. / seal 1 1.0 9f6104a81a92ada4c2f5e0ed4894c30e / ok 62 4 / ok / ok / refused counter 1 0

        // With the old tag line: line 0 is refused first, whose tag was in it too.
        aes
        snap / 128x post 0 0 [00] & drain 0 / turn / off / back 1 / back 1024 / on
        0: .. / ok 62 4 / ok / ok / ok / refused counter 0 0

        // The old counter block: under the old major no counter gives the new tags.
        aes
        snap / 128x post 0 0 [00] & drain 0 / turn / off / back 1285 / on
        0: .. / seal 1 1.0 9f6104a81a92ada4c2f5e0ed4894c30e / ok 62 4 / ok / ok / refused counter 0 0

        // A line that is not done is not tried, so recovery goes through.
        aes
        128x post 0 0 [00] & drain 0 / off / flip 2 0 / on
        0: .. / seal 0 1.1 d1a4ee62598caa3e49fe5500961f5782 / ok 7 / ok / ok / on 4 9 5

        // Its tag is checked at the read and at its turn.
        aes
        128x post 0 0 [00] & drain 0 / off / flip 2 0 / on / read 0 2 / turn / turn
        0: .. / on 4 9 5 / refused data 2 0 / seal 1 1.0 9f6104a81a92ada4c2f5e0ed4894c30e / ok 62 4 / refused data 2 0

        // A line of another page with its tag line: the next line in turn, line 1, has lost its tag.
        aes
        128x post 0 0 [00] & drain 0 / move 64 2 / move 1040 1024 / turn
        0: .. / seal 0 1.1 d1a4ee62598caa3e49fe5500961f5782 / ok 7 / ok / ok / refused data 1 0",
    )
}

/// Four pages under re-encryption.
#[test]
fn four_open_pages_are_tampered_with(rt: HostRuntime) -> Result<(), Fail> {
    check_rows(
        &rt,
        "
        // A fifth page is to be begun: the oldest cannot be finished, so the write is refused and puts nothing.
        aes
        snap / 128x post 0 0 [00] & drain 0 / 128x post 0 64 [00] & drain 0 / 128x post 0 128 [00] & drain 0 / 128x post 0 192 [00] & drain 0 / flip 1 0 / 127x post 0 256 [00] & drain 0 / post 0 256 [55] / drain 0 / read 0 256 / read 0 1
        0: .. / ok 4 / ok / refused data 1 0 / line [00] 0 / refused data 1 0

        // A line of the second oldest page is not looked at.
        aes
        snap / 128x post 0 0 [00] & drain 0 / 128x post 0 64 [00] & drain 0 / 128x post 0 128 [00] & drain 0 / 128x post 0 192 [00] & drain 0 / flip 65 0 / 127x post 0 256 [00] & drain 0 / post 0 256 [55] / drain 0 / read 0 256 / read 0 65
        0: .. / begin 4 / seal 256 1.1 d32e6fb63c49c3176b4457ffc9ed483f / ok 259 / line [55] 0 / refused data 65 0

        // Lines that are not done are put back as they are: nothing was changed.
        aes
        snap / 128x post 0 0 [00] & drain 0 / 128x post 0 64 [00] & drain 0 / 128x post 0 128 [00] & drain 0 / 128x post 0 192 [00] & drain 0 / off / back 1 / back 65 / back 129 / back 193 / on / read 0 1 / read 0 193
        0: .. / ok / ok / on 16 9 8 / line [00] 0 / line [00] 0

        // The old cipher of the line of the second page that is done: no counter gives its tag.
        aes
        snap / 128x post 0 0 [00] & drain 0 / 128x post 0 64 [00] & drain 0 / 128x post 0 128 [00] & drain 0 / 128x post 0 192 [00] & drain 0 / off / back 64 / on
        0: .. / seal 192 1.1 6007971c4501d99316aa8614ed3e904c / ok 7 / ok / ok / refused counter 64 0

        // The old counter block of the fourth page: under the old major no counter gives the tag.
        aes
        snap / 128x post 0 0 [00] & drain 0 / 128x post 0 64 [00] & drain 0 / 128x post 0 128 [00] & drain 0 / 128x post 0 192 [00] & drain 0 / off / back 1288 / on
        0: .. / seal 192 1.1 6007971c4501d99316aa8614ed3e904c / ok 7 / ok / ok / refused counter 192 0

        // The line of a cut turn: the redo writes it anew.
        aes
        snap / 128x post 0 0 [00] & drain 0 / 128x post 0 64 [00] & drain 0 / 128x post 0 128 [00] & drain 0 / 128x post 0 192 [00] & drain 0 / turn / cut 2 / turn / flip 2 0 / on / read 0 2
        0: .. / seal 2 1.0 7a2a1a0895a0e307db53ddc145dc54b5 / cut 2 / ok / on 24 9 11 / line [00] 0",
    )
}

/// What a weak suite lets pass is shown.
#[test]
fn forgeries_are_shown(rt: HostRuntime) -> Result<(), Fail> {
    check_rows(
        &rt,
        "
        // Two turned bits that leave the weak tag as it was.
        weak
        flip 5 0 / flip 5 8 / read 0 5
        6: ok / ok / forged 5 0.0 04070708090a0b0c0d0e0f101112131415161718191a1b1c1d1e1f202122232425262728292a2b2c2d2e2f303132333435363738393a3b3c3d3e3f4041424344 {55}

        // The cipher of another line, whose weak tag is the same.
        weak
        move 64 68 / read 0 68 / move 64 84 / move 1040 1045 / read 0 84
        6: ok / forged 68 0.0 [40..] {54}

        // A counter block that has the same weak digest.
        weak
        poke 1285 01010000000000000000000000000000000000000000000000000000000000000000000000000000000000000000000000000000000000000000000000000000 / read 0 0
        6: ok / clash 5 01010000000000000000000000000000000000000000000000000000000000000000000000000000000000000000000000000000000000000000000000000000 [00]

        // A node of another weak digest is refused.
        weak
        poke 1281 01010000000000000000000000000000000000000000000000000000000000000000000000000000000000000000000000000000000000000000000000000000 / read 0 0
        0: ok / refused meta 1 0

        // So is the top.
        weak
        poke 1280 01010000000000000000000000000000000000000000000000000000000000000000000000000000000000000000000000000000000000000000000000000000 / read 0 0
        0: ok / refused meta 0 0

        // Two counters give one tag, without tampering.
        blur
        post 0 0 [00] / drain 0 / off / on
        6: ok / seal 0 0.1 {50} / ok 7 / ok / twin 0 0 0 1 [01..] {50}

        // Under a changed cipher none does.
        blur
        post 0 0 [00] / drain 0 / off / flip 0 0 / on
        0: ok / seal 0 0.1 {50} / ok 7 / ok / ok / refused counter 0 0",
    )
}
