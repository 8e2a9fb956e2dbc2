//! What comes of some work, as OpenSSL has it.
use crate::work::{Work, made};

#[test]
fn made_as_outside(rt: HostRuntime) {
    for (work, wanted) in [
        (
            Work::Hash { blocks: 0 },
            0xe3b0c442_98fc1c14_9afbf4c8_996fb924_u128,
        ),
        (
            Work::Hash { blocks: 3 },
            0x5d89f056_865052bc_b89c910d_2d62872e,
        ),
        (Work::Encrypt { times: 0 }, 0),
        (
            Work::Encrypt { times: 3 },
            0xa10cf66d_0fddf340_5370b4bf_8df5bfb3,
        ),
    ] {
        assert_eq!(rt; u128::from_be_bytes(made(work)), wanted);
    }
}
