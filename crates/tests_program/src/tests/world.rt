//! Flags over some epochs, and a world's answers to commands.
mod answers;
mod asked;

use pmem_replay::Flags;
use std::test::Fail;

#[test]
#[tactic(auto, using(pmem_replay::proofs::Boards::StampLemmas::flag_lengths))]
fn flags_are_set_and_cleared(rt: HostRuntime) -> Result<(), Fail> {
    let mut flags = Flags::new(rt.alloc(), 4)?;
    assert!(rt; !flags.any());
    flags.set(2);
    flags.set(2);
    assert!(rt; flags.any());
    assert!(rt; flags.get(2));
    assert!(rt; !flags.get(1));
    flags.unset(2);
    flags.unset(1);
    assert!(rt; !flags.any());
    flags.set(3);
    flags.clear();
    assert!(rt; !flags.get(3));
    assert!(rt; !flags.any());
    flags.set(0);
    assert!(rt; flags.get(0));
    Ok(())
}
