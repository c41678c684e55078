// Trials of the two kinds of levels on a few words.
use levels::{Levels, MemberSets, TwoLevel};

#[test]
fn two_levels(rt: HostRuntime) {
    let kind = TwoLevel;
    assert!(rt; kind.is_level(1));
    assert!(rt; !kind.is_level(2));
    assert!(rt; kind.flows(0, 1));
    assert!(rt; !kind.flows(1, 0));
    assert!(rt; !kind.flows(2, 2));
    assert_eq!(rt; kind.joint(0, 1), 1);
    assert_eq!(rt; kind.joint(1, 2), 0);
}

#[test]
fn member_sets(rt: HostRuntime) {
    let kind = MemberSets;
    assert!(rt; kind.is_level(0xffff));
    assert!(rt; !kind.is_level(0x10000));
    assert!(rt; kind.flows(0b0101, 0b0111));
    assert!(rt; !kind.flows(0b0101, 0b0110));
    assert!(rt; !kind.flows(0x10000, 0x10000));
    assert_eq!(rt; kind.joint(0b0101, 0b0110), 0b0111);
    assert_eq!(rt; kind.joint(1, 0x10000), 0);
}
