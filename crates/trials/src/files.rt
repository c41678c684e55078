// Trials of the verdict on a small file, whole and damaged.
use checker::verdict::{Workspace, verdict};
use levels::TwoLevel;
use program::layout::Layout;
use program::refusal::Refusal;
use std::test::Fail;

// Two int inputs, the first private; their sum is released and put out.
const FILE: [u8; 100] = [
    2, 0, 0, 0, 0, 0, 0, 0, 0, 0, 0, 0, 2, 0, 0, 1, 0, 0, 0, 0, 0, 0, 0, 0, 5, 0, 0, 0, 0, 1, 0, 0,
    0, 0, 0, 0, 13, 0, 0, 2, 0, 0, 0, 0, 0, 0, 0, 0, 32, 0, 0, 3, 0, 0, 0, 0, 0, 0, 0, 0, 1, 1,
    255, 255, 0, 0, 0, 1, 1, 1, 255, 255, 0, 0, 0, 0, 255, 0, 0, 0, 0, 4, 0, 0, 0, 0, 0, 0, 0, 0,
    0, 60, 0, 0, 0, 76, 83, 67, 80, 84,
];

// The row and the place where the lowest bit of the byte at each position is turned, or none where the file is still accepted.
// Not in pairs with the bytes: a verdict takes these as one slice.
const TURNED: [Option<(u8, u16)>; 100] = [
    Some((11, 0)),
    Some((10, 0)),
    Some((12, 0)),
    None,
    Some((10, 0)),
    Some((10, 0)),
    Some((10, 0)),
    Some((10, 0)),
    Some((10, 0)),
    Some((10, 0)),
    Some((10, 0)),
    Some((10, 0)),
    Some((11, 1)),
    Some((10, 1)),
    Some((12, 1)),
    None,
    Some((10, 1)),
    Some((10, 1)),
    Some((10, 1)),
    Some((10, 1)),
    Some((10, 1)),
    Some((10, 1)),
    Some((10, 1)),
    Some((10, 1)),
    Some((10, 2)),
    None,
    Some((11, 2)),
    Some((17, 0)),
    Some((11, 2)),
    Some((17, 0)),
    Some((10, 2)),
    Some((10, 2)),
    Some((10, 2)),
    Some((10, 2)),
    Some((10, 2)),
    Some((10, 2)),
    Some((11, 3)),
    Some((10, 3)),
    Some((11, 3)),
    Some((11, 3)),
    Some((10, 3)),
    Some((10, 3)),
    Some((10, 3)),
    Some((10, 3)),
    Some((10, 3)),
    Some((10, 3)),
    Some((10, 3)),
    Some((10, 3)),
    Some((7, 0)),
    Some((10, 4)),
    Some((11, 4)),
    Some((15, 4)),
    Some((10, 4)),
    Some((10, 4)),
    Some((10, 4)),
    Some((10, 4)),
    Some((10, 4)),
    Some((10, 4)),
    Some((10, 4)),
    Some((10, 4)),
    None,
    Some((14, 2)),
    Some((4, 0)),
    Some((4, 0)),
    Some((4, 0)),
    Some((4, 0)),
    Some((4, 0)),
    None,
    None,
    Some((14, 2)),
    Some((4, 1)),
    Some((4, 1)),
    Some((4, 1)),
    Some((4, 1)),
    Some((4, 1)),
    None,
    Some((5, 0)),
    Some((6, 0)),
    Some((6, 0)),
    Some((6, 0)),
    Some((7, 0)),
    Some((7, 0)),
    Some((5, 0)),
    Some((5, 0)),
    Some((5, 0)),
    Some((5, 0)),
    Some((5, 0)),
    Some((5, 0)),
    Some((2, 0)),
    Some((2, 0)),
    Some((2, 0)),
    Some((2, 0)),
    Some((2, 0)),
    Some((2, 0)),
    Some((2, 0)),
    Some((2, 0)),
    Some((1, 0)),
    Some((1, 0)),
    Some((1, 0)),
    Some((1, 0)),
];

fn row_and_place(verdict: Result<Layout, Refusal>) -> Option<(u8, u16)> {
    verdict
        .err()
        .map(|refusal| (refusal.row(), refusal.place()))
}

#[test]
fn whole(rt: HostRuntime) -> Result<(), Fail> {
    let mut workspace = Workspace::reserve(rt.alloc())?;
    let Layout {
        nodes,
        variables,
        procedures,
    } = verdict(&TwoLevel, &mut workspace, &FILE)
        .ok()
        .ok_or("refused")?;
    assert_eq!(rt; (nodes, variables, procedures), (5, 2, 1));
    Ok(())
}

#[test]
fn cut_short(rt: HostRuntime) -> Result<(), Fail> {
    let mut workspace = Workspace::reserve(rt.alloc())?;
    for length in 0..FILE.len() {
        assert_eq!(rt;
            row_and_place(verdict(&TwoLevel, &mut workspace, &FILE[..length])),
            Some((1, 0))
        );
    }
    Ok(())
}

#[test]
fn one_bit_turned(rt: HostRuntime) -> Result<(), Fail> {
    let mut workspace = Workspace::reserve(rt.alloc())?;
    for (at, turned) in TURNED.iter().enumerate() {
        let mut file = FILE;
        file[at] ^= 1;
        assert_eq!(rt;
            row_and_place(verdict(&TwoLevel, &mut workspace, &file)),
            *turned
        );
    }
    Ok(())
}
