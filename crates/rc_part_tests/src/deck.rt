//! The faces of a French deck.
use crate::expect::expect_same;
use rc_deck::{Branch, DeckTree, Face, Group, Memory, attr, count_of, faces_of};
use std::alloc::Global;
use std::process::Abort;
use std::test::Fail;

const RANK: u16 = 0;

const COLOR: u16 = 1;

const SUIT: u16 = 2;

const RED: u16 = 20;

const BLACK: u16 = 21;

const HEARTS: u16 = 30;

const DIAMONDS: u16 = 31;

const CLUBS: u16 = 32;

const SPADES: u16 = 33;

/// A group whose values have no groups below them.
fn plain_group(alloc: Global, attr: u16, values: &[u16]) -> Result<Group, Memory> {
    let mut group = Group {
        attr,
        values: Vec::new(alloc),
    };
    for value in values {
        let branch = Branch {
            value: *value,
            groups: Vec::new(alloc),
        };
        group.values.push(branch)?;
    }
    Ok(group)
}

/// A value with one group below it.
fn branch_over(alloc: Global, value: u16, below: Group) -> Result<Branch, Memory> {
    let groups = vec![in alloc; below]?;
    Ok(Branch { value, groups })
}

/// The suits below their colors.
fn colors(alloc: Global) -> Result<Group, Memory> {
    let red = branch_over(alloc, RED, plain_group(alloc, SUIT, &[HEARTS, DIAMONDS])?)?;
    let black = branch_over(alloc, BLACK, plain_group(alloc, SUIT, &[CLUBS, SPADES])?)?;
    let values = vec![in alloc; red, black]?;
    Ok(Group {
        attr: COLOR,
        values,
    })
}

fn french_deck(alloc: Global) -> Result<DeckTree, Memory> {
    let ranks = plain_group(alloc, RANK, &[1, 2, 3, 4, 5, 6, 7, 8, 9, 10, 11, 12, 13])?;
    let groups = vec![in alloc; ranks, colors(alloc)?]?;
    Ok(DeckTree { groups })
}

/// The colors and suits of a rank, in the order of the deck.
const SUITS: [(u16, u16); 4] = [
    (RED, HEARTS),
    (RED, DIAMONDS),
    (BLACK, CLUBS),
    (BLACK, SPADES),
];

/// Fails unless these are the four faces of a rank.
fn expect_rank(rt: &impl Abort, faces: &[Face], rank: u16) {
    expect_same(rt, faces.len(), 4);
    for (face, (color, suit)) in faces.iter().zip(SUITS) {
        let pairs = [(RANK, rank), (COLOR, color), (SUIT, suit)];
        expect_same(rt, face.pairs(), pairs.as_slice());
        expect_same(rt, attr(face, SUIT), Some(suit));
        expect_same(rt, attr(face, 3), None);
    }
}

#[test]
fn a_french_deck_has_52_faces_with_the_ranks_slowest(rt: HostRuntime) -> Result<(), Fail> {
    let tree = french_deck(rt.alloc())?;
    expect_same(&rt, (count_of(&tree, 1000), count_of(&tree, 51)), (52, 51));
    let faces = faces_of(rt.alloc(), &tree)?;
    expect_same(&rt, faces.len(), 52);
    for (rank, four) in (1u16..).zip(faces.as_slice().chunks(4)) {
        expect_rank(&rt, four, rank);
    }
    Ok(())
}
