//! What two workers ask of the book that they share, and what its lanes come to.
ghost use Rattle.std.specs.Prelude.{◌≡◌, length, IfOk};

use crate::expect::expect_same;
use crate::twice::{about_in, plan_in};
use arrayvec::ArrayVec;
use rc_cache::{Book, BookNaming, Call, Fresh, Lane, SharedBook, close, same_ask};
use rc_outside::OpenGate;
use rc_redraw::Ask;
use rc_rules::{About, Control, Frame, Plan};
use rc_series::play_shared;
use rc_view::{Sight, View};
use std::alloc::{AllocError, Global};
use std::marker::Brand;
use std::process::Abort;
use std::sync::{Arc, Mutex, Wait};
use std::test::Fail;
use std::thread::Threads;

/// A memo for each lane to a book.
fn memos<'a, N: BookNaming, R: Wait>(
    rt: &'a R,
    alloc: Global,
    book: &'a Mutex<Book<N>>,
    lanes: Vec<Lane<N>>,
) -> Result<Vec<SharedBook<'a, N, R>>, AllocError> {
    let mut memos = Vec::new(alloc);
    for lane in lanes {
        memos.push(SharedBook::new(rt, book, lane))?;
    }
    Ok(memos)
}

/// Two workers play the matches of the plan over a book. The lanes come back.
fn play_over<N: BookNaming + Send + Sync, R: AllocGlobal + Abort + Threads + Wait + Sync>(
    rt: &R,
    book: &Mutex<Book<N>>,
    lanes: Vec<Lane<N>>,
    about: &Arc<About>,
    plan: &Arc<Plan>,
) -> Result<Vec<Lane<N>>, Fail>
    requires about { N.about ≡ about.now.value }
    requires matches { length plan.now.value.matches.items ≡ 2 }
    requires seats { length plan.now.value.strategies.items ≡ about.now.value.sheet.players }
    ensures { IfOk result (λ lanes. length lanes.items ≡ 2) }
{
    let memos = memos(rt, rt.alloc(), book, lanes)?;
    assert!(rt; memos.len() == 2);
    let (records, lanes) = play_shared(rt, rt.alloc(), about, plan, false, memos, &OpenGate)?;
    expect_same(rt, records.len(), 2);
    Ok(lanes)
}

/// What a seat sees of a location.
#[derive(Clone, Copy)]
enum Seen {
    /// The faces of its cards, from bottom to top.
    Faces(&'static [u16]),
    /// How many cards it has.
    Hides(usize),
}

/// What is seen at a decision of a match: by which seat, at which turn count, behind how many decisions of each seat,
/// and of STOCK, of the two hands and of what the two players played.
#[derive(Clone, Copy)]
struct Decision {
    seat: u8,
    turn: u32,
    made: [u32; 2],
    locations: [Seen; 5],
}

/// The decisions of each match. A round and a decision each raise the turn count by one. The cards 3 and 2 were dealt
/// to the first seat and 1 and 0 to the second one, and each seat plays them in that order.
const DECISIONS: [Decision; 4] = [
    Decision {
        seat: 0,
        turn: 1,
        made: [0, 0],
        locations: [
            Seen::Hides(0),
            Seen::Faces(&[3, 2]),
            Seen::Hides(2),
            Seen::Faces(&[]),
            Seen::Faces(&[]),
        ],
    },
    Decision {
        seat: 1,
        turn: 3,
        made: [1, 0],
        locations: [
            Seen::Hides(0),
            Seen::Hides(1),
            Seen::Faces(&[1, 0]),
            Seen::Faces(&[3]),
            Seen::Faces(&[]),
        ],
    },
    Decision {
        seat: 0,
        turn: 5,
        made: [1, 1],
        locations: [
            Seen::Hides(0),
            Seen::Faces(&[2]),
            Seen::Hides(1),
            Seen::Faces(&[3]),
            Seen::Faces(&[1]),
        ],
    },
    Decision {
        seat: 1,
        turn: 7,
        made: [2, 1],
        locations: [
            Seen::Hides(0),
            Seen::Hides(0),
            Seen::Faces(&[0]),
            Seen::Faces(&[3, 2]),
            Seen::Faces(&[1]),
        ],
    },
];

fn sights_of(alloc: Global, locations: [Seen; 5]) -> Result<Vec<Sight>, AllocError> {
    let mut sights = Vec::new(alloc);
    for location in locations {
        let sight = match location {
            Seen::Faces(faces) => Sight::Faces(faces.to_vec(alloc)?),
            Seen::Hides(length) => Sight::Partly(vec![in alloc; None; length]?),
        };
        sights.push(sight)?;
    }
    Ok(sights)
}

/// The only choice stands in the only stage, which goes forward and in which nobody is named.
fn control_of(decision: &Decision) -> Control {
    let mut frames = ArrayVec::new();
    frames.push(Frame {
        stage: 0,
        member: decision.seat,
        back: false,
        named: None,
    });
    let mut made = ArrayVec::new();
    made.push(decision.made[0]);
    made.push(decision.made[1]);
    Control {
        site: Some(0),
        frames,
        turn: decision.turn,
        made,
    }
}

/// What the rollouts of the plan ask at a decision. There are no numbers.
fn ask_at(alloc: Global, decision: &Decision) -> Result<Ask, AllocError> {
    ask_of(alloc, decision, control_of(decision))
}

/// What they would ask there if the match stood here.
fn ask_of(alloc: Global, decision: &Decision, control: Control) -> Result<Ask, AllocError> {
    let view = View {
        seat: decision.seat,
        control,
        numbers: Vec::new(alloc),
        sights: sights_of(alloc, decision.locations)?,
    };
    Ok(Ask {
        rounds: 4,
        key: 9,
        seed: 7,
        view,
    })
}

/// How many calls missed, hit and kept.
#[derive(Clone, Copy, Debug, PartialEq, Eq)]
struct Told {
    misses: u64,
    hits: u64,
    keeps: u64,
}

impl Told {
    /// With a call more.
    fn with(self, call: &Call) -> Told {
        let mut told = self;
        let number = match call {
            Call::Looked { hit: false, .. } => &mut told.misses,
            Call::Looked { hit: true, .. } => &mut told.hits,
            Call::Kept { .. } => &mut told.keeps,
        };
        *number = number.saturating_add(1);
        told
    }
}

fn ask_in(call: &Call) -> &Ask {
    match call {
        Call::Looked { key, .. } => &key.ask,
        Call::Kept { key, .. } => &key.ask,
    }
}

/// How many calls missed, hit and kept in all, or of those which ask this.
fn count_calls(calls: &[Call], ask: Option<&Ask>) -> Told {
    let mut told = Told {
        misses: 0,
        hits: 0,
        keeps: 0,
    };
    for call in calls {
        let counts = match ask {
            Some(ask) => same_ask(ask, ask_in(call)),
            None => true,
        };
        if counts {
            told = told.with(call);
        }
    }
    told
}

/// Fails unless the calls look up what is asked at each decision of both matches, and nothing else, and keep what they
/// missed.
fn expect_calls(rt: &(impl AllocGlobal + Abort), calls: &[Call]) -> Result<(), Fail> {
    let all = count_calls(calls, None);
    expect_same(rt, all.misses.saturating_add(all.hits), 8);
    for decision in DECISIONS {
        let ask = ask_at(rt.alloc(), &decision)?;
        let told = count_calls(calls, Some(&ask));
        expect_same(rt, told.misses.saturating_add(told.hits), 2);
        expect_same(rt, told.keeps, told.misses);
    }
    expect_same(rt, all.keeps, all.misses);
    Ok(())
}

/// Fails unless the book and its two lanes are closed with the numbers of its journal.
fn expect_totals<N: BookNaming>(rt: &impl Abort, book: Book<N>, lanes: Vec<Lane<N>>)
    requires { length lanes.items ≡ N.lanes }
{
    let all = count_calls(book.journal(), None);
    let totals = close(book, lanes);
    expect_same(rt, (totals.capacity(), totals.lanes()), (65536, 2));
    expect_same(rt, totals.looks(), 8);
    expect_same(rt, (totals.hits(), totals.keeps()), (all.hits, all.keeps));
}

/// Fails unless a new book has these calls behind the matches of the plan.
fn expect_book<N: BookNaming + Send + Sync, R: AllocGlobal + Abort + Threads + Wait + Sync>(
    rt: &R,
    fresh: Fresh,
    about: &Arc<About>,
    plan: &Arc<Plan>,
) -> Result<(), Fail>
    requires matches { length plan.now.value.matches.items ≡ 2 }
    requires seats { length plan.now.value.strategies.items ≡ about.now.value.sheet.players }
    requires name { (about.now.value ≡ N.about) × (65536 ≡ N.capacity) × (2 ≡ N.lanes) }
    requires names { (fresh.looks.name ≡ N.looks) × (fresh.hits.name ≡ N.hits) × (fresh.keeps.name ≡ N.keeps) }
    requires parts { (fresh.looks.parts ≡ N.lanes) × (fresh.hits.parts ≡ N.lanes) × (fresh.keeps.parts ≡ N.lanes) }
{
    let (book, lanes) = Book::<N>::new(rt.alloc(), fresh, about, 65536, 2)?;
    let book = Mutex::new(book);
    let lanes = play_over(rt, &book, lanes, about, plan)?;
    let book = book.into_inner();
    expect_calls(rt, book.journal())?;
    expect_totals(rt, book, lanes);
    Ok(())
}

#[test]
fn workers_look_up_what_their_matches_ask(rt: HostRuntime) -> Result<(), Fail> {
    let about = about_in(rt.alloc())?;
    let plan = plan_in(rt.alloc())?;
    assert!(rt; about.sheet().players == 2);
    expect_book::<Brand, HostRuntime>(&rt, Fresh::new(2), &about, &plan)
}

/// What is otherwise than at the first decision in where a match stands.
#[derive(Clone, Copy, PartialEq, Eq)]
enum Otherwise {
    Nothing,
    Site,
    NoSite,
    Stage,
    Member,
    Back,
    Named,
    Inner,
    Turn,
    Made,
}

const OTHERWISE: [Otherwise; 10] = [
    Otherwise::Nothing,
    Otherwise::Site,
    Otherwise::NoSite,
    Otherwise::Stage,
    Otherwise::Member,
    Otherwise::Back,
    Otherwise::Named,
    Otherwise::Inner,
    Otherwise::Turn,
    Otherwise::Made,
];

/// Where a match stands at the first decision, but for this.
fn control_but(other: Otherwise) -> Control {
    let frame = Frame {
        stage: u16::from(other == Otherwise::Stage),
        member: u8::from(other == Otherwise::Member),
        back: other == Otherwise::Back,
        named: if other == Otherwise::Named {
            Some(0)
        } else {
            None
        },
    };
    let mut frames = ArrayVec::new();
    frames.push(frame);
    if other == Otherwise::Inner {
        frames.push(frame);
    }
    let mut made = ArrayVec::new();
    made.push(0);
    made.push(u32::from(other == Otherwise::Made));
    Control {
        site: match other {
            Otherwise::NoSite => None,
            Otherwise::Site => Some(1),
            _ => Some(0),
        },
        frames,
        turn: if other == Otherwise::Turn { 2 } else { 1 },
        made,
    }
}

#[test]
fn asks_that_differ_in_where_a_match_stands_alone_are_told_apart(
    rt: HostRuntime,
) -> Result<(), Fail> {
    let first = DECISIONS[0];
    for one in OTHERWISE {
        let ask = ask_of(rt.alloc(), &first, control_but(one))?;
        for other in OTHERWISE {
            let asked = ask_of(rt.alloc(), &first, control_but(other))?;
            expect_same(&rt, same_ask(&ask, &asked), one == other);
        }
    }
    Ok(())
}
