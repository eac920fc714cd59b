//! Expressions for cards, lists of cards and numbers, and tests.
ghost use Rattle.std.specs.Prelude.{◌≡◌};
ghost use Rattle.rc_sheet_spec.specs.Sheet.{union_of, and_of, or_of};
ghost use Rattle.rc_ast.specs.Expressions.{coll_seen, colls_seen, test_seen, tests_seen};

/// An owner. A variable is its place among the variables in scope, the outermost being 0.
#[derive(Clone, Copy)]
pub enum Who {
    Game,
    CurrentPlayer,
    CurrentTeam,
    TeamOfCurrent,
    TeamOfVar(u8),
    Var(u8),
}

/// A location, with the offset of its form.
#[derive(Clone, Copy)]
pub struct Loc {
    pub who: Who,
    pub name: u16,
    pub at: u32,
}

/// A number that the game keeps.
#[derive(Clone, Copy)]
pub struct Num {
    pub who: Who,
    pub name: u16,
}

/// A card, or nothing. `Max` and `Min` go by the points of a map.
#[cycle(expressions)]
pub enum CardExpr {
    Var(u8),
    Top(Box<CollExpr>),
    Bottom(Box<CollExpr>),
    Max(Box<CollExpr>, u16),
    Min(Box<CollExpr>, u16),
}

/// A list of cards. The number beside a binder is that of its variable's word. `Known` are those of a location that the
/// current player sees.
#[cycle(expressions)]
pub enum CollExpr {
    Var(u8),
    Loc(Loc),
    Filter(Box<CollExpr>, u32, Box<Test>),
    Union(Vec<CollExpr>),
    Known(Loc),
}

/// A number.
#[cycle(expressions)]
pub enum IntExpr {
    Lit(i64),
    Num(Num),
    Size(Box<CollExpr>),
    Sum(Box<CollExpr>, u16),
    Points(Box<CardExpr>, u16),
    Add(Box<IntExpr>, Box<IntExpr>),
    Sub(Box<IntExpr>, Box<IntExpr>),
    Mul(Box<IntExpr>, Box<IntExpr>),
}

/// A test. `All` and `Any` run over players or cards. `Ne` holds one of the four tests for equality.
#[cycle(expressions)]
pub enum Test {
    EqInt(Box<IntExpr>, Box<IntExpr>),
    EqCard(Box<CardExpr>, Box<CardExpr>),
    EqAttr(Box<CardExpr>, u16, Box<CardExpr>, u16),
    EqWho(Who, Who),
    Ne(Box<Test>),
    Less(Box<IntExpr>, Box<IntExpr>),
    LessEq(Box<IntExpr>, Box<IntExpr>),
    More(Box<IntExpr>, Box<IntExpr>),
    MoreEq(Box<IntExpr>, Box<IntExpr>),
    Is(Box<CardExpr>, u16, u16),
    And(Vec<Test>),
    Or(Vec<Test>),
    Not(Box<Test>),
    All(Domain, u32, Box<Test>),
    Any(Domain, u32, Box<Test>),
}

/// What a variable runs over: the players, the cards of a list, or the groups of its cards with equal values.
#[cycle(expressions)]
pub enum Domain {
    Players,
    Coll(CollExpr),
    Parts(CollExpr, u16),
}

// A derived drop is proved again in each crate that may drop a sheet, and these once.

impl Drop for CardExpr {
    #[cycle(drops)]
    fn drop(self) {
        match self {
            CardExpr::Var(_) => {}
            CardExpr::Top(_cards) => {}
            CardExpr::Bottom(_cards) => {}
            CardExpr::Max(_cards, _) => {}
            CardExpr::Min(_cards, _) => {}
        }
    }
}

impl Drop for CollExpr {
    #[cycle(drops)]
    fn drop(self) {
        match self {
            CollExpr::Var(_) => {}
            CollExpr::Loc(_) => {}
            CollExpr::Filter(_cards, _, _test) => {}
            CollExpr::Union(_parts) => {}
            CollExpr::Known(_) => {}
        }
    }
}

impl Drop for IntExpr {
    #[cycle(drops)]
    fn drop(self) {
        match self {
            IntExpr::Lit(_) => {}
            IntExpr::Num(_) => {}
            IntExpr::Size(_cards) => {}
            IntExpr::Sum(_cards, _) => {}
            IntExpr::Points(_card, _) => {}
            IntExpr::Add(_one, _other) => {}
            IntExpr::Sub(_one, _other) => {}
            IntExpr::Mul(_one, _other) => {}
        }
    }
}

impl Drop for Test {
    #[cycle(drops)]
    fn drop(self) {
        match self {
            Test::EqInt(_one, _other) => {}
            Test::EqCard(_one, _other) => {}
            Test::EqAttr(_one, _, _other, _) => {}
            Test::EqWho(_, _) => {}
            Test::Ne(_test) => {}
            Test::Less(_one, _other) => {}
            Test::LessEq(_one, _other) => {}
            Test::More(_one, _other) => {}
            Test::MoreEq(_one, _other) => {}
            Test::Is(_card, _, _) => {}
            Test::And(_tests) => {}
            Test::Or(_tests) => {}
            Test::Not(_test) => {}
            Test::All(_domain, _, _test) => {}
            Test::Any(_domain, _, _test) => {}
        }
    }
}

impl Drop for Domain {
    #[cycle(drops)]
    fn drop(self) {
        match self {
            Domain::Players => {}
            Domain::Coll(_cards) => {}
            Domain::Parts(_cards, _) => {}
        }
    }
}

impl CollExpr {
    /// One list of cards after the other.
    #[tactic(auto, using(crate::proofs::ViewLemmas::union_seen))]
    pub fn union_of(parts: Vec<CollExpr>) -> CollExpr
        ensures { coll_seen result ≡ union_of (colls_seen parts.items) }
    {
        CollExpr::Union(parts)
    }
}

impl Test {
    /// Whether all of the tests hold.
    #[tactic(auto, using(crate::proofs::ViewLemmas::and_seen))]
    pub fn and_of(tests: Vec<Test>) -> Test
        ensures { test_seen result ≡ and_of (tests_seen tests.items) }
    {
        Test::And(tests)
    }

    /// Whether one of the tests holds.
    #[tactic(auto, using(crate::proofs::ViewLemmas::or_seen))]
    pub fn or_of(tests: Vec<Test>) -> Test
        ensures { test_seen result ≡ or_of (tests_seen tests.items) }
    {
        Test::Or(tests)
    }
}
