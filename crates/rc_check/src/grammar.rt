//! The grammar of a sheet: what may stand at each place, and of which parts each form of a list is made.
ghost use Rattle.std.specs.Prelude.{◌≡◌};
ghost use Rattle.rc_check.specs.Grammar.{forms_of, front_of, more_of};

use crate::keyword::Keyword;

/// A symbol of the grammar: what may stand at a place of a sheet.
#[derive(Clone, Copy, PartialEq, Eq, Debug)]
pub enum Symbol {
    /// This word.
    Word(Keyword),
    /// `vloc`, `iloc`, `hloc` or `mem`.
    Kind,
    /// `max` or `min`.
    Best,
    /// A name: an atom that doesn't begin with `'`.
    Name,
    /// An atom that begins with `'`.
    Variable,
    /// A number of players: 1 to 8.
    PlayerCount,
    /// A player's number: 0 to 7.
    Member,
    /// A number from -1,000,000,000 to 1,000,000,000.
    Points,
    /// The whole form.
    Sheet,
    /// The setup.
    Setup,
    /// A line of the setup.
    Line,
    /// The players of a team.
    Team,
    /// A deck tree.
    Deck,
    /// An attribute with its branches.
    Group,
    /// The branches of a group.
    Branches,
    /// A value, or a value with groups below it.
    Branch,
    /// The entries of a point map.
    Entries,
    /// An entry of a point map.
    Entry,
    /// The values of an entry.
    Values,
    /// The scoring.
    Scoring,
    /// An item.
    Item,
    /// The end of a stage.
    End,
    /// An alternative of a choice.
    Alternative,
    /// What an alternative's variable goes over.
    Domain,
    /// An effect.
    Effect,
    /// The top or the bottom of a location.
    Spot,
    /// A location.
    Location,
    /// A number that is stored.
    Counter,
    /// What holds a location or a number: the game, a player or a team.
    Holder,
    /// A player or a team.
    Owner,
    /// A player.
    Player,
    /// A card.
    Card,
    /// Cards.
    Collection,
    /// What a quantifier or a loop goes over: the players, or cards.
    Members,
    /// A number, stored or computed.
    Integer,
    /// A test.
    Test,
    /// A side of an equation.
    Side,
}

/// A form that a list may have.
#[derive(Clone, Copy, PartialEq, Eq, Debug)]
pub enum Rule {
    /// `(game SETUP ITEM+ SCORING)`
    Game,
    /// `(setup LINE+)`
    Setup,
    /// `(create players n)`
    CreatePlayers,
    /// `(create teams TEAM+)`
    CreateTeams,
    /// `(create deck LOC DECK)`
    CreateDeck,
    /// `(put points MAP ENTRIES)`
    PutPoints,
    /// `(p+)`
    Team,
    /// `(deck GROUP+)`
    Deck,
    /// `(ATTR BRANCHES)`
    Group,
    /// `(BRANCH+)`
    Branches,
    /// `(VALUE GROUP+)`
    Branch,
    /// `(ENTRY+)`
    Entries,
    /// `(ATTR VALUES n)`
    Entry,
    /// `(VALUE+)`
    Values,
    /// `(scoring BEST INT)`
    Scoring,
    /// `(do EFFECT+)`
    Do,
    /// `(stage player END ITEM+)`
    PlayerStage,
    /// `(stage team END ITEM+)`
    TeamStage,
    /// `(choice ALT+)`
    Choice,
    /// `(end BOOL)`
    End,
    /// `(if BOOL EFFECT+)`
    If,
    /// `(any DOMAIN 'V ALT)`
    AnyOf,
    /// `(move CARD SPOT)`
    Move,
    /// `(move all COLL SPOT)`
    MoveAll,
    /// `(remember CARD SPOT)`
    Remember,
    /// `(forget CARD)`
    Forget,
    /// `(shuffle LOC)`
    Shuffle,
    /// `(set NUM INT)`
    Set,
    /// `(inc NUM INT)`
    Increase,
    /// `(dec NUM INT)`
    Decrease,
    /// `(repeat INT EFFECT+)`
    Repeat,
    /// `(all MEMBERS 'V EFFECT+)`
    Each,
    /// `(cycle next OWNER)`
    Next,
    /// `(cycle reverse)`
    Reverse,
    /// `(peek COLL OWNER)`
    Peek,
    /// `(top LOC)`
    TopOf,
    /// `(bottom LOC)`
    BottomOf,
    /// `(HOLDER KIND NAME)`
    Location,
    /// `(HOLDER sto NAME)`
    Counter,
    /// `(current player)`
    CurrentPlayer,
    /// `(current team)`
    CurrentTeam,
    /// `(team of PLAYER)`
    TeamOf,
    /// `(top COLL)`
    TopCard,
    /// `(bottom COLL)`
    BottomCard,
    /// `(max COLL using MAP)`
    MaxCard,
    /// `(min COLL using MAP)`
    MinCard,
    /// `(filter COLL 'V BOOL)`
    Filter,
    /// `(union COLL COLL+)`
    Union,
    /// `(known LOC)`
    Known,
    /// `(partition COLL ATTR)`
    Partition,
    /// `(size COLL)`
    Size,
    /// `(sum COLL using MAP)`
    Sum,
    /// `(points CARD using MAP)`
    PointsOf,
    /// `(+ INT INT)`
    Plus,
    /// `(- INT INT)`
    Minus,
    /// `(* INT INT)`
    Times,
    /// `(= SIDE SIDE)`
    Equal,
    /// `(!= SIDE SIDE)`
    NotEqual,
    /// `(< INT INT)`
    Less,
    /// `(<= INT INT)`
    LessOrEqual,
    /// `(> INT INT)`
    More,
    /// `(>= INT INT)`
    MoreOrEqual,
    /// `(is CARD ATTR VALUE)`
    Is,
    /// `(and BOOL+)`
    And,
    /// `(or BOOL+)`
    Or,
    /// `(not BOOL)`
    Not,
    /// `(all MEMBERS 'V BOOL)`
    ForAll,
    /// `(any MEMBERS 'V BOOL)`
    ForAny,
    /// `(attr CARD ATTR)`
    AttributeOf,
}

impl Symbol {
    /// The forms that a list may have at this place.
    pub fn forms(self) -> &'static [Rule]
        ensures { result.now ≡ forms_of self }
    {
        match self {
            Symbol::Word(_) => &[],
            Symbol::Kind => &[],
            Symbol::Best => &[],
            Symbol::Name => &[],
            Symbol::Variable => &[],
            Symbol::PlayerCount => &[],
            Symbol::Member => &[],
            Symbol::Points => &[],
            Symbol::Sheet => &[Rule::Game],
            Symbol::Setup => &[Rule::Setup],
            Symbol::Line => &[
                Rule::CreatePlayers,
                Rule::CreateTeams,
                Rule::CreateDeck,
                Rule::PutPoints,
            ],
            Symbol::Team => &[Rule::Team],
            Symbol::Deck => &[Rule::Deck],
            Symbol::Group => &[Rule::Group],
            Symbol::Branches => &[Rule::Branches],
            Symbol::Branch => &[Rule::Branch],
            Symbol::Entries => &[Rule::Entries],
            Symbol::Entry => &[Rule::Entry],
            Symbol::Values => &[Rule::Values],
            Symbol::Scoring => &[Rule::Scoring],
            Symbol::Item => &[Rule::Do, Rule::PlayerStage, Rule::TeamStage, Rule::Choice],
            Symbol::End => &[Rule::End],
            Symbol::Alternative => &[Rule::Do, Rule::If, Rule::AnyOf],
            Symbol::Domain => &[
                Rule::Location,
                Rule::Filter,
                Rule::Union,
                Rule::Known,
                Rule::Partition,
            ],
            Symbol::Effect => &[
                Rule::Move,
                Rule::MoveAll,
                Rule::Remember,
                Rule::Forget,
                Rule::Shuffle,
                Rule::Set,
                Rule::Increase,
                Rule::Decrease,
                Rule::If,
                Rule::Repeat,
                Rule::Each,
                Rule::Next,
                Rule::Reverse,
                Rule::Peek,
            ],
            Symbol::Spot => &[Rule::TopOf, Rule::BottomOf],
            Symbol::Location => &[Rule::Location],
            Symbol::Counter => &[Rule::Counter],
            Symbol::Holder => &[Rule::CurrentPlayer, Rule::CurrentTeam, Rule::TeamOf],
            Symbol::Owner => &[Rule::CurrentPlayer, Rule::CurrentTeam, Rule::TeamOf],
            Symbol::Player => &[Rule::CurrentPlayer],
            Symbol::Card => &[
                Rule::TopCard,
                Rule::BottomCard,
                Rule::MaxCard,
                Rule::MinCard,
            ],
            Symbol::Collection => &[Rule::Location, Rule::Filter, Rule::Union, Rule::Known],
            Symbol::Members => &[Rule::Location, Rule::Filter, Rule::Union, Rule::Known],
            Symbol::Integer => &[
                Rule::Counter,
                Rule::Size,
                Rule::Sum,
                Rule::PointsOf,
                Rule::Plus,
                Rule::Minus,
                Rule::Times,
            ],
            Symbol::Test => &[
                Rule::Equal,
                Rule::NotEqual,
                Rule::Less,
                Rule::LessOrEqual,
                Rule::More,
                Rule::MoreOrEqual,
                Rule::Is,
                Rule::And,
                Rule::Or,
                Rule::Not,
                Rule::ForAll,
                Rule::ForAny,
            ],
            Symbol::Side => &[
                Rule::Counter,
                Rule::Size,
                Rule::Sum,
                Rule::PointsOf,
                Rule::Plus,
                Rule::Minus,
                Rule::Times,
                Rule::TopCard,
                Rule::BottomCard,
                Rule::MaxCard,
                Rule::MinCard,
                Rule::CurrentPlayer,
                Rule::CurrentTeam,
                Rule::TeamOf,
                Rule::AttributeOf,
            ],
        }
    }
}

impl Rule {
    /// The places of the first parts.
    #[inline(always)]
    pub fn front(self) -> &'static [Symbol]
        ensures { result.now ≡ front_of self }
    {
        match self {
            Rule::Game => &[Symbol::Word(Keyword::Game), Symbol::Setup],
            Rule::Setup => &[Symbol::Word(Keyword::Setup)],
            Rule::CreatePlayers => &[
                Symbol::Word(Keyword::Create),
                Symbol::Word(Keyword::Players),
                Symbol::PlayerCount,
            ],
            Rule::CreateTeams => &[Symbol::Word(Keyword::Create), Symbol::Word(Keyword::Teams)],
            Rule::CreateDeck => &[
                Symbol::Word(Keyword::Create),
                Symbol::Word(Keyword::Deck),
                Symbol::Location,
                Symbol::Deck,
            ],
            Rule::PutPoints => &[
                Symbol::Word(Keyword::Put),
                Symbol::Word(Keyword::Points),
                Symbol::Name,
                Symbol::Entries,
            ],
            Rule::Team => &[],
            Rule::Deck => &[Symbol::Word(Keyword::Deck)],
            Rule::Group => &[Symbol::Name, Symbol::Branches],
            Rule::Branches => &[],
            Rule::Branch => &[Symbol::Name],
            Rule::Entries => &[],
            Rule::Entry => &[Symbol::Name, Symbol::Values, Symbol::Points],
            Rule::Values => &[],
            Rule::Scoring => &[
                Symbol::Word(Keyword::Scoring),
                Symbol::Best,
                Symbol::Integer,
            ],
            Rule::Do => &[Symbol::Word(Keyword::Do)],
            Rule::PlayerStage => &[
                Symbol::Word(Keyword::Stage),
                Symbol::Word(Keyword::Player),
                Symbol::End,
            ],
            Rule::TeamStage => &[
                Symbol::Word(Keyword::Stage),
                Symbol::Word(Keyword::Team),
                Symbol::End,
            ],
            Rule::Choice => &[Symbol::Word(Keyword::Choice)],
            Rule::End => &[Symbol::Word(Keyword::End), Symbol::Test],
            Rule::If => &[Symbol::Word(Keyword::If), Symbol::Test],
            Rule::AnyOf => &[
                Symbol::Word(Keyword::Any),
                Symbol::Domain,
                Symbol::Variable,
                Symbol::Alternative,
            ],
            Rule::Move => &[Symbol::Word(Keyword::Move), Symbol::Card, Symbol::Spot],
            Rule::MoveAll => &[
                Symbol::Word(Keyword::Move),
                Symbol::Word(Keyword::All),
                Symbol::Collection,
                Symbol::Spot,
            ],
            Rule::Remember => &[Symbol::Word(Keyword::Remember), Symbol::Card, Symbol::Spot],
            Rule::Forget => &[Symbol::Word(Keyword::Forget), Symbol::Card],
            Rule::Shuffle => &[Symbol::Word(Keyword::Shuffle), Symbol::Location],
            Rule::Set => &[Symbol::Word(Keyword::Set), Symbol::Counter, Symbol::Integer],
            Rule::Increase => &[Symbol::Word(Keyword::Inc), Symbol::Counter, Symbol::Integer],
            Rule::Decrease => &[Symbol::Word(Keyword::Dec), Symbol::Counter, Symbol::Integer],
            Rule::Repeat => &[Symbol::Word(Keyword::Repeat), Symbol::Integer],
            Rule::Each => &[
                Symbol::Word(Keyword::All),
                Symbol::Members,
                Symbol::Variable,
            ],
            Rule::Next => &[
                Symbol::Word(Keyword::Cycle),
                Symbol::Word(Keyword::Next),
                Symbol::Owner,
            ],
            Rule::Reverse => &[Symbol::Word(Keyword::Cycle), Symbol::Word(Keyword::Reverse)],
            Rule::Peek => &[
                Symbol::Word(Keyword::Peek),
                Symbol::Collection,
                Symbol::Owner,
            ],
            Rule::TopOf => &[Symbol::Word(Keyword::Top), Symbol::Location],
            Rule::BottomOf => &[Symbol::Word(Keyword::Bottom), Symbol::Location],
            Rule::Location => &[Symbol::Holder, Symbol::Kind, Symbol::Name],
            Rule::Counter => &[Symbol::Holder, Symbol::Word(Keyword::Sto), Symbol::Name],
            Rule::CurrentPlayer => &[
                Symbol::Word(Keyword::Current),
                Symbol::Word(Keyword::Player),
            ],
            Rule::CurrentTeam => &[Symbol::Word(Keyword::Current), Symbol::Word(Keyword::Team)],
            Rule::TeamOf => &[
                Symbol::Word(Keyword::Team),
                Symbol::Word(Keyword::Of),
                Symbol::Player,
            ],
            Rule::TopCard => &[Symbol::Word(Keyword::Top), Symbol::Collection],
            Rule::BottomCard => &[Symbol::Word(Keyword::Bottom), Symbol::Collection],
            Rule::MaxCard => &[
                Symbol::Word(Keyword::Max),
                Symbol::Collection,
                Symbol::Word(Keyword::Using),
                Symbol::Name,
            ],
            Rule::MinCard => &[
                Symbol::Word(Keyword::Min),
                Symbol::Collection,
                Symbol::Word(Keyword::Using),
                Symbol::Name,
            ],
            Rule::Filter => &[
                Symbol::Word(Keyword::Filter),
                Symbol::Collection,
                Symbol::Variable,
                Symbol::Test,
            ],
            Rule::Union => &[Symbol::Word(Keyword::Union), Symbol::Collection],
            Rule::Known => &[Symbol::Word(Keyword::Known), Symbol::Location],
            Rule::Partition => &[
                Symbol::Word(Keyword::Partition),
                Symbol::Collection,
                Symbol::Name,
            ],
            Rule::Size => &[Symbol::Word(Keyword::Size), Symbol::Collection],
            Rule::Sum => &[
                Symbol::Word(Keyword::Sum),
                Symbol::Collection,
                Symbol::Word(Keyword::Using),
                Symbol::Name,
            ],
            Rule::PointsOf => &[
                Symbol::Word(Keyword::Points),
                Symbol::Card,
                Symbol::Word(Keyword::Using),
                Symbol::Name,
            ],
            Rule::Plus => &[
                Symbol::Word(Keyword::Plus),
                Symbol::Integer,
                Symbol::Integer,
            ],
            Rule::Minus => &[
                Symbol::Word(Keyword::Minus),
                Symbol::Integer,
                Symbol::Integer,
            ],
            Rule::Times => &[
                Symbol::Word(Keyword::Times),
                Symbol::Integer,
                Symbol::Integer,
            ],
            Rule::Equal => &[Symbol::Word(Keyword::Equal), Symbol::Side, Symbol::Side],
            Rule::NotEqual => &[Symbol::Word(Keyword::NotEqual), Symbol::Side, Symbol::Side],
            Rule::Less => &[
                Symbol::Word(Keyword::Less),
                Symbol::Integer,
                Symbol::Integer,
            ],
            Rule::LessOrEqual => &[
                Symbol::Word(Keyword::LessOrEqual),
                Symbol::Integer,
                Symbol::Integer,
            ],
            Rule::More => &[
                Symbol::Word(Keyword::More),
                Symbol::Integer,
                Symbol::Integer,
            ],
            Rule::MoreOrEqual => &[
                Symbol::Word(Keyword::MoreOrEqual),
                Symbol::Integer,
                Symbol::Integer,
            ],
            Rule::Is => &[
                Symbol::Word(Keyword::Is),
                Symbol::Card,
                Symbol::Name,
                Symbol::Name,
            ],
            Rule::And => &[Symbol::Word(Keyword::And)],
            Rule::Or => &[Symbol::Word(Keyword::Or)],
            Rule::Not => &[Symbol::Word(Keyword::Not), Symbol::Test],
            Rule::ForAll => &[
                Symbol::Word(Keyword::All),
                Symbol::Members,
                Symbol::Variable,
                Symbol::Test,
            ],
            Rule::ForAny => &[
                Symbol::Word(Keyword::Any),
                Symbol::Members,
                Symbol::Variable,
                Symbol::Test,
            ],
            Rule::AttributeOf => &[Symbol::Word(Keyword::Attr), Symbol::Card, Symbol::Name],
        }
    }

    /// The place of each further part, of which there is one at least, where there may be any.
    #[inline(always)]
    pub fn more(self) -> Option<Symbol>
        ensures { result ≡ more_of self }
    {
        match self {
            Rule::Game => Some(Symbol::Item),
            Rule::Setup => Some(Symbol::Line),
            Rule::CreateTeams => Some(Symbol::Team),
            Rule::Team => Some(Symbol::Member),
            Rule::Deck => Some(Symbol::Group),
            Rule::Branches => Some(Symbol::Branch),
            Rule::Branch => Some(Symbol::Group),
            Rule::Entries => Some(Symbol::Entry),
            Rule::Values => Some(Symbol::Name),
            Rule::Do => Some(Symbol::Effect),
            Rule::PlayerStage => Some(Symbol::Item),
            Rule::TeamStage => Some(Symbol::Item),
            Rule::Choice => Some(Symbol::Alternative),
            Rule::If => Some(Symbol::Effect),
            Rule::Repeat => Some(Symbol::Effect),
            Rule::Each => Some(Symbol::Effect),
            Rule::Union => Some(Symbol::Collection),
            Rule::And => Some(Symbol::Test),
            Rule::Or => Some(Symbol::Test),
            _ => None,
        }
    }
}
