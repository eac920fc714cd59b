//! The texts of games, each of them a sheet.

/// Two players with two cards each, who play both of them in turns. The points of what they played are their scores.
pub const GAME: &[u8] = b"\
(game
(setup (create players 2)
(create deck (game hloc STOCK) (deck (RANK (1 2 3 4))))
(put points WORTH ((RANK (1) 1) (RANK (2) 2) (RANK (3) 3) (RANK (4) 4))))
(do (all player 'P (repeat 2 (move (top (game hloc STOCK)) (top ('P iloc HAND))))))
(stage player (end (all player 'P (= (size ('P iloc HAND)) 0)))
(choice (any ((current player) iloc HAND) 'C
(do (move 'C (top ((current player) vloc PLAYED)))))))
(scoring max (sum ('SELF vloc PLAYED) using WORTH)))
";

/// Three seats with a card each, of which the last one's has the face of the open card. At the second choice of a turn
/// the inner stage goes backward, and its member to come is named.
pub const OPEN_CARD: &[u8] = b"\
(game
(setup (create players 3)
(create deck (game hloc STOCK) (deck (RANK (1 2 2 3 4)))))
(do (dec (game sto DEBT) 300)
(all player 'P (move (top (game hloc STOCK)) (top ('P iloc HAND))))
(move (top (game hloc STOCK)) (top (game vloc OPEN)))
(remember (top (game vloc OPEN)) (top (game mem MARK))))
(stage player (end (= 0 1))
(stage player (end (= 0 1))
(do (cycle reverse) (all player 'P (cycle next 'P)))
(choice (do (inc (game sto DEBT) 1)))
(choice (do (dec (game sto DEBT) 1)))))
(scoring max 0))";

/// Two rows of four cards, of which each is shuffled once.
pub const ROWS: &[u8] = b"\
(game
(setup (create players 1)
(create deck (game vloc FIRST) (deck (RANK (1 2 3 4))))
(create deck (game vloc SECOND) (deck (RANK (1 2 3 4)))))
(do (shuffle (game vloc FIRST)) (shuffle (game vloc SECOND)))
(scoring max 0))";

/// Two seats with two cards each, two open cards that are remembered, and two of the four others laid on a pile. The
/// ten cards are numbered in the order of the deck, so the numbers of their faces are 0, 1, 1, 3, 1, 3, 6, 0, 6 and 3.
pub const PILES: &[u8] = b"\
(game
(setup (create players 2)
(create deck (game hloc STOCK) (deck (RANK (1 2 2 3 2 3 4 1 4 3)))))
(do (repeat 2 (all player 'P (move (top (game hloc STOCK)) (top ('P iloc HAND)))))
(repeat 2 (move (top (game hloc STOCK)) (top (game vloc OPEN)))
(remember (top (game vloc OPEN)) (top (game mem MARKS))))
(repeat 2 (move (top (game hloc STOCK)) (top (game hloc PILE))))
(dec (game sto DEBT) 3))
(stage player (end (= 0 1))
(choice (do (inc (game sto DEBT) 1))))
(scoring max 0))";

/// `examples/draws.sheet`: a player lays a card down or draws one, of a stock that was shuffled.
pub const DRAWS: &[u8] = b"\
(game
  (setup
    (create players 2)
    (create deck (game hloc STOCK)
      (deck (RANK (1 2 3 4 5 6))))
    (put points WORTH
      ((RANK (1) 1) (RANK (2) 2) (RANK (3) 3) (RANK (4) 4) (RANK (5) 5) (RANK (6) 6))))

  (do
    (shuffle (game hloc STOCK))
    (all player 'P
      (move (top (game hloc STOCK)) (top ('P iloc HAND)))))

  (stage player
    (end (= (size (game hloc STOCK)) 0))
    (choice
      (any ((current player) iloc HAND) 'C
        (do (move 'C (top ((current player) vloc PLAYED)))))
      (do (move (top (game hloc STOCK)) (top ((current player) iloc HAND))))))

  (scoring max (sum ('SELF vloc PLAYED) using WORTH)))
";

/// `examples/magpie.sheet`, without its comments: cards have to fit, or the stage goes the other way round, and players
/// draw or pass.
pub const MAGPIE: &[u8] = b"\
(game
  (setup
    (create players 3)
    (create deck (game hloc STOCK)
      (deck (COLOUR (RED BLUE PINK)) (NUMBER (1 2 3 4 5))))
    (create deck (game hloc STOCK)
      (deck (NUMBER (MAGPIE MAGPIE MAGPIE))))
    (put points LEFT
      ((NUMBER (1 2 3 4) 1) (NUMBER (5) 3) (NUMBER (MAGPIE) 6))))

  (do
    (shuffle (game hloc STOCK))
    (all player 'P
      (repeat 4
        (move (top (game hloc STOCK)) (top ('P iloc HAND)))))
    (move (top (game hloc STOCK)) (top (game vloc HEAP))))

  (stage player
    (end
      (or (any player 'P (= (size ('P iloc HAND)) 0))
          (= (game sto PASSED) 3)))
    (choice
      (any ((current player) iloc HAND) 'C
        (if (or (= (attr 'C COLOUR) (attr (top (game vloc HEAP)) COLOUR))
                (= (attr 'C NUMBER) (attr (top (game vloc HEAP)) NUMBER))
                (is 'C NUMBER MAGPIE)
                (is (top (game vloc HEAP)) NUMBER MAGPIE))
          (move 'C (top (game vloc HEAP)))
          (set (game sto PASSED) 0)
          (if (is 'C NUMBER 5) (cycle reverse))))
      (if (> (size (game hloc STOCK)) 0)
        (move (top (game hloc STOCK)) (top ((current player) iloc HAND))))
      (if (= (size (game hloc STOCK)) 0)
        (inc (game sto PASSED) 1))))

  (scoring min (sum ('SELF iloc HAND) using LEFT)))
";

/// `examples/staircase.sheet`, without its comments: a patience with filters over four rows, a number that is set anew
/// in each round, and a second item for the stock.
pub const STAIRCASE: &[u8] = b"\
(game
  (setup
    (create players 1)
    (create deck (game hloc STOCK)
      (deck (STEP (1 2 3 4 5 6 7 8)) (WOOD (ASH ELM YEW))))
    (put points RANK
      ((STEP (1) 1) (STEP (2) 2) (STEP (3) 3) (STEP (4) 4) (STEP (5) 5) (STEP (6) 6) (STEP (7) 7) (STEP (8) 8))))

  (do
    (shuffle (game hloc STOCK))
    (repeat 4
      (move (top (game hloc STOCK)) (top (game vloc WEST)))
      (move (top (game hloc STOCK)) (top (game vloc NORTH)))
      (move (top (game hloc STOCK)) (top (game vloc EAST)))
      (move (top (game hloc STOCK)) (top (game vloc SOUTH))))
    (move (top (game hloc STOCK)) (top (game vloc WASTE))))

  (stage player
    (end
      (or (= (game sto STUCK) 1)
          (= (size (union (game vloc WEST) (game vloc NORTH) (game vloc EAST) (game vloc SOUTH))) 0)))
    (do
      (set (game sto STUCK) 1)
      (set (game sto ON) (points (top (game vloc WASTE)) using RANK)))
    (choice
      (any
        (union (filter (game vloc WEST) 'T (= 'T (top (game vloc WEST))))
               (filter (game vloc NORTH) 'T (= 'T (top (game vloc NORTH))))
               (filter (game vloc EAST) 'T (= 'T (top (game vloc EAST))))
               (filter (game vloc SOUTH) 'T (= 'T (top (game vloc SOUTH)))))
        'C
        (if (= (* (- (points 'C using RANK) (game sto ON)) (- (points 'C using RANK) (game sto ON))) 1)
          (move 'C (top (game vloc WASTE)))
          (set (game sto STUCK) 0)))
      (if (> (size (game hloc STOCK)) 0)
        (move (top (game hloc STOCK)) (top (game vloc WASTE)))
        (set (game sto STUCK) 0))))

  (scoring min (size (union (game vloc WEST) (game vloc NORTH) (game vloc EAST) (game vloc SOUTH)))))
";
