//! A game, its plan and the text of its play.

/// Two players with two cards each who choose the first one each time, of which the last dealt is worth least, with the
/// plan. The sheet has 463 bytes with its line feed, and the plan 61.
pub const SOURCE: &[u8] = b"\
(game
(setup (create players 2)
(create deck (game hloc STOCK) (deck (RANK (1 2 3 4))))
(put points WORTH ((RANK (1) 1) (RANK (2) 2) (RANK (3) 3) (RANK (4) 4))))
(do (all player 'P (repeat 2 (move (top (game hloc STOCK)) (top ('P iloc HAND))))))
(stage player (end (all player 'P (= (size ('P iloc HAND)) 0)))
(choice (any ((current player) iloc HAND) 'C
(do (move 'C (top ((current player) vloc PLAYED)))))))
(scoring max (sum ('SELF vloc PLAYED) using WORTH)))
(plan (seats (script) (script)) (matches (0 0)) (turns 100))
";

/// How many bytes its sheet has.
pub const SHEET: usize = 463;

/// The text of its play.
pub const TEXT: &[u8] = b"\
house 1
match 0 deal 0 seats 0
choose 0 0 0 2
choose 1 0 0 2
choose 0 0 0 1
choose 1 0 0 1
end done 8
score 0 7 2
score 1 3 0
standing 1 strategy 0 points 2
standing 2 strategy 1 points 0
";
