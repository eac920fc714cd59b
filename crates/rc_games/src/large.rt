//! The largest sheet: 512 cards, 256 locations and 256 numbers, and in a match as many references as there may be.
use std::alloc::{AllocError, Global};

/// 8 locations of the game, of which STOCK has 16 times 32 cards and ROWS and COLUMNS a reference to each of them, and
/// the first of the numbers that each player has.
const BEGINNING: &[u8] = b"\
(game
(setup (create players 8)
(create deck (game vloc STOCK) (deck (ROW (0 1 2 3 4 5 6 7 8 9 10 11 12 13 14 15))
(COLUMN (0 1 2 3 4 5 6 7 8 9 10 11 12 13 14 15 16 17 18 19 20 21 22 23 24 25 26 27 28 29 30 31)))))
(do (all (game vloc STOCK) 'C (remember 'C (top (game mem ROWS))) (remember 'C (top (game mem COLUMNS))))
(shuffle (game vloc A)) (shuffle (game vloc B)) (shuffle (game iloc C)) (shuffle (game hloc D)) (shuffle (game hloc E))
(all player 'P (inc ('P sto FIRST) 1)
";

const END: &[u8] = b"\
))
(stage player (end (= 0 1))
(choice (any (game vloc STOCK) 'C (do (move 'C (top (game vloc A)))))))
(scoring max 0))";

/// The text of the largest sheet. Each of 8 players has 31 locations and 31 numbers more.
pub fn largest(alloc: Global) -> Result<Vec<u8>, AllocError> {
    let mut text = BEGINNING.to_vec(alloc)?;
    for name in 0..31u8 {
        let line = format!(in alloc; "(set ('P sto N{name}) (size ('P iloc L{name})))\n")?;
        text.extend_from_slice(line.as_bytes())?;
    }
    text.extend_from_slice(END)?;
    Ok(text)
}
