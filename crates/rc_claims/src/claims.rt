//! The counter of claims, and the passes of those who claim.
ghost use Rattle.std.specs.Prelude.{◌≡◌, ◌≤◌, ◌<◌, ◌+◌, ℕ, [], length, map, All, IfSome, IfNone, IfOk, drop, take};
ghost use Rattle.std.specs.List.Sorted.{IsPermutation};
ghost use Rattle.rc_base.specs.Numbers.{below};
ghost use Rattle.rc_base.specs.Limits.{most_matches, most_workers};
ghost use Rattle.rc_claims.specs.Claims.{fresh, joined, with_number};

use crate::views::{Draws, EachOnce, GivesOne, Limits, PassView, TakesIn};
use atomic_table::{Seat, Table};
use rc_deck::Memory;
use std::alloc::{AllocError, Global};
use std::marker::Model;

/// Numbers from 0 that are claimed one by one. Who claims waits for nobody. Contracts see the word that they are drawn
/// from, how many of them count, and how many passes there are.
#[derive(Drop)]
pub struct Claims {
    table: Table<(), PassView, Limits, EachOnce, Global>,
    count: u32,
}

impl Model for Claims {
    ghost use Rattle.rc_claims.specs.Claims.{Claims as PureClaims, claims_coded};

    ghost Value = { PureClaims };

    ghost coded = { claims_coded };

    ghost use Rattle.std.specs.Prelude.{◌≡◌, ◌≤◌};
    ghost use Rattle.rc_base.specs.Limits.{most_matches, most_workers};

    ghost view = { λ c. record {
      table = c.table.shared.table_id;
      count = c.table.shared.key.count;
      passes = c.table.shared.key.passes;
    } };

    ghost invariant = { λ c. (c.table.shared.table_id.words ≡ 1) × (c.table.shared.table_id.slots ≡ 0)
        × (c.count ≡ c.table.shared.key.count) × (c.table.shared.key.count ≤ most_matches)
        × (c.table.shared.key.passes ≤ most_workers) };
}

/// The right to claim. Contracts see the word that it draws from, its holders, one at least, and the numbers that it
/// has claimed.
#[derive(Drop)]
pub struct Pass {
    seat: Seat<(), PassView>,
}

impl Model for Pass {
    ghost use Rattle.rc_claims.specs.Claims.{Pass as PurePass, pass_coded};

    ghost Value = { PurePass };

    ghost coded = { pass_coded };

    ghost use Rattle.std.specs.Prelude.{◌≡◌, ◌<◌, [], length};

    ghost view = { λ p. record { table = p.seat.table_id; holders = p.seat.me.0.holders; numbers = p.seat.me.0.numbers } };

    ghost invariant = { λ p. (p.seat.me.1 ≡ []) × (0 < length p.seat.me.0.holders) };
}

impl Claims {
    /// Claims of so many numbers, from 0, and as many passes to claim them by. Memory may run out.
    pub fn new(alloc: Global, count: u32, passes: u8) -> Result<(Claims, Vec<Pass>), Memory>
        requires count { (1 ≤ count) × (count ≤ most_matches) }
        requires passes { (1 ≤ passes) × (passes ≤ most_workers) }
        ensures claims { IfOk result (λ r. (r.0.count ≡ count) × (r.0.passes ≡ passes)) }
        ensures passes { IfOk result (λ r. r.1.items ≡ map (fresh r.0.table) (below passes)) }
    {
        let limits = Limits { count, passes };
        let (table, seat) = match Table::of_words(alloc, &[0], &limits) {
            Ok(made) => made,
            Err(AllocError) => return Err(Memory),
        };
        let claims = Claims { table, count };
        let passes = match claims.cut(alloc, passes, Pass { seat }) {
            Ok(passes) => passes,
            Err(Memory) => return Err(Memory),
        };
        Ok((claims, passes))
    }

    // A pass for each holder of the first one, which has them all.
    fn cut(&self, alloc: Global, passes: u8, whole: Pass) -> Result<Vec<Pass>, Memory>
        requires own { whole.table ≡ self.now.table }
        requires some { 1 ≤ passes }
        requires all { (whole.holders ≡ below passes) × (whole.numbers ≡ []) }
        ensures { IfOk result (λ all. all.items ≡ map (fresh self.now.table) (below passes)) }
    {
        let mut whole = whole;
        let mut all = Vec::new(alloc);
        for _ in 1..passes {
            let one = self.split(&mut whole);
            match all.push(one) {
                Ok(()) => {}
                Err(_) => return Err(Memory),
            }
        }
        match all.push(whole) {
            Ok(()) => Ok(all),
            Err(_) => Err(Memory),
        }
    }

    // Gives the first holder to a new pass.
    fn split(&self, pass: &mut Pass) -> Pass
        requires own { pass.old.table ≡ self.now.table }
        requires two { 2 ≤ length pass.old.holders }
        requires none { pass.old.numbers ≡ [] }
        ensures left { pass.new ≡ record { table = pass.old.table; holders = drop 1 pass.old.holders; numbers = [] } }
        ensures right { result ≡ record { table = pass.old.table; holders = take 1 pass.old.holders; numbers = [] } }
    {
        let seat = self.table.shared.split_seat::<GivesOne>(&mut pass.seat);
        Pass { seat }
    }

    /// Claims the next number. None comes where it isn't one of those that count; the pass then has it all the same,
    /// and claims no more. A number is never smaller than how many the pass had claimed, so claiming until None ends.
    pub fn claim(&self, pass: &mut Pass) -> Option<u32>
        requires own { pass.old.table ≡ self.now.table }
        requires counted { All (λ n. n < self.now.count) pass.old.numbers }
        ensures some { IfSome result (λ n. (n < self.now.count) × (pass.new ≡ with_number pass.old n)) }
        ensures none { IfNone result ((n : ℕ) × (self.now.count ≤ n) × (pass.new ≡ with_number pass.old n)) }
        ensures late { IfSome result (λ n. length pass.old.numbers ≤ n) }
    {
        let drawn = self.table.shared.fetch_add::<Draws>(&mut pass.seat, 0, 1);
        if drawn < self.count as u64 {
            Some(drawn as u32)
        } else {
            None
        }
    }

    /// Gives all that one pass has to another.
    pub fn join(&self, into: &mut Pass, from: Pass)
        requires own { into.old.table ≡ self.now.table }
        requires other { from.table ≡ self.now.table }
        ensures { into.new ≡ joined into.old from }
    {
        let Pass { seat } = from;
        self.table.shared.join_seat::<TakesIn>(&mut into.seat, seat);
    }

    /// How many numbers were drawn. The pass has all holders, and so all numbers.
    pub fn close(self, pass: Pass) -> u32
        requires own { pass.table ≡ self.table }
        requires all { IsPermutation (below self.passes) pass.holders }
        ensures drawn { IsPermutation (below result) pass.numbers }
        ensures few { result ≤ self.count + self.passes }
    {
        let Claims { table, count: _ } = self;
        let Pass { seat } = pass;
        let closed = table.close_with(seat);
        let drawn = closed.word(0);
        closed.free();
        drawn as u32
    }
}
