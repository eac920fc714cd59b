//! What a strategy is to choose by.
ghost use Rattle.std.specs.Prelude.{◌≡◌, IfOk};
ghost use Rattle.rc_redraw.specs.Asking.{key_seen};
ghost use Rattle.rc_redraw.specs.Need.{need_seen, rollout_key};

use crate::asking::{Ask, Key};
use rc_deck::Memory;
use rc_rules::{About, Strategy};
use rc_view::View;
use std::alloc::Global;
use std::sync::Arc;

/// A decision that a strategy is to make: what the match is played by, the strategy, the seed of the seats, how many
/// items the menu has, 1 to 256, and what the mover sees.
pub struct Need {
    pub about: Arc<About>,
    pub strategy: Strategy,
    pub seed: u64,
    pub menu: u16,
    pub view: View,
}

// A derived drop is proved again in each crate that may drop a need, and this one once.
impl Drop for Need {
    fn drop(self) {
        let Need {
            about: _about,
            strategy: _strategy,
            seed: _,
            menu: _,
            view: _view,
        } = self;
    }
}

impl Need {
    /// The same need once more.
    pub fn copy(&self, alloc: Global) -> Result<Need, Memory>
        ensures { IfOk result (λ copy. need_seen copy ≡ need_seen self.now) }
    {
        let about = Arc::try_clone(&self.about)?;
        let strategy = self.strategy.copy(alloc)?;
        let view = self.view.copy(alloc)?;
        Ok(Need {
            about,
            strategy,
            seed: self.seed,
            menu: self.menu,
            view,
        })
    }

    /// What a rollout of so many rounds by this number asks of playouts here. Memory may run out.
    pub fn into_key(self, alloc: Global, rounds: u16, number: u64) -> Result<Key, Memory>
        ensures { IfOk result (λ key. key_seen key ≡ rollout_key (need_seen self) rounds number) }
    {
        let Need {
            about,
            strategy: _strategy,
            seed,
            menu: _,
            view,
        } = self;
        let ask = Ask {
            rounds,
            key: number,
            seed,
            view,
        };
        let ask = Arc::new(alloc, ask)?;
        Ok(Key { about, ask })
    }
}
