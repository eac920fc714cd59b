//! The machine.

use crate::State;
use rc_code::Code;
use rc_rules::About;
use std::marker::Model;
use std::sync::Arc;

/// A match that is played on the code of its sheet. It keeps what takes each edit of its table back.
#[derive(Drop)]
pub struct FlatMachine {
    pub(crate) about: About,
    pub(crate) code: Arc<Code>,
    // any, but for its board, where the machine is spent
    pub(crate) state: State,
    pub(crate) spent: bool,
}

impl Model for FlatMachine {
    ghost use Rattle.std.specs.Coded.{codes};
    ghost use Rattle.rc_flow.specs.Codes.{sheet_codes};
    ghost use Rattle.rc_flat.specs.Codes.{part_codes};
    ghost use Rattle.rc_flat.specs.Machine.{Machine};

    ghost Value = { Machine };

    ghost coded = { Prim.hlevel (sheet_codes, part_codes, codes) };

    ghost use Rattle.rc_flat.specs.MachineSeen.{machine_seen, KeepsMachine};

    ghost view = { machine_seen };

    ghost invariant = { KeepsMachine };
}
