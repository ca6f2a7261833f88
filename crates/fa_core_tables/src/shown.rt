//! What the containers show of themselves to clauses alone.
use std::marker::Model;

/// The base of a history, for a history of events that shows it. No value of it is made.
pub struct BaseShown {}

impl Model for BaseShown {
    ghost use Rattle.fa_machine.specs.State.{Base};
    ghost use Rattle.std.specs.FinMap.{empty};
    ghost use Rattle.fa_core_tables.specs.Codes.{base_code};
    ghost use Rattle.fa_core_tables.specs.Counted.{new_base};

    ghost Value = { Base };

    ghost coded = { base_code };

    ghost view = { λ _. new_base empty };
}

/// The programs that wait, for a history of events that shows them. No value of it is made.
pub struct WaitingShown {}

impl Model for WaitingShown {
    ghost use Rattle.std.specs.Prelude.{List, []};
    ghost use Rattle.fa_machine.specs.State.{WaitingProgram};
    ghost use Rattle.fa_core_tables.specs.Codes.{waiting_code};

    ghost Value = { List WaitingProgram };

    ghost coded = { waiting_code };

    ghost view = { λ _. [] };
}
