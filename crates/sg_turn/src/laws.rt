//! What holds of the rule of the table, whatever the value.
ghost use Rattle.sg_turn.specs.Rule.{TicketsFit};
ghost use Rattle.sg_turn.specs.Steps.{StepsKeepRule};

use crate::storied::Storied;

/// Each kind of atomic step keeps the rule: a value is taken in turns however the steps of threads fall.
pub fn each_step_keeps_the_rule<V: Storied>()
    ensures { StepsKeepRule V.entries V.root V.teller }
{}

/// Under the rule the tickets fit their words, so a ticket that was drawn is drawn by no other seat.
pub fn tickets_fit<V: Storied>()
    ensures { TicketsFit V.entries V.root V.teller }
{}
