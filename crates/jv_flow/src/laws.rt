//! What holds of all bodies.

ghost use Rattle.jv_flow.specs.Example.{RunsAreToldApart};
ghost use Rattle.jv_flow.specs.Law.{AcceptedCtorsRun, AcceptedMethodsReturn, FaultPlacesAreOne, FaultPlacesAreTold, FlowFaultsAreTold, RulesTellRuns};

/// Where the statements of a body have the shape of the grammar, it completes normally exactly where some run falls off its end, and
/// a statement of it is reachable exactly where some run executes it (JLS 14.21).
pub fn rules_tell_runs()
    ensures { RulesTellRuns }
{}

/// Examples of runs, and of what no run does.
pub fn runs_are_told_apart()
    ensures { RunsAreToldApart }
{}

/// One list has the places of the faults of a body, and no other.
pub fn fault_places_are_one()
    ensures one { FaultPlacesAreOne }
    ensures told { FaultPlacesAreTold }
{}

/// The diagnostics of a body are those that the rules give.
pub fn flow_faults_are_told()
    ensures { FlowFaultsAreTold }
{}

/// Where the statements of a method or a constructor have the shape of the grammar and nothing is wrong with the flow of its body,
/// each of them is executed by some run; and if it is a method that gives a value, no run falls off the end of its body (JLS 8.4.7,
/// 14.21).
pub fn accepted_methods_return()
    ensures methods { AcceptedMethodsReturn }
    ensures ctors { AcceptedCtorsRun }
{}
