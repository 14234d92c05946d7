#![tactic(auto)]

ghost use Rattle.simulation.specs.Static.{StaticAgrees};

// Code agrees with its source in every rehearsal.
pub fn code_agrees()
    ensures { StaticAgrees }
{}
