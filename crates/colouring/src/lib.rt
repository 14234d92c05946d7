#![tactic(auto)]

// Colouring: what removal and selection promise, as theorems about the definitions of rounds.
ghost use Rattle.colouring.specs.Selecting.{TestSuffices, ChoiceFree, TestFinds, NeighboursApart, TestedFind};
ghost use Rattle.colouring.specs.Removing.{AllRemoved, TemporariesPass};
ghost use Rattle.colouring.specs.Rounds.{RoundSettles, PairedSettles};

/// Under a pressure below p, some register of the class is clear of the nodes that press.
pub fn test_suffices()
    ensures { TestSuffices }
{}

/// Selection takes some free register whenever there is one.
pub fn choice_is_free()
    ensures { ChoiceFree }
{}

/// Under a pressure below p, by all neighbours that have registers, a node takes a register.
pub fn test_finds_a_register()
    ensures { TestFinds }
{}

/// Neighbours never get overlapping registers, and each register is of its node's class.
pub fn selection_keeps_neighbours_apart()
    ensures { NeighboursApart }
{}

/// A node marked tested always finds a register.
pub fn tested_nodes_find_registers()
    ensures { TestedFind }
{}

/// Each node that is left is removed once: having passed the test, or in hope if it is one of source variables.
pub fn removal_takes_each_node_once()
    ensures { AllRemoved }
{}

/// Temporaries alone always pass, so removal never sticks.
pub fn removal_never_sticks()
    ensures { TemporariesPass }
{}

/// A round that never sticks spills only nodes of source variables that were removed in hope; one that colours gives every node a register.
pub fn round_settles()
    ensures { RoundSettles }
{}

/// The same of a round in whose graph temporaries are paired at most.
pub fn paired_round_settles()
    ensures { PairedSettles }
{}
