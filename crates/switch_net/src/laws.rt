// What holds of all clocked logic, whatever the circuit.

ghost use Rattle.switch_net.specs.ClockedLogic.{SettlesAsLogic, LogicSettles, LogicIsDetermined, LogicHasValues, LogicValuesAgree};

/// Clocked logic settles to the values of its gates and storage nodes. Where its nets can be evaluated in an order, it settles from all
/// charges, to one assignment. It runs nothing: a caller has the laws from its contract.
pub fn clocked_logic_settles()
    ensures as_logic { SettlesAsLogic }
    ensures settles { LogicSettles }
    ensures determined { LogicIsDetermined }
    ensures has_values { LogicHasValues }
    ensures values_agree { LogicValuesAgree }
{}
