// What holds of networks that are the same up to the numbers of their nets.

ghost use Rattle.switch_net.specs.SameNetworks.{SameIsReflexive, SameIsSymmetric, SameIsTransitive, RenamedIsSame, PermutedIsSame, ExchangedIsSame, SameAsMany, OtherGateIsNotSame};
ghost use Rattle.switch_net.specs.SameRuns.{SameSettleAlike, SameClockAlike, SameRunAlike, SameShowAlike};

/// To be the same network is an equivalence. The numbering of the nets, the order of the devices and that of a pass
/// device's ends are free; another gate makes another network. It runs nothing: a caller has the laws from its contract.
pub fn same_networks_agree()
    ensures reflexive { SameIsReflexive }
    ensures symmetric { SameIsSymmetric }
    ensures transitive { SameIsTransitive }
    ensures renamed { RenamedIsSame }
    ensures permuted { PermutedIsSame }
    ensures exchanged { ExchangedIsSame }
    ensures as_many { SameAsMany }
    ensures other_gate { OtherGateIsNotSame }
{}

/// Same networks do the same, whatever the numbers of their nets and however many nets nothing touches: from charges that
/// agree under the renaming they settle, take a clock and run alike, by values and by ternary levels. So they show the
/// same at their outputs. It runs nothing: a caller has the laws from its contract.
pub fn same_networks_run_alike()
    ensures settle { SameSettleAlike }
    ensures clock { SameClockAlike }
    ensures run { SameRunAlike }
    ensures show { SameShowAlike }
{}
