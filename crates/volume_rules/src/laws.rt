//! Laws of the rules.
ghost use Rattle.volume_rules.specs.Laws.{DepthIsTested, LegsAreTested, MovingIsTested};

/// How the rules on legs, depth and moving volumes are tested.
pub fn rules_are_tested()
    ensures legs { LegsAreTested }
    ensures depth { DepthIsTested }
    ensures moving { MovingIsTested }
{}
