// What holds of each drill, told by a call that does nothing.
ghost use Rattle.scenario_drill.specs.Laws.{DrillsRead};

/// The text of each drill is a scenario.
pub fn law_drills_read()
    ensures { DrillsRead }
{}
