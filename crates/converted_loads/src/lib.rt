// That a converted sheet loads what the sheet itself loads (02 f), by the frame's own definitions: a theorem, and no code.
#![tactic(auto)]

ghost use Rattle.converted_loads.specs.ConvertedLoads.{ConvertedLoads};

// Every entry number of either side gets the same number from a load, and puts the same filter into a head.
pub fn converted_loads()
    ensures { ConvertedLoads }
{}
