ghost use Rattle.dtp_gen.specs.Plans.{MachineLaw};

/// What is said to run on a machine does: of each job one operation.
pub fn machine_law()
    ensures { MachineLaw }
{}
