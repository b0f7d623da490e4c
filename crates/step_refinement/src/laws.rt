ghost use Rattle.step_refinement.specs.Steps.{StepEndsWell, CallEndsWell};

/// A running peer that agrees with a run of the abstract protocol takes a step, on any event, over
/// stores that may refuse each call. The run goes on, and at the end the peer agrees with it, or it is
/// down and its stores do, if what the whole schedule hashes is free of clashes. That a call comes is a
/// step of the protocol, so a step on a call begins behind it.
pub fn steps_refine_the_protocol()
    ensures event { StepEndsWell }
    ensures call { CallEndsWell }
{}
