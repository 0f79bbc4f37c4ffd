//! Laws over the definitions alone.

ghost use Rattle.cache_law.specs.UnitForms.{EachStepKeeps, EachStepMakesForms};

/// What steps make of forms: loads are owed them, stores put bytes in. A miss takes the newest
/// queued lanes and asks for others; arrivals fill them in. An eviction drops a block's.
pub fn each_step_makes_forms()
    ensures { EachStepMakesForms }
{}

/// A step leaves a sound unit sound.
pub fn each_step_keeps()
    ensures { EachStepKeeps }
{}
