// The three promises, each asked for by a contract, and all of them by one.
ghost use Rattle.theory.specs.Soundness.{Soundness};
ghost use Rattle.theory.specs.Completeness.{Completeness};
ghost use Rattle.theory.specs.Hiding.{Hiding};
ghost use Rattle.theory.specs.Worked.{Worked, Witness};

pub fn soundness_stands()
    ensures { Soundness }
{}

pub fn completeness_stands()
    ensures { Completeness }
{}

pub fn hiding_stands()
    ensures { Hiding }
{}

pub fn promises_stand()
    ensures sound { Soundness }
    ensures complete { Completeness }
    ensures hides { Hiding }
{}

// The worked example, and that the promises' premises can be met.
pub fn worked_stands()
    ensures example { Worked }
    ensures met { Witness }
{}
