// A refused line leaves everything as it was.
ghost use Rattle.rules.specs.Refusals.{RefusalsAlterNothing};

// The law holds of every world and every line.
pub fn refusals_alter_nothing()
    ensures { RefusalsAlterNothing }
{}
