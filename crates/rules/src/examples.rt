// Worked examples, held to the definitions.
ghost use Rattle.rules.specs.Examples.{Examples};

// Every example comes out as it is stated.
pub fn examples_hold()
    ensures { Examples }
{}
