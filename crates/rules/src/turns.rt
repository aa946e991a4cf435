// That a global deals its turns out fairly: each chosen line once, in the order of the text, and no other line.
ghost use Rattle.rules.specs.Dealing.{GlobalLinesDealt, GlobalsDealt};
ghost use Rattle.rules.specs.Turns.{GlobalLinesFair, GlobalsFair};

// `fair` is of any choice of lines and any list of commands, `lines` of the command line that asks for a global.
pub fn turns_are_fair()
    ensures fair { GlobalsFair }
    ensures lines { GlobalLinesFair }
{}

// The same, with the history of turns held to what the global does.
pub fn turns_are_dealt()
    ensures dealt { GlobalsDealt }
    ensures lines { GlobalLinesDealt }
{}
