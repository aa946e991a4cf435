// What `u` brings back, and when it is refused.
ghost use Rattle.rules.specs.Undo.{UndoRight, UndoReady, UndoRefused, QuietAltersNoText};

// `right`: the first accepted `u` behind a change brings back what was just before it. `ready`: there it is accepted.
// `refused`: where there was no change, it is refused. `quiet`: a line that is no change alters no text.
pub fn undo_brings_back()
    ensures right { UndoRight }
    ensures ready { UndoReady }
    ensures refused { UndoRefused }
    ensures quiet { QuietAltersNoText }
{}
