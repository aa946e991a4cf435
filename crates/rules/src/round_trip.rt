// Lines that `w` writes come back when `e` reads them.
ghost use Rattle.rules.specs.RoundTrip.{LinesComeBack, FilesComeBack, RoundTrip};

// The laws hold of every text, shelf and session.
pub fn written_lines_come_back()
    ensures lines { LinesComeBack }
    ensures files { FilesComeBack }
    ensures trip { RoundTrip }
{}
