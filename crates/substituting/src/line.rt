// Lines that are spelled out.
ghost use Rattle.std.specs.Prelude.{◌≡◌, []};
ghost use Rattle.substituting.specs.Spelling.{line_of, lengthened};

use arrayvec::ArrayVec;
use lines::line::LINE_MAX;

// A line that is spelled out: none if it is longer than a line may be. Its bytes lie in it, so one is lent and filled anew for each
// line in turn, and none is handed on.
pub type Spelled = Option<ArrayVec<u8, LINE_MAX>>;

// Empties a line, for the next one to be spelled out in its place. Room for bytes is made only where there is none.
pub fn empty(line: &mut Spelled)
    ensures { line.new ≡ line_of [] }
{
    match line {
        Some(bytes) => bytes.clear(),
        None => *line = Some(ArrayVec::new()),
    }
}

// Adds bytes to a line that is being spelled out.
pub fn add(line: &mut Spelled, run: &[u8])
    ensures { line.new ≡ lengthened line.old run.now }
{
    if let Some(bytes) = line {
        if bytes.try_extend_from_slice(run).is_err() {
            *line = None;
        }
    }
}
