// One shift for every kind of element: a run of `Copy` elements moves within its slice.
#![tactic(auto)]

ghost use Rattle.std.specs.Prelude.{◌≡◌};
ghost use Rattle.shift.specs.Shift.{shift_answer, shift_after};

// Why a run is not moved.
#[derive(Clone, Copy, PartialEq, Eq, Debug)]
pub enum ShiftFault {
    // The run, or the place that it would move to, passes the slice's end.
    Outside = 30,
}

// Moves the run of `n` elements at `from` to `to`. The two places may overlap. Elements of the old
// place that the new one does not cover keep their values.
// The two lemmas are there for an edit that moves the run by parts: see where they stand.
#[tactic(auto, using(crate::proofs::Parts::last_part_first, crate::proofs::Parts::first_part_first))]
pub fn shift<X: Copy>(s: &mut [X], from: usize, to: usize, n: usize) -> Result<(), ShiftFault>
    ensures value { result ≡ shift_answer s.old from to n }
    ensures after { s.new ≡ shift_after s.old from to n }
{
    let len = s.len();
    if n > len || from > len - n || to > len - n {
        return Err(ShiftFault::Outside);
    }
    s.copy_within(from..from + n, to);
    Ok(())
}
