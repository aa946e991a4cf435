// A member inside brackets: the bytes from `low` to `high`.
ghost use Rattle.std.specs.Prelude.{◌≤◌};

#[derive(Clone, Copy)]
pub(super) struct Member {
    pub low: u8,
    pub high: u8,
    ghost order: { low ≤ high },
}
