// A session with the text and the keep that it works on.
ghost use Rattle.std.specs.Prelude.{◌≡◌, ◌≤◌, length};

use crate::session::Session;
use lines::store::LineStore;

// What the entry checks have made sure of: the stores are those that the session was opened with, and its current line is one of
// the text's, or 0.
#[derive(Drop)]
pub struct Desk<'s, 't, 'k, T: LineStore, K: LineStore> {
    pub session: &'s mut Session,
    pub text: &'t mut T,
    pub keep: &'k mut K,
    ghost text_fits: { session.now.capacity ≡ (T.meaning text.now).capacity },
    ghost keep_fits: { session.now.capacity ≡ (K.meaning keep.now).capacity },
    ghost within: { session.now.current ≤ length (T.meaning text.now).lines },
}
