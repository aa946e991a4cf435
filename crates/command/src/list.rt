// The list of a global, cut into commands.
ghost use Rattle.std.specs.Prelude.{◌≡◌, ◌+◌, ◌≤◌, [], ◌∷◌, length, take, drop, MatchOption};
ghost use Rattle.command.specs.Lists.{commands_in, or_print};
ghost use Rattle.command.specs.View.{commands_behind};

// The length of a cut: a `\` and a line break.
const CUT: usize = 2;

// The list itself, or `p` where it has no byte.
pub fn or_print(list: &[u8]) -> &[u8]
    ensures { result.now ≡ or_print list.now }
{
    match list {
        [] => b"p",
        _ => list,
    }
}

// The first command of a list, and what is left where a cut stands behind it.
pub fn first_command(list: &[u8]) -> (&[u8], Option<&[u8]>)
    ensures { result.0.now ∷ commands_behind result.1 ≡ commands_in list.now }
{
    let Some(at) = first_cut(list) else {
        return (list, None);
    };
    let (command, behind) = list.split_at(at);
    let (_cut, rest) = behind.split_at(CUT);
    (command, Some(rest))
}

// Where the first cut stands.
fn first_cut(list: &[u8]) -> Option<usize>
    ensures { MatchOption result (commands_in list.now ≡ list.now ∷ []) (λ at. (at + 2 ≤ length list.now) × (commands_in list.now ≡ take at list.now ∷ commands_in (drop 2 (drop at list.now)))) }
{
    list.windows(CUT)
        .position(|pair| matches!(pair, [b'\\', b'\n']))
}
