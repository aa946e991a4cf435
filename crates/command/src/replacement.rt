// What a replacement is made of, bit by bit.
ghost use Rattle.std.specs.Prelude.{◌≡◌, ◌∷◌};
ghost use Rattle.command.specs.Replacements.{plain_bit, escaped_bit, bits_of};
ghost use Rattle.command.specs.View.{bit_view, bits_behind};

#[derive(Clone, Copy, PartialEq, Eq, Debug)]
pub enum Bit {
    // The matched run.
    TheMatch,
    TheByte(u8),
    TheBreak,
}

// The first bit of a replacement, and what is left of it.
#[tactic(auto, unfolding(crate::specs::Replacements::bits_of))]
pub fn next_bit(replacement: &[u8]) -> Option<(Bit, &[u8])>
    ensures { bits_behind result ≡ bits_of replacement.now }
{
    let (byte, rest) = replacement.split_first()?;
    Some(bit_at(*byte, rest))
}

// The bit that begins with a byte. A `\` takes the byte behind it along.
#[tactic(auto, unfolding(crate::specs::Replacements::bits_of))]
fn bit_at(byte: u8, rest: &[u8]) -> (Bit, &[u8])
    ensures { bit_view result.0 ∷ bits_of result.1.now ≡ bits_of (byte ∷ rest.now) }
{
    match rest {
        [escaped, behind @ ..] if byte == b'\\' => (escaped_bit(*escaped), behind),
        _ => (plain_bit(byte), rest),
    }
}

fn plain_bit(byte: u8) -> Bit
    ensures { bit_view result ≡ plain_bit byte }
{
    match byte {
        b'&' => Bit::TheMatch,
        _ => Bit::TheByte(byte),
    }
}

fn escaped_bit(byte: u8) -> Bit
    ensures { bit_view result ≡ escaped_bit byte }
{
    match byte {
        b'\n' => Bit::TheBreak,
        _ => Bit::TheByte(byte),
    }
}
