// Reading what stands between delimiters.
ghost use Rattle.std.specs.Prelude.{◌≡◌};
ghost use Rattle.command.specs.View.{sought_view};
ghost use Rattle.reading.specs.Parts.{part_at, pattern_at, is_delimiter, sought_at};
ghost use Rattle.reading.specs.Views.{part_seen};

use super::Reader;
use command::fault::Fault;
use command::said::Sought;
use patterns::Pattern;

impl<'a> Reader<'a> {
    // The part up to the delimiter, which is passed too. A `\` takes the byte behind it along.
    #[tactic(auto, using(crate::proofs::Cut::cut_ends, crate::proofs::Cut::cut_on, crate::proofs::Cut::cut_never, std::proofs::lemmas::List::take_rest))]
    pub(super) fn part(&mut self, delimiter: u8) -> Result<&'a [u8], Fault>
        ensures { part_seen (λ x. x.now) result self.new.rest.now ≡ part_at delimiter self.old.rest.now }
    {
        let bytes = self.rest;
        let mut taken = false;
        for (at, byte) in bytes.iter().enumerate() {
            if *byte == delimiter && !taken {
                self.rest = &bytes[at + 1..];
                return Ok(&bytes[..at]);
            }
            taken = *byte == b'\\' && !taken;
        }
        Err(Fault::BadPattern)
    }

    // A part that is a pattern.
    #[tactic(auto, unfolding(crate::specs::Parts::pattern_at, crate::specs::Parts::is_pattern))]
    pub(super) fn pattern(&mut self, delimiter: u8) -> Result<&'a [u8], Fault>
        ensures { part_seen (λ x. x.now) result self.new.rest.now ≡ pattern_at delimiter self.old.rest.now }
    {
        let part = self.part(delimiter)?;
        if Pattern::read(delimiter, part).is_err() {
            return Err(Fault::BadPattern);
        }
        Ok(part)
    }

    // A delimiter, and the pattern between it and the next.
    #[tactic(auto, unfolding(crate::specs::Parts::sought_at))]
    pub(super) fn sought(&mut self) -> Result<Sought<'a>, Fault>
        ensures { part_seen sought_view result self.new.rest.now ≡ sought_at self.old.rest.now }
    {
        let [delimiter, behind @ ..] = self.rest else {
            return Err(Fault::BadPattern);
        };
        if !is_delimiter(*delimiter) {
            return Err(Fault::BadPattern);
        }
        self.rest = behind;
        let part = self.pattern(*delimiter)?;
        Ok(Sought {
            delimiter: *delimiter,
            part,
        })
    }
}

// Any byte delimits but a space, a `\` and a line break.
fn is_delimiter(byte: u8) -> bool
    ensures { result ≡ is_delimiter byte }
{
    !matches!(byte, b' ' | b'\\' | b'\n')
}
