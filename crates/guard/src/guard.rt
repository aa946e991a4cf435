// The guard, and that it is a shelf.
ghost use Rattle.std.specs.Prelude.{◌≡◌};
ghost use Rattle.shelf.specs.Text.{text_of};
ghost use Rattle.guard.specs.Guarded.{guarded};
ghost use Rattle.guard.specs.Making.{Made};

use crate::fault::{GuardFault, GuardRefused};
use shelf::fault::ShelfFault;
use shelf::interface::Shelf;
use shelf::label::Label;
use shelf::name::{begins_with, is_name};

#[derive(Drop)]
pub struct Guard<S> {
    below: S,
    prefix: Label,
}

impl<S> Guard<S> {
    // A guard over `below`, which a refusal hands back.
    pub fn new(below: S, prefix: &[u8]) -> Result<Guard<S>, GuardRefused<S>>
        ensures { Made below prefix.now result }
    {
        // Both arms move `below`, so this is no `map` and `ok_or`.
        match Label::new(prefix) {
            Some(prefix) => Ok(Guard { below, prefix }),
            None => Err(GuardRefused {
                below,
                fault: GuardFault::BadPrefix,
            }),
        }
    }

    pub fn below(&self) -> &S
        ensures { result.now ≡ self.now.below }
    {
        &self.below
    }

    pub fn into_below(self) -> S
        ensures { result ≡ self.below }
    {
        let Guard { below, prefix: _ } = self;
        below
    }
}

impl<S: Shelf> Shelf for Guard<S> {
    ghost meaning = { λ g. guarded (S.Shelf.meaning g.below) (text_of g.prefix) };

    // the law speaks of files and capacity, which are those of the shelf below
    ghost sound = { λ x.
        let s = S.Shelf.sound x.below in
        record { few = s.few; bounded = s.bounded; within = s.within; named = s.named; apart = s.apart } };

    fn lookup(&self, name: &[u8]) -> Option<usize> {
        self.below.lookup(name)
    }

    fn size(&self, file: usize) -> Result<usize, ShelfFault> {
        self.below.size(file)
    }

    fn begins(&self, file: usize, prefix: &[u8]) -> Result<bool, ShelfFault> {
        self.below.begins(file, prefix)
    }

    fn copy(&self, file: usize, from: usize, buffer: &mut [u8]) -> Result<usize, ShelfFault> {
        self.below.copy(file, from, buffer)
    }

    fn clear(&mut self, name: &[u8], size: usize) -> Result<usize, ShelfFault> {
        if !is_name(name) {
            return Err(ShelfFault::BadName);
        }
        if begins_with(name, self.prefix.text()) {
            return Err(ShelfFault::Protected);
        }
        self.below.clear(name, size)
    }

    fn add(&mut self, file: usize, bytes: &[u8]) -> Result<(), ShelfFault> {
        if self.below.begins(file, self.prefix.text())? {
            return Err(ShelfFault::Protected);
        }
        self.below.add(file, bytes)
    }
}
