//! A new ledger that has its name.
ghost use Rattle.std.specs.Prelude.{◌≡◌, ◌<◌};

use std::marker::PhantomData;
use std::sync::ledger;
use std::sync::ledger::{Book, Ledger, Share};

/// A blank that L names, with one part at least: one for each caller of a world.
#[derive(Drop)]
pub struct Blank<L: Ledger> {
    blank: ledger::Blank,
    of: PhantomData<L>,
    ghost name_is: { blank.name ≡ L.name },
    ghost parts_are: { blank.parts ≡ L.parts },
    ghost some: { 0 < blank.parts },
}

impl<L: Ledger> Blank<L> {
    /// The blank under the name of L.
    pub fn new(blank: ledger::Blank) -> Blank<L>
        requires name { blank.name ≡ L.name }
        requires parts { blank.parts ≡ L.parts }
        requires some { 0 < blank.parts }
        ensures { result.blank ≡ blank }
    {
        Blank {
            blank,
            of: PhantomData,
        }
    }

    /// The ledger's book, and one share with all its parts.
    pub(crate) fn open(self) -> (Book<L>, Share<L>)
        ensures total { result.0.total ≡ 0 }
        ensures parts { result.1.parts ≡ self.blank.parts }
        ensures all { result.1.parts ≡ L.parts }
        ensures amount { result.1.amount ≡ 0 }
    {
        let Blank { blank, of: _ } = self;
        blank.open::<L>()
    }
}
