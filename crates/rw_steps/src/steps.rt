// The counter of steps. Only proofs can read it, so bounds on it are clauses and no test sees it.
ghost use Rattle.std.specs.Prelude.{◌≡◌, ◌+◌, ◌<◌};

use std::marker::Model;
use std::sync::ledger::{Blank, Book, Ledger, Share};

/// How many steps were taken. Contracts see the number; at run time there is nothing.
///
/// A call that counts takes `steps: &mut Steps<L>` as its last parameter. A caller that counts
/// nothing calls a function of its own over `L: Ledger` with `Brand` for `L` and `Blank::new(1)`,
/// and that function makes the counter by [`Steps::new`].
#[derive(Drop)]
pub struct Steps<L: Ledger> {
    book: Book<L>,
    share: Share<L>,
}

impl<L: Ledger> Model for Steps<L> {
    ghost use Rattle.std.specs.Prelude.{ℕ, ◌<◌};

    ghost Value = { ℕ };

    ghost view = { λ s. s.book.total };

    ghost invariant = { λ s. 0 < s.share.parts };
}

impl<L: Ledger> Steps<L> {
    /// A counter that has counted nothing. The blank ledger becomes the one that `L` names.
    pub fn new(blank: Blank) -> Steps<L>
        requires name { blank.name ≡ L.name }
        requires parts { blank.parts ≡ L.parts }
        requires some { 0 < L.parts }
        ensures { result ≡ 0 }
    {
        let (book, share) = blank.open();
        Steps { book, share }
    }

    /// Counts one step.
    pub fn tick(&mut self)
        ensures { self.new ≡ self.old + 1 }
    {
        self.book.add(&mut self.share, 1);
    }
}

#[cfg(test)]
mod tests {
    use super::*;
    use std::marker::Brand;

    // A counted call: it gives its argument and ticks once.
    fn same<L: Ledger>(x: u32, steps: &mut Steps<L>) -> u32
        ensures value { result ≡ x }
        ensures ticks { steps.new ≡ steps.old + 1 }
    {
        steps.tick();
        x
    }

    // The callee of a caller that counts nothing.
    fn same_from<L: Ledger>(x: u32, blank: Blank) -> u32
        requires name { blank.name ≡ L.name }
        requires parts { blank.parts ≡ L.parts }
        requires some { 0 < L.parts }
        ensures { result ≡ x }
    {
        let mut steps: Steps<L> = Steps::new(blank);
        same(x, &mut steps)
    }

    #[test]
    fn is_made_from_a_blank(rt: HostRuntime) {
        assert_eq!(rt; same_from::<Brand>(7, Blank::new(1)), 7);
    }
}
