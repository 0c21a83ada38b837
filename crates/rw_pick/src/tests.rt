//! Words of seeds, against those that the published algorithm of the generator gives.

use super::*;
use std::test::Fail;

#[test]
fn seeds_have_their_words(rt: HostRuntime) -> Result<(), Fail> {
    let cases: [(u64, [u64; 8]); 3] = [
        (0, [5, 3, 1, 8, 8, 9, 5, 5]),
        (1, [9, 9, 2, 1, 6, 8, 7, 5]),
        (7, [5, 3, 0, 1, 8, 1, 7, 0]),
    ];
    for (seed, digits) in cases {
        let mut words = Words::from_seed(seed);
        for digit in digits {
            assert_eq!(rt; words.below(10), digit, "seed {seed}");
        }
    }
    Ok(())
}
