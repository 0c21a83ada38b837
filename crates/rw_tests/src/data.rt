//! Matches, sizes, attributes, equations and monic objects.

use crate::commands::Example;
use crate::documents::{
    CUT, DELETE, EDGE_LOOP_MONIC, GROW, LOOP, NAMED, PATH, PATH_OF_ONE, SAME, SYMMETRIC,
    SYMMETRIC_CUT, TWISTED, UNIT,
};

/// Lists of matches, and what `check` says.
pub(crate) const LISTS: [Example; 15] = [
    Example {
        words: &["matches", "edge"],
        document: PATH,
        status: 0,
        printed: r#"{"matches":[[0,1,0],[1,2,1]],"name":"edge"}
"#,
    },
    Example {
        words: &["matches", "unit"],
        document: UNIT,
        status: 0,
        printed: r#"{"matches":[[]],"name":"unit"}
"#,
    },
    Example {
        words: &["matches", "edge"],
        document: LOOP,
        status: 0,
        printed: r#"{"matches":[[0,0,0]],"name":"edge"}
"#,
    },
    Example {
        words: &["matches", "edge"],
        document: EDGE_LOOP_MONIC,
        status: 0,
        printed: r#"{"matches":[],"name":"edge"}
"#,
    },
    Example {
        words: &["matches", "same"],
        document: SAME,
        status: 0,
        printed: r#"{"matches":[[0,0],[0,2],[1,1],[2,0],[2,2]],"name":"same"}
"#,
    },
    Example {
        words: &["matches", "eight"],
        document: SAME,
        status: 0,
        printed: r#"{"matches":[[1]],"name":"eight"}
"#,
    },
    Example {
        words: &["matches", "del"],
        document: DELETE,
        status: 0,
        printed: r#"{"matches":[[0],[1]],"name":"del"}
"#,
    },
    Example {
        words: &["matches", "größe"],
        document: NAMED,
        status: 0,
        printed: r#"{"matches":[[0]],"name":"größe"}
"#,
    },
    Example {
        words: &["matches", "nobody"],
        document: PATH,
        status: 3,
        printed: r#"{"at":[0,0,0],"fault":6,"section":"whole"}
"#,
    },
    Example {
        words: &["check"],
        document: PATH_OF_ONE,
        status: 0,
        printed: r#"{"lists":[2,1],"sizes":[2,1]}
"#,
    },
    Example {
        words: &["check"],
        document: SAME,
        status: 0,
        printed: r#"{"lists":[5,1],"sizes":[3]}
"#,
    },
    Example {
        words: &["check"],
        document: SYMMETRIC,
        status: 0,
        printed: r#"{"lists":[],"sizes":[2,2]}
"#,
    },
    Example {
        words: &["check"],
        document: TWISTED,
        status: 3,
        printed: r#"{"at":[1,0,0],"fault":10,"section":"equation"}
"#,
    },
    Example {
        words: &["check"],
        document: CUT,
        status: 3,
        printed: r#"{"at":[0,0,0],"fault":1,"section":"whole"}
"#,
    },
    Example {
        words: &["run"],
        document: SYMMETRIC_CUT,
        status: 0,
        printed: r#"{"box":0,"lists":[[0,[[0,1,0,1],[1,0,1,0]],[]]],"match":[0,1,0,1],"refused":[],"rule":"cut"}
{"box":0,"lists":[],"match":null,"refused":[],"rule":"cut"}
{"end":"done","fuel":998,"lists":[0],"sizes":[2,0]}
"#,
    },
];

const USAGE: &str =
    "usage: rewrite matches NAME | run [--fuel N] [--seed N] | check | pushout | pullback | sample N\n";

/// Words that ask for nothing get the usage line.
pub(crate) const OTHER_WORDS: [Example; 10] = [
    Example {
        words: &[],
        document: PATH,
        status: 2,
        printed: USAGE,
    },
    Example {
        words: &["match", "edge"],
        document: PATH,
        status: 2,
        printed: USAGE,
    },
    Example {
        words: &["check", "edge"],
        document: PATH,
        status: 2,
        printed: USAGE,
    },
    Example {
        words: &["matches", "edge", "edge"],
        document: PATH,
        status: 2,
        printed: USAGE,
    },
    Example {
        words: &["run", "--fuel", "01"],
        document: GROW,
        status: 2,
        printed: USAGE,
    },
    Example {
        words: &["run", "--fuel", "+1"],
        document: GROW,
        status: 2,
        printed: USAGE,
    },
    Example {
        words: &["run", "--fuel", "1000001"],
        document: GROW,
        status: 2,
        printed: USAGE,
    },
    Example {
        words: &["run", "--fuel"],
        document: GROW,
        status: 2,
        printed: USAGE,
    },
    Example {
        words: &["run", "--seed", "1", "--fuel", "2"],
        document: GROW,
        status: 2,
        printed: USAGE,
    },
    Example {
        words: &["run", "--seed", "18446744073709551616"],
        document: GROW,
        status: 2,
        printed: USAGE,
    },
];
