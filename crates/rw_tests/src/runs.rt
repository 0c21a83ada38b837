//! Runs by one rule.

use crate::commands::Example;
use crate::documents::{ADD, CLEAR, CUT_CORNER, DELETE, GROW, PARTNERS, PATH, REPLACE};

/// The runs of this file. The loop of the one that replaces edges is no match of the rule, whose vertices are monic, and
/// a new edge never takes an old name; nor does a new point take the name of one that was deleted. The corner 1 of the
/// triangle 0, 1, 2 is cut off first. Then the two edges 2 to 0 and 0 to 2 are left and the tail 2 to 3: the paths are
/// 0, 2, 3 and 2, 0, 2 is none, since its ends would be one vertex.
pub(crate) const RUNS: [Example; 9] = [
    Example {
        words: &["run"],
        document: GROW,
        status: 0,
        printed: r#"{"box":0,"lists":[],"match":null,"refused":[],"rule":"grow"}
{"end":"done","fuel":999,"lists":[0],"sizes":[0,0]}
"#,
    },
    Example {
        words: &["run", "--fuel", "0"],
        document: GROW,
        status: 4,
        printed: r#"{"end":"spent","fuel":0,"lists":[0],"sizes":[0,0]}
"#,
    },
    Example {
        words: &["run", "--seed", "7"],
        document: PATH,
        status: 0,
        printed: r#"{"end":"done","fuel":1000,"lists":[2],"sizes":[3,2]}
"#,
    },
    Example {
        words: &["run", "--fuel", "2"],
        document: ADD,
        status: 4,
        printed: r#"{"box":0,"lists":[],"match":[],"refused":[],"rule":"add"}
{"box":0,"lists":[],"match":[],"refused":[],"rule":"add"}
{"end":"spent","fuel":0,"lists":[1],"sizes":[2,0]}
"#,
    },
    Example {
        words: &["run"],
        document: CLEAR,
        status: 0,
        printed: r#"{"box":0,"lists":[[0,[[0]],[]]],"match":[0],"refused":[],"rule":"del"}
{"box":0,"lists":[[0,[[1]],[]]],"match":[1],"refused":[],"rule":"del"}
{"box":0,"lists":[],"match":null,"refused":[],"rule":"del"}
{"end":"done","fuel":997,"lists":[0],"sizes":[0,0]}
"#,
    },
    Example {
        words: &["run"],
        document: DELETE,
        status: 0,
        printed: r#"{"box":0,"lists":[],"match":null,"refused":[[[0],["dangling","src",0]],[[1],["dangling","tgt",0]]],"rule":"del"}
{"end":"done","fuel":999,"lists":[2],"sizes":[2,1]}
"#,
    },
    Example {
        words: &["run", "--fuel", "2", "--seed", "18446744073709551615"],
        document: REPLACE,
        status: 4,
        printed: r#"{"box":0,"lists":[[0,[[0,1,1]],[[0,1,2]]],[1,[[0,1,1]],[[0,1,2]]]],"match":[0,1,1],"refused":[],"rule":"replace"}
{"box":0,"lists":[[0,[[0,1,2]],[[0,1,3]]],[1,[[0,1,2]],[[0,1,3]]]],"match":[0,1,2],"refused":[],"rule":"replace"}
{"end":"spent","fuel":0,"lists":[1,2],"sizes":[2,2]}
"#,
    },
    Example {
        words: &["run"],
        document: CUT_CORNER,
        status: 0,
        printed: r#"{"box":0,"lists":[[0,[[0,1,2,0,1],[1,2,0,1,2],[1,2,3,1,3],[2,0,1,2,0]],[[0,2,3,4,3]]]],"match":[0,1,2,0,1],"refused":[],"rule":"cut"}
{"box":0,"lists":[],"match":null,"refused":[[[0,2,3,4,3],["dangling","src",2]]],"rule":"cut"}
{"end":"done","fuel":998,"lists":[1],"sizes":[3,3]}
"#,
    },
    Example {
        words: &["run"],
        document: PARTNERS,
        status: 0,
        printed: r#"{"box":0,"lists":[[0,[[0]],[]],[1,[],[[2,3],[3,2]]]],"match":[0],"refused":[],"rule":"replace"}
{"box":0,"lists":[[0,[[1]],[]],[1,[],[[4,5],[5,4]]]],"match":[1],"refused":[],"rule":"replace"}
{"box":0,"lists":[],"match":null,"refused":[],"rule":"replace"}
{"end":"done","fuel":997,"lists":[0,4],"sizes":[4]}
"#,
    },
];
