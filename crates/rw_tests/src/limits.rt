//! Pushouts of spans and pullbacks of cospans, as commands.

use crate::commands::Example;
use crate::documents::PATH;

/// Graphs, and the span of two edges that have a vertex in common.
const TWO_EDGES: &str =
    r#"{"format":1,"schema":{"objects":["V","E"],"arrows":[["src","E","V"],["tgt","E","V"]]},
"span":{"apex":{"parts":[1,0],"rows":[[],[]]},"left":{"parts":[2,1],"rows":[[0],[1]]},"right":{"parts":[2,1],"rows":[[0],[1]]},
"to_left":[[1],[]],"to_right":[[0],[]]}}"#;

/// One vertex with a number on either side, and a blank one below.
const TWO_NUMBERS: &str =
    r#"{"format":1,"schema":{"objects":["V"],"arrows":[],"attributes":[["w","V","int"]]},
"span":{"apex":{"parts":[1],"rows":[],"cells":[[null]]},"left":{"parts":[1],"rows":[],"cells":[[1]]},"right":{"parts":[1],"rows":[],"cells":[[2]]},
"to_left":[[0]],"to_right":[[0]]}}"#;

/// Symmetric graphs with a number on each edge, and two of them over one whose edges are their own inverses.
const TWO_SYMMETRIC: &str = r#"{"format":1,"schema":{"objects":["V","E"],
"arrows":[["src","E","V"],["tgt","E","V"],["inv","E","E"]],"attributes":[["w","E","int"]],
"equations":[["E",["inv","inv"],[]],["E",["inv","src"],["tgt"]]]},
"cospan":{"left":{"parts":[2,2],"rows":[[0,1],[1,0],[1,0]],"cells":[[7,null]]},
"right":{"parts":[1,2],"rows":[[0,0],[0,0],[1,0]],"cells":[[null,7]]},
"base":{"parts":[1,1],"rows":[[0],[0],[0]],"cells":[[7]]},
"left_map":[[0,0],[0,0]],"right_map":[[0],[0,0]]}}"#;

/// Pushouts and pullbacks. Of the symmetric graphs a pair of edges has a number where both have it. A document without
/// the section that a command asks for is refused.
pub(crate) const LIMITS: [Example; 5] = [
    Example {
        words: &["pushout"],
        document: TWO_EDGES,
        status: 0,
        printed: r#"{"cells":[],"left":[[0,1],[0]],"right":[[1,2],[1]],"rows":[[0,1],[1,2]],"sizes":[3,2]}
"#,
    },
    Example {
        words: &["pushout"],
        document: TWO_NUMBERS,
        status: 0,
        printed: r#"{"clash":["V",0,"w",1,2]}
"#,
    },
    Example {
        words: &["pullback"],
        document: TWO_SYMMETRIC,
        status: 0,
        printed: r#"{"cells":[[null,7,null,null]],"left":[[0,1],[0,0,1,1]],"right":[[0,0],[0,1,0,1]],"rows":[[0,0,1,1],[1,1,0,0],[3,2,1,0]],"sizes":[2,4]}
"#,
    },
    Example {
        words: &["pushout"],
        document: PATH,
        status: 3,
        printed: r#"{"at":[0,0,0],"fault":2,"section":"span"}
"#,
    },
    Example {
        words: &["pullback"],
        document: TWO_EDGES,
        status: 3,
        printed: r#"{"at":[0,0,0],"fault":2,"section":"cospan"}
"#,
    },
];
