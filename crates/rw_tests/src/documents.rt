//! The documents of the tests.

/// A path of two edges, and the pattern of an edge.
pub const PATH: &str =
    r#"{"format":1,"schema":{"objects":["V","E"],"arrows":[["src","E","V"],["tgt","E","V"]]},
"instance":{"parts":[3,2],"rows":[[0,1],[1,2]]},
"watches":[{"name":"edge","pattern":{"parts":[2,1],"rows":[[0],[1]]}}]}"#;

/// The pattern without a part, and no instance.
pub const UNIT: &str =
    r#"{"format":1,"schema":{"objects":["V","E"],"arrows":[["src","E","V"],["tgt","E","V"]]},
"watches":[{"name":"unit","pattern":{"parts":[0,0],"rows":[[],[]]}}]}"#;

/// One vertex with a loop, and the pattern of an edge.
pub const LOOP: &str =
    r#"{"format":1,"schema":{"objects":["V","E"],"arrows":[["src","E","V"],["tgt","E","V"]]},
"instance":{"parts":[1,1],"rows":[[0],[0]]},
"watches":[{"name":"edge","pattern":{"parts":[2,1],"rows":[[0],[1]]}}]}"#;

/// A document that is cut short.
pub const CUT: &str = r#"{"format":1"#;

/// A rule that puts a loop at a vertex, and no instance.
pub const GROW: &str =
    r#"{"format":1,"schema":{"objects":["V","E"],"arrows":[["src","E","V"],["tgt","E","V"]]},
"rules":[{"name":"grow","kind":"dpo",
"left":{"parts":[1,0],"rows":[[],[]]},"keep":{"parts":[1,0],"rows":[[],[]]},"right":{"parts":[1,1],"rows":[[0],[0]]},
"l":[[0],[]],"r":[[0],[]]}]}"#;

/// A rule that makes a vertex from nothing, and no instance.
pub const ADD: &str =
    r#"{"format":1,"schema":{"objects":["V","E"],"arrows":[["src","E","V"],["tgt","E","V"]]},
"rules":[{"name":"add","kind":"dpo",
"left":{"parts":[0,0],"rows":[[],[]]},"keep":{"parts":[0,0],"rows":[[],[]]},"right":{"parts":[1,0],"rows":[[],[]]},
"l":[[],[]],"r":[[],[]]}]}"#;

/// A rule that deletes a vertex, and two vertices with an edge.
pub const DELETE: &str =
    r#"{"format":1,"schema":{"objects":["V","E"],"arrows":[["src","E","V"],["tgt","E","V"]]},
"instance":{"parts":[2,1],"rows":[[0],[1]]},
"rules":[{"name":"del","kind":"dpo",
"left":{"parts":[1,0],"rows":[[],[]]},"keep":{"parts":[0,0],"rows":[[],[]]},"right":{"parts":[0,0],"rows":[[],[]]},
"l":[[],[]],"r":[[],[]]}]}"#;

/// The same rule, and two vertices without an edge.
pub const CLEAR: &str =
    r#"{"format":1,"schema":{"objects":["V","E"],"arrows":[["src","E","V"],["tgt","E","V"]]},
"instance":{"parts":[2,0],"rows":[[],[]]},
"rules":[{"name":"del","kind":"dpo",
"left":{"parts":[1,0],"rows":[[],[]]},"keep":{"parts":[0,0],"rows":[[],[]]},"right":{"parts":[0,0],"rows":[[],[]]},
"l":[[],[]],"r":[[],[]]}]}"#;

/// A rule that replaces an edge by one between the same vertices, a loop and an edge, and the pattern of an edge.
pub const REPLACE: &str =
    r#"{"format":1,"schema":{"objects":["V","E"],"arrows":[["src","E","V"],["tgt","E","V"]]},
"instance":{"parts":[2,2],"rows":[[0,0],[0,1]]},
"rules":[{"name":"replace","kind":"dpo","monic":["V"],
"left":{"parts":[2,1],"rows":[[0],[1]]},"keep":{"parts":[2,0],"rows":[[],[]]},"right":{"parts":[2,1],"rows":[[0],[1]]},
"l":[[0,1],[]],"r":[[0,1],[]]}],
"watches":[{"name":"edge","pattern":{"parts":[2,1],"rows":[[0],[1]]}}]}"#;

/// A rule that deletes a vertex and makes an edge between two others: a triangle's corner is cut off only where no other
/// edge hangs on it. The instance is a triangle with a tail.
pub const CUT_CORNER: &str =
    r#"{"format":1,"schema":{"objects":["V","E"],"arrows":[["src","E","V"],["tgt","E","V"]]},
"instance":{"parts":[4,4],"rows":[[0,1,2,2],[1,2,0,3]]},
"rules":[{"name":"cut","kind":"dpo","monic":["V","E"],
"left":{"parts":[3,2],"rows":[[0,1],[1,2]]},"keep":{"parts":[2,0],"rows":[[],[]]},"right":{"parts":[2,1],"rows":[[0],[1]]},
"l":[[0,2],[]],"r":[[0,1],[]]}]}"#;

/// One vertex with a loop, and the pattern of an edge between two vertices.
pub const EDGE_LOOP_MONIC: &str =
    r#"{"format":1,"schema":{"objects":["V","E"],"arrows":[["src","E","V"],["tgt","E","V"]]},
"instance":{"parts":[1,1],"rows":[[0],[0]]},
"watches":[{"name":"edge","pattern":{"parts":[2,1],"rows":[[0],[1]]},"monic":["V"]}]}"#;

/// Vertices with numbers; the pattern of two vertices with one number, and that of a vertex with the number 8.
pub const SAME: &str =
    r#"{"format":1,"schema":{"objects":["V"],"arrows":[],"attributes":[["w","V","int"]]},
"instance":{"parts":[3],"rows":[],"cells":[[7,8,7]]},
"watches":[{"name":"same","pattern":{"parts":[2],"rows":[],"cells":[["w",0,{"var":"x"}],["w",1,{"var":"x"}]]}},
{"name":"eight","pattern":{"parts":[1],"rows":[],"cells":[["w",0,8]]}}]}"#;

/// A rule that deletes a vertex, two vertices with an edge, and the pattern of an edge.
pub const PATH_OF_ONE: &str =
    r#"{"format":1,"schema":{"objects":["V","E"],"arrows":[["src","E","V"],["tgt","E","V"]]},
"instance":{"parts":[2,1],"rows":[[0],[1]]},
"rules":[{"name":"del","kind":"dpo",
"left":{"parts":[1,0],"rows":[[],[]]},"keep":{"parts":[0,0],"rows":[[],[]]},"right":{"parts":[0,0],"rows":[[],[]]},
"l":[[],[]],"r":[[],[]]}],
"watches":[{"name":"edge","pattern":{"parts":[2,1],"rows":[[0],[1]]}}]}"#;

/// A symmetric graph: each edge has an inverse, and its source is the target of its inverse.
pub const SYMMETRIC: &str =
    r#"{"format":1,"schema":{"objects":["V","E"],"arrows":[["src","E","V"],["tgt","E","V"],["inv","E","E"]],
"equations":[["E",["inv","inv"],[]],["E",["inv","src"],["tgt"]]]},
"instance":{"parts":[2,2],"rows":[[0,1],[1,0],[1,0]]}}"#;

/// Two edges that are inverses of themselves, though they are no loops.
pub const TWISTED: &str =
    r#"{"format":1,"schema":{"objects":["V","E"],"arrows":[["src","E","V"],["tgt","E","V"],["inv","E","E"]],
"equations":[["E",["inv","inv"],[]],["E",["inv","src"],["tgt"]]]},
"instance":{"parts":[2,2],"rows":[[0,1],[1,0],[0,1]]}}"#;

/// A rule that deletes an edge and its inverse.
pub const SYMMETRIC_CUT: &str =
    r#"{"format":1,"schema":{"objects":["V","E"],"arrows":[["src","E","V"],["tgt","E","V"],["inv","E","E"]],
"equations":[["E",["inv","inv"],[]],["E",["inv","src"],["tgt"]]]},
"instance":{"parts":[2,2],"rows":[[0,1],[1,0],[1,0]]},
"rules":[{"name":"cut","kind":"dpo","monic":["V","E"],
"left":{"parts":[2,2],"rows":[[0,1],[1,0],[1,0]]},"keep":{"parts":[2,0],"rows":[[],[],[]]},"right":{"parts":[2,0],"rows":[[],[],[]]},
"l":[[0,1],[]],"r":[[0,1],[]]}]}"#;

/// Two points that are their own partners, a rule that replaces such a point by two that are each other's, and the
/// pattern of two partners.
pub const PARTNERS: &str =
    r#"{"format":1,"schema":{"objects":["V"],"arrows":[["partner","V","V"]],"equations":[["V",["partner","partner"],[]]]},
"instance":{"parts":[2],"rows":[[0,1]]},
"rules":[{"name":"replace","kind":"dpo","monic":["V"],
"left":{"parts":[1],"rows":[[0]]},"keep":{"parts":[0],"rows":[[]]},"right":{"parts":[2],"rows":[[1,0]]},
"l":[[]],"r":[[]]}],
"watches":[{"name":"pair","monic":["V"],"pattern":{"parts":[2],"rows":[[1,0]]}}]}"#;

/// A vertex, and its pattern under a name of other letters.
pub const NAMED: &str =
    r#"{"format":1,"schema":{"objects":["Größe"],"arrows":[]},"instance":{"parts":[1],"rows":[]},
"watches":[{"name":"größe","pattern":{"parts":[1],"rows":[]}}]}"#;
