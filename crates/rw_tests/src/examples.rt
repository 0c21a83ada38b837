//! The documents of the folder `examples`, with their commands and what they print. `examples/check` looks whether the
//! texts are those of the files.

use crate::commands::Example;

/// A path of two edges, and the pattern of an edge.
const PATH: Example = Example {
    words: &["matches", "edge"],
    document: r#"{
  "format": 1,
  "schema": {
    "objects": ["V", "E"],
    "arrows": [["src", "E", "V"], ["tgt", "E", "V"]]
  },
  "instance": {
    "parts": [3, 2],
    "rows": [[0, 1], [1, 2]]
  },
  "watches": [
    {"name": "edge", "pattern": {"parts": [2, 1], "rows": [[0], [1]]}}
  ]
}
"#,
    status: 0,
    printed: r#"{"matches":[[0,1,0],[1,2,1]],"name":"edge"}
"#,
};

/// A triangle with a tail, and the pattern of a directed triangle.
const TRIANGLE: Example = Example {
    words: &["matches", "triangle"],
    document: r#"{
  "format": 1,
  "schema": {
    "objects": ["V", "E"],
    "arrows": [["src", "E", "V"], ["tgt", "E", "V"]]
  },
  "instance": {
    "parts": [4, 4],
    "rows": [[0, 1, 2, 2], [1, 2, 0, 3]]
  },
  "watches": [
    {"name": "triangle", "pattern": {"parts": [3, 3], "rows": [[0, 1, 2], [1, 2, 0]]}}
  ]
}
"#,
    status: 0,
    printed: r#"{"matches":[[0,1,2,0,1,2],[1,2,0,1,2,0],[2,0,1,2,0,1]],"name":"triangle"}
"#,
};

/// A Petri net of an infection and a recovery, and the pattern of a place that a transition takes from and gives to.
const PETRI: Example = Example {
    words: &["matches", "catalyst"],
    document: r#"{
  "format": 1,
  "schema": {
    "objects": ["Place", "Transition", "Input", "Output"],
    "arrows": [
      ["from", "Input", "Place"],
      ["into", "Input", "Transition"],
      ["to", "Output", "Place"],
      ["out", "Output", "Transition"]
    ]
  },
  "instance": {
    "parts": [3, 2, 3, 3],
    "rows": [[0, 1, 1], [0, 0, 1], [1, 1, 2], [0, 0, 1]]
  },
  "watches": [
    {"name": "catalyst", "pattern": {"parts": [1, 1, 1, 1], "rows": [[0], [0], [0], [0]]}}
  ]
}
"#,
    status: 0,
    printed: r#"{"matches":[[1,0,1,0],[1,0,1,1]],"name":"catalyst"}
"#,
};

/// Persons in rooms, and the patterns of two colleagues in one room and of a person in a closed one.
const MEETINGS: Example = Example {
    words: &["matches", "colleagues"],
    document: r#"{"format": 1,
 "schema": {"objects": ["Person", "Room"], "arrows": [["in", "Person", "Room"]],
  "attributes": [["team", "Person", "text"], ["open", "Room", "bool"], ["age", "Person", "int"]]},
 "instance": {"parts": [4, 2], "rows": [[0, 0, 1, 1]],
  "cells": [["red", "red", "blue", "red"], [true, false], [31, 44, 31, 27]]},
 "watches": [
  {"name": "colleagues", "monic": ["Person"],
   "pattern": {"parts": [2, 1], "rows": [[0, 0]], "cells": [["team", 0, {"var": "t"}], ["team", 1, {"var": "t"}]]}},
  {"name": "shut in",
   "pattern": {"parts": [1, 1], "rows": [[0]], "cells": [["open", 0, false]]}}]}
"#,
    status: 0,
    printed: r#"{"matches":[[0,1,0],[1,0,0]],"name":"colleagues"}
"#,
};

/// The half-edges of a tetrahedron.
const TETRAHEDRON: Example = Example {
    words: &["check"],
    document: r#"{"format": 1,
 "schema": {
  "objects": ["H", "V", "F"],
  "arrows": [["next", "H", "H"], ["twin", "H", "H"], ["from", "H", "V"], ["face", "H", "F"]],
  "equations": [["H", ["twin", "twin"], []], ["H", ["next", "next", "next"], []],
                ["H", ["next", "face"], ["face"]], ["H", ["twin", "from"], ["next", "from"]]]},
 "instance": {
  "parts": [12, 4, 4],
  "rows": [[1, 2, 0, 4, 5, 3, 7, 8, 6, 10, 11, 9], [5, 11, 6, 8, 9, 0, 2, 10, 3, 4, 7, 1],
           [0, 1, 2, 0, 3, 1, 0, 2, 3, 1, 3, 2], [0, 0, 0, 1, 1, 1, 2, 2, 2, 3, 3, 3]]}}
"#,
    status: 0,
    printed: r#"{"lists":[],"sizes":[12,4,4]}
"#,
};

/// The same with two pairs of twins that are none.
const TORN: Example = Example {
    words: &["check"],
    document: r#"{"format": 1,
 "schema": {
  "objects": ["H", "V", "F"],
  "arrows": [["next", "H", "H"], ["twin", "H", "H"], ["from", "H", "V"], ["face", "H", "F"]],
  "equations": [["H", ["twin", "twin"], []], ["H", ["next", "next", "next"], []],
                ["H", ["next", "face"], ["face"]], ["H", ["twin", "from"], ["next", "from"]]]},
 "instance": {
  "parts": [12, 4, 4],
  "rows": [[1, 2, 0, 4, 5, 3, 7, 8, 6, 10, 11, 9], [6, 11, 5, 8, 9, 2, 0, 10, 3, 4, 7, 1],
           [0, 1, 2, 0, 3, 1, 0, 2, 3, 1, 3, 2], [0, 0, 0, 1, 1, 1, 2, 2, 2, 3, 3, 3]]}}
"#,
    status: 3,
    printed: r#"{"at":[3,0,0],"fault":10,"section":"equation"}
"#,
};

/// A rule by which the susceptible are infected.
const INFECTION: Example = Example {
    words: &["run"],
    document: r#"{
  "format": 1,
  "schema": {
    "objects": ["Susceptible", "Infected"],
    "arrows": []
  },
  "instance": {"parts": [2, 1], "rows": []},
  "rules": [
    {
      "name": "infect",
      "kind": "dpo",
      "left": {"parts": [1, 1], "rows": []},
      "keep": {"parts": [0, 1], "rows": []},
      "right": {"parts": [0, 2], "rows": []},
      "l": [[], [0]],
      "r": [[], [0]]
    }
  ]
}
"#,
    status: 0,
    printed: r#"{"box":0,"lists":[[0,[[0,0]],[[1,1]]]],"match":[0,0],"refused":[],"rule":"infect"}
{"box":0,"lists":[[0,[[1,0],[1,1]],[]]],"match":[1,0],"refused":[],"rule":"infect"}
{"box":0,"lists":[],"match":null,"refused":[],"rule":"infect"}
{"end":"done","fuel":997,"lists":[0],"sizes":[0,3]}
"#,
};

/// A Petri net of two processes that wait for one lock, and the firing of a transition as a rule.
const MUTEX: Example = Example {
    words: &["run"],
    document: r#"{"format": 1,
 "schema": {
  "objects": ["Place", "Transition", "Input", "Output", "Token"],
  "arrows": [["from", "Input", "Place"], ["into", "Input", "Transition"],
             ["to", "Output", "Place"], ["out", "Output", "Transition"], ["at", "Token", "Place"]],
  "attributes": [["name", "Place", "text"]]},
 "instance": {
  "parts": [3, 2, 3, 3, 3],
  "rows": [[0, 1, 2], [0, 0, 1], [2, 0, 1], [0, 1, 1], [0, 0, 1]],
  "cells": [["waiting", "free", "inside"]]},
 "rules": [{
  "name": "enter", "kind": "dpo", "monic": ["Place", "Input", "Token"],
  "left": {"parts": [3, 1, 2, 1, 2], "rows": [[0, 1], [0, 0], [2], [0], [0, 1]],
   "cells": [["name", 0, "waiting"], ["name", 1, "free"]]},
  "keep": {"parts": [3, 1, 2, 1, 0], "rows": [[0, 1], [0, 0], [2], [0], []]},
  "right": {"parts": [3, 1, 2, 1, 1], "rows": [[0, 1], [0, 0], [2], [0], [2]]},
  "l": [[0, 1, 2], [0], [0, 1], [0], []],
  "r": [[0, 1, 2], [0], [0, 1], [0], []]}],
 "watches": [{"name": "inside",
  "pattern": {"parts": [1, 0, 0, 0, 1], "rows": [[], [], [], [], [0]], "cells": [["name", 0, "inside"]]}}]}
"#,
    status: 0,
    printed: r#"{"box":0,"lists":[[0,[[0,1,2,0,0,1,0,0,2],[0,1,2,0,0,1,0,1,2]],[]],[1,[],[[2,3]]]],"match":[0,1,2,0,0,1,0,0,2],"refused":[],"rule":"enter"}
{"box":0,"lists":[],"match":null,"refused":[],"rule":"enter"}
{"end":"done","fuel":998,"lists":[0,1],"sizes":[3,2,3,3,2]}
"#,
};

/// Accounts, and a rule that pays from one to another.
const ACCOUNTS: Example = Example {
    words: &["run", "--fuel", "2"],
    document: r#"{"format": 1,
 "schema": {"objects": ["Account"], "arrows": [],
  "attributes": [["owner", "Account", "text"], ["balance", "Account", "int"]]},
 "instance": {"parts": [3], "rows": [], "cells": [["Ann", "Bob", "Cem"], [25, 0, 100]]},
 "rules": [{"name": "pay", "kind": "dpo", "monic": ["Account"],
  "left": {"parts": [2], "rows": [],
   "cells": [["owner", 0, "Ann"], ["owner", 1, "Bob"], ["balance", 0, {"var": "from"}], ["balance", 1, {"var": "to"}]]},
  "keep": {"parts": [2], "rows": []},
  "right": {"parts": [2], "rows": [],
   "cells": [["balance", 0, {"op": "sub", "args": [{"var": "from"}, 10]}],
             ["balance", 1, {"op": "add", "args": [{"var": "to"}, 10]}]]},
  "l": [[0, 1]], "r": [[0, 1]]}],
 "watches": [{"name": "ten", "pattern": {"parts": [1], "rows": [], "cells": [["balance", 0, 10]]}}]}
"#,
    status: 4,
    printed: r#"{"box":0,"lists":[[1,[],[[1]]]],"match":[0,1],"refused":[],"rule":"pay"}
{"box":0,"lists":[[1,[[1]],[]]],"match":[0,1],"refused":[],"rule":"pay"}
{"end":"spent","fuel":0,"lists":[1,0],"sizes":[3]}
"#,
};

/// An agent on a path of two edges: it walks along an edge and loses energy.
const AGENT: Example = Example {
    words: &["run"],
    document: r#"{"format": 1,
 "schema": {"objects": ["V", "E", "A"],
  "arrows": [["src", "E", "V"], ["tgt", "E", "V"], ["at", "A", "V"]],
  "attributes": [["energy", "A", "int"]]},
 "instance": {"parts": [3, 2, 1], "rows": [[0, 1], [1, 2], [0]], "cells": [[5]]},
 "rules": [{"name": "move", "kind": "dpo", "monic": ["V"],
  "left": {"parts": [2, 1, 1], "rows": [[0], [1], [0]], "cells": [["energy", 0, {"var": "x"}]]},
  "keep": {"parts": [2, 1, 0], "rows": [[0], [1], []]},
  "right": {"parts": [2, 1, 1], "rows": [[0], [1], [1]],
   "cells": [["energy", 0, {"op": "sub", "args": [{"var": "x"}, 1]}]]},
  "l": [[0, 1], [0], []], "r": [[0, 1], [0], []]}],
 "watches": [{"name": "tired",
  "pattern": {"parts": [1, 0, 1], "rows": [[], [], [0]], "cells": [["energy", 0, 3]]}}]}
"#,
    status: 0,
    printed: r#"{"box":0,"lists":[[0,[[0,1,0,0]],[[1,2,1,1]]]],"match":[0,1,0,0],"refused":[],"rule":"move"}
{"box":0,"lists":[[0,[[1,2,1,1]],[]],[1,[],[[2,2]]]],"match":[1,2,1,1],"refused":[],"rule":"move"}
{"box":0,"lists":[],"match":null,"refused":[],"rule":"move"}
{"end":"done","fuel":997,"lists":[0,1],"sizes":[3,2,1]}
"#,
};

/// A triangle with a tail, and a rule that cuts off a corner.
const CORNERS: Example = Example {
    words: &["run"],
    document: r#"{
  "format": 1,
  "schema": {
    "objects": ["V", "E"],
    "arrows": [["src", "E", "V"], ["tgt", "E", "V"]]
  },
  "instance": {
    "parts": [4, 4],
    "rows": [[0, 1, 2, 2], [1, 2, 0, 3]]
  },
  "rules": [
    {
      "name": "cut",
      "kind": "dpo",
      "monic": ["V", "E"],
      "left": {"parts": [3, 2], "rows": [[0, 1], [1, 2]]},
      "keep": {"parts": [2, 0], "rows": [[], []]},
      "right": {"parts": [2, 1], "rows": [[0], [1]]},
      "l": [[0, 2], []],
      "r": [[0, 1], []]
    }
  ],
  "watches": [
    {"name": "edge", "pattern": {"parts": [2, 1], "rows": [[0], [1]]}}
  ]
}
"#,
    status: 0,
    printed: r#"{"box":0,"lists":[[0,[[0,1,2,0,1],[1,2,0,1,2],[1,2,3,1,3],[2,0,1,2,0]],[[0,2,3,4,3]]],[1,[[0,1,0],[1,2,1]],[[0,2,4]]]],"match":[0,1,2,0,1],"refused":[],"rule":"cut"}
{"box":0,"lists":[],"match":null,"refused":[[[0,2,3,4,3],["dangling","src",2]]],"rule":"cut"}
{"end":"done","fuel":998,"lists":[1,3],"sizes":[3,3]}
"#,
};

/// A symmetric graph, and a rule that removes an edge with its inverse.
const SYMMETRIC: Example = Example {
    words: &["run", "--fuel", "1"],
    document: r#"{"format": 1,
 "schema": {"objects": ["V", "E"], "arrows": [["src", "E", "V"], ["tgt", "E", "V"], ["inv", "E", "E"]],
  "equations": [["E", ["inv", "inv"], []], ["E", ["inv", "src"], ["tgt"]]]},
 "instance": {"parts": [3, 4], "rows": [[0, 1, 1, 2], [1, 0, 2, 1], [1, 0, 3, 2]]},
 "rules": [{"name": "cut", "kind": "dpo", "monic": ["V", "E"],
  "left": {"parts": [2, 2], "rows": [[0, 1], [1, 0], [1, 0]]},
  "keep": {"parts": [2, 0], "rows": [[], [], []]},
  "right": {"parts": [2, 0], "rows": [[], [], []]},
  "l": [[0, 1], []], "r": [[0, 1], []]}]}
"#,
    status: 4,
    printed: r#"{"box":0,"lists":[[0,[[0,1,0,1],[1,0,1,0]],[]]],"match":[0,1,0,1],"refused":[],"rule":"cut"}
{"end":"spent","fuel":0,"lists":[2],"sizes":[3,2]}
"#,
};

/// Two triangles with a common edge, and a rule that splits an edge of a triangle.
const SPLIT: Example = Example {
    words: &["run", "--fuel", "1"],
    document: r#"{"format": 1,
 "schema": {
  "objects": ["V", "E", "T"],
  "arrows": [["src", "E", "V"], ["tgt", "E", "V"], ["e0", "T", "E"], ["e1", "T", "E"], ["e2", "T", "E"]],
  "equations": [["T", ["e2", "src"], ["e1", "src"]], ["T", ["e2", "tgt"], ["e0", "src"]], ["T", ["e0", "tgt"], ["e1", "tgt"]]]},
 "instance": {"parts": [4, 5, 2], "rows": [[1, 0, 0, 2, 1], [2, 2, 1, 3, 3], [0, 3], [1, 4], [2, 0]]},
 "rules": [{
  "name": "split", "kind": "dpo", "monic": ["V", "E", "T"],
  "left": {"parts": [3, 3, 1], "rows": [[1, 0, 0], [2, 2, 1], [0], [1], [2]]},
  "keep": {"parts": [3, 2, 0], "rows": [[1, 0], [2, 2], [], [], []]},
  "right": {"parts": [4, 5, 2], "rows": [[1, 0, 0, 1, 3], [2, 2, 3, 3, 2], [4, 4], [1, 0], [2, 3]]},
  "l": [[0, 1, 2], [0, 1], []],
  "r": [[0, 1, 2], [0, 1], []]}]}
"#,
    status: 4,
    printed: r#"{"box":0,"lists":[[0,[[0,1,2,0,1,2,0]],[[0,4,2,7,1,5,2],[1,4,2,7,0,6,3]]]],"match":[0,1,2,0,1,2,0],"refused":[],"rule":"split"}
{"end":"spent","fuel":0,"lists":[3],"sizes":[5,7,3]}
"#,
};

/// Two triangles, and an edge along which they are glued.
const MESHES: Example = Example {
    words: &["pushout"],
    document: r#"{"format": 1,
 "schema": {
  "objects": ["V", "E", "T"],
  "arrows": [["src", "E", "V"], ["tgt", "E", "V"], ["e0", "T", "E"], ["e1", "T", "E"], ["e2", "T", "E"]],
  "attributes": [["label", "V", "text"]],
  "equations": [["T", ["e2", "src"], ["e1", "src"]], ["T", ["e2", "tgt"], ["e0", "src"]], ["T", ["e0", "tgt"], ["e1", "tgt"]]]},
 "span": {
  "apex": {"parts": [2, 1, 0], "rows": [[0], [1], [], [], []], "cells": [[null, null]]},
  "left": {"parts": [3, 3, 1], "rows": [[1, 0, 0], [2, 2, 1], [0], [1], [2]], "cells": [["a", "b", "c"]]},
  "right": {"parts": [3, 3, 1], "rows": [[1, 0, 0], [2, 2, 1], [0], [1], [2]], "cells": [[null, "c", "d"]]},
  "to_left": [[1, 2], [0], []],
  "to_right": [[0, 1], [2], []]}}
"#,
    status: 0,
    printed: r#"{"cells":[["a","b","c","d"]],"left":[[0,1,2],[0,1,2],[0]],"right":[[1,2,3],[3,4,0],[1]],"rows":[[1,0,0,2,1],[2,2,1,3,3],[0,3],[1,4],[2,0]],"sizes":[4,5,2]}
"#,
};

/// Two edges over a vertex with a loop.
const PRODUCT: Example = Example {
    words: &["pullback"],
    document: r#"{"format": 1,
 "schema": {"objects": ["V", "E"], "arrows": [["src", "E", "V"], ["tgt", "E", "V"]]},
 "cospan": {
  "left": {"parts": [2, 1], "rows": [[0], [1]]},
  "right": {"parts": [2, 1], "rows": [[0], [1]]},
  "base": {"parts": [1, 1], "rows": [[0], [0]]},
  "left_map": [[0, 0], [0]],
  "right_map": [[0, 0], [0]]}}
"#,
    status: 0,
    printed: r#"{"cells":[],"left":[[0,0,1,1],[0]],"right":[[0,1,0,1],[0]],"rows":[[0],[3]],"sizes":[4,1]}
"#,
};

/// A rule that removes an edge and merges its ends.
const CONTRACTION: Example = Example {
    words: &["run"],
    document: r#"{"format": 1,
 "schema": {"objects": ["V", "E"], "arrows": [["src", "E", "V"], ["tgt", "E", "V"]]},
 "instance": {"parts": [3, 3], "rows": [[0, 1, 2], [1, 2, 0]]},
 "rules": [{"name": "contract", "kind": "dpo",
  "left": {"parts": [2, 1], "rows": [[0], [1]]},
  "keep": {"parts": [2, 0], "rows": [[], []]},
  "right": {"parts": [1, 0], "rows": [[], []]},
  "l": [[0, 1], []], "r": [[0, 0], []]}]}
"#,
    status: 0,
    printed: r#"{"box":0,"lists":[[0,[[0,1,0],[1,2,1]],[[0,2,1]]]],"match":[0,1,0],"refused":[],"rule":"contract"}
{"box":0,"lists":[[0,[[0,2,1],[2,0,2]],[[0,0,2]]]],"match":[0,2,1],"refused":[],"rule":"contract"}
{"box":0,"lists":[[0,[[0,0,2]],[]]],"match":[0,0,2],"refused":[],"rule":"contract"}
{"box":0,"lists":[],"match":null,"refused":[],"rule":"contract"}
{"end":"done","fuel":996,"lists":[0],"sizes":[1,0]}
"#,
};

/// A rule whose left parts may not be one, since one of them goes.
const PAIRS: Example = Example {
    words: &["run"],
    document: r#"{"format": 1,
 "schema": {"objects": ["Person"], "arrows": []},
 "instance": {"parts": [2], "rows": []},
 "rules": [{"name": "replace", "kind": "dpo",
  "left": {"parts": [2], "rows": []},
  "keep": {"parts": [1], "rows": []},
  "right": {"parts": [1], "rows": []},
  "l": [[0]], "r": [[0]]}]}
"#,
    status: 0,
    printed: r#"{"box":0,"lists":[[0,[[0,1],[1,0],[1,1]],[]]],"match":[0,1],"refused":[[[0,0],["identification","Person",0,1]]],"rule":"replace"}
{"box":0,"lists":[],"match":null,"refused":[[[0,0],["identification","Person",0,1]]],"rule":"replace"}
{"end":"done","fuel":998,"lists":[1],"sizes":[1]}
"#,
};

/// A rule that merges two nodes, whose labels have to be one.
const LABELS: Example = Example {
    words: &["run"],
    document: r#"{"format": 1,
 "schema": {"objects": ["Node"], "arrows": [], "attributes": [["label", "Node", "text"]]},
 "instance": {"parts": [3], "rows": [], "cells": [["a", "b", "a"]]},
 "rules": [{"name": "merge", "kind": "dpo", "monic": ["Node"],
  "left": {"parts": [2], "rows": []},
  "keep": {"parts": [2], "rows": []},
  "right": {"parts": [1], "rows": []},
  "l": [[0, 1]], "r": [[0, 0]]}]}
"#,
    status: 0,
    printed: r#"{"box":0,"lists":[[0,[[0,2],[1,2],[2,0],[2,1]],[]]],"match":[0,2],"refused":[[[0,1],["clash","Node",0,"label","a","b"]]],"rule":"merge"}
{"box":0,"lists":[],"match":null,"refused":[[[0,1],["clash","Node",0,"label","a","b"]],[[1,0],["clash","Node",0,"label","a","b"]]],"rule":"merge"}
{"end":"done","fuel":998,"lists":[2],"sizes":[2]}
"#,
};

/// Two records with one key are merged, and each fills the blank cells of the other.
const RECORDS: Example = Example {
    words: &["run"],
    document: r#"{"format": 2,
 "schema": {"objects": ["Record"], "arrows": [],
  "attributes": [["key", "Record", "int"], ["name", "Record", "text"], ["phone", "Record", "text"]]},
 "instance": {"parts": [3], "rows": [],
  "cells": [[7, 7, 8], ["Ann", null, "Bob"], [null, "555-0101", null]]},
 "rules": [{"name": "join", "kind": "dpo", "monic": ["Record"],
  "left": {"parts": [2], "rows": [], "cells": [["key", 0, {"var": "k"}], ["key", 1, {"var": "k"}]]},
  "keep": {"parts": [2], "rows": []},
  "right": {"parts": [1], "rows": []},
  "l": [[0, 1]], "r": [[0, 0]]}],
 "watches": [{"name": "complete",
  "pattern": {"parts": [1], "rows": [], "cells": [["name", 0, {"var": "n"}], ["phone", 0, {"var": "p"}]]}}]}
"#,
    status: 0,
    printed: r#"{"box":0,"lists":[[0,[[0,1],[1,0]],[]],[1,[],[[0]]]],"match":[0,1],"refused":[],"rule":"join"}
{"box":0,"lists":[],"match":null,"refused":[],"rule":"join"}
{"end":"done","fuel":998,"lists":[0,1],"sizes":[2]}
"#,
};

/// All of them.
pub(crate) const EXAMPLES: [Example; 19] = [
    PATH,
    TRIANGLE,
    PETRI,
    MEETINGS,
    TETRAHEDRON,
    TORN,
    INFECTION,
    MUTEX,
    ACCOUNTS,
    AGENT,
    CORNERS,
    SYMMETRIC,
    SPLIT,
    MESHES,
    PRODUCT,
    CONTRACTION,
    PAIRS,
    LABELS,
    RECORDS,
];
