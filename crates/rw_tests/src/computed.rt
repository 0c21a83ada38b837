//! Rules that compute attributes.

use crate::commands::Example;
use crate::tables::Table;

/// Two counters, and a rule that adds one.
const COUNTERS: &str =
    r#"{"format":1,"schema":{"objects":["V"],"arrows":[],"attributes":[["w","V","int"]]},
"instance":{"parts":[2],"rows":[],"cells":[[1,2]]},
"rules":[{"name":"inc","kind":"dpo","left":{"parts":[1],"rows":[],"cells":[["w",0,{"var":"x"}]]},"keep":{"parts":[1],"rows":[]},
"right":{"parts":[1],"rows":[],"cells":[["w",0,{"op":"add","args":[{"var":"x"},1]}]]},"l":[[0]],"r":[[0]]}]}"#;

/// Two counters, of which the first is blank, and the same rule.
const BLANK_COUNTER: &str =
    r#"{"format":2,"schema":{"objects":["V"],"arrows":[],"attributes":[["w","V","int"]]},
"instance":{"parts":[2],"rows":[],"cells":[[null,3]]},
"rules":[{"name":"inc","kind":"dpo","left":{"parts":[1],"rows":[],"cells":[["w",0,{"var":"x"}]]},"keep":{"parts":[1],"rows":[]},
"right":{"parts":[1],"rows":[],"cells":[["w",0,{"op":"add","args":[{"var":"x"},1]}]]},"l":[[0]],"r":[[0]]}]}"#;

/// Two elements, a rule that swaps their numbers and keeps their texts, and the elements with the number 5 and the text b.
const SWAPPED: &str =
    r#"{"format":1,"schema":{"objects":["V"],"arrows":[],"attributes":[["w","V","int"],["t","V","text"]]},
"instance":{"parts":[2],"rows":[],"cells":[[1,5],["a","b"]]},
"rules":[{"name":"swap","kind":"dpo","monic":["V"],"left":{"parts":[2],"rows":[],"cells":[["w",0,{"var":"x"}],["w",1,{"var":"y"}]]},
"keep":{"parts":[2],"rows":[]},"right":{"parts":[2],"rows":[],"cells":[["w",0,{"var":"y"}],["w",1,{"var":"x"}]]},
"l":[[0,1]],"r":[[0,1]]}],
"watches":[{"name":"five","pattern":{"parts":[1],"rows":[],"cells":[["w",0,5]]}},
{"name":"b","pattern":{"parts":[1],"rows":[],"cells":[["t",0,"b"]]}}]}"#;

/// A rule with two sets without a value: the one on the lesser part is named, though it stands last.
const VALUELESS: &str =
    r#"{"format":1,"schema":{"objects":["V"],"arrows":[],"attributes":[["w","V","int"],["u","V","int"]]},
"instance":{"parts":[2],"rows":[],"cells":[[1,2],[3,4]]},
"rules":[{"name":"none","kind":"dpo","monic":["V"],"left":{"parts":[2],"rows":[],"cells":[["w",0,1],["u",1,4]]},"keep":{"parts":[2],"rows":[]},
"right":{"parts":[2],"rows":[],"cells":[["w",1,{"op":"rem","args":[1,0]}],["u",0,{"op":"mul","args":[9223372036854775807,2]}],["w",0,7]]},
"l":[[0,1]],"r":[[0,1]]}]}"#;

/// A rule that sets a number by each operation and one by two of them, and the pattern of the values that they have.
const OPERATIONS: &str =
    r#"{"format":1,"schema":{"objects":["V"],"arrows":[],"attributes":[["a","V","int"],["b","V","int"],["c","V","int"],["d","V","int"],["e","V","int"],["f","V","int"],["g","V","int"],["h","V","int"],["i","V","int"],["j","V","int"],["k","V","int"]]},
"instance":{"parts":[1],"rows":[],"cells":[[99],[99],[99],[99],[99],[99],[99],[99],[99],[99],[99]]},
"rules":[{"name":"set","kind":"dpo","left":{"parts":[1],"rows":[]},"keep":{"parts":[1],"rows":[]},
"right":{"parts":[1],"rows":[],"cells":[
["a",0,{"op":"add","args":[2,-5]}],
["b",0,{"op":"sub","args":[2,5]}],
["c",0,{"op":"mul","args":[-3,4]}],
["d",0,{"op":"div","args":[-7,2]}],
["e",0,{"op":"rem","args":[-7,2]}],
["f",0,{"op":"rem","args":[7,-2]}],
["g",0,{"op":"min","args":[-9223372036854775808,3]}],
["h",0,{"op":"max","args":[-9223372036854775808,3]}],
["i",0,{"op":"less","args":[-1,0]}],
["j",0,{"op":"less","args":[4,4]}],
["k",0,{"op":"sub","args":[{"op":"sub","args":[10,3]},2]}]]},"l":[[0]],"r":[[0]]}],
"watches":[{"name":"values","pattern":{"parts":[1],"rows":[],"cells":[["a",0,-3],["b",0,-3],["c",0,-12],["d",0,-3],["e",0,-1],["f",0,1],["g",0,-9223372036854775808],["h",0,3],["i",0,1],["j",0,0],["k",0,5]]}}]}"#;

/// Terms without a value, where the variable is the greatest number.
const NO_VALUES: &str = r#"
{"op":"add","args":[{"var":"x"},1]} => "no_value"
{"op":"div","args":[{"var":"x"},0]} => "no_value"
{"op":"sub","args":[-9223372036854775808,1]} => "no_value"
{"op":"mul","args":[-9223372036854775808,-1]} => "no_value"
{"op":"div","args":[-9223372036854775808,-1]} => "no_value"
{"op":"rem","args":[-9223372036854775808,-1]} => "no_value"
{"op":"rem","args":[1,0]} => "no_value""#;

/// Runs by rules that compute.
pub(crate) const COMPUTED: [Example; 5] = [
    Example {
        words: &["run", "--fuel", "1"],
        document: OPERATIONS,
        status: 4,
        printed: r#"{"box":0,"lists":[[1,[],[[0]]]],"match":[0],"refused":[],"rule":"set"}
{"end":"spent","fuel":0,"lists":[1,1],"sizes":[1]}
"#,
    },
    Example {
        words: &["run", "--fuel", "2"],
        document: COUNTERS,
        status: 4,
        printed: r#"{"box":0,"lists":[],"match":[0],"refused":[],"rule":"inc"}
{"box":0,"lists":[],"match":[0],"refused":[],"rule":"inc"}
{"end":"spent","fuel":0,"lists":[2],"sizes":[2]}
"#,
    },
    Example {
        words: &["run", "--fuel", "1"],
        document: BLANK_COUNTER,
        status: 4,
        printed: r#"{"box":0,"lists":[],"match":[1],"refused":[],"rule":"inc"}
{"end":"spent","fuel":0,"lists":[1],"sizes":[2]}
"#,
    },
    Example {
        words: &["run", "--fuel", "1"],
        document: SWAPPED,
        status: 4,
        printed: r#"{"box":0,"lists":[[1,[[1]],[[0]]]],"match":[0,1],"refused":[],"rule":"swap"}
{"end":"spent","fuel":0,"lists":[2,1,1],"sizes":[2]}
"#,
    },
    Example {
        words: &["run"],
        document: VALUELESS,
        status: 0,
        printed: r#"{"box":0,"lists":[],"match":null,"refused":[[[0,1],["no_value","u",0]]],"rule":"none"}
{"end":"done","fuel":999,"lists":[1],"sizes":[2]}
"#,
    },
];

/// A term without a value refuses the match.
pub(crate) const REFUSED: [Table; 1] = [Table {
    words: &["run"],
    before: &[
        r#"{"format":1,"schema":{"objects":["V"],"arrows":[],"attributes":[["w","V","int"]]},"instance":{"parts":[1],"rows":[],"cells":[[9223372036854775807]]},"rules":[{"name":"inc","kind":"dpo","left":{"parts":[1],"rows":[],"cells":[["w",0,{"var":"x"}]]},"keep":{"parts":[1],"rows":[]},"right":{"parts":[1],"rows":[],"cells":[["w",0,"#,
    ],
    pieces: NO_VALUES,
    after: r#"]]},"l":[[0]],"r":[[0]]}]}"#,
    status: 0,
    printed_before: r#"{"box":0,"lists":[],"match":null,"refused":[[[0],["#,
    printed_after: r#","w",0]]],"rule":"inc"}
{"end":"done","fuel":999,"lists":[1],"sizes":[1]}
"#,
    count: 7,
}];
