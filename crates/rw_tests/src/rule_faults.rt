//! The first fault of documents: at least one document for each code of each piece of a rule and of a watch.

use crate::tables::Table;

/// The start of a document up to its rules and watches: vertices with a partner each, a number and a text, and edges.
const START: &str =
    r#"{"format":1,"schema":{"objects":["V","E"],"arrows":[["src","E","V"],["inv","V","V"]],"attributes":[["w","V","int"],["t","V","text"]],"equations":[["V",["inv","inv"],[]]]},"#;

/// Lists of rules, and the line of the document with each.
const RULES: &str = r#"
{} => {"at":[0,0,0],"fault":2,"section":"rules"}
[[]] => {"at":[0,0,0],"fault":2,"section":"rules"}
[{"name":"r","kind":"dpo","left":{"parts":[0,0],"rows":[[],[]]},"keep":{"parts":[0,0],"rows":[[],[]]},"right":{"parts":[0,0],"rows":[[],[]]},"l":[[],[]],"r":[[],[]]},{"name":"r","kind":"dpo","monic":["U"],"left":0,"keep":0,"right":0,"l":0,"r":0}] => {"at":[1,0,0],"fault":5,"section":"rules"}"#;

/// A rule's own members, and the line of the document with each.
const HEADS: &str = r#"
"kind":"dpo" => {"at":[0,0,0],"fault":2,"section":"rules"}
"name":"r","kind":"dpo","extra":0 => {"at":[0,0,0],"fault":2,"section":"rules"}
"name":7,"kind":"dpo" => {"at":[0,0,0],"fault":2,"section":"rules"}
"name":"r","kind":"npo" => {"at":[0,0,0],"fault":2,"section":"rules"}
"name":"r","kind":"dpo","monic":"V" => {"at":[0,0,0],"fault":2,"section":"rules"}
"name":"r","kind":"dpo","conditions":{} => {"at":[0,0,0],"fault":2,"section":"rules"}
"name":"","kind":"dpo","monic":["U"] => {"at":[0,0,0],"fault":4,"section":"rules"}
"name":"r","kind":"dpo","conditions":[0,0,0,0,0,0,0,0,0,0,0,0,0,0,0,0,0] => {"at":[0,0,0],"fault":4,"section":"rules"}
"name":"r","kind":"dpo","monic":["V","U"] => {"at":[0,0,0],"fault":6,"section":"rules"}
"name":"r","kind":"dpo","conditions":[] => {"at":[0,0,0],"fault":16,"section":"whole"}
"name":"r","kind":"spo" => {"at":[0,0,0],"fault":16,"section":"whole"}
"name":"r","kind":"sqpo" => {"at":[0,0,0],"fault":16,"section":"whole"}"#;

/// Left patterns of a rule, and the line of the document with each.
const LEFTS: &str = r#"
[] => {"at":[0,1,0],"fault":2,"section":"rules"}
{"parts":[1,0]} => {"at":[0,1,0],"fault":2,"section":"rules"}
{"parts":[1],"rows":[[],[0]]} => {"at":[0,1,0],"fault":2,"section":"rules"}
{"parts":[1,0],"rows":[[],[0,0]]} => {"at":[0,1,0],"fault":2,"section":"rules"}
{"parts":[1,0],"rows":[[],[0]],"cells":[["w",0]]} => {"at":[0,1,0],"fault":2,"section":"rules"}
{"parts":[1,0],"rows":[[],[0]],"cells":[["w",0,null]]} => {"at":[0,1,0],"fault":2,"section":"rules"}
{"parts":[1,0],"rows":[[],[0]],"cells":[["w",0,9223372036854775808]]} => {"at":[0,1,0],"fault":2,"section":"rules"}
{"parts":[1,0],"rows":[[],[0]],"cells":[["w",0,{"var":7}]]} => {"at":[0,1,0],"fault":2,"section":"rules"}
{"parts":[1,0],"rows":[[],[0]],"cells":[["w",0,{"op":"add","args":[1]}]]} => {"at":[0,1,0],"fault":2,"section":"rules"}
{"parts":[1,0],"rows":[[],[0]],"cells":[["u",0,{"var":""}]]} => {"at":[0,1,0],"fault":4,"section":"rules"}
{"parts":[1,0],"rows":[[],[1]],"cells":[["u",0,1]]} => {"at":[0,1,0],"fault":6,"section":"rules"}
{"parts":[1,0],"rows":[[],[1]]} => {"at":[0,1,0],"fault":8,"section":"rules"}
{"parts":[1,0],"rows":[[],[0]],"cells":[["w",4294967296,"x"]]} => {"at":[0,1,0],"fault":8,"section":"rules"}
{"parts":[2,0],"rows":[[],[0,0]],"cells":[["w",0,"x"]]} => {"at":[0,1,0],"fault":9,"section":"rules"}
{"parts":[2,0],"rows":[[],[0,0]],"cells":[["w",0,{"var":"x"}],["t",0,{"var":"x"}]]} => {"at":[0,1,0],"fault":10,"section":"rules"}
{"parts":[1,0],"rows":[[],[0]],"cells":[["w",0,{"var":"x"}],["t",0,{"var":"x"}]]} => {"at":[0,1,0],"fault":14,"section":"rules"}
{"parts":[1,0],"rows":[[],[0]],"cells":[["w",0,{"op":"add","args":[1,2]}]]} => {"at":[0,1,0],"fault":14,"section":"rules"}"#;

/// Kept patterns of a rule, and the line of the document with each.
const KEEPS: &str = r#"
{"parts":[1,0],"rows":[[],[0]],"cells":[]} => {"at":[0,2,0],"fault":2,"section":"rules"}
{"parts":[0,65],"rows":[[0,0,0,0,0,0,0,0,0,0,0,0,0,0,0,0,0,0,0,0,0,0,0,0,0,0,0,0,0,0,0,0,0,0,0,0,0,0,0,0,0,0,0,0,0,0,0,0,0,0,0,0,0,0,0,0,0,0,0,0,0,0,0,0,0],[]]} => {"at":[0,2,0],"fault":4,"section":"rules"}
{"parts":[1,0],"rows":[[],[1]]} => {"at":[0,2,0],"fault":8,"section":"rules"}
{"parts":[2,0],"rows":[[],[0,0]]} => {"at":[0,2,0],"fault":10,"section":"rules"}"#;

/// Right patterns of a rule whose left one has the number `x` and the text `y`, and the line of the document with each.
const RIGHTS: &str = r#"
{"parts":[1,0],"rows":[[],[0]],"cells":[["w",0,{"op":"add"}]]} => {"at":[0,3,0],"fault":2,"section":"rules"}
{"parts":[1,0],"rows":[[],[0]],"cells":[["u",0,{"op":"nop","args":[1,{"var":""}]}]]} => {"at":[0,3,0],"fault":4,"section":"rules"}
{"parts":[1,0],"rows":[[],[0]],"cells":[["u",1,1]]} => {"at":[0,3,0],"fault":6,"section":"rules"}
{"parts":[1,0],"rows":[[],[0]],"cells":[["w",1,"x"]]} => {"at":[0,3,0],"fault":8,"section":"rules"}
{"parts":[1,0],"rows":[[],[0]],"cells":[["w",0,{"var":"z"}],["w",0,"x"]]} => {"at":[0,3,0],"fault":9,"section":"rules"}
{"parts":[2,0],"rows":[[],[0,0]],"cells":[["w",0,{"var":"z"}]]} => {"at":[0,3,0],"fault":10,"section":"rules"}
{"parts":[1,0],"rows":[[],[0]],"cells":[["w",0,{"var":"z"}]]} => {"at":[0,3,0],"fault":14,"section":"rules"}
{"parts":[1,0],"rows":[[],[0]],"cells":[["w",0,{"var":"y"}]]} => {"at":[0,3,0],"fault":14,"section":"rules"}
{"parts":[1,0],"rows":[[],[0]],"cells":[["w",0,{"op":"nop","args":[1,2]}]]} => {"at":[0,3,0],"fault":14,"section":"rules"}
{"parts":[1,0],"rows":[[],[0]],"cells":[["w",0,{"op":"add","args":[1,"x"]}]]} => {"at":[0,3,0],"fault":14,"section":"rules"}
{"parts":[1,0],"rows":[[],[0]],"cells":[["t",0,{"op":"add","args":[1,2]}]]} => {"at":[0,3,0],"fault":14,"section":"rules"}
{"parts":[1,0],"rows":[[],[0]],"cells":[["w",0,1],["w",0,1]]} => {"at":[0,3,0],"fault":14,"section":"rules"}"#;

/// Maps to the left of a rule, and the line of the document with each.
const TO_LEFTS: &str = r#"
[[0,1]] => {"at":[0,4,0],"fault":2,"section":"rules"}
[[0],[]] => {"at":[0,4,0],"fault":2,"section":"rules"}
[[0,-1],[]] => {"at":[0,4,0],"fault":2,"section":"rules"}
[[2,4294967296],[]] => {"at":[0,4,0],"fault":8,"section":"rules"}
[[0,2],[]] => {"at":[0,4,0],"fault":11,"section":"rules"}
[[2,2],[]] => {"at":[0,4,0],"fault":12,"section":"rules"}"#;

/// Maps to the right of a rule, and the line of the document with each.
const TO_RIGHTS: &str = r#"
[[0,1]] => {"at":[0,5,0],"fault":2,"section":"rules"}
[[3,0],[]] => {"at":[0,5,0],"fault":8,"section":"rules"}
[[0,2],[]] => {"at":[0,5,0],"fault":11,"section":"rules"}
[[2,2],[]] => {"at":[0,5,0],"fault":14,"section":"rules"}"#;

/// Lists of watches, and the line of the document with each.
const WATCHES: &str = r#"
{} => {"at":[0,0,0],"fault":2,"section":"watches"}
[{"name":"x"}] => {"at":[0,0,0],"fault":2,"section":"watches"}
[{"name":"x","pattern":0,"monic":[7]}] => {"at":[0,0,0],"fault":2,"section":"watches"}
[{"name":"","pattern":0}] => {"at":[0,0,0],"fault":4,"section":"watches"}
[{"name":"r","pattern":0,"monic":["U"]}] => {"at":[0,0,0],"fault":5,"section":"watches"}
[{"name":"x","pattern":0,"monic":["U"]}] => {"at":[0,0,0],"fault":6,"section":"watches"}
[{"name":"x","pattern":0}] => {"at":[0,1,0],"fault":2,"section":"watches"}
[{"name":"x","pattern":{"parts":[1,0],"rows":[[],[0]],"cells":[["u",0,{"var":""}]]}}] => {"at":[0,1,0],"fault":4,"section":"watches"}
[{"name":"x","pattern":{"parts":[1,0],"rows":[[],[0]],"cells":[["u",1,1]]}}] => {"at":[0,1,0],"fault":6,"section":"watches"}
[{"name":"x","pattern":{"parts":[1,0],"rows":[[],[1]]}}] => {"at":[0,1,0],"fault":8,"section":"watches"}
[{"name":"x","pattern":{"parts":[1,0],"rows":[[],[0]],"cells":[["w",0,true]]}}] => {"at":[0,1,0],"fault":9,"section":"watches"}
[{"name":"x","pattern":{"parts":[2,0],"rows":[[],[0,0]]}}] => {"at":[0,1,0],"fault":10,"section":"watches"}
[{"name":"x","pattern":{"parts":[1,0],"rows":[[],[0]],"cells":[["w",0,{"op":"add","args":[1,2]}]]}}] => {"at":[0,1,0],"fault":14,"section":"watches"}"#;

/// The start of a document up to the left pattern of a rule.
const LEFT: &str = r#""rules":[{"name":"r","kind":"dpo","left":"#;

/// A left pattern with the number `x` and the text `y`.
const KNOWN: &str =
    r#"{"parts":[1,0],"rows":[[],[0]],"cells":[["w",0,{"var":"x"}],["t",0,{"var":"y"}]]}"#;

/// Two partners and one alone.
const THREE: &str = r#"{"parts":[3,0],"rows":[[],[1,0,2]]}"#;

/// Two partners.
const TWO: &str = r#"{"parts":[2,0],"rows":[[],[0,1]]}"#;

/// The tables of this file.
pub(crate) const RULE_FAULTS: [Table; 8] = [
    Table {
        words: &["check"],
        before: &[START, r#""rules":"#],
        pieces: RULES,
        after: "}",
        status: 3,
        printed_before: "",
        printed_after: "\n",
        count: 3,
    },
    Table {
        words: &["check"],
        before: &[START, r#""rules":[{"#],
        pieces: HEADS,
        after: r#","left":{"parts":[0,0],"rows":[[],[]]},"keep":{"parts":[0,0],"rows":[[],[]]},"right":{"parts":[0,0],"rows":[[],[]]},"l":[[],[]],"r":[[],[]]}]}"#,
        status: 3,
        printed_before: "",
        printed_after: "\n",
        count: 12,
    },
    Table {
        words: &["check"],
        before: &[START, LEFT],
        pieces: LEFTS,
        after: r#","keep":0,"right":0,"l":0,"r":0}]}"#,
        status: 3,
        printed_before: "",
        printed_after: "\n",
        count: 17,
    },
    Table {
        words: &["check"],
        before: &[START, LEFT, KNOWN, r#","keep":"#],
        pieces: KEEPS,
        after: r#","right":0,"l":0,"r":0}]}"#,
        status: 3,
        printed_before: "",
        printed_after: "\n",
        count: 4,
    },
    Table {
        words: &["check"],
        before: &[
            START,
            LEFT,
            KNOWN,
            r#","keep":{"parts":[1,0],"rows":[[],[0]]},"right":"#,
        ],
        pieces: RIGHTS,
        after: r#","l":0,"r":0}]}"#,
        status: 3,
        printed_before: "",
        printed_after: "\n",
        count: 12,
    },
    Table {
        words: &["check"],
        before: &[
            START,
            LEFT,
            THREE,
            r#","keep":"#,
            TWO,
            r#","right":"#,
            THREE,
            r#","r":0,"l":"#,
        ],
        pieces: TO_LEFTS,
        after: "}]}",
        status: 3,
        printed_before: "",
        printed_after: "\n",
        count: 6,
    },
    Table {
        words: &["check"],
        before: &[
            START,
            LEFT,
            TWO,
            r#","keep":"#,
            TWO,
            r#","right":"#,
            THREE,
            r#","l":[[0,1],[]],"r":"#,
        ],
        pieces: TO_RIGHTS,
        after: "}]}",
        status: 3,
        printed_before: "",
        printed_after: "\n",
        count: 4,
    },
    Table {
        words: &["check"],
        before: &[
            START,
            r#""rules":[{"name":"r","kind":"dpo","left":{"parts":[0,0],"rows":[[],[]]},"keep":{"parts":[0,0],"rows":[[],[]]},"right":{"parts":[0,0],"rows":[[],[]]},"l":[[],[]],"r":[[],[]]}],"watches":"#,
        ],
        pieces: WATCHES,
        after: "}",
        status: 3,
        printed_before: "",
        printed_after: "\n",
        count: 13,
    },
];
