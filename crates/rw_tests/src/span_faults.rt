//! The first fault of spans and cospans: at least one document for each code of each piece.

use crate::tables::Table;

/// The start of a document up to its span or cospan: vertices with a partner each and a number, edges, and units.
const START: &str =
    r#"{"format":1,"schema":{"objects":["V","E","U"],"arrows":[["src","E","V"],["inv","V","V"]],"attributes":[["w","V","int"]],"equations":[["V",["inv","inv"],[]]]},"#;

/// Values of a span, and the code of each.
const SPANS: &str = r#"
[] => 2
{"apex":0,"left":0,"right":0,"to_left":0} => 2
{"apex":0,"left":0,"right":0,"to_left":0,"to_right":0,"base":0} => 2"#;

/// Values of a cospan, and the code of each.
const COSPANS: &str = r#"
[] => 2
{"left":0,"right":0,"base":0,"left_map":0} => 2
{"left":0,"right":0,"base":0,"left_map":0,"right_map":0,"apex":0} => 2"#;

/// Instances, and the code of each.
const INSTANCES: &str = r#"
0 => 2
{"parts":[1,0,0],"rows":[[],[0]],"cells":[[1]],"more":0} => 2
{"parts":[1,0,0],"rows":[[],[0]]} => 2
{"parts":[1,0,0],"rows":[[],[0]],"cells":[[1,true]]} => 2
{"parts":[0,0,1000001],"rows":[[],[]],"cells":[[]]} => 4
{"parts":[1,0,0],"rows":[[],[1]],"cells":[[true]]} => 8
{"parts":[1,0,0],"rows":[[],[0]],"cells":[[true]]} => 9
{"parts":[2,0,0],"rows":[[],[0,0]],"cells":[[1,null]]} => 10"#;

/// Maps from two partners to two partners and one alone, and the code of each.
const MAPS: &str = r#"
[[0,1],[]] => 2
[[0],[],[]] => 2
[[0,3],[],[]] => 8
[[0,2],[],[]] => 11
[[1,0],[],[]] => 11"#;

/// Two partners, the second without a number.
const TWO: &str = r#"{"parts":[2,0,0],"rows":[[],[1,0]],"cells":[[5,null]]}"#;

/// Two partners and one alone.
const THREE: &str = r#"{"parts":[3,0,0],"rows":[[],[1,0,2]],"cells":[[5,6,7]]}"#;

/// The tables of spans.
pub(crate) const SPAN_FAULTS: [Table; 6] = [
    Table {
        words: &["check"],
        before: &[START, r#""span":"#],
        pieces: SPANS,
        after: "}",
        status: 3,
        printed_before: r#"{"at":[0,0,0],"fault":"#,
        printed_after: ",\"section\":\"span\"}\n",
        count: 3,
    },
    Table {
        words: &["check"],
        before: &[START, r#""span":{"apex":"#],
        pieces: INSTANCES,
        after: r#","left":0,"right":0,"to_left":0,"to_right":0}}"#,
        status: 3,
        printed_before: r#"{"at":[1,0,0],"fault":"#,
        printed_after: ",\"section\":\"span\"}\n",
        count: 8,
    },
    Table {
        words: &["check"],
        before: &[START, r#""span":{"apex":"#, TWO, r#","left":"#],
        pieces: INSTANCES,
        after: r#","right":0,"to_left":0,"to_right":0}}"#,
        status: 3,
        printed_before: r#"{"at":[2,0,0],"fault":"#,
        printed_after: ",\"section\":\"span\"}\n",
        count: 8,
    },
    Table {
        words: &["check"],
        before: &[
            START,
            r#""span":{"apex":"#,
            TWO,
            r#","left":"#,
            THREE,
            r#","right":"#,
        ],
        pieces: INSTANCES,
        after: r#","to_left":0,"to_right":0}}"#,
        status: 3,
        printed_before: r#"{"at":[3,0,0],"fault":"#,
        printed_after: ",\"section\":\"span\"}\n",
        count: 8,
    },
    Table {
        words: &["check"],
        before: &[
            START,
            r#""span":{"apex":"#,
            TWO,
            r#","left":"#,
            THREE,
            r#","right":"#,
            THREE,
            r#","to_left":"#,
        ],
        pieces: MAPS,
        after: r#","to_right":0}}"#,
        status: 3,
        printed_before: r#"{"at":[4,0,0],"fault":"#,
        printed_after: ",\"section\":\"span\"}\n",
        count: 5,
    },
    Table {
        words: &["check"],
        before: &[
            START,
            r#""span":{"apex":"#,
            TWO,
            r#","left":"#,
            THREE,
            r#","right":"#,
            THREE,
            r#","to_left":[[0,1],[],[]],"to_right":"#,
        ],
        pieces: MAPS,
        after: "}}",
        status: 3,
        printed_before: r#"{"at":[5,0,0],"fault":"#,
        printed_after: ",\"section\":\"span\"}\n",
        count: 5,
    },
];

/// The tables of cospans.
pub(crate) const COSPAN_FAULTS: [Table; 6] = [
    Table {
        words: &["check"],
        before: &[START, r#""cospan":"#],
        pieces: COSPANS,
        after: "}",
        status: 3,
        printed_before: r#"{"at":[0,0,0],"fault":"#,
        printed_after: ",\"section\":\"cospan\"}\n",
        count: 3,
    },
    Table {
        words: &["check"],
        before: &[START, r#""cospan":{"left":"#],
        pieces: INSTANCES,
        after: r#","right":0,"base":0,"left_map":0,"right_map":0}}"#,
        status: 3,
        printed_before: r#"{"at":[1,0,0],"fault":"#,
        printed_after: ",\"section\":\"cospan\"}\n",
        count: 8,
    },
    Table {
        words: &["check"],
        before: &[START, r#""cospan":{"left":"#, TWO, r#","right":"#],
        pieces: INSTANCES,
        after: r#","base":0,"left_map":0,"right_map":0}}"#,
        status: 3,
        printed_before: r#"{"at":[2,0,0],"fault":"#,
        printed_after: ",\"section\":\"cospan\"}\n",
        count: 8,
    },
    Table {
        words: &["check"],
        before: &[
            START,
            r#""cospan":{"left":"#,
            TWO,
            r#","right":"#,
            TWO,
            r#","base":"#,
        ],
        pieces: INSTANCES,
        after: r#","left_map":0,"right_map":0}}"#,
        status: 3,
        printed_before: r#"{"at":[3,0,0],"fault":"#,
        printed_after: ",\"section\":\"cospan\"}\n",
        count: 8,
    },
    Table {
        words: &["check"],
        before: &[
            START,
            r#""cospan":{"left":"#,
            TWO,
            r#","right":"#,
            TWO,
            r#","base":"#,
            THREE,
            r#","left_map":"#,
        ],
        pieces: MAPS,
        after: r#","right_map":0}}"#,
        status: 3,
        printed_before: r#"{"at":[4,0,0],"fault":"#,
        printed_after: ",\"section\":\"cospan\"}\n",
        count: 5,
    },
    Table {
        words: &["check"],
        before: &[
            START,
            r#""cospan":{"left":"#,
            TWO,
            r#","right":"#,
            TWO,
            r#","base":"#,
            THREE,
            r#","left_map":[[0,1],[],[]],"right_map":"#,
        ],
        pieces: MAPS,
        after: "}}",
        status: 3,
        printed_before: r#"{"at":[5,0,0],"fault":"#,
        printed_after: ",\"section\":\"cospan\"}\n",
        count: 5,
    },
];
