//! The first fault of documents: at least one document for each code of each section of a schema and an instance.

use crate::tables::Table;

/// Documents, and the line that `check` prints of each.
const DOCUMENTS: &str = r#"
 => {"at":[0,0,0],"fault":1,"section":"whole"}
[] => {"at":[0,0,0],"fault":2,"section":"whole"}
{"format":1} => {"at":[0,0,0],"fault":2,"section":"whole"}
{"format":1,"schema":{"objects":[],"arrows":[]},"extra":0} => {"at":[0,0,0],"fault":2,"section":"whole"}
{"format":"1","schema":{"objects":[],"arrows":[]}} => {"at":[0,0,0],"fault":2,"section":"whole"}
{"format":-0,"schema":{"objects":[],"arrows":[]}} => {"at":[0,0,0],"fault":2,"section":"whole"}
{"format":3,"schema":{"objects":[],"arrows":[]}} => {"at":[0,0,0],"fault":3,"section":"whole"}
{"format":18446744073709551615,"schema":[]} => {"at":[0,0,0],"fault":3,"section":"whole"}
{"format":1,"schema":{"objects":[],"arrows":[]},"schedule":[]} => {"at":[0,0,0],"fault":16,"section":"whole"}
{"format":1,"schema":{"objects":["V"],"arrows":[]},"rules":[{"name":"r","kind":"sqpo","left":{"parts":[1],"rows":[]},"keep":{"parts":[2],"rows":[]},"right":{"parts":[2],"rows":[]},"l":[[0,0]],"r":[[0,1]]}]} => {"at":[0,0,0],"fault":16,"section":"whole"}"#;

/// Schemas, and the line of the document with each.
const SCHEMAS: &str = r#"
[] => {"at":[0,0,0],"fault":2,"section":"schema"}
{"objects":[]} => {"at":[0,0,0],"fault":2,"section":"schema"}
{"objects":[],"arrows":[],"extra":0} => {"at":[0,0,0],"fault":2,"section":"schema"}
{"objects":{},"arrows":[]} => {"at":[0,0,0],"fault":2,"section":"objects"}
{"objects":["V",7],"arrows":[]} => {"at":[1,0,0],"fault":2,"section":"objects"}
{"objects":["V","",""],"arrows":[]} => {"at":[1,0,0],"fault":4,"section":"objects"}
{"objects":["o0","o1","o2","o3","o4","o5","o6","o7","o8","o9","o10","o11","o12","o13","o14","o15","o16","o17","o18","o19","o20","o21","o22","o23","o24","o25","o26","o27","o28","o29","o30","o31","o32","o33","o34","o35","o36","o37","o38","o39","o40","o41","o42","o43","o44","o45","o46","o47","o48","o49","o50","o51","o52","o53","o54","o55","o56","o57","o58","o59","o60","o61","o62","o63","o64"],"arrows":[]} => {"at":[0,0,0],"fault":4,"section":"objects"}
{"objects":["V","V"],"arrows":[]} => {"at":[1,0,0],"fault":5,"section":"objects"}
{"objects":["V"],"arrows":"f"} => {"at":[0,0,0],"fault":2,"section":"arrows"}
{"objects":["V"],"arrows":[["f","V","V"],["g","V"]]} => {"at":[1,0,0],"fault":2,"section":"arrows"}
{"objects":["V"],"arrows":[["f","V","V"],["","W","V"]]} => {"at":[1,0,0],"fault":4,"section":"arrows"}
{"objects":["V"],"arrows":[["f","V","V"],["f","W","V"]]} => {"at":[1,0,0],"fault":5,"section":"arrows"}
{"objects":["V"],"arrows":[["f","V","V"],["g","V","W"]]} => {"at":[1,0,0],"fault":6,"section":"arrows"}
{"objects":["V"],"arrows":[["f","V","W"],["f","V","V"]]} => {"at":[0,0,0],"fault":6,"section":"arrows"}
{"objects":["V"],"arrows":[],"attributes":null} => {"at":[0,0,0],"fault":2,"section":"attributes"}
{"objects":["V"],"arrows":[],"attributes":[["w","V","float"]]} => {"at":[0,0,0],"fault":2,"section":"attributes"}
{"objects":["V"],"arrows":[],"attributes":[["","U","int"]]} => {"at":[0,0,0],"fault":4,"section":"attributes"}
{"objects":["V"],"arrows":[],"attributes":[["w","V","int"],["w","U","text"]]} => {"at":[1,0,0],"fault":5,"section":"attributes"}
{"objects":["V"],"arrows":[],"attributes":[["w","V","int"],["x","U","bool"]]} => {"at":[1,0,0],"fault":6,"section":"attributes"}
{"objects":["V"],"arrows":[],"attributes":[["w","U","int"],["x","U","bool"]]} => {"at":[0,0,0],"fault":6,"section":"attributes"}
{"objects":["V"],"arrows":[],"equations":{}} => {"at":[0,0,0],"fault":2,"section":"equations"}
{"objects":["V"],"arrows":[["f","V","V"]],"equations":[["V",["f"],[]],["V",["f"],"f"]]} => {"at":[1,0,0],"fault":2,"section":"equations"}
{"objects":["V"],"arrows":[["f","V","V"]],"equations":[["U",["f","f","f","f","f","f","f","f","f","f","f","f","f","f","f","f","f","f","f","f","f","f","f","f","f","f","f","f","f","f","f","f","f"],[]]]} => {"at":[0,0,0],"fault":4,"section":"equations"}
{"objects":["V"],"arrows":[["f","V","V"]],"equations":[["V",["f"],[]],["V",["g"],[]]]} => {"at":[1,0,0],"fault":6,"section":"equations"}
{"objects":["V","W"],"arrows":[["f","V","W"],["g","V","V"]],"equations":[["V",["f"],["g"]]]} => {"at":[0,0,0],"fault":7,"section":"equations"}
{"objects":["V","W"],"arrows":[["f","V","W"],["g","V","V"]],"equations":[["W",["f"],["f"]]]} => {"at":[0,0,0],"fault":7,"section":"equations"}
{"objects":["V","W"],"arrows":[["f","V","W"],["g","V","V"]],"equations":[["V",["f","g"],["f","g"]]]} => {"at":[0,0,0],"fault":7,"section":"equations"}
{"objects":["V","W"],"arrows":[["f","V","W"],["g","V","V"]],"equations":[["U",[],[]]]} => {"at":[0,0,0],"fault":6,"section":"equations"}
{"objects":["V","W"],"arrows":[["f","V","W"],["g","V","V"]],"equations":[["V",["g"],["h"]]]} => {"at":[0,0,0],"fault":6,"section":"equations"}
{"objects":["V","W"],"arrows":[["f","V","W"]],"equations":[["V",["f"],[]]]} => {"at":[0,0,0],"fault":7,"section":"equations"}"#;

/// Instances of graphs whose vertices have weights, and the line of the document with each.
const INSTANCES: &str = r#"
[] => {"at":[0,0,0],"fault":2,"section":"instance"}
{"parts":[0,0],"cells":[[]]} => {"at":[0,0,0],"fault":2,"section":"instance"}
{"parts":[0,0],"rows":[[],[]],"cells":[[]],"next":[0,0]} => {"at":[0,0,0],"fault":2,"section":"instance"}
{"parts":[0],"rows":[[],[]],"cells":[[]]} => {"at":[0,0,0],"fault":2,"section":"parts"}
{"parts":[0,-1],"rows":[[],[]],"cells":[[]]} => {"at":[1,0,0],"fault":2,"section":"parts"}
{"parts":[0,18446744073709551616],"rows":[[],[]],"cells":[[]]} => {"at":[1,0,0],"fault":2,"section":"parts"}
{"parts":[1000001,0],"rows":[[],[]],"cells":[[]]} => {"at":[0,0,0],"fault":4,"section":"parts"}
{"parts":[1,1],"rows":[[0]],"cells":[[0]]} => {"at":[0,0,0],"fault":2,"section":"rows"}
{"parts":[1,1],"rows":[[0],[]],"cells":[[0]]} => {"at":[1,0,0],"fault":2,"section":"rows"}
{"parts":[1,2],"rows":[[0,0],[0,1.0]],"cells":[[0]]} => {"at":[1,1,0],"fault":2,"section":"rows"}
{"parts":[1,1],"rows":[[0],[1]],"cells":[[0]]} => {"at":[1,0,0],"fault":8,"section":"rows"}
{"parts":[1,2],"rows":[[0,4294967296],[0,0]],"cells":[[0]]} => {"at":[0,1,0],"fault":8,"section":"rows"}
{"parts":[0,0],"rows":[[],[]]} => {"at":[0,0,0],"fault":2,"section":"cells"}
{"parts":[1,0],"rows":[[],[]],"cells":[[0],[0]]} => {"at":[0,0,0],"fault":2,"section":"cells"}
{"parts":[1,0],"rows":[[],[]],"cells":[[]]} => {"at":[0,0,0],"fault":2,"section":"cells"}
{"parts":[2,0],"rows":[[],[]],"cells":[[5,null]]} => {"at":[0,1,0],"fault":9,"section":"cells"}
{"parts":[2,0],"rows":[[],[]],"cells":[[5,"5"]]} => {"at":[0,1,0],"fault":9,"section":"cells"}
{"parts":[2,0],"rows":[[],[]],"cells":[[true,5]]} => {"at":[0,0,0],"fault":9,"section":"cells"}
{"parts":[1,0],"rows":[[],[]],"cells":[[9223372036854775808]]} => {"at":[0,0,0],"fault":9,"section":"cells"}
{"parts":[1,0],"rows":[[],[]],"cells":[[1e2]]} => {"at":[0,0,0],"fault":9,"section":"cells"}
{"parts":[1,0],"rows":[[],[]],"cells":[[[]]]} => {"at":[0,0,0],"fault":9,"section":"cells"}"#;

/// The tables of this file.
pub(crate) const FAULTS: [Table; 3] = [
    Table {
        words: &["check"],
        before: &[],
        pieces: DOCUMENTS,
        after: "",
        status: 3,
        printed_before: "",
        printed_after: "\n",
        count: 10,
    },
    Table {
        words: &["check"],
        before: &[r#"{"format":1,"schema":"#],
        pieces: SCHEMAS,
        after: "}",
        status: 3,
        printed_before: "",
        printed_after: "\n",
        count: 30,
    },
    Table {
        words: &["check"],
        before: &[
            r#"{"format":1,"schema":{"objects":["V","E"],"arrows":[["src","E","V"],["tgt","E","V"]],"attributes":[["w","V","int"]]},"instance":"#,
        ],
        pieces: INSTANCES,
        after: "}",
        status: 3,
        printed_before: "",
        printed_after: "\n",
        count: 21,
    },
];
