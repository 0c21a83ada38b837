//! Documents that are long or deep.

use crate::commands::check;
use std::alloc::Global;
use std::process::Abort;
use std::test::Fail;

/// A document of pieces, each so many times, with a command, and what it prints.
pub(crate) struct Long {
    words: &'static [&'static str],
    pieces: &'static [(&'static str, u32)],
    status: u8,
    printed: &'static str,
}

/// 128 lists in one another are one too many.
const DEEP: Long = Long {
    words: &["check"],
    pieces: &[("[", 128), ("]", 128)],
    status: 3,
    printed: "{\"at\":[0,0,0],\"fault\":1,\"section\":\"whole\"}\n",
};

/// A text of one byte more than there may be, in a cell of another kind.
const LONG_TEXT: Long = Long {
    words: &["check"],
    pieces: &[
        (
            r#"{"format":1,"schema":{"objects":["V"],"arrows":[],"attributes":[["w","V","int"]]},"instance":{"parts":[2],"rows":[],"cells":[[0,""#,
            1,
        ),
        ("x", 65_536),
        ("\"]]}}", 1),
    ],
    status: 3,
    printed: "{\"at\":[0,1,0],\"fault\":4,\"section\":\"cells\"}\n",
};

/// A term of 33 levels is one level too deep.
const DEEP_TERM: Long = Long {
    words: &["check"],
    pieces: &[
        (
            r#"{"format":1,"schema":{"objects":["V"],"arrows":[],"attributes":[["w","V","int"]]},"watches":[{"name":"x","pattern":{"parts":[1],"rows":[],"cells":[["w",0,"#,
            1,
        ),
        (r#"{"op":"add","args":["#, 32),
        ("1", 1),
        (",1]}", 32),
        ("]]}}]}", 1),
    ],
    status: 3,
    printed: "{\"at\":[0,1,0],\"fault\":4,\"section\":\"watches\"}\n",
};

/// 4,097 times 4,097 pairs are 8,193 more than there may be.
const MANY_PAIRS: Long = Long {
    words: &["pullback"],
    pieces: &[
        (
            r#"{"format":1,"schema":{"objects":["V"],"arrows":[]},"cospan":{"base":{"parts":[1],"rows":[]},"left":{"parts":[4097],"rows":[]},"right":{"parts":[4097],"rows":[]},"left_map":[["#,
            1,
        ),
        ("0,", 4_096),
        (r#"0]],"right_map":[["#, 1),
        ("0,", 4_096),
        ("0]]}}", 1),
    ],
    status: 0,
    printed: "{\"too_large\":\"V\"}\n",
};

/// All of them.
pub(crate) const LONG: [Long; 4] = [DEEP, LONG_TEXT, DEEP_TERM, MANY_PAIRS];

/// Puts the text behind so many times.
fn push_times(text: &mut String, piece: &str, times: u32) -> Result<(), Fail> {
    for _time in 0..times {
        text.push_str(piece)?;
    }
    Ok(())
}

/// The pieces, each so many times.
fn repeated(alloc: Global, pieces: &[(&str, u32)]) -> Result<String, Fail> {
    let mut text = String::new(alloc);
    for (piece, times) in pieces {
        push_times(&mut text, *piece, *times)?;
    }
    Ok(text)
}

/// Checks the status and the text of each.
pub(crate) fn check_long(rt: &impl Abort, alloc: Global, documents: &[Long]) -> Result<(), Fail> {
    for long in documents {
        let document = repeated(alloc, long.pieces)?;
        check(
            rt,
            alloc,
            long.words,
            document.as_bytes(),
            long.status,
            long.printed,
        )?;
    }
    Ok(())
}
