//! Documents that differ in one piece alone, as tables.

use crate::commands::check;
use std::alloc::Global;
use std::process::Abort;
use std::test::Fail;

/// Pieces of documents, and what is printed of each.
pub(crate) struct Table {
    /// The command.
    pub(crate) words: &'static [&'static str],
    /// What stands before the piece.
    pub(crate) before: &'static [&'static str],
    /// A line for each piece: the piece, an arrow, and what differs in what is printed.
    pub(crate) pieces: &'static str,
    /// What stands after the piece.
    pub(crate) after: &'static str,
    /// The status.
    pub(crate) status: u8,
    /// What is printed before what differs.
    pub(crate) printed_before: &'static str,
    /// What is printed after it.
    pub(crate) printed_after: &'static str,
    /// How many pieces there are.
    pub(crate) count: u64,
}

/// The texts one after the other.
fn joined(alloc: Global, texts: &[&str]) -> Result<String, Fail> {
    let mut joined = String::new(alloc);
    for text in texts {
        joined.push_str(*text)?;
    }
    Ok(joined)
}

/// The piece between the others.
fn between(alloc: Global, before: &str, piece: &str, after: &str) -> Result<String, Fail> {
    let mut text = String::from_str(alloc, before)?;
    text.push_str(piece)?;
    text.push_str(after)?;
    Ok(text)
}

/// Checks what is printed of the document.
fn check_document(
    rt: &impl Abort,
    alloc: Global,
    document: &[u8],
    table: &Table,
    differs: &str,
) -> Result<(), Fail> {
    let text = between(alloc, table.printed_before, differs, table.printed_after)?;
    check(
        rt,
        alloc,
        table.words,
        document,
        table.status,
        text.as_str(),
    )
}

/// Checks what is printed of the document with the piece.
fn check_piece(
    rt: &impl Abort,
    alloc: Global,
    before: &str,
    table: &Table,
    piece: &str,
    differs: &str,
) -> Result<(), Fail> {
    let document = between(alloc, before, piece, table.after)?;
    check_document(rt, alloc, document.as_bytes(), table, differs)
}

/// Checks each piece of the table. It answers how many there are.
fn check_pieces(rt: &impl Abort, alloc: Global, before: &str, table: &Table) -> Result<u64, Fail> {
    let mut count = 0u64;
    for line in table.pieces.lines() {
        if let Some((piece, differs)) = line.split_once(" => ") {
            check_piece(rt, alloc, before, table, piece, differs)?;
            count = count.saturating_add(1);
        }
    }
    Ok(count)
}

/// Checks each piece of each table.
pub(crate) fn check_tables(rt: &impl Abort, alloc: Global, tables: &[Table]) -> Result<(), Fail> {
    for table in tables {
        let before = joined(alloc, table.before)?;
        let count = check_pieces(rt, alloc, before.as_str(), table)?;
        assert_eq!(rt; count, table.count, "{}", table.pieces);
    }
    Ok(())
}
