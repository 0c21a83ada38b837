//! Laws of answers and of runs.

ghost use Rattle.std.specs.Prelude.{List, length};
ghost use Rattle.rw_terms.specs.declared.code.OpCode.{OpCode};
ghost use Rattle.rw_document.specs.Models.{document_lists, IsSound};
ghost use Rattle.rw_terms.specs.OpEntries.{entries};
ghost use Rattle.rw_app.specs.Commands.{Request};
ghost use Rattle.rw_app.specs.OneAnswer.{HasOneAnswer};
ghost use Rattle.rw_app.specs.OneRun.{HasOneRun};

use rw_document::Document;
use rw_terms::OpTable;

/// A sound document, whatever the operations of its terms are, has exactly one run with so much fuel, so its text is
/// determined: each firing is that of the first match with a step, and the step is the one double pushout. The call does
/// nothing that is seen: its contract is the law.
pub fn has_one_run(document: &Document, fuel: u32)
    ensures { (codes : List OpCode) → IsSound (length codes) (document_lists document.now) → HasOneRun codes (document_lists document.now) fuel }
{
    // The document's instance is one of the category that its schema presents.
    let _rows = document.table.rows();
}

/// Whatever is asked of the bytes of a document, whose terms can name the operations of the table, there is one answer: its
/// status and its text are determined. The call does nothing: its contract is the law.
pub fn has_one_answer(bytes: &[u8], ops: &OpTable)
    ensures { (request : Request) → HasOneAnswer (entries ops.now) request bytes.now }
{}
