//! Tables of operations.

ghost use Rattle.std.specs.Prelude.{◌≡◌, ◌<◌, [], ◌∷◌, ◌++◌, OnOk, length, map, position, slice_get, option_and_then};
ghost use Rattle.std.specs.Str.{bytes_eq};
ghost use Rattle.std.specs.Vec.{vec_len, vec_capacity};
ghost use Rattle.rw_terms.specs.OpTables.{Adds, codes_of};
ghost use Rattle.rw_terms.specs.OpValues.{op_value};

use crate::{Op, OpFault};
use rw_schema::{NameIndex, OutOfMemory};
use std::alloc::Global;

/// A table of operations. Each has a name of its own, and a number: its place, from 0.
#[derive(Drop)]
pub struct OpTable {
    names: NameIndex,
    ops: Vec<Op>,
    ghost named: { names ≡ map (λ op. op.name) ops.items },
}

impl OpTable {
    ghost use Rattle.rw_terms.specs.OpEntries.{entry, entries};

    /// A table without operations. It takes no memory.
    pub fn new(alloc: Global) -> OpTable
        ensures { entries result ≡ [] }
    {
        OpTable {
            names: NameIndex::new(alloc),
            ops: Vec::new(alloc),
        }
    }

    /// Puts an operation behind the others. A refused one is dropped, and the table is as it was.
    pub fn add(&mut self, alloc: Global, op: Op) -> Result<(), OpFault>
        ensures { Adds (entries self.old) (entries self.new) (entry op) result }
    {
        if self.names.has(op.name()) {
            return Err(OpFault::Twice);
        }
        make_room(&mut self.ops)?;
        self.names.push(alloc, op.name())?;
        put(&mut self.ops, op);
        Ok(())
    }

    /// The number of the operation with the name.
    pub fn find(&self, name: &str) -> Option<usize>
        ensures { result ≡ position (λ op. bytes_eq name.now op.name) (entries self.now) }
    {
        self.names.number_of(name)
    }

    /// What an operation gives of two numbers.
    pub fn apply(&self, index: usize, x: i64, y: i64) -> Option<i64>
        requires { index < length (entries self.now) }
        ensures { result ≡ option_and_then (λ code. op_value code x y) (slice_get (codes_of (entries self.now)) index) }
    {
        self.ops[index].apply(x, y)
    }

    /// The number of operations.
    pub fn len(&self) -> usize
        ensures { result ≡ length (entries self.now) }
    {
        self.ops.len()
    }
}

/// Makes room for one operation more.
fn make_room(ops: &mut Vec<Op>) -> Result<(), OutOfMemory>
    ensures items { ops.new.items ≡ ops.old.items }
    ensures room { OnOk result (vec_len ops.new < vec_capacity ops.new) }
{
    ops.reserve(1)?;
    Ok(())
}

/// Puts an operation behind the others, where there is room.
fn put(ops: &mut Vec<Op>, op: Op)
    requires { vec_len ops.old < vec_capacity ops.old }
    ensures { ops.new.items ≡ ops.old.items ++ op ∷ [] }
{
    ops.push(op).unwrap();
}
