// A source in memory.
ghost use Rattle.std.specs.Prelude.{◌≡◌, ◌<◌, ◌↔◌, Contains, IsErr, IfOk, length};
ghost use Rattle.std.specs.Io.{ReadsAtMost};
ghost use Rattle.std.specs.Io.KnownBytes.{ReadConsumes};
ghost use Rattle.rw_outside.specs.Faults.{next_count, count_after};
ghost use Rattle.rw_outside.specs.MemSource.{given_count};

use crate::failed::Failed;
use crate::source::Source;
use std::marker::Model;

/// A source over bytes in memory that gives at most so many bytes a call and fails at the calls
/// whose numbers it is told, from 0. A call number or count of 2^64 - 1 stays.
#[derive(Drop)]
pub struct MemSource {
    bytes: Vec<u8>,
    next: usize,
    most: usize,
    failing: Vec<u64>,
    calls: u64,
    faults: u64,
}

impl Model for MemSource {
    ghost use Rattle.std.specs.Prelude.{◌<◌, ◌≤◌, length, drop};
    ghost use Rattle.rw_outside.specs.MemSource.{SourceState};

    ghost Value = { SourceState };

    ghost view = { λ s. record {
      left = drop s.next s.bytes.items;
      most = s.most;
      failing = s.failing.items;
      calls = s.calls;
      faults = s.faults;
    } };

    ghost invariant = { λ s. (s.next ≤ length s.bytes.items) × (0 < s.most) };
}

impl MemSource {
    /// A source with these bytes left, which gives at most `most` of them a call.
    pub fn new(bytes: Vec<u8>, most: usize, failing: Vec<u64>) -> MemSource
        requires { 0 < most }
        ensures { result ≡ record {
          left = bytes.items;
          most = most;
          failing = failing.items;
          calls = 0;
          faults = 0;
        } }
    {
        MemSource {
            bytes,
            next: 0,
            most,
            failing,
            calls: 0,
            faults: 0,
        }
    }
}

impl Source for MemSource {
    ghost use Rattle.std.specs.Prelude.{Some};

    ghost left = { λ s. Some s.left };

    ghost faults = { λ s. s.faults };

    fn take(&mut self, room: &mut [u8]) -> Result<usize, Failed>
        ensures bound { ReadsAtMost result room.new }
        ensures bytes { ReadConsumes (Some self.old.left) (Some self.new.left) result room.new }
        ensures faults { self.new.faults ≡ count_after self.old.faults result }

        ensures failed { IsErr result ↔ Contains self.old.failing self.old.calls }
        ensures given { IfOk result (λ count. count ≡ given_count self.old (length room.old)) }
        ensures calls { self.new.calls ≡ next_count self.old.calls }
        ensures most { self.new.most ≡ self.old.most }
        ensures failing { self.new.failing ≡ self.old.failing }
    {
        let fails = self.failing.contains(&self.calls);
        self.calls = self.calls.saturating_add(1);
        if fails {
            self.faults = self.faults.saturating_add(1);
            return Err(Failed);
        }
        let (_, rest) = self.bytes.split_at(self.next);
        let count = self.most.min(room.len().min(rest.len()));
        room[..count].copy_from_slice(&rest[..count]);
        self.next += count;
        Ok(count)
    }
}
