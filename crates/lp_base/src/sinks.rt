// Sinks in memory, into room that the caller made.
ghost use Rattle.std.specs.Prelude.{◌≡◌, ◌+◌, ◌++◌, ◌<◌, ◌≤◌, ◌⊎◌, ◌-◌, ◌^◌, ◌↔◌, ℕ, List, Option, length, min, None, Some, OnOk, OnErr, IfSome, IsSome, IsErr, take, vec_capacity, if◌then◌else◌, option_map};
ghost use Rattle.lp_base.specs.Counts.{Counts};
ghost use Rattle.lp_base.specs.Schedule.{IsDue, CalledOnce, IsNew};
ghost use Rattle.lp_base.specs.Sinks.{IsFull, HasRoom, sure_count};
ghost use Rattle.lp_base.specs.Written.{Appends, AppendsPrefix};

use crate::schedule::Schedule;
use crate::{Failed, Sink};

// Appends a piece that fits the room that is left.
fn fill(room: &mut Vec<u8>, piece: &[u8])
    requires { length room.old.items + length piece.now ≤ vec_capacity room.old }
    ensures { room.new.items ≡ room.old.items ++ piece.now }
{
    room.extend_from_slice(piece).unwrap();
}

/// A sink in memory that tells its content, fails at calls of given numbers, and fails where a
/// piece does not fit its room.
#[derive(Drop)]
pub struct MemSink {
    room: Vec<u8>,
    schedule: Schedule,
    faults: u64,
}

impl MemSink {
    /// A sink that appends to `room` while its capacity lasts. Those of its calls fail whose
    /// number is in `fail`, counted from 0.
    pub fn new(room: Vec<u8>, fail: Vec<u64>) -> MemSink
        ensures written { ⟦<MemSink as Sink>⟧.written result ≡ Some room.items }
        ensures faults { ⟦<MemSink as Sink>⟧.faults result ≡ 0 }
        ensures schedule { IsNew result.schedule fail.items }
    {
        MemSink {
            room,
            schedule: Schedule::new(fail),
            faults: 0,
        }
    }

    /// All that was written.
    pub fn bytes(&self) -> &[u8]
        ensures { ⟦<MemSink as Sink>⟧.written self.now ≡ Some result.now }
    {
        self.room.as_slice()
    }
}

impl Sink for MemSink {
    ghost written = { λ s. Some s.room.items };

    ghost faults = { λ s. s.faults };

    fn put(&mut self, piece: &[u8]) -> Result<(), Failed>
        ensures appended { OnOk result (Appends (⟦<MemSink as Sink>⟧.written self.old) (⟦<MemSink as Sink>⟧.written self.new) piece.now) }
        ensures prefix { OnErr result (AppendsPrefix (⟦<MemSink as Sink>⟧.written self.old) (⟦<MemSink as Sink>⟧.written self.new) piece.now) }
        ensures faults { Counts (IsErr result) (⟦<MemSink as Sink>⟧.faults self.old) (⟦<MemSink as Sink>⟧.faults self.new) }
        ensures fails { IsErr result ↔ (IsDue self.old.schedule ⊎ IsFull self.old piece.now) }
        ensures called { CalledOnce self.old.schedule self.new.schedule }
    {
        if self.schedule.is_due() {
            self.faults = self.faults.saturating_add(1);
            return Err(Failed);
        }
        if self.room.capacity() - self.room.len() < piece.len() {
            self.faults = self.faults.saturating_add(1);
            return Err(Failed);
        }
        fill(&mut self.room, piece);
        Ok(())
    }
}

/// A sink in memory that never fails. It tells its content until a piece does not fit its room;
/// from then on it only counts.
#[derive(Drop)]
pub struct SureSink {
    room: Vec<u8>,
    is_full: bool,
    count: u64,
}

impl SureSink {
    /// A sink that appends to `room` while its capacity lasts.
    pub fn new(room: Vec<u8>) -> SureSink
        ensures written { ⟦<SureSink as Sink>⟧.written result ≡ Some room.items }
        ensures count { sure_count result ≡ 0 }
    {
        SureSink {
            room,
            is_full: false,
            count: 0,
        }
    }

    /// All that was written, where the room sufficed.
    pub fn bytes(&self) -> Option<&[u8]>
        ensures { option_map (λ bytes. bytes.now) result ≡ ⟦<SureSink as Sink>⟧.written self.now }
    {
        if self.is_full {
            None
        } else {
            Some(self.room.as_slice())
        }
    }

    /// How many bytes were put, at most the greatest `u64`.
    pub fn count(&self) -> u64
        ensures { result ≡ sure_count self.now }
    {
        self.count
    }
}

impl Sink for SureSink {
    ghost written = { λ s. if s.is_full then None else Some s.room.items };

    ghost faults = { λ _. 0 };

    fn put(&mut self, piece: &[u8]) -> Result<(), Failed>
        ensures appended { OnOk result (Appends (⟦<SureSink as Sink>⟧.written self.old) (⟦<SureSink as Sink>⟧.written self.new) piece.now) }
        ensures prefix { OnErr result (AppendsPrefix (⟦<SureSink as Sink>⟧.written self.old) (⟦<SureSink as Sink>⟧.written self.new) piece.now) }
        ensures faults { Counts (IsErr result) (⟦<SureSink as Sink>⟧.faults self.old) (⟦<SureSink as Sink>⟧.faults self.new) }
        ensures tells { IsSome (⟦<SureSink as Sink>⟧.written self.new) ↔ HasRoom self.old piece.now }
        ensures count { sure_count self.new ≡ min (sure_count self.old + length piece.now) (2 ^ 64 - 1) }
    {
        self.count = self.count.saturating_add(piece.len() as u64);
        if self.is_full || self.room.capacity() - self.room.len() < piece.len() {
            self.is_full = true;
        } else {
            fill(&mut self.room, piece);
        }
        Ok(())
    }
}
