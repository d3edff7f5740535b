// The calls of this run whose batch held each record of a shard, and the answer of the last one that ended.
ghost use Rattle.std.specs.Prelude.{◌≡◌, ℕ, suc, ◌+◌, ◌==◌, ◌<◌, ◌≤◌, true, false, [], length, if◌then◌else◌, Option, OnOk, IsOk};
ghost use Rattle.esm_model.specs.Entries.{holds};
ghost use Rattle.esm_shard_index.specs.Callings.{calls_at, response_at, answer_from, response_from, StandOnce};

use esm_model::{OutOfMemory, Response};
use std::alloc::Global;
use std::marker::Model;

/// The answer to the last call that ended.
#[derive(Clone, Copy, Debug)]
pub enum LastAnswer {
    /// It was lost or garbled, or no call ended.
    Unanswered,
    /// A status, without the header that reports a function error.
    Plain(u16),
    /// A status, with that header.
    Failed(u16),
}

impl LastAnswer {
    fn new(response: Option<Response>) -> LastAnswer
        ensures { result ≡ answer_from response }
    {
        match response {
            None => LastAnswer::Unanswered,
            Some(response) => {
                if response.error {
                    LastAnswer::Failed(response.status)
                } else {
                    LastAnswer::Plain(response.status)
                }
            }
        }
    }

    fn response(self) -> Option<Response>
        ensures { result ≡ response_from self }
    {
        match self {
            LastAnswer::Unanswered => None,
            LastAnswer::Plain(status) => Some(Response {
                status,
                error: false,
            }),
            LastAnswer::Failed(status) => Some(Response {
                status,
                error: true,
            }),
        }
    }
}

/// The calls of this run whose batch held a record, and the answer to the last one that ended: eight bytes.
#[derive(Clone, Copy, Debug)]
pub struct Calling {
    pub calls: u32,
    pub answer: LastAnswer,
}

const _: () = prove!(size_of::<Calling>() == 8);

/// The calls of each record of a shard. In reserved room nothing takes memory.
#[derive(Drop, Debug)]
pub struct Callings {
    records: Vec<Calling>,
}

impl Model for Callings {
    ghost use Rattle.std.specs.Prelude.{◌-◌, vec_len, vec_capacity};
    ghost use Rattle.esm_shard_index.specs.Callings.{Called};

    ghost Value = { Called };

    ghost view = { λ c. record { records = c.records.items; room = vec_capacity c.records - vec_len c.records } };
}

impl Callings {
    /// Of a shard of which no record came.
    pub fn new(alloc: Global) -> Self
        ensures { result.records ≡ [] }
    {
        Callings {
            records: Vec::new(alloc),
        }
    }

    /// Reserves room for `count` more records.
    pub fn reserve(&mut self, count: usize) -> Result<(), OutOfMemory>
        ensures records { self.new.records ≡ self.old.records }
        ensures room { self.old.room ≤ self.new.room }
        ensures ok { OnOk result (count ≤ self.new.room) }
        ensures succeeds { count ≤ self.old.room → IsOk result }
    {
        self.records.reserve(count)?;
        Ok(())
    }

    /// `count` more records came.
    pub fn came(&mut self, count: usize)
        requires room { count ≤ self.old.room }
        ensures len { length self.new.records ≡ length self.old.records + count }
        ensures calls { (i : ℕ) → calls_at self.new i ≡ calls_at self.old i }
        ensures responses { (i : ℕ) → response_at self.new i ≡ response_at self.old i }
        ensures room { self.new.room + count ≡ self.old.room }
    {
        for _i in 0..count {
            self.came_one();
        }
    }

    fn came_one(&mut self)
        requires room { 0 < self.old.room }
        ensures len { length self.new.records ≡ length self.old.records + 1 }
        ensures calls { (i : ℕ) → calls_at self.new i ≡ calls_at self.old i }
        ensures responses { (i : ℕ) → response_at self.new i ≡ response_at self.old i }
        ensures room { self.new.room + 1 ≡ self.old.room }
    {
        self.records.push_reserved(Calling {
            calls: 0,
            answer: LastAnswer::Unanswered,
        });
    }

    /// A call began whose batch holds these places, each once.
    pub fn began(&mut self, places: &[u32])
        requires came { (i : ℕ) → holds places.now i ≡ true → i < length self.old.records }
        requires once { StandOnce places.now }
        requires few { (i : ℕ) → holds places.now i ≡ true → calls_at self.old i < u32.MAX }
        ensures len { length self.new.records ≡ length self.old.records }
        ensures calls { (i : ℕ) → calls_at self.new i ≡ (if holds places.now i then suc (calls_at self.old i) else calls_at self.old i) }
        ensures responses { (i : ℕ) → response_at self.new i ≡ response_at self.old i }
        ensures room { self.new.room ≡ self.old.room }
    {
        for place in places {
            self.began_one(*place);
        }
    }

    fn began_one(&mut self, place: u32)
        requires came { place < length self.old.records }
        requires few { calls_at self.old place < u32.MAX }
        ensures len { length self.new.records ≡ length self.old.records }
        ensures here { calls_at self.new place ≡ suc (calls_at self.old place) }
        ensures others { (i : ℕ) → (place == i) ≡ false → calls_at self.new i ≡ calls_at self.old i }
        ensures responses { (i : ℕ) → response_at self.new i ≡ response_at self.old i }
        ensures room { self.new.room ≡ self.old.room }
    {
        let before = self.records[place as usize];
        self.records[place as usize] = Calling {
            calls: before.calls + 1,
            answer: before.answer,
        };
    }

    /// The call ended whose batch holds these places.
    pub fn ended(&mut self, places: &[u32], response: Option<Response>)
        requires came { (i : ℕ) → holds places.now i ≡ true → i < length self.old.records }
        ensures len { length self.new.records ≡ length self.old.records }
        ensures calls { (i : ℕ) → calls_at self.new i ≡ calls_at self.old i }
        ensures responses { (i : ℕ) → response_at self.new i ≡ (if holds places.now i then response else response_at self.old i) }
        ensures room { self.new.room ≡ self.old.room }
    {
        for place in places {
            self.ended_one(*place, response);
        }
    }

    fn ended_one(&mut self, place: u32, response: Option<Response>)
        requires came { place < length self.old.records }
        ensures len { length self.new.records ≡ length self.old.records }
        ensures calls { (i : ℕ) → calls_at self.new i ≡ calls_at self.old i }
        ensures here { response_at self.new place ≡ response }
        ensures others { (i : ℕ) → (place == i) ≡ false → response_at self.new i ≡ response_at self.old i }
        ensures room { self.new.room ≡ self.old.room }
    {
        let before = self.records[place as usize];
        self.records[place as usize] = Calling {
            calls: before.calls,
            answer: LastAnswer::new(response),
        };
    }

    /// The number of calls whose batch held the record at the place.
    pub fn calls(&self, place: u32) -> u32
        requires { place < length self.now.records }
        ensures { result ≡ calls_at self.now place }
    {
        self.records[place as usize].calls
    }

    /// The answer to the last of these calls that ended; `None` if it was lost or garbled, or none ended.
    pub fn response(&self, place: u32) -> Option<Response>
        requires { place < length self.now.records }
        ensures { result ≡ response_at self.now place }
    {
        let calling = self.records[place as usize];
        calling.answer.response()
    }
}
