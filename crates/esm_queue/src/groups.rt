// The messages of a queue by their groups, with the head of each group and the moment at which it shows.
ghost use Rattle.std.specs.Prelude.{◌≡◌, ℕ, ◌+◌, ◌≤◌, ◌<◌, ◌==◌, ◌&&◌, true, false, List, length, ◌++◌, ◌∷◌, [], slice_get, slice_index};
ghost use Rattle.std.specs.Prelude.{slice_set, Some, IfOk, OnOk, IsOk, if◌then◌else◌};
ghost use Rattle.esm_queue_model.specs.declared.stored.Stored.{Stored};
ghost use Rattle.esm_queue_model.specs.Queue.{is_group, deleted_once};
ghost use Rattle.esm_queue.specs.Moments.{leaves};
ghost use Rattle.esm_queue.specs.Links.{alive_at, group_at, founder_at, head_moment};
ghost use Rattle.esm_queue.specs.Groups.{IsGrouped, IsHeadedBy, room};

use crate::fifo::moment_of;
use crate::links::{Link, NONE, last_of, set_last, set_next, set_prev};
use crate::moment_tree::{MomentTree, NEVER};
use crate::names::{bucket_of, founder_of};
use esm_model::{OutOfMemory, Text};
use esm_queue_model::Stored;
use std::alloc::Global;

/// The number of buckets of a FIFO queue's groups.
const BUCKETS: usize = 65_536;

/// The messages of a queue by their groups. In a standard queue each message is a group of its own.
#[derive(Drop, Debug)]
pub struct Groups {
    pub fifo: bool,
    pub links: Vec<Link>,
    /// In each bucket the last founder of a group whose name falls into it.
    pub buckets: Vec<u32>,
    /// For each message that is the first of its group that is not deleted, the moment at which it shows; `NEVER` for all
    /// others.
    pub heads: MomentTree,
}

/// The moment for the tree of heads, of a message with `prev` before it in its group.
fn head_moment(prev: u32, moment: u64) -> u64
    ensures { result ≡ head_moment prev moment }
{
    if prev == NONE { moment } else { NEVER }
}

/// The founder whose group has this message as its last one; `NONE` if another follows it.
fn shortened(link: &Link) -> u32
    ensures { result ≡ (if link.now.next == NONE then link.now.founder else NONE) }
{
    if link.next == NONE {
        link.founder
    } else {
        NONE
    }
}

/// Makes the next message the head of its group, if the one that goes was.
fn pass_head(heads: &mut MomentTree, messages: &[Stored], link: &Link, visibility_ms: u64)
    requires { length heads.old.moments ≡ length messages.now }
    ensures moments { heads.new.moments ≡ slice_set heads.old.moments link.now.next
        (head_moment link.now.prev (slice_index (leaves visibility_ms messages.now) link.now.next)) }
    ensures spare { heads.new.spare ≡ heads.old.spare }
{
    if (link.next as usize) < messages.len() {
        let moment = moment_of(&messages[link.next as usize], visibility_ms);
        heads.set(link.next, head_moment(link.prev, moment));
    }
}

/// Puts the message at the place into the bucket, if it is a founder.
fn enter(buckets: &mut Vec<u32>, bucket: usize, founder: u32, place: u32)
    requires { bucket < length buckets.old.items }
    ensures { buckets.new.items ≡ (if founder == place then slice_set buckets.old.items bucket place else buckets.old.items) }
{
    if founder == place {
        buckets[bucket] = place;
    }
}

impl Groups {
    /// No messages.
    pub fn new(alloc: Global, fifo: bool) -> Result<Groups, OutOfMemory>
        ensures kind { IfOk result (λ g. g.fifo ≡ fifo) }
        ensures grouped { IfOk result (IsGrouped []) }
        ensures headed { IfOk result (λ g. IsHeadedBy [] g) }
    {
        let count = if fifo { BUCKETS } else { 1 };
        let buckets = vec![in alloc; NONE; count]?;
        let heads = MomentTree::new(alloc)?;
        Ok(Groups {
            fifo,
            links: Vec::new(alloc),
            buckets,
            heads,
        })
    }

    /// Reserves room for `n` more messages.
    pub fn reserve(&mut self, alloc: Global, n: u32) -> Result<(), OutOfMemory>
        requires few { length self.old.heads.moments ≤ u32.MAX }
        ensures kind { self.new.fifo ≡ self.old.fifo }
        ensures grouped { (messages : List Stored) → IsGrouped messages self.old → IsGrouped messages self.new }
        ensures headed { (moments : List ℕ) → IsHeadedBy moments self.old → IsHeadedBy moments self.new }
        ensures ok { OnOk result (n ≤ room self.new) }
        ensures kept { room self.old ≤ room self.new }
        ensures succeeds { n ≤ room self.old → IsOk result }
    {
        self.links.reserve(n as usize)?;
        self.heads.reserve(alloc, n)
    }

    /// The founder of the message that comes next, which is its own place if its group is new.
    fn founder_for(&self, messages: &[Stored], group: &Option<Text>, place: u32) -> u32
        requires grouped { IsGrouped messages.now self.now }
        requires next { place ≡ length messages.now }
        requires few { place < u32.MAX }
        ensures low { result ≤ place }
        ensures founder { result < place → founder_at self.now.links.items result ≡ result }
        ensures same { (i : ℕ) → i < place → (self.now.fifo && is_group (group_at messages.now i) group.now) ≡ (founder_at self.now.links.items i == result) }
    {
        if !self.fifo {
            return place;
        }
        let found = founder_of(
            self.links.as_slice(),
            self.buckets.as_slice(),
            messages,
            group,
        );
        if found == NONE { place } else { found }
    }

    /// Appends a message of the group.
    pub fn append(&mut self, messages: &[Stored], group: &Option<Text>)
        requires grouped { IsGrouped messages.now self.old }
        requires few { length messages.now < u32.MAX }
        requires sized { length self.old.heads.moments ≡ length messages.now }
        requires room { 0 < room self.old }
        ensures kind { self.new.fifo ≡ self.old.fifo }
        ensures grouped { (x : Stored) → x.message.group ≡ group.now → x.deleted ≡ false → IsGrouped (messages.now ++ x ∷ []) self.new }
        ensures headed { (moments : List ℕ) → length moments ≡ length messages.now → IsHeadedBy moments self.old → IsHeadedBy (moments ++ 0 ∷ []) self.new }
        ensures room { room self.old ≤ room self.new + 1 }
    {
        let place = messages.len() as u32;
        let founder = self.founder_for(messages, group, place);
        let bucket = bucket_of(group, self.buckets.len());
        let prev = last_of(self.links.as_slice(), founder);
        let earlier = self.buckets[bucket];
        set_next(&mut self.links, prev, place);
        self.links.push_reserved(Link {
            founder,
            next: NONE,
            prev,
            last: NONE,
            earlier,
        });
        set_last(&mut self.links, founder, place);
        enter(&mut self.buckets, bucket, founder, place);
        self.heads.push(head_moment(prev, 0));
    }

    /// Sets the moment at which the message at the place shows, if it is a head.
    pub fn show(&mut self, place: u32, moment: u64)
        requires within { place < length self.old.links.items }
        requires sized { length self.old.heads.moments ≡ length self.old.links.items }
        ensures kind { self.new.fifo ≡ self.old.fifo }
        ensures links { self.new.links ≡ self.old.links }
        ensures buckets { self.new.buckets ≡ self.old.buckets }
        ensures headed { (moments : List ℕ) → IsHeadedBy moments self.old → IsHeadedBy (slice_set moments place moment) self.new }
        ensures spare { self.new.heads.spare ≡ self.old.heads.spare }
    {
        let moment = head_moment(self.links[place as usize].prev, moment);
        self.heads.set(place, moment);
    }

    /// Takes a message out of its group that is deleted, and was not before.
    pub fn remove(&mut self, messages: &[Stored], place: u32, visibility_ms: u64)
        requires grouped { IsGrouped messages.now self.old }
        requires headed { IsHeadedBy (leaves visibility_ms messages.now) self.old }
        requires alive { alive_at messages.now place ≡ true }
        requires few { length messages.now ≤ u32.MAX }
        ensures kind { self.new.fifo ≡ self.old.fifo }
        ensures grouped { (x : Stored) → slice_get messages.now place ≡ Some x → IsGrouped (slice_set messages.now place (deleted_once x)) self.new }
        ensures headed { IsHeadedBy (slice_set (leaves visibility_ms messages.now) place NEVER) self.new }
        ensures room { room self.new ≡ room self.old }
    {
        let link = self.links[place as usize];
        self.heads.set(place, NEVER);
        pass_head(&mut self.heads, messages, &link, visibility_ms);
        set_next(&mut self.links, link.prev, link.next);
        set_prev(&mut self.links, link.next, link.prev);
        set_last(&mut self.links, shortened(&link), link.prev);
    }
}
