// Links beside the messages of a queue, by which the others of a group are found.
ghost use Rattle.std.specs.Prelude.{◌≡◌};
ghost use Rattle.std.specs.Vec.{vec_len, vec_capacity};
ghost use Rattle.esm_queue.specs.Links.{with_next, with_prev, with_last, last_at};

/// No place: `u32::MAX`, which is above all places.
pub const NONE: u32 = u32::MAX;

/// What is kept beside a message to find the others of its group. A group's founder is the place of its first message,
/// deleted or not; a message of no group is a group of its own.
#[derive(Clone, Copy, Drop, Debug)]
pub struct Link {
    pub founder: u32,
    /// The next message of the group that is not deleted; of no meaning for a deleted message.
    pub next: u32,
    /// The one before, in the same way.
    pub prev: u32,
    /// For a founder, the last message of its group that is not deleted.
    pub last: u32,
    /// For a founder, the founder before it in its bucket.
    pub earlier: u32,
}

/// Sets the next message of the one at the place, if there is one.
pub fn set_next(links: &mut Vec<Link>, place: u32, next: u32)
    ensures items { links.new.items ≡ with_next links.old.items place next }
    ensures len { vec_len links.new ≡ vec_len links.old }
    ensures capacity { vec_capacity links.new ≡ vec_capacity links.old }
{
    if (place as usize) < links.len() {
        links[place as usize].next = next;
    }
}

/// Sets the message before the one at the place, if there is one.
pub fn set_prev(links: &mut Vec<Link>, place: u32, prev: u32)
    ensures items { links.new.items ≡ with_prev links.old.items place prev }
    ensures len { vec_len links.new ≡ vec_len links.old }
    ensures capacity { vec_capacity links.new ≡ vec_capacity links.old }
{
    if (place as usize) < links.len() {
        links[place as usize].prev = prev;
    }
}

/// Sets the last message of the founder's group, if there is one.
pub fn set_last(links: &mut Vec<Link>, founder: u32, last: u32)
    ensures items { links.new.items ≡ with_last links.old.items founder last }
    ensures len { vec_len links.new ≡ vec_len links.old }
    ensures capacity { vec_capacity links.new ≡ vec_capacity links.old }
{
    if (founder as usize) < links.len() {
        links[founder as usize].last = last;
    }
}

/// The last message of the founder's group that is not deleted, `NONE` if there is none.
pub fn last_of(links: &[Link], founder: u32) -> u32
    ensures { result ≡ last_at links.now founder }
{
    if (founder as usize) < links.len() {
        return links[founder as usize].last;
    }
    NONE
}
