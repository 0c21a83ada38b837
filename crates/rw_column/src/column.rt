//! Columns of numbers, threaded by their numbers.
//!
//! The thread of a number goes from node to node. A node is what a place may follow: node 0 stands before all
//! places, and node x + 1 is the place x. What a node leads to is a stop: a place, or `NOTHING` at the end. Each
//! stop knows the node that leads to it, so a place is taken out of its thread by writing two entries.

ghost use Rattle.std.specs.Prelude.{◌≡◌, ◌≢◌, ◌==◌, ◌&&◌, ◌<◌, ◌≤◌, ◌+◌, nat_lt, [], ◌∷◌, ◌++◌, length, replicate, slice_index, slice_set, IfOk, IsOk, OnOk};
ghost use Rattle.std.specs.Vec.{vec_capacity};
ghost use Rattle.rw_column.specs.Threads.{nothing};
ghost use Rattle.rw_column.specs.inner.Links.{IsStop, IsFirstFrom, IsLed, IsBacked, IsAhead, IsGap};
ghost use Rattle.rw_column.specs.inner.Threads.{after, before};

use std::alloc::{AllocError, Global};
use std::marker::Model;

/// Stands where there is no place and where there is no number: it is above all of them.
pub(crate) const NOTHING: u32 = 4294967295;

/// A list of numbers by place, in which the places that have one number are linked in ascending order.
///
/// A place is added without a number, gets one by [`Column::link`] and is without one again after
/// [`Column::unlink`]; to change a number is to do both. Each of these calls takes constant time but for `link` and
/// [`Column::link_before`], and none takes memory. There is memory for as many places and numbers as [`Column::new`] was asked for, and for
/// more after [`Column::make_room`]: 12 bytes for each place and 8 for each number.
///
/// Knuth, "The Art of Computer Programming", volume 1, section 2.2.5, has lists that are linked both ways.
#[derive(Drop)]
pub struct Column {
    // Of each place its number, the place behind it in the thread, and the node before it.
    values: Vec<u32>,
    next: Vec<u32>,
    previous: Vec<u32>,

    // Of each number its first place, and the node of its last one.
    first: Vec<u32>,
    last: Vec<u32>,
}

impl Model for Column {
    ghost use Rattle.std.specs.Prelude.{length, min};
    ghost use Rattle.std.specs.Vec.{vec_capacity};
    ghost use Rattle.rw_column.specs.Threads.{Threaded};
    ghost use Rattle.rw_column.specs.inner.Threads.{IsThreaded};

    ghost Value = { Threaded };

    ghost view = { λ c. record {
      values = c.values.items;
      targets = length c.first.items;
      room = min (vec_capacity c.values) (min (vec_capacity c.next) (vec_capacity c.previous));
      target_room = min (vec_capacity c.first) (vec_capacity c.last);
    } };

    ghost invariant = { λ c. IsThreaded c.values.items c.next.items c.previous.items c.first.items c.last.items };
}

impl Column {
    /// A column of so many places without numbers, and of so many numbers that may stand there: those below
    /// `targets`. It takes time in proportion to both.
    pub fn new(alloc: Global, places: u32, targets: u32) -> Result<Column, AllocError>
        ensures values { IfOk result (λ column. column.values ≡ replicate places nothing) }
        ensures targets { IfOk result (λ column. column.targets ≡ targets) }
    {
        Ok(Column {
            values: vec![in alloc; NOTHING; places as usize]?,
            next: vec![in alloc; NOTHING; places as usize]?,
            previous: vec![in alloc; 0; places as usize]?,
            first: vec![in alloc; NOTHING; targets as usize]?,
            last: vec![in alloc; 0; targets as usize]?,
        })
    }

    /// Makes room for so many more places and so many more numbers, so that adding them takes no memory. For want
    /// of memory some of the room may have been made, and the column reads as before.
    pub fn make_room(&mut self, places: u32, targets: u32) -> Result<(), AllocError>
        ensures values { self.new.values ≡ self.old.values }
        ensures targets { self.new.targets ≡ self.old.targets }
        ensures room { OnOk result (length self.old.values + places ≤ self.new.room) }
        ensures target_room { OnOk result (self.old.targets + targets ≤ self.new.target_room) }
        ensures kept_room { self.old.room ≤ self.new.room }
        ensures kept_target_room { self.old.target_room ≤ self.new.target_room }
        ensures succeeds { length self.old.values + places ≤ self.old.room → self.old.targets + targets ≤ self.old.target_room → IsOk result }
    {
        self.values.reserve(places as usize)?;
        self.next.reserve(places as usize)?;
        self.previous.reserve(places as usize)?;
        self.first.reserve(targets as usize)?;
        self.last.reserve(targets as usize)
    }

    /// Adds a place behind the others, with no number yet.
    pub fn add_place(&mut self)
        requires room { length self.old.values < self.old.room }
        requires few { length self.old.values < nothing }
        ensures values { self.new.values ≡ self.old.values ++ nothing ∷ [] }
        ensures targets { self.new.targets ≡ self.old.targets }
        ensures room { self.old.room ≤ self.new.room }
        ensures target_room { self.new.target_room ≡ self.old.target_room }
    {
        push_within(&mut self.values, NOTHING);
        push_within(&mut self.next, NOTHING);
        push_within(&mut self.previous, 0);
    }

    /// Adds a number, the next one above the others, which stands at no place yet.
    pub fn add_target(&mut self)
        requires room { self.old.targets < self.old.target_room }
        requires few { self.old.targets < nothing }
        ensures values { self.new.values ≡ self.old.values }
        ensures targets { self.new.targets ≡ self.old.targets + 1 }
        ensures room { self.new.room ≡ self.old.room }
        ensures target_room { self.old.target_room ≤ self.new.target_room }
    {
        push_within(&mut self.first, NOTHING);
        push_within(&mut self.last, 0);
    }

    /// Gives a place that has no number one, and puts it between the places of that number at its place in their order.
    ///
    /// Where it belongs is looked for from the number's last place backwards: one step for each place of the number
    /// behind it. So a place behind all others of its number, as one that was just added, is linked in constant time.
    pub fn link(&mut self, place: u32, value: u32)
        requires place { place < length self.old.values }
        requires value { value < self.old.targets }
        requires free { slice_index self.old.values place ≡ nothing }
        ensures { self.new ≡ record { values = slice_set self.old.values place value; targets = self.old.targets; room = self.old.room; target_room = self.old.target_room } }
    {
        self.link_from(place, value, NOTHING);
    }

    /// Does what [`Column::link`] does, and looks for where the place belongs from a place behind it that has the
    /// number: one step for each place of the number between the two. So places that are linked one after the other from
    /// the last to the first, each before the one just linked, take one walk together.
    pub fn link_before(&mut self, place: u32, value: u32, behind: u32)
        requires place { place < behind }
        requires behind { behind < length self.old.values }
        requires has { slice_index self.old.values behind ≡ value }
        requires value { value < self.old.targets }
        requires free { slice_index self.old.values place ≡ nothing }
        ensures { self.new ≡ record { values = slice_set self.old.values place value; targets = self.old.targets; room = self.old.room; target_room = self.old.target_room } }
    {
        self.link_from(place, value, behind);
    }

    /// Gives the place the number, and looks for where it belongs from a stop of the number backwards.
    fn link_from(&mut self, place: u32, value: u32, from: u32)
        requires place { place < length self.old.values }
        requires value { value < self.old.targets }
        requires free { slice_index self.old.values place ≡ nothing }
        requires stop { IsStop (length self.old.values) (slice_index self.old.values) value from }
        requires ahead { from ≢ nothing → place < from }
        ensures { self.new ≡ record { values = slice_set self.old.values place value; targets = self.old.targets; room = self.old.room; target_room = self.old.target_room } }
    {
        let (node, stop) = gap(self, place, value, from);
        self.values[place as usize] = value;
        self.next[place as usize] = stop;
        self.previous[place as usize] = node;
        lead(&mut self.next, &mut self.first, value, node, place);
        back(&mut self.previous, &mut self.last, value, stop, place + 1);
    }

    /// Takes its number from a place, and takes the place out from between the other places of that number.
    pub fn unlink(&mut self, place: u32)
        requires place { place < length self.old.values }
        requires some { slice_index self.old.values place ≢ nothing }
        ensures { self.new ≡ record { values = slice_set self.old.values place nothing; targets = self.old.targets; room = self.old.room; target_room = self.old.target_room } }
    {
        let value = entry(&self.values, place);
        let node = entry(&self.previous, place);
        let stop = entry(&self.next, place);
        lead(&mut self.next, &mut self.first, value, node, stop);
        back(&mut self.previous, &mut self.last, value, stop, node);
        self.values[place as usize] = NOTHING;
    }

    /// The first place that has the number, or nothing.
    #[tactic(auto, using(crate::proofs::Threads::first_of))]
    pub(crate) fn first(&self, value: u32) -> u32
        requires { value < self.now.targets }
        ensures first { IsFirstFrom (length self.now.values) (slice_index self.now.values) value 0 result }
        ensures few { length self.now.values ≤ nothing }
    {
        entry(&self.first, value)
    }

    /// The next place behind this one that has the same number, or nothing.
    #[tactic(auto, using(crate::proofs::Threads::next_of))]
    pub(crate) fn next(&self, place: u32) -> u32
        requires place { place < length self.now.values }
        requires value { slice_index self.now.values place < self.now.targets }
        ensures next { IsFirstFrom (length self.now.values) (slice_index self.now.values) (slice_index self.now.values place) (place + 1) result }
        ensures few { length self.now.values ≤ nothing }
    {
        entry(&self.next, place)
    }

    /// Whether there is such a place and it has the number. So for 2^32 - 1: whether it is there and has none.
    pub fn has(&self, place: u32, value: u32) -> bool
        ensures { result ≡ (nat_lt place (length self.now.values) && slice_index self.now.values place == value) }
    {
        if place as usize >= self.values.len() {
            return false;
        }
        entry(&self.values, place) == value
    }

    /// How many places there are.
    pub fn places(&self) -> u32
        ensures { result ≡ length self.now.values }
    {
        self.values.len() as u32
    }

    /// How many numbers there are: those below it may stand at places.
    pub fn targets(&self) -> u32
        ensures { result ≡ self.now.targets }
    {
        self.first.len() as u32
    }

    /// The number at the place, or 2^32 - 1 where it has none.
    pub fn value(&self, place: u32) -> u32
        requires { place < length self.now.values }
        ensures { result ≡ slice_index self.now.values place }
    {
        self.values[place as usize]
    }
}

/// Appends the number to a list that has memory for it.
fn push_within(list: &mut Vec<u32>, number: u32)
    requires { length list.old.items < vec_capacity list.old }
    ensures items { list.new.items ≡ list.old.items ++ number ∷ [] }
    ensures room { vec_capacity list.old ≤ vec_capacity list.new }
{
    let pushed = list.push(number);
    prove!(pushed.is_ok());
}

/// The entry at the place of the list.
fn entry(list: &Vec<u32>, place: u32) -> u32
    requires { place < length list.now.items }
    ensures { result ≡ slice_index list.now.items place }
{
    list[place as usize]
}

/// Where a place without a number belongs in the thread of one: the node before it and the stop behind it, looked for
/// from a stop backwards.
fn gap(column: &Column, place: u32, value: u32, from: u32) -> (u32, u32)
    requires place { place < length column.now.values }
    requires value { value < column.now.targets }
    requires free { slice_index column.now.values place ≡ nothing }
    requires stop { IsStop (length column.now.values) (slice_index column.now.values) value from }
    requires ahead { from ≢ nothing → place < from }
    ensures { IsGap (length column.now.values) (slice_index column.now.values) value place result.0 result.1 }
{
    let mut stop = from;
    let mut node = node_before(column, place, value, from);
    while node > place {
        stop = node - 1;
        node = entry(&column.previous, stop);
    }
    (node, stop)
}

/// The node that leads to the stop of the number, which is behind the place.
fn node_before(column: &Column, place: u32, value: u32, stop: u32) -> u32
    requires place { place < length column.now.values }
    requires value { value < column.now.targets }
    requires stop { IsStop (length column.now.values) (slice_index column.now.values) value stop }
    requires ahead { stop ≢ nothing → place < stop }
    ensures { IsAhead (length column.now.values) (slice_index column.now.values) value place result stop }
{
    if stop == NOTHING {
        entry(&column.last, value)
    } else {
        entry(&column.previous, stop)
    }
}

/// Lets the node of the number lead to the stop.
fn lead(next: &mut Vec<u32>, first: &mut Vec<u32>, value: u32, node: u32, stop: u32)
    requires value { value < length first.old.items }
    requires node { node < length next.old.items + 1 }
    ensures next { length next.new.items ≡ length next.old.items }
    ensures first { length first.new.items ≡ length first.old.items }
    ensures next_room { vec_capacity next.new ≡ vec_capacity next.old }
    ensures first_room { vec_capacity first.new ≡ vec_capacity first.old }
    ensures led { IsLed (after next.old.items first.old.items) (after next.new.items first.new.items) value node stop }
{
    if node == 0 {
        first[value as usize] = stop;
    } else {
        next[node as usize - 1] = stop;
    }
}

/// Lets the stop of the number know the node as the one that leads to it.
fn back(previous: &mut Vec<u32>, last: &mut Vec<u32>, value: u32, stop: u32, node: u32)
    requires value { value < length last.old.items }
    requires stop { stop ≢ nothing → stop < length previous.old.items }
    ensures previous { length previous.new.items ≡ length previous.old.items }
    ensures last { length last.new.items ≡ length last.old.items }
    ensures previous_room { vec_capacity previous.new ≡ vec_capacity previous.old }
    ensures last_room { vec_capacity last.new ≡ vec_capacity last.old }
    ensures backed { IsBacked (before previous.old.items last.old.items) (before previous.new.items last.new.items) value stop node }
{
    if stop == NOTHING {
        last[value as usize] = node;
    } else {
        previous[stop as usize] = node;
    }
}
