//! The orders that wait, and which of them a thread may carry out now.

ghost use Rattle.std.specs.Prelude.{◌≡◌, ◌+◌, ◌≤◌, ◌↔◌, ◌||◌, IsTrue, IsFalse, IfOk, None, true, false};
ghost use Rattle.keeping.specs.steps.Queues.{after_end, is_close, next_move, next_order, no_orders, once_moved};
ghost use Rattle.keeping.specs.steps.Queues.{threads_for, waits_after, with_first, IsSpaceFor};

use base_types::{NoMemory, RoomName};
use std::alloc::Global;
use std::collections::VecDeque;
use std::marker::Model;

/// What a thread is to do next.
#[derive(Drop)]
pub(crate) enum Order {
    /// To keep the record of the room at this place.
    Keep(usize),
    /// To open the room of this name.
    Open(RoomName),
    /// To close the room at this place.
    Close(usize),
}

/// The orders, in the order in which they came. Records are kept first, then rooms are opened, then
/// closed.
#[derive(Drop)]
pub(crate) struct Queue {
    /// The places of rooms whose records are to be kept.
    keeps: VecDeque<usize>,
    /// The rooms that are to be opened.
    opens: VecDeque<RoomName>,
    /// The places of rooms that are to be closed.
    closes: VecDeque<usize>,
    /// How many threads open and close rooms.
    moving: usize,
    /// How many threads may open and close rooms at a time.
    most_moving: usize,
    /// A thread closes a room. No other does meanwhile: nobody waits for it, and the allocator
    /// keeps memory for each thread that closes rooms.
    is_closing: bool,
    /// No room is opened or closed any more.
    is_over: bool,
}

impl Model for Queue {
    ghost use Rattle.std.specs.VecDeque.{deque_capacity};
    ghost use Rattle.keeping.specs.steps.Queues.{QueueView};

    ghost Value = { QueueView };

    ghost view = { λ queue. record {
      waiting = record {
        keeps = queue.keeps.items;
        opens = queue.opens.items;
        closes = queue.closes.items;
      };
      space = deque_capacity queue.keeps;
      moving = queue.moving;
      most_moving = queue.most_moving;
      is_closing = queue.is_closing;
      is_over = queue.is_over;
    } };
}

impl Queue {
    /// No orders, with space to keep the rooms at so many places. At most `most_moving` threads
    /// open and close rooms at a time.
    ///
    /// # Errors
    /// `NoMemory` if an allocation failed.
    pub(crate) fn new(alloc: Global, places: usize, most_moving: usize) -> Result<Queue, NoMemory>
        ensures space { IfOk result (λ queue. places ≤ queue.space) }
        ensures none { IfOk result (λ queue. queue ≡ no_orders queue.space most_moving) }
    {
        Ok(Queue {
            keeps: VecDeque::with_capacity(alloc, places)?,
            opens: VecDeque::new(alloc),
            closes: VecDeque::new(alloc),
            moving: 0,
            most_moving,
            is_closing: false,
            is_over: false,
        })
    }

    /// Appends an order, but none to open or close a room once all is over. Returns false if an
    /// allocation failed. An order to keep a room takes no memory while there is space.
    pub(crate) fn push(&mut self, order: Order) -> bool
        // What waits.
        ensures added { IsTrue result → self.new.waiting ≡ waits_after self.old order }
        ensures none { IsFalse result → self.new.waiting ≡ self.old.waiting }
        ensures space { IsSpaceFor order self.old → result ≡ true }
        ensures room { self.old.space ≤ self.new.space }
        // All else stays.
        ensures moving { self.new.moving ≡ self.old.moving }
        ensures most { self.new.most_moving ≡ self.old.most_moving }
        ensures closing { self.new.is_closing ≡ self.old.is_closing }
        ensures over { self.new.is_over ≡ self.old.is_over }
    {
        match order {
            Order::Keep(place) => self.keeps.push_back(place).is_ok(),
            Order::Open(_) | Order::Close(_) if self.is_over => true,
            Order::Open(name) => self.opens.push_back(name).is_ok(),
            Order::Close(place) => self.closes.push_back(place).is_ok(),
        }
    }

    /// Takes the next order out that a thread may carry out now.
    pub(crate) fn pop(&mut self) -> Option<Order>
        ensures order { result ≡ next_order self.old }
        // What is left.
        ensures left { self.old.waiting ≡ with_first result self.new.waiting }
        ensures space { self.new.space ≡ self.old.space }
        // Who opens and closes rooms.
        ensures moving { self.new.moving ≡ self.old.moving + threads_for result }
        ensures most { self.new.most_moving ≡ self.old.most_moving }
        ensures closing { self.new.is_closing ≡ (self.old.is_closing || is_close result) }
        ensures over { self.new.is_over ≡ self.old.is_over }
    {
        match self.keeps.pop_front() {
            Some(place) => Some(Order::Keep(place)),
            None => self.pop_move(),
        }
    }

    /// Takes the next order to open or close a room out, if one thread more may do that.
    fn pop_move(&mut self) -> Option<Order>
        ensures order { result ≡ next_move self.old }
        // What is left.
        ensures left { self.old.waiting ≡ with_first result self.new.waiting }
        ensures space { self.new.space ≡ self.old.space }
        // Who opens and closes rooms.
        ensures moving { self.new.moving ≡ self.old.moving + threads_for result }
        ensures most { self.new.most_moving ≡ self.old.most_moving }
        ensures closing { self.new.is_closing ≡ (self.old.is_closing || is_close result) }
        ensures over { self.new.is_over ≡ self.old.is_over }
    {
        if self.moving >= self.most_moving {
            return None;
        }
        if let Some(name) = self.opens.pop_front() {
            self.moving += 1;
            return Some(Order::Open(name));
        }
        if self.is_closing {
            return None;
        }
        let place = self.closes.pop_front()?;
        self.moving += 1;
        self.is_closing = true;
        Some(Order::Close(place))
    }

    /// How many orders threads may take out now, at least 1 if there is one.
    pub(crate) fn count_ready(&self) -> usize
        ensures { (result ≡ 0) ↔ (next_order self.now ≡ None) }
    {
        let moves = if self.moving >= self.most_moving {
            0
        } else {
            let closes = usize::from(!self.is_closing && !self.closes.is_empty());
            self.opens.len().saturating_add(closes)
        };
        self.keeps.len().saturating_add(moves)
    }

    /// A thread has opened a room, as it was ordered to. It may open or close another.
    pub(crate) fn end_opening(&mut self)
        ensures { self.new ≡ once_moved self.old self.old.is_closing }
    {
        self.moving = self.moving.saturating_sub(1);
    }

    /// A thread has closed a room, as it was ordered to. It may open or close another.
    pub(crate) fn end_closing(&mut self)
        ensures { self.new ≡ once_moved self.old false }
    {
        self.is_closing = false;
        self.end_opening();
    }

    /// From now on no room is opened or closed.
    pub(crate) fn end(&mut self)
        ensures { self.new ≡ after_end self.old }
    {
        self.is_over = true;
        self.opens.clear();
        self.closes.clear();
    }

    /// Returns whether no room is opened or closed any more.
    pub(crate) fn is_over(&self) -> bool
        ensures { result ≡ self.now.is_over }
    {
        self.is_over
    }
}
