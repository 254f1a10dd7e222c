//! The frames that wait to be sent, in order.
//! Their bytes stand in one list, so a frame takes no memory of its own. Once no frame waits, the
//! memory of all is given back.

ghost use Rattle.std.specs.Prelude.{◌≡◌, ◌≢◌, ◌⊎◌, ◌<◌, ℕ, List, [], ◌++◌, ◌∷◌, IfErr, IfSome};
ghost use Rattle.std.specs.Prelude.{IsSomeAnd, None, Ok, OnErr, OnOk, Some, drop, false, length, true};
ghost use Rattle.std.specs.VecDeque.{deque_capacity, deque_len};
ghost use Rattle.websocket.specs.Connection.{Sends, write_step};
ghost use Rattle.websocket.specs.Content.{text as text_content};
ghost use Rattle.connection.specs.Standing.{waiting_len};
ghost use Rattle.connection.specs.Releasing.{IsFirstLost, ReportsFirst};
ghost use Rattle.connection.specs.steps.Frames.{IsRelease};
ghost use Rattle.connection.specs.Serving.{FailsStep, queued_reply, sent_text};
ghost use Rattle.connection.specs.declared.end.End.TheVariants as end;

use crate::end::{End, end_of_error};
use crate::item::Item;
use crate::talk::Talk;
use std::alloc::Global;
use std::collections::VecDeque;
use std::marker::Model;
use websocket::protocol::{Message, NoMask, WebSocketContext};

/// Fewer bytes of frames that have left are kept until all have left.
const MIN_GIVEN_BACK: usize = 4_096;

/// Frames that wait, in order. Contracts see them as a list.
#[derive(Drop)]
pub(crate) struct Waiting<D> {
    alloc: Global,
    items: VecDeque<Item<D>>,
    /// The bytes of these frames, behind those of frames that have left.
    bytes: Vec<u8>,
    /// How many of these bytes have left.
    left: usize,
}

impl<D> Model for Waiting<D> {
    ghost use Rattle.std.specs.Prelude.{List, drop, length, ◌≡◌, ◌+◌};
    ghost use Rattle.connection.specs.Standing.{QueuedFrame};
    ghost use Rattle.connection.specs.steps.Frames.{frames_in, total_len};

    ghost Value = { List (QueuedFrame D) };

    ghost view = { λ f. frames_in f.items.items (drop f.left f.bytes.items) };

    ghost invariant = { λ f. f.left + total_len f.items.items ≡ length f.bytes.items };
}

impl<D: Drop> Waiting<D> {
    /// No frame.
    pub(crate) fn new(alloc: Global) -> Waiting<D>
        ensures { result ≡ [] }
    {
        Waiting {
            alloc,
            items: VecDeque::new(alloc),
            bytes: Vec::new(alloc),
            left: 0,
        }
    }

    /// The number of frames.
    pub(crate) fn count(&self) -> usize
        ensures { result ≡ length self.now }
    {
        self.items.len()
    }

    /// How many bytes they have together.
    pub(crate) fn len(&self) -> usize
        ensures { result ≡ waiting_len self.now }
    {
        self.bytes.len() - self.left
    }

    /// Puts a reply of the protocol, which reports nothing, behind the others, if there is one.
    ///
    /// # Errors
    /// `NoMemory` if an allocation failed. Nothing has changed.
    pub(crate) fn push_reply(&mut self, frame: &[u8]) -> Result<(), End>
        ensures ok { OnOk result (self.new ≡ self.old ++ queued_reply frame.now) }
        ensures err { OnErr result (self.new ≡ self.old) }
        ensures why { IfErr result (λ why. why ≡ end.NoMemory) }
    {
        if frame.is_empty() {
            return Ok(());
        }
        if self.items.reserve(1).is_err() || self.bytes.extend_from_slice(frame).is_err() {
            return Err(End::NoMemory);
        }
        push_reserved(&mut self.items, frame.len(), None);
        Ok(())
    }

    /// Puts the frame of a text behind the others.
    ///
    /// # Errors
    /// Why the frame cannot be made. Nothing has changed.
    pub(crate) fn push_text(
        &mut self,
        context: &mut WebSocketContext,
        text: &str,
        reported: Option<D>,
    ) -> Result<(), End>
        ensures ok { OnOk result ((frame : List ℕ)
            × Sends context.old.role (Some (sent_text text.now)) [] frame
            × (self.new ≡ self.old ++ record { bytes = frame; reported = reported } ∷ [])) }
        ensures context { context.new ≡ context.old }
        ensures err { OnErr result (self.new ≡ self.old) }
        ensures why { IfErr result (FailsStep
            (write_step context.old (text_content text.now))) }
    {
        let before = self.bytes.len();
        if self.items.reserve(1).is_err() {
            return Err(End::NoMemory);
        }
        if let Err(fault) = context.write(Message::Text(text), &mut self.bytes, &mut NoMask) {
            return Err(end_of_error(&fault));
        }
        push_reserved(&mut self.items, self.bytes.len() - before, reported);
        Ok(())
    }

    /// Moves the first frame to the output, if what it reports is kept. Returns whether it did.
    ///
    /// # Errors
    /// Why the connection ends. Nothing has changed.
    pub(crate) fn release_first<T: Talk<Reported = D>>(
        &mut self,
        talk: &T,
        output: &mut Vec<u8>,
    ) -> Result<bool, End>
        ensures moved { result ≡ Ok true → IsRelease T.shows self.old self.new output.old.items
            output.new.items }
        ensures stays { result ≢ Ok true → (self.new ≡ self.old)
            × (output.new.items ≡ output.old.items) }
        ensures waits { result ≡ Ok false → ReportsFirst self.old }
        ensures err { IfErr result (λ why. (why ≡ end.NoMemory)
            ⊎ IsFirstLost T.lacks self.old why) }
    {
        let Some(first) = self.items.front() else {
            return Ok(false);
        };
        if !is_kept(talk, &first.reported)? {
            return Ok(false);
        }
        // The others mostly follow.
        let first = &self.bytes[self.left..self.left + first.len];
        if output.reserve(self.bytes.len() - self.left).is_err()
            || output.extend_from_slice(first).is_err()
        {
            return Err(End::NoMemory);
        }
        self.drop_first();
        Ok(true)
    }

    /// Drops the first frame. Gives back memory if no other waits, or if so many bytes have left
    /// that it costs little for each.
    fn drop_first(&mut self)
        ensures { self.new ≡ drop 1 self.old }
    {
        if let Some(item) = self.items.pop_front() {
            self.left += item.len;
        }
        if self.items.is_empty() {
            self.items.shrink_to_fit();
            self.bytes = Vec::new(self.alloc);
            self.left = 0;
        } else if self.left >= MIN_GIVEN_BACK && self.left >= self.len() {
            self.bytes.drain(..self.left);
            self.left = 0;
        }
    }
}

/// Adds a frame of so many bytes where there is memory for it.
fn push_reserved<D: Drop>(items: &mut VecDeque<Item<D>>, len: usize, reported: Option<D>)
    requires { deque_len items.old < deque_capacity items.old }
    ensures { items.new.items
        ≡ items.old.items ++ record { len = len; reported = reported } ∷ [] }
{
    match items.push_back(Item { len, reported }) {
        Ok(()) => {}
        Err(_) => unreachable!(),
    }
}

/// Returns whether what a frame reports is kept, if it reports anything.
///
/// # Errors
/// Why it will not be kept.
fn is_kept<T: Talk>(talk: &T, reported: &Option<T::Reported>) -> Result<bool, End>
    ensures yes { result ≡ Ok true → IfSome reported.now (λ reported. (receipt : T.Receipt)
        × T.shows receipt reported) }
    ensures no { result ≡ Ok false → reported.now ≢ None }
    ensures err { IfErr result (λ why.
        IsSomeAnd reported.now (λ reported. T.lacks reported why)) }
{
    let Some(reported) = reported else {
        return Ok(true);
    };
    match talk.receipt(reported) {
        Ok(Some(_receipt)) => Ok(true),
        Ok(None) => Ok(false),
        Err(end) => Err(end),
    }
}
