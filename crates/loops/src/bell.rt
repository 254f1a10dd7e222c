//! How loops hear of news in rooms, and of arrivals.

ghost use Rattle.std.specs.Prelude.{◌≡◌, ◌≢◌, ◌⊎◌, ◌^◌, ◌<◌, ◌≤◌, ◌↔◌, IfOk, vec_len};

use crate::fault::LoopsFault;
use crate::mail::{Handed, Mail, News, Outlook};
use mio::{Poll, Token, Waker};
use std::alloc::{AllocError, Global};
use std::net::Net;
use std::sync::atomic::{AtomicU64, Ordering};
use std::sync::{Mutex, Wait};

/// The most loops: a word has a bit for each.
pub const MAX_LOOPS: usize = 64;

/// The token of a waker's events.
pub(crate) const WAKE: Token = Token(usize::MAX);

/// The mail of a loop, and what wakes it.
#[derive(Drop)]
struct Mailbox {
    mail: Mutex<Mail>,
    waker: Waker,
}

impl Mailbox {
    /// A mailbox for the loop of this poll.
    fn new(alloc: Global, poll: &Poll, places: usize) -> Result<Mailbox, LoopsFault>
        ensures { result ≢ Err LoopsFault.NoLoop }
    {
        let mail = Mutex::new(Mail::new(alloc, places)?);
        match Waker::new(poll.registry(), WAKE) {
            Ok(waker) => Ok(Mailbox { mail, waker }),
            Err(_) => Err(LoopsFault::NoPoll),
        }
    }

    /// Wakes the loop. One that cannot be woken looks after a second.
    fn wake(&self) {
        let _ = self.waker.wake();
    }
}

/// Wakes the loops that hold something back until there is news in a room. It has a mailbox for
/// each loop, and for each room a word with a bit for each loop that holds something back there.
#[derive(Drop)]
pub struct Bell {
    mailboxes: Vec<Mailbox>,
    watchers: Vec<AtomicU64>,
}

/// The bit of a loop.
fn bit_of(number: usize) -> u64
    ensures { number < MAX_LOOPS → result ≡ 2 ^ number }
{
    if number < MAX_LOOPS { 1 << number } else { 0 }
}

/// For each room a word without a bit.
fn no_watchers(alloc: Global, places: usize) -> Result<Vec<AtomicU64>, AllocError> {
    let mut watchers = Vec::with_capacity(alloc, places)?;
    for _ in 0..places {
        watchers.push(AtomicU64::new(0))?;
    }
    Ok(watchers)
}

impl Bell {
    /// A bell for so many loops and places of rooms, and for each loop the sockets that it waits
    /// for.
    ///
    /// # Errors
    /// `NoLoop` unless `loops` is from 1 to `MAX_LOOPS`.
    /// `NoPoll` if the system gives no set of sockets.
    /// `NoMemory` if an allocation failed.
    pub fn new(
        rt: &impl Net,
        alloc: Global,
        loops: usize,
        places: usize,
    ) -> Result<(Bell, Vec<Poll>), LoopsFault>
        ensures polls { IfOk result (λ made. vec_len made.1 ≡ loops) }
        ensures no_loop { (result ≡ Err LoopsFault.NoLoop) ↔ ((loops ≡ 0) ⊎ (MAX_LOOPS < loops)) }
    {
        if loops == 0 || loops > MAX_LOOPS {
            return Err(LoopsFault::NoLoop);
        }
        let watchers = no_watchers(alloc, places)?;
        let mut polls = Vec::new(alloc);
        let mut mailboxes = Vec::new(alloc);
        for _ in 0..loops {
            let Ok(poll) = Poll::new(rt) else {
                return Err(LoopsFault::NoPoll);
            };
            let mailbox = Mailbox::new(alloc, &poll, places)?;
            if mailboxes.push(mailbox).is_err() || polls.push(poll).is_err() {
                return Err(LoopsFault::NoMemory);
            }
        }
        Ok((
            Bell {
                mailboxes,
                watchers,
            },
            polls,
        ))
    }

    /// How many places of rooms there are.
    pub(crate) fn places(&self) -> usize {
        self.watchers.len()
    }

    /// There is news in the room at this place: wakes each loop that holds something back there.
    /// Allocates nothing.
    pub fn ring(&self, rt: &impl Wait, place: usize) {
        let Some(watchers) = self.watchers.get(place) else {
            return;
        };
        if watchers.load(Ordering::SeqCst) == 0 {
            return;
        }
        let rung = watchers.swap(0, Ordering::SeqCst);
        for (number, mailbox) in self.mailboxes.iter().enumerate() {
            if rung & bit_of(number) != 0 {
                let is_first = mailbox.mail.lock(rt).add_room(place);
                if is_first {
                    mailbox.wake();
                }
            }
        }
    }

    /// The loop of this number is to hear of the next news in the room at this place.
    pub(crate) fn watch(&self, number: usize, place: usize) {
        if let Some(watchers) = self.watchers.get(place) {
            watchers.fetch_or(bit_of(number), Ordering::SeqCst);
        }
    }

    /// The loop of this number holds nothing back in the room at this place.
    pub(crate) fn unwatch(&self, number: usize, place: usize) {
        if let Some(watchers) = self.watchers.get(place) {
            watchers.fetch_and(!bit_of(number), Ordering::SeqCst);
        }
    }

    /// Hands an arrival to the loop of this number.
    ///
    /// # Errors
    /// The arrival, if the loop takes no more, or an allocation failed.
    pub(crate) fn hand_over(
        &self,
        rt: &impl Wait,
        number: usize,
        handed: Handed,
    ) -> Result<(), Handed> {
        let Some(mailbox) = self.mailboxes.get(number) else {
            return Err(handed);
        };
        mailbox.mail.lock(rt).add_arrival(handed)?;
        mailbox.wake();
        Ok(())
    }

    /// There are no more arrivals.
    pub(crate) fn end(&self, rt: &impl Wait) {
        for mailbox in &self.mailboxes {
            mailbox.mail.lock(rt).end();
            mailbox.wake();
        }
    }

    /// The server goes away: the loops take no more arrivals. Lines that have not opened end. A
    /// session is closed with the code 1001 (RFC 6455, section 7.4.1) behind the answers that wait,
    /// which are sent once they are kept. A line that has not ended after 10 seconds is ended.
    pub fn go_away(&self, rt: &impl Wait) {
        for mailbox in &self.mailboxes {
            mailbox.mail.lock(rt).go_away();
            mailbox.wake();
        }
    }

    /// Returns whether the server goes away.
    pub(crate) fn is_away(&self, rt: &impl Wait) -> bool {
        match self.mailboxes.first() {
            Some(mailbox) => mailbox.mail.lock(rt).outlook() == Outlook::Away,
            None => false,
        }
    }

    /// Exchanges what came for the loop of this number with this news, which is empty. Returns what
    /// is to come.
    pub(crate) fn take(&self, rt: &impl Wait, number: usize, empty: &mut News) -> Outlook {
        match self.mailboxes.get(number) {
            Some(mailbox) => mailbox.mail.lock(rt).take(empty),
            None => Outlook::Last,
        }
    }

    /// The loop of this number takes no more arrivals.
    pub(crate) fn close(&self, rt: &impl Wait, number: usize) {
        if let Some(mailbox) = self.mailboxes.get(number) {
            mailbox.mail.lock(rt).close();
        }
    }
}
