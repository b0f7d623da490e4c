ghost use Rattle.std.specs.Prelude.{◌≡◌, ◌↔◌, ◌≤◌, ◌<◌, true, false, slice_get, slice_index_or, [], ◌∷◌, ◌++◌, All, length, IfOk, IfSome, IsErrOf, OnOk, OnErr, vec_len};
ghost use Rattle.std.specs.Vec.{vec_capacity};
ghost use Rattle.ens_base.specs.View.{IsPeer};
ghost use Rattle.network.specs.Lines.{Changes};
ghost use Rattle.network.specs.Mail.{older};
ghost use Rattle.network.specs.Representation.{AreSettled};
ghost use Rattle.std.specs.Option.{option_map_or};

use crate::error::SendError;
use crate::lines::Lines;
use ens_base::{PeerId, PeerSet};
use std::alloc::{AllocError, Global};
use std::marker::Model;
use wire_frames::Frame;

/// All messages sent so far, and which of them still wait. The first message has number 0.
/// Contracts see a `Mail`: the list of messages, and a flag for each that says whether it waits.
#[derive(Drop)]
pub struct Network {
    sent: Vec<Frame>,
    /// For each message whether it waits.
    waiting: Vec<bool>,
    /// The numbers of the waiting messages, in one line for each sender and receiver, the oldest at
    /// the prefix. Behind the prefix there may also be messages that no longer wait.
    lines: Lines,
    /// Above the number of every sender and receiver so far, and at most 32.
    bound: u32,
    /// No message below this number waits.
    first: usize,
}

impl Model for Network {
    ghost use Rattle.network.specs.Mail.{Mail};

    ghost Value = { Mail };

    ghost use Rattle.network.specs.Representation.{mail_in, IsKept};

    ghost view = { λ n. mail_in n.sent.items n.waiting.items };

    ghost invariant = { λ n. IsKept n.sent.items n.waiting.items n.lines n.bound n.first };
}

impl Network {
    ghost use Rattle.network.specs.Mail.{no_mail, posted, settled, lost, oldest, goes, goes_into, is_among, MayBeSent, IsMail, most_messages};
    ghost use Rattle.network.specs.Lines.{line_place};
    ghost use Rattle.network.specs.Representation.{IsBelow};

    /// The greatest number of messages that a network keeps.
    pub const MOST: usize = 500_000;

    /// Makes a network in which nothing was sent. Fails when out of memory.
    pub fn new(alloc: Global) -> Result<Network, AllocError>
        ensures { IfOk result (λ n. n ≡ no_mail) }
    {
        let lines = Lines::new(alloc)?;
        Ok(Network {
            sent: Vec::new(alloc),
            waiting: Vec::new(alloc),
            lines,
            bound: 1,
            first: 0,
        })
    }

    /// Returns all messages sent so far, in the order of sending.
    pub fn sent(&self) -> &[Frame]
        ensures sent { result.now ≡ self.now.sent }
        ensures mail { IsMail self.now }
        ensures may { All MayBeSent self.now.sent }
    {
        self.sent.as_slice()
    }

    /// Whether the message `number` waits. A message that was not sent does not.
    pub fn waits(&self, number: usize) -> bool
        ensures { result ≡ slice_index_or self.now.waits number false }
    {
        match self.waiting.get(number) {
            Some(waits) => *waits,
            None => false,
        }
    }

    /// Returns the place of the line for this sender and receiver.
    fn place(from: u32, to: u32) -> usize
        requires { IsPeer from × IsPeer to }
        ensures { result ≡ line_place from to }
    {
        (from * 32 + to) as usize
    }

    /// Returns the bound after one more message.
    fn bound_with(bound: u32, frame: &Frame) -> u32
        requires { (bound ≤ 32) × MayBeSent frame.now }
        ensures higher { bound ≤ result }
        ensures below { IsBelow result frame.now }
        ensures few { result ≤ 32 }
    {
        let ends = frame.from.max(frame.to);
        bound.max(ends + 1)
    }

    /// Sends a message from a peer to another. It obeys the grammar of frames, gets the next number,
    /// and waits.
    ///
    /// # Errors
    ///
    /// `Limit` exactly if 500,000 messages were sent already, and `Memory` when out of memory. Both
    /// leave the network as it was.
    pub fn send(&mut self, frame: Frame) -> Result<(), SendError>
        requires { MayBeSent frame }
        ensures ok { OnOk result (self.new ≡ posted self.old frame) }
        ensures err { OnErr result (self.new ≡ self.old) }
        ensures limit { IsErrOf result SendError.Limit ↔ (most_messages ≤ length self.old.sent) }
    {
        if self.sent.len() >= Network::MOST {
            return Err(SendError::Limit);
        }
        let place = Network::place(frame.from, frame.to);
        let bound = Network::bound_with(self.bound, &frame);
        add_waiting(
            &mut self.sent,
            &mut self.waiting,
            &mut self.lines,
            place,
            frame,
        )?;
        self.bound = bound;
        Ok(())
    }

    /// Marks the message `number` as no longer waiting. Does nothing if there is no such message.
    pub fn settle(&mut self, number: usize)
        ensures { self.new ≡ settled self.old number }
    {
        let Some(frame) = self.sent.get(number) else {
            return;
        };
        let place = Network::place(frame.from, frame.to);
        self.waiting[number] = false;
        self.lines.skip(place, self.waiting.as_slice());
        self.first = next_waiting(self.waiting.as_slice(), self.first);
    }

    /// Loses all messages waiting from `from` to `to`. They stay in the list of sent messages.
    pub fn lose(&mut self, from: PeerId, to: PeerId)
        requires { IsPeer from × IsPeer to }
        ensures { self.new ≡ lost from to self.old }
    {
        let place = Network::place(from.0, to.0);
        self.lines.clear(place, self.waiting.as_mut_slice());
    }

    /// Returns the number of the oldest message waiting from `from` to `to`.
    pub fn oldest_between(&self, from: PeerId, to: PeerId) -> Option<usize>
        requires { IsPeer from × IsPeer to }
        ensures oldest { result ≡ oldest (goes from to) self.now }
        ensures sent { IfSome result (λ n. n < length self.now.sent) }
    {
        self.lines.first(Network::place(from.0, to.0))
    }

    /// Returns the number of the oldest message waiting from `from` to a member of `peers`.
    fn oldest_from(&self, from: PeerId, peers: &PeerSet) -> Option<usize>
        requires { IsPeer from }
        ensures { result ≡ oldest (goes_into from peers.now) self.now }
    {
        let bound = self.bound;
        let mut best = None;
        for number in 1..bound {
            let to = PeerId(number);
            if peers.has(to) {
                best = older(best, self.oldest_between(from, to));
            }
        }
        best
    }

    /// Whether the sender and the receiver of the message `number` are both in `peers`.
    fn goes_among(&self, number: usize, peers: &PeerSet) -> bool
        ensures { result ≡ option_map_or (is_among peers.now) (slice_get self.now.sent number) false }
    {
        match self.sent.get(number) {
            Some(frame) => peers.has(PeerId(frame.from)) && peers.has(PeerId(frame.to)),
            None => false,
        }
    }

    /// Returns the number of the oldest waiting message whose sender and receiver are both in
    /// `peers`. The first message that may wait is looked at before the lines are.
    pub fn oldest_among(&self, peers: &PeerSet) -> Option<usize>
        ensures oldest { result ≡ oldest (is_among peers.now) self.now }
        ensures sent { IfSome result (λ n. n < length self.now.sent) }
    {
        let first = self.first;
        if self.waits(first) && self.goes_among(first, peers) {
            return Some(first);
        }
        self.oldest_in_lines(peers)
    }

    /// Returns the number of the oldest message in the lines whose sender and receiver are both in
    /// `peers`.
    fn oldest_in_lines(&self, peers: &PeerSet) -> Option<usize>
        ensures oldest { result ≡ oldest (is_among peers.now) self.now }
        ensures sent { IfSome result (λ n. n < length self.now.sent) }
    {
        let bound = self.bound;
        let mut best = None;
        for number in 1..bound {
            let from = PeerId(number);
            if peers.has(from) {
                best = older(best, self.oldest_from(from, peers));
            }
        }
        best
    }
}

/// Adds a waiting message to the messages, its flag to the flags, and its number to the line at
/// `place`. Fails when out of memory, and then leaves everything as it was.
fn add_waiting(
    sent: &mut Vec<Frame>,
    waiting: &mut Vec<bool>,
    lines: &mut Lines,
    place: usize,
    frame: Frame,
) -> Result<(), AllocError>
    requires { place < 1024 }
    ensures sent { OnOk result (sent.new.items ≡ sent.old.items ++ frame ∷ []) }
    ensures waiting { OnOk result (waiting.new.items ≡ waiting.old.items ++ true ∷ []) }
    ensures lines { OnOk result (Changes lines.old lines.new place (λ ns. ns ++ vec_len sent.old ∷ [])) }
    ensures same_sent { OnErr result (sent.new.items ≡ sent.old.items) }
    ensures same_waiting { OnErr result (waiting.new.items ≡ waiting.old.items) }
    ensures same_lines { OnErr result (lines.new ≡ lines.old) }
{
    make_room(sent, waiting)?;
    lines.push(place, sent.len())?;
    sent.push(frame).unwrap();
    waiting.push(true).unwrap();
    Ok(())
}

/// Makes room for one more message and its flag. Fails when out of memory.
fn make_room(sent: &mut Vec<Frame>, waiting: &mut Vec<bool>) -> Result<(), AllocError>
    ensures sent { sent.new.items ≡ sent.old.items }
    ensures waiting { waiting.new.items ≡ waiting.old.items }
    ensures room_sent { OnOk result (vec_len sent.new < vec_capacity sent.new) }
    ensures room_waiting { OnOk result (vec_len waiting.new < vec_capacity waiting.new) }
{
    sent.reserve(1)?;
    waiting.reserve(1)?;
    Ok(())
}

/// Returns the number of the first message from `first` on that waits, or their number if none does.
fn next_waiting(waiting: &[bool], first: usize) -> usize
    requires { AreSettled waiting.now first }
    ensures { AreSettled waiting.now result }
{
    for number in first..waiting.len() {
        if waiting[number] {
            return number;
        }
    }
    waiting.len()
}

/// Returns the lesser of two numbers, or the only one present.
fn older(first: Option<usize>, second: Option<usize>) -> Option<usize>
    ensures { result ≡ older first second }
{
    match first {
        None => second,
        Some(a) => Some(second.map_or(a, |b| a.min(b))),
    }
}
