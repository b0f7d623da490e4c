ghost use Rattle.std.specs.Prelude.{◌≡◌, ◌≤◌, IfSome};
ghost use Rattle.peer_turns.specs.PeerSpec.{MayCome};
ghost use Rattle.peer_turns.specs.Ends.{ComesFrom};
ghost use Rattle.peer_turns.specs.Turns.{event_from, event_in, is_client as is_from_client, is_other_peer};
ghost use Rattle.wire_frames.specs.Messages.{Obeys};

use ens_base::{PeerId, PeerWords};
use peer_state::{CallIn, Event};
use wire_frames::{Frame, Message};

/// The first number of a client.
const FIRST_CLIENT: u32 = 32;

/// The last number of a client.
const LAST_CLIENT: u32 = 63;

/// Returns whether the number is that of a client.
fn is_client(from: u32) -> bool
    ensures { result ≡ is_from_client from }
{
    FIRST_CLIENT <= from && from <= LAST_CLIENT
}

/// Returns whether the number is that of another peer.
fn is_peer(words: &PeerWords, from: u32) -> bool
    ensures { result ≡ is_other_peer words.now from }
{
    1 <= from && from <= words.peers && from != words.me.0
}

/// Returns what a peer does on a message from this number.
fn event_by(words: &PeerWords, from: u32, message: Message) -> Option<Event>
    ensures { result ≡ event_from words.now from message }
{
    match message {
        Message::AnswerFrame(_id, _reply) => None,
        Message::CallFrame(id, key, command) => {
            if !is_client(from) {
                return None;
            }
            Some(Event::Call(CallIn {
                from,
                id,
                key,
                command,
            }))
        }
        message => {
            if !is_peer(words, from) {
                return None;
            }
            Some(Event::Deliver(PeerId(from), message))
        }
    }
}

/// Returns what a peer does on a frame, or `None` if it ignores the frame: one for another receiver, a
/// message that is not from another peer, 1 to `words.peers`, a call that is not from a client, 32 to
/// 63, or an answer.
pub fn event_of(words: &PeerWords, frame: Frame) -> Option<Event>
    requires peers { words.now.peers ≤ 31 }
    requires obeys { Obeys frame.message }
    ensures event { result ≡ event_in words.now frame }
    ensures may { IfSome result (λ e. MayCome words.now.me e × ComesFrom is_from_client e) }
{
    let Frame { from, to, message } = frame;
    if to != words.me.0 {
        return None;
    }
    event_by(words, from, message)
}
