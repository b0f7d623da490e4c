ghost use Rattle.std.specs.Prelude.{◌≡◌, ◌<◌, ◌++◌, IfErr, OnOk};
ghost use Rattle.tree_node.specs.declared.version.TreeVersion.TheVariants.{Two};
ghost use Rattle.tree_node.specs.Positions.{IsPosition};
ghost use Rattle.wire_frames.specs.Messages.{IsMessage, message_spelling, Obeys, ObeysCause, ObeysBody};

use crate::message::{Message, NackCause};
use crate::put_calls::{append_call, append_reply};
use crate::put_parts::{
    append_body, append_cause, append_flag, append_option_key, append_optional_entry,
    append_optional_object,
};
use ens_base::{Command, Entry, Epoch, Key, Reply, Version};
use fields::{FieldError, put_epoch, put_key, put_u64, put_version};
use stored_formats::{BoxedObject, Fact, Object, put_fact, put_object};
use tree_node::{Position, TreeBody, put_position};

fn append_promise(ballot: &Epoch, fact: &Fact, out: &mut Vec<u8>) -> Result<(), FieldError>
    ensures ok { OnOk result (out.new.items ≡ out.old.items ++ message_spelling (Message.Promise ballot.now fact.now)) }
    ensures valid { OnOk result (IsMessage (Message.Promise ballot.now fact.now)) }
    ensures memory { IfErr result (λ e. e ≡ FieldError.Memory) }
{
    put_epoch(ballot, out)?;
    put_fact(fact, out)
}

fn append_nack(ballot: &Epoch, cause: &NackCause, out: &mut Vec<u8>) -> Result<(), FieldError>
    requires { ObeysCause cause.now }
    ensures ok { OnOk result (out.new.items ≡ out.old.items ++ message_spelling (Message.Nack ballot.now cause.now)) }
    ensures valid { OnOk result (IsMessage (Message.Nack ballot.now cause.now)) }
    ensures memory { IfErr result (λ e. e ≡ FieldError.Memory) }
{
    put_epoch(ballot, out)?;
    append_cause(cause, out)
}

fn append_counted(epoch: &Epoch, number: u64, out: &mut Vec<u8>) -> Result<(), FieldError>
    ensures ok { OnOk result (out.new.items ≡ out.old.items ++ message_spelling (Message.Accepted epoch.now number)) }
    ensures valid { OnOk result (IsMessage (Message.Accepted epoch.now number)) }
    ensures memory { IfErr result (λ e. e ≡ FieldError.Memory) }
{
    put_epoch(epoch, out)?;
    put_u64(number, out)
}

fn append_get(epoch: &Epoch, round: u64, key: &Key, out: &mut Vec<u8>) -> Result<(), FieldError>
    ensures ok { OnOk result (out.new.items ≡ out.old.items ++ message_spelling (Message.Get epoch.now round key.now)) }
    ensures valid { OnOk result (IsMessage (Message.Get epoch.now round key.now)) }
    ensures memory { IfErr result (λ e. e ≡ FieldError.Memory) }
{
    append_counted(epoch, round, out)?;
    put_key(key, out)
}

fn append_get_reply(
    epoch: &Epoch,
    round: u64,
    key: &Key,
    entry: &Option<Entry>,
    object: &Option<BoxedObject>,
    out: &mut Vec<u8>,
) -> Result<(), FieldError>
    ensures ok { OnOk result (out.new.items ≡ out.old.items ++ message_spelling (Message.GetReply epoch.now round key.now entry.now object.now)) }
    ensures valid { OnOk result (IsMessage (Message.GetReply epoch.now round key.now entry.now object.now)) }
    ensures memory { IfErr result (λ e. e ≡ FieldError.Memory) }
{
    append_get(epoch, round, key, out)?;
    append_optional_entry(entry, out)?;
    append_optional_object(object, out)
}

fn append_put(epoch: &Epoch, object: &Object, out: &mut Vec<u8>) -> Result<(), FieldError>
    ensures ok { OnOk result (out.new.items ≡ out.old.items ++ message_spelling (Message.Put epoch.now object.now)) }
    ensures valid { OnOk result (IsMessage (Message.Put epoch.now object.now)) }
    ensures memory { IfErr result (λ e. e ≡ FieldError.Memory) }
{
    put_epoch(epoch, out)?;
    put_object(object, out)
}

fn append_put_reply(
    epoch: &Epoch,
    key: &Key,
    version: &Version,
    out: &mut Vec<u8>,
) -> Result<(), FieldError>
    ensures ok { OnOk result (out.new.items ≡ out.old.items ++ message_spelling (Message.PutReply epoch.now key.now version.now)) }
    ensures valid { OnOk result (IsMessage (Message.PutReply epoch.now key.now version.now)) }
    ensures memory { IfErr result (λ e. e ≡ FieldError.Memory) }
{
    put_epoch(epoch, out)?;
    put_key(key, out)?;
    put_version(version, out)
}

fn append_tree_ask(
    epoch: &Epoch,
    position: &Position,
    after: &Option<Key>,
    out: &mut Vec<u8>,
) -> Result<(), FieldError>
    requires { IsPosition Two position.now }
    ensures ok { OnOk result (out.new.items ≡ out.old.items ++ message_spelling (Message.TreeAsk epoch.now position.now after.now)) }
    ensures valid { OnOk result (IsMessage (Message.TreeAsk epoch.now position.now after.now)) }
    ensures memory { IfErr result (λ e. e ≡ FieldError.Memory) }
{
    put_epoch(epoch, out)?;
    put_position(position, out)?;
    append_option_key(after, out)
}

fn append_tree_give(
    epoch: &Epoch,
    position: &Position,
    after: &Option<Key>,
    trusted: bool,
    body: &TreeBody,
    out: &mut Vec<u8>,
) -> Result<(), FieldError>
    requires position { IsPosition Two position.now }
    requires body { ObeysBody body.now }
    ensures ok { OnOk result (out.new.items ≡ out.old.items ++ message_spelling (Message.TreeGive epoch.now position.now after.now trusted body.now)) }
    ensures valid { OnOk result (IsMessage (Message.TreeGive epoch.now position.now after.now trusted body.now)) }
    ensures memory { IfErr result (λ e. e ≡ FieldError.Memory) }
{
    append_tree_ask(epoch, position, after, out)?;
    append_flag(trusted, out)?;
    append_body(body, out)
}

fn append_call_frame(
    id: u64,
    key: &Key,
    command: &Command,
    out: &mut Vec<u8>,
) -> Result<(), FieldError>
    ensures ok { OnOk result (out.new.items ≡ out.old.items ++ message_spelling (Message.CallFrame id key.now command.now)) }
    ensures valid { OnOk result (IsMessage (Message.CallFrame id key.now command.now)) }
    ensures memory { IfErr result (λ e. e ≡ FieldError.Memory) }
{
    put_u64(id, out)?;
    append_call(key, command, out)
}

fn append_answer(id: u64, reply: &Reply, out: &mut Vec<u8>) -> Result<(), FieldError>
    ensures ok { OnOk result (out.new.items ≡ out.old.items ++ message_spelling (Message.AnswerFrame id reply.now)) }
    ensures valid { OnOk result (IsMessage (Message.AnswerFrame id reply.now)) }
    ensures memory { IfErr result (λ e. e ≡ FieldError.Memory) }
{
    put_u64(id, out)?;
    append_reply(reply, out)
}

/// Appends the body of the message. Out of memory leaves a part of it.
pub fn append_message(x: &Message, out: &mut Vec<u8>) -> Result<(), FieldError>
    requires { Obeys x.now }
    ensures ok { OnOk result (out.new.items ≡ out.old.items ++ message_spelling x.now) }
    ensures valid { OnOk result (IsMessage x.now) }
    ensures memory { IfErr result (λ e. e ≡ FieldError.Memory) }
{
    match x {
        Message::Probe => Ok(()),
        Message::ProbeReply(fact) => put_fact(fact, out),
        Message::Prepare(ballot) => put_epoch(ballot, out),
        Message::Promise(ballot, fact) => append_promise(ballot, fact, out),
        Message::Nack(ballot, cause) => append_nack(ballot, cause, out),
        Message::NewEpoch(fact) => put_fact(fact, out),
        Message::Accepted(epoch, seq) => append_counted(epoch, *seq, out),
        Message::Get(epoch, round, key) => append_get(epoch, *round, key, out),
        Message::GetReply(epoch, round, key, entry, object) => append_get_reply(
            epoch, *round, key, entry, object, out,
        ),
        Message::Put(epoch, object) => append_put(epoch, object, out),
        Message::PutReply(epoch, key, version) => append_put_reply(epoch, key, version, out),
        Message::Check(epoch, round) => append_counted(epoch, *round, out),
        Message::CheckReply(epoch, round) => append_counted(epoch, *round, out),
        Message::TreeAsk(epoch, position, after) => append_tree_ask(epoch, position, after, out),
        Message::TreeGive(epoch, position, after, trusted, body) => append_tree_give(
            epoch, position, after, *trusted, body, out,
        ),
        Message::Commit(fact) => put_fact(fact, out),
        Message::Beat(epoch) => put_epoch(epoch, out),
        Message::CallFrame(id, key, command) => append_call_frame(*id, key, command, out),
        Message::AnswerFrame(id, reply) => append_answer(*id, reply, out),
    }
}
