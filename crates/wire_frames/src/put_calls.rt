ghost use Rattle.std.specs.Prelude.{◌≡◌, ◌<◌, ◌++◌, IfErr, OnOk};
ghost use Rattle.ens_base.specs.Limits.{IsCommand};
ghost use Rattle.wire_frames.specs.Calls.{arguments_spelling, command_tag as tag, IsCall, call_spelling, IsReply, reply_spelling};

use ens_base::{Command, Key, Reply, Value, Version};
use fields::{FieldError, put_key, put_u8, put_u64, put_value, put_version};

/// The tag of the command.
fn command_tag(x: &Command) -> u8
    ensures { result ≡ tag x.now }
{
    match x {
        Command::Get => 1,
        Command::PutOnce(_) => 2,
        Command::Update(_, _) => 3,
        Command::Append(_) => 4,
        Command::Add(_) => 5,
        Command::Swap(_, _) => 6,
        Command::Over(_) => 7,
        Command::Delete => 8,
    }
}

fn append_arguments(x: &Command, out: &mut Vec<u8>) -> Result<(), FieldError>
    ensures ok { OnOk result (out.new.items ≡ out.old.items ++ arguments_spelling x.now) }
    ensures valid { OnOk result (IsCommand x.now) }
    ensures memory { IfErr result (λ e. e ≡ FieldError.Memory) }
{
    match x {
        Command::Get => Ok(()),
        Command::PutOnce(value) => put_value(value, out),
        Command::Update(stamp, value) => {
            put_version(stamp, out)?;
            put_value(value, out)
        }
        Command::Append(value) => put_value(value, out),
        Command::Add(number) => put_u64(*number, out),
        Command::Swap(old, new) => {
            put_value(old, out)?;
            put_value(new, out)
        }
        Command::Over(value) => put_value(value, out),
        Command::Delete => Ok(()),
    }
}

/// Appends the tag of the command, the key and the arguments. Out of memory leaves a part of them.
pub fn append_call(key: &Key, command: &Command, out: &mut Vec<u8>) -> Result<(), FieldError>
    ensures ok { OnOk result (out.new.items ≡ out.old.items ++ call_spelling (key.now, command.now)) }
    ensures valid { OnOk result (IsCall (key.now, command.now)) }
    ensures memory { IfErr result (λ e. e ≡ FieldError.Memory) }
{
    put_u8(command_tag(command), out)?;
    put_key(key, out)?;
    append_arguments(command, out)
}

fn append_stamped(stamp: &Version, value: &Value, out: &mut Vec<u8>) -> Result<(), FieldError>
    ensures ok { OnOk result (out.new.items ≡ out.old.items ++ reply_spelling (Reply.Value stamp.now value.now)) }
    ensures valid { OnOk result (IsReply (Reply.Value stamp.now value.now)) }
    ensures memory { IfErr result (λ e. e ≡ FieldError.Memory) }
{
    put_u8(1, out)?;
    put_version(stamp, out)?;
    put_value(value, out)
}

/// Appends the reply. Out of memory leaves a part of it.
pub fn append_reply(x: &Reply, out: &mut Vec<u8>) -> Result<(), FieldError>
    ensures ok { OnOk result (out.new.items ≡ out.old.items ++ reply_spelling x.now) }
    ensures valid { OnOk result (IsReply x.now) }
    ensures memory { IfErr result (λ e. e ≡ FieldError.Memory) }
{
    match x {
        Reply::Value(stamp, value) => append_stamped(stamp, value, out),
        Reply::NotFound => put_u8(2, out),
        Reply::Ok(stamp) => {
            put_u8(3, out)?;
            put_version(stamp, out)
        }
        Reply::Failed => put_u8(4, out),
        Reply::Unavailable => put_u8(5, out),
        Reply::Busy => put_u8(6, out),
        Reply::Lost => put_u8(7, out),
        Reply::Timeout => put_u8(8, out),
    }
}
