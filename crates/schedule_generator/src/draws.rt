ghost use Rattle.std.specs.Prelude.{◌≡◌, ◌<◌, IfOk};
ghost use Rattle.schedule_generator.specs.Drawing.{draw as drawing, draw_bytes as drawing_bytes, moved};
ghost use Rattle.schedule_generator.specs.Generated.{draw_key as drawing_key, draw_value as drawing_value, draw_choice as drawing_choice, draw_command as drawing_command};

use ens_base::{Command, Key, Value};
use std::alloc::{AllocError, Global};

fn next(x: u64) -> u64
    ensures { result ≡ moved x }
{
    x.wrapping_mul(6364136223846793005)
        .wrapping_add(1442695040888963407)
}

/// Draws a number below `m`.
pub(crate) fn draw(x: &mut u64, m: u64) -> u64
    requires { 0 < m }
    ensures drawn { (x.new, result) ≡ drawing m x.old }
    ensures below { result < m }
{
    *x = next(*x);
    (*x >> 33) % m
}

/// Draws so many bytes.
fn draw_bytes(alloc: Global, x: &mut u64, count: u64) -> Result<Vec<u8>, AllocError>
    ensures { IfOk result (λ bytes. (x.new, bytes.items) ≡ drawing_bytes count x.old) }
{
    let mut bytes = Vec::new(alloc);
    for _turn in 0..count {
        bytes.push(draw(x, 256) as u8)?;
    }
    Ok(bytes)
}

/// Draws one of 300 keys.
pub(crate) fn draw_key(alloc: Global, x: &mut u64) -> Result<Key, AllocError>
    ensures { IfOk result (λ key. (x.new, key) ≡ drawing_key x.old) }
{
    let k = draw(x, 300) as u16;
    match Key::new(alloc, k.to_be_bytes().as_slice()) {
        Ok(key) => Ok(key),
        Err(_) => Err(AllocError),
    }
}

/// Makes a value of at most 32 bytes.
fn value_of(alloc: Global, bytes: &[u8]) -> Result<Value, AllocError>
    ensures { IfOk result (λ value. value ≡ bytes.now) }
{
    match Value::new(alloc, bytes) {
        Ok(value) => Ok(value),
        Err(_) => Err(AllocError),
    }
}

/// Draws a value of 0 to 32 bytes.
fn draw_value(alloc: Global, x: &mut u64) -> Result<Value, AllocError>
    ensures { IfOk result (λ value. (x.new, value) ≡ drawing_value x.old) }
{
    let count = draw(x, 33);
    let bytes = draw_bytes(alloc, x, count)?;
    value_of(alloc, &bytes)
}

/// Draws a value of one byte.
fn draw_tail(alloc: Global, x: &mut u64) -> Result<Value, AllocError>
    ensures { IfOk result (λ value. (x.new, value) ≡ drawing_bytes 1 x.old) }
{
    let bytes = draw_bytes(alloc, x, 1)?;
    value_of(alloc, &bytes)
}

fn draw_choice(alloc: Global, x: &mut u64, choice: u64) -> Result<Command, AllocError>
    ensures { IfOk result (λ command. (x.new, command) ≡ drawing_choice choice x.old) }
{
    if choice <= 3 {
        Ok(Command::Get)
    } else if choice <= 5 {
        Ok(Command::Over(draw_value(alloc, x)?))
    } else if choice == 6 {
        Ok(Command::PutOnce(draw_value(alloc, x)?))
    } else if choice == 7 {
        Ok(Command::Append(draw_tail(alloc, x)?))
    } else if choice == 8 {
        Ok(Command::Delete)
    } else {
        Ok(Command::Add(1))
    }
}

/// Draws a command.
pub(crate) fn draw_command(alloc: Global, x: &mut u64) -> Result<Command, AllocError>
    ensures { IfOk result (λ command. (x.new, command) ≡ drawing_command x.old) }
{
    let choice = draw(x, 10);
    draw_choice(alloc, x, choice)
}
