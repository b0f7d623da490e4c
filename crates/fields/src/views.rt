ghost use Rattle.std.specs.Prelude.{◌≡◌, ◌+◌, ◌≤◌, ◌∷◌, [], ◌++◌, length, IfOk, IfErr, OnOk, OnErr};
ghost use Rattle.ens_base.specs.View.{IsView};
ghost use Rattle.fields.specs.Places.{Writes};
ghost use Rattle.fields.specs.Views.{view_spelling, member_at, members_at, view_at, filled, AreViews, views_spelling, one_view_at, two_views_at, views_at};

use crate::field_error::FieldError;
use crate::numbers::{take_u8, take_u32, write_u8, write_u32};
use ens_base::{PeerId, View, Views};

/// The greatest number of a peer.
const LAST_PEER: u32 = 31;

#[tactic(auto, unfolding(crate::specs::Views::member_at))]
fn take_member(low: u32, bytes: &[u8], at: usize) -> Result<(u32, usize), FieldError>
    requires { at ≤ length bytes.now }
    ensures exact { member_at low bytes.now at ≡ result }
    ensures within { IfOk result (λ x. x.1 ≤ length bytes.now) }
{
    let (member, after) = take_u32(bytes, at)?;
    if member <= low || member > LAST_PEER {
        return Err(FieldError::Rule(at));
    }
    Ok((member, after))
}

/// Reads a member into each place of `members`. Returns the place after the last.
fn fill_members(bytes: &[u8], at: usize, members: &mut [PeerId]) -> Result<usize, FieldError>
    requires { at ≤ length bytes.now }
    ensures exact { members_at (length members.old) 0 bytes.now at ≡ filled members.new result }
    ensures within { IfOk result (λ end. end ≤ length bytes.now) }
{
    let mut low = 0;
    let mut place = at;
    for i in 0..members.len() {
        let (member, after) = take_member(low, bytes, place)?;
        members[i] = PeerId(member);
        low = member;
        place = after;
    }
    Ok(place)
}

/// Reads a view at `at`: its size in one byte, and four bytes for each member. Returns it and the place
/// after it.
#[tactic(auto, unfolding(crate::specs::Views::view_at))]
pub fn take_view(bytes: &[u8], at: usize) -> Result<(View, usize), FieldError>
    requires { at ≤ length bytes.now }
    ensures exact { view_at bytes.now at ≡ result }
    ensures within { IfOk result (λ x. x.1 ≤ length bytes.now) }
{
    let (size, start) = take_u8(bytes, at)?;
    let size = size as usize;
    if size == 0 || size > View::MOST {
        return Err(FieldError::Rule(at));
    }
    let mut buf = [PeerId(0); 9];
    let members = &mut buf[..size];
    let end = fill_members(bytes, start, members)?;
    match View::new(members) {
        Ok(view) => Ok((view, end)),
        Err(_) => unreachable!(),
    }
}

#[tactic(auto, unfolding(crate::specs::Views::one_view_at))]
fn take_one(bytes: &[u8], at: usize) -> Result<(Views, usize), FieldError>
    requires { at ≤ length bytes.now }
    ensures exact { one_view_at bytes.now at ≡ result }
    ensures within { IfOk result (λ x. x.1 ≤ length bytes.now) }
{
    let (view, at) = take_view(bytes, at)?;
    Ok((Views::one(view), at))
}

#[tactic(auto, unfolding(crate::specs::Views::two_views_at))]
fn take_two(bytes: &[u8], at: usize) -> Result<(Views, usize), FieldError>
    requires { at ≤ length bytes.now }
    ensures exact { two_views_at bytes.now at ≡ result }
    ensures within { IfOk result (λ x. x.1 ≤ length bytes.now) }
{
    let (new, at) = take_view(bytes, at)?;
    let (old, at) = take_view(bytes, at)?;
    Ok((Views::two(new, old), at))
}

/// Reads one or two views at `at`, the new one first. Returns them and the place after them.
#[tactic(auto, unfolding(crate::specs::Views::views_at))]
pub fn take_views(bytes: &[u8], at: usize) -> Result<(Views, usize), FieldError>
    requires { at ≤ length bytes.now }
    ensures exact { views_at bytes.now at ≡ result }
    ensures within { IfOk result (λ x. x.1 ≤ length bytes.now) }
{
    let (count, start) = take_u8(bytes, at)?;
    match count {
        1 => take_one(bytes, start),
        2 => take_two(bytes, start),
        _ => Err(FieldError::Rule(at)),
    }
}

/// Writes the spelling of the view at `at`, at most 37 bytes, and returns the place after it.
pub fn write_view(x: &View, out: &mut [u8], at: usize) -> usize
    requires { at + 37 ≤ length out.old }
    ensures written { Writes out.old out.new at (view_spelling x.now) result }
    ensures within { result ≤ at + 37 }
    ensures valid { IsView x.now }
{
    let members = x.members();
    let mut place = write_u8(members.len() as u8, out, at);
    for member in members {
        place = write_u32(u32::from(*member), out, place);
    }
    place
}

fn write_one(x: &View, out: &mut [u8], at: usize) -> usize
    requires { at + 38 ≤ length out.old }
    ensures written { Writes out.old out.new at (views_spelling (x.now ∷ [])) result }
    ensures within { result ≤ at + 38 }
    ensures valid { IsView x.now }
{
    let place = write_u8(1, out, at);
    write_view(x, out, place)
}

fn write_two(new: &View, old: &View, out: &mut [u8], at: usize) -> usize
    requires { at + 75 ≤ length out.old }
    ensures written { Writes out.old out.new at (views_spelling (new.now ∷ old.now ∷ [])) result }
    ensures within { result ≤ at + 75 }
    ensures valid { IsView new.now × IsView old.now }
{
    let place = write_u8(2, out, at);
    let place = write_view(new, out, place);
    write_view(old, out, place)
}

/// Writes the spelling of the one or two views at `at`, at most 75 bytes, and returns the place after it.
pub fn write_views(x: &Views, out: &mut [u8], at: usize) -> usize
    requires { at + 75 ≤ length out.old }
    ensures written { Writes out.old out.new at (views_spelling x.now) result }
    ensures within { result ≤ at + 75 }
    ensures valid { AreViews x.now }
{
    let first = x.first();
    match x.second() {
        None => write_one(&first, out, at),
        Some(second) => write_two(&first, &second, out, at),
    }
}

/// Appends the spelling of the view, or leaves `out` as it was.
pub fn put_view(x: &View, out: &mut Vec<u8>) -> Result<(), FieldError>
    ensures ok { OnOk result (out.new.items ≡ out.old.items ++ view_spelling x.now) }
    ensures valid { IsView x.now }
    ensures err { OnErr result (out.new.items ≡ out.old.items) }
    ensures memory { IfErr result (λ e. e ≡ FieldError.Memory) }
{
    let mut spelling = [0u8; 37];
    let end = write_view(x, &mut spelling, 0);
    out.extend_from_slice(&spelling[..end])?;
    Ok(())
}

/// Appends the spelling of the one or two views, or leaves `out` as it was.
pub fn put_views(x: &Views, out: &mut Vec<u8>) -> Result<(), FieldError>
    ensures ok { OnOk result (out.new.items ≡ out.old.items ++ views_spelling x.now) }
    ensures valid { AreViews x.now }
    ensures err { OnErr result (out.new.items ≡ out.old.items) }
    ensures memory { IfErr result (λ e. e ≡ FieldError.Memory) }
{
    let mut spelling = [0u8; 75];
    let end = write_views(x, &mut spelling, 0);
    out.extend_from_slice(&spelling[..end])?;
    Ok(())
}
