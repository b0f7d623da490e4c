ghost use Rattle.std.specs.Prelude.{◌≡◌, ◌++◌, ◌∷◌, [], OnOk, IfOk, string_bytes};
ghost use Rattle.std.specs.List.{filter};
ghost use Rattle.ens_base.specs.PeerSet.{holds};
ghost use Rattle.lexemes.specs.Spelling.{member_words};
ghost use Rattle.schedule_text.specs.Writing.{spaced};
ghost use Rattle.schedule_input.specs.Text.{premise_line};

use crate::search::Unsound;
use ens_base::{PeerId, PeerSet};
use std::alloc::{AllocError, Global};

/// Appends a space and the number of a peer.
fn push_member(text: &mut String, member: u8) -> Result<(), AllocError>
    ensures { OnOk result (string_bytes text.new ≡ string_bytes text.old ++ spaced (member_words (member ∷ []))) }
{
    write!(text, " {member}")
}

/// Appends the members, each after a space.
fn push_members(text: &mut String, members: &[u8]) -> Result<(), AllocError>
    ensures { OnOk result (string_bytes text.new ≡ string_bytes text.old ++ spaced (member_words members.now)) }
{
    for member in members {
        push_member(text, *member)?;
    }
    Ok(())
}

/// Appends the members that are in the set, each after a space.
fn push_members_in(text: &mut String, members: &[u8], set: &PeerSet) -> Result<(), AllocError>
    ensures { OnOk result (string_bytes text.new ≡ string_bytes text.old ++ spaced (member_words (filter (holds set.now) members.now))) }
{
    for member in members {
        if set.has(PeerId(u32::from(*member))) {
            push_member(text, *member)?;
        }
    }
    Ok(())
}

/// Returns the line that reports the view: its members, and those of them that are reverted, both
/// ascending. Fails when out of memory.
pub fn write_premise(alloc: Global, unsound: &Unsound) -> Result<String, AllocError>
    ensures { IfOk result (λ text. string_bytes text ≡ premise_line (holds unsound.now.reverted) unsound.now.view) }
{
    let members = unsound.view.members();
    let mut text = String::from_str(alloc, "premise")?;
    push_members(&mut text, members)?;
    text.push_str(" reverted")?;
    push_members_in(&mut text, members, &unsound.reverted)?;
    text.push_str("\n")?;
    Ok(text)
}
