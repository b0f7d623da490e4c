ghost use Rattle.std.specs.Prelude.{◌≡◌, ◌↔◌, ◌<◌, ℕ, List, length, All, Contains, IsTrue, IfOk, IsOk, IsErrOf};
ghost use Rattle.std.specs.List.Sorted.{IsStrictlyIncreasing};
ghost use Rattle.ens_base.specs.View.{IsView, IsViewSize, IsPeer};

use crate::peer::PeerId;
use std::marker::Model;
use thiserror::Error;

/// Why a list of peers is not a view. The causes are tested in this order.
#[derive(Clone, Copy, Debug, PartialEq, Eq, Error)]
pub enum ViewError {
    /// There are not 1 to 9 members.
    #[error("a view has 1 to 9 members")]
    Size,
    /// A number is not in the range 1 to 31.
    #[error("the number of a member is 1 to 31")]
    Range,
    /// The numbers are not strictly ascending.
    #[error("the members of a view strictly ascend")]
    Order,
}

/// A view: 1 to 9 peers, in ten bytes. Contracts see the ascending list of their numbers.
#[derive(Clone, Copy, Debug, PartialEq, Eq)]
pub struct View {
    buf: [u8; 9],
    len: u8,
}

impl Model for View {
    ghost use Rattle.std.specs.Prelude.{ℕ, List, take};

    ghost Value = { List ℕ };

    ghost use Rattle.ens_base.specs.Packed.{IsPacked, packed, packed_again};

    ghost view = { λ v. take v.len v.buf };

    ghost invariant = { IsPacked };

    ghost inverse = { packed };

    ghost inverse_ok = { packed_again };
}

fn ascends(members: &[PeerId]) -> bool
    ensures { IsTrue result ↔ IsStrictlyIncreasing members.now }
{
    for i in 1..members.len() {
        if members[i - 1] >= members[i] {
            return false;
        }
    }
    true
}

fn in_range(members: &[PeerId]) -> bool
    ensures { IsTrue result ↔ All IsPeer members.now }
{
    members.iter().all(|m| 1 <= m.0 && m.0 <= 31)
}

impl View {
    /// Makes a view of `members`, or returns the first cause that applies: `Size`, `Range`, then
    /// `Order`.
    pub fn new(members: &[PeerId]) -> Result<View, ViewError>
        ensures ok { IfOk result (λ v. v ≡ members.now) }
        ensures valid { IsOk result ↔ IsView members.now }
        ensures size { IsErrOf result ViewError.Size ↔ ¬ IsViewSize (length members.now) }
        ensures range { IsErrOf result ViewError.Range ↔ (IsViewSize (length members.now) × ¬ All IsPeer members.now) }
        ensures order { IsErrOf result ViewError.Order ↔ (IsViewSize (length members.now) × All IsPeer members.now × ¬ IsStrictlyIncreasing members.now) }
    {
        if members.is_empty() || members.len() > View::MOST {
            return Err(ViewError::Size);
        }
        if !in_range(members) {
            return Err(ViewError::Range);
        }
        if !ascends(members) {
            return Err(ViewError::Order);
        }
        let mut buf = [0; 9];
        for i in 0..members.len() {
            buf[i] = members[i].number() as u8;
        }
        Ok(View {
            buf,
            len: members.len() as u8,
        })
    }

    /// The greatest number of members.
    pub const MOST: usize = 9;

    /// Returns the numbers of the members in ascending order.
    pub fn members(&self) -> &[u8]
        ensures members { result.now ≡ self.now }
        ensures view { IsView self.now }
    {
        &self.buf[..self.len as usize]
    }

    /// Returns whether `peer` is a member.
    pub fn has(&self, peer: PeerId) -> bool
        ensures member { IsTrue result ↔ Contains self.now peer }
        ensures view { IsView self.now }
    {
        let members = self.members();
        match u8::try_from(peer.0) {
            Ok(number) => members.contains(&number),
            Err(_) => false,
        }
    }
}
