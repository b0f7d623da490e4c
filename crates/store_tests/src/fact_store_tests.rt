use ens_base::{Digest, Epoch, PeerId, View};
use fact_store::{FactFile, FactKeeper, KeepError, Kept, MemFacts};
use slot_disk::{Disk, Failing, Image, MemDisk, Room};
use std::alloc::Global;
use std::test::Fail;
use stored_formats::{Change, Fact, FactError, SavedFact};

/// Room for the tests below.
const ROOM: Room = Room {
    bytes: 2000,
    written: 4000,
    calls: 40,
};

/// The opening fact of the view 1 2 3, without a seal.
fn opening() -> Result<SavedFact, Fail> {
    Ok(SavedFact {
        fact: Fact::opening(View::new(&[PeerId(1), PeerId(2), PeerId(3)])?),
        seal: None,
    })
}

/// The opening fact with the ballot 1.1, and a seal.
fn promised() -> Result<SavedFact, Fail> {
    let mut saved = opening()?;
    saved.fact.ballot = Epoch {
        count: 1,
        proposer: 1,
    };
    saved.seal = Some(Digest([7; 16]));
    Ok(saved)
}

/// Opens a fact file on a disk with these bytes.
fn file(alloc: Global, bytes: &[u8]) -> Result<FactFile<MemDisk>, Fail> {
    let disk = MemDisk::holding(alloc, bytes, ROOM, Failing::never(alloc))?;
    match FactFile::open(alloc, disk) {
        Ok(file) => Ok(file),
        Err(_refused) => Err("not opened".into()),
    }
}

#[test]
fn the_second_fact_is_at_offset_512(rt: HostRuntime) -> Result<(), Fail> {
    let mut file = file(rt.alloc(), &[])?;
    assert!(rt; file.load() == Ok(None));
    assert!(rt; file.save(&opening()?).is_ok() && file.save(&promised()?).is_ok());
    assert!(rt; file.load() == Ok(Some(promised()?)));
    let disk = file.into_disk();
    let bytes = disk.bytes();
    assert!(rt; bytes.len() == 591 && bytes.starts_with(b"\x01\0\0\0\0\0\0\0\x01\0\x34\x01"));
    assert!(rt; bytes[512..].starts_with(b"\x01\0\0\0\0\0\0\0\x02\0\x44\x02"));
    Ok(())
}

#[test]
fn a_bad_fact_and_a_keeper_in_memory(rt: HostRuntime) -> Result<(), Fail> {
    let alloc = rt.alloc();
    let mut file = file(alloc, b"\x01\0\0\0\0\0\0\0\x01\0\x01x")?;
    assert!(rt; file.load() == Err(KeepError::Bad(FactError::BadTag)));
    let failing = Failing {
        undone: vec![in alloc; 1]?,
        done: vec![in alloc; 2]?,
    };
    let mut facts = MemFacts::new(Kept::Nothing, failing);
    assert!(rt; facts.save(&opening()?).is_err() && facts.save(&promised()?).is_err());
    assert!(rt; facts.load() == Ok(Some(promised()?)) && facts.faults() == 2);
    Ok(())
}

#[test]
fn a_crash_in_a_save_leaves_one_of_two_facts(rt: HostRuntime) -> Result<(), Fail> {
    let alloc = rt.alloc();
    let mut first = file(alloc, &[])?;
    assert!(rt; first.save(&opening()?).is_ok());
    let bytes = first.into_disk().crash(alloc, Image::Old)?;
    let mut failing = Failing::never(alloc);
    // The opening takes three calls; the last sync of the save is the ninth.
    failing.undone.push(9)?;
    let disk = MemDisk::holding(alloc, &bytes, ROOM, failing)?;
    let Ok(mut second) = FactFile::open(alloc, disk) else {
        return Err("not opened".into());
    };
    assert!(rt; second.save(&promised()?) == Err(KeepError::Failed));
    let disk = second.into_disk();
    let cases = [(Image::Old, opening()?), (Image::New, promised()?)];
    for (image, want) in cases {
        let left = disk.crash(alloc, image)?;
        assert!(rt; file(alloc, &left)?.load() == Ok(Some(want)));
    }
    Ok(())
}
