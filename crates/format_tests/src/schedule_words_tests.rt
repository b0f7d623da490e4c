use ens_base::{Epoch, PeerId, Version};
use lexemes::{
    Cause, WordError, content, key, line_words, members, number, parts, peer, value, version, view,
};
use std::test::Fail;

/// Words for numbers of 1 to 100.
const NUMBERS: [(&[u8], Result<u64, Cause>); 9] = [
    (b"1", Ok(1)),
    (b"100", Ok(100)),
    (b"0", Err(Cause::Number)),
    (b"101", Err(Cause::Number)),
    (b"01", Err(Cause::Number)),
    (b"", Err(Cause::Number)),
    (b"+1", Err(Cause::Number)),
    (b"1 ", Err(Cause::Number)),
    (b"18446744073709551617", Err(Cause::Number)),
];

#[test]
fn numbers_have_no_leading_zero_and_a_range(rt: HostRuntime) {
    for (word, wanted) in NUMBERS {
        assert!(rt; number(word, 1, 100) == wanted, "{word:?}");
    }
    assert!(rt; number(b"18446744073709551615", 0, u64::MAX) == Ok(u64::MAX));
    assert!(rt; peer(b"3", 3) == Ok(PeerId(3)) && peer(b"4", 3) == Err(Cause::Peers));
}

/// Words that are no key.
const NO_KEYS: [&[u8]; 5] = [b"", b"-", b"6", b"6B", b"6g"];

#[test]
fn keys_values_and_contents_have_their_lengths(rt: HostRuntime) -> Result<(), Fail> {
    let alloc = rt.alloc();
    let bad = Some(WordError::Bad(Cause::Bytes));
    for word in NO_KEYS {
        assert!(rt; key(alloc, word).err() == bad, "{word:?}");
    }
    let long = [b'6'; 4_002];
    assert!(rt; key(alloc, b"6b00ff")?.bytes() == [0x6bu8, 0, 255].as_slice());
    assert!(rt; key(alloc, &long[..128]).is_ok() && key(alloc, &long[..130]).err() == bad);
    assert!(rt;
        value(alloc, b"-")?.bytes().is_empty() && value(alloc, &long[..2_050]).err() == bad
    );
    assert!(rt; content(alloc, b"-")?.is_none() && content(alloc, &long).err() == bad);
    Ok(())
}

/// Words that are no version.
const NO_VERSIONS: [&[u8]; 6] = [
    b"",
    b"1.2",
    b"1.2.3.4",
    b"1.2.",
    b"1.02.3",
    b"1.4294967296.1",
];

#[test]
fn a_version_has_three_numbers(rt: HostRuntime) -> Result<(), Fail> {
    let epoch = Epoch {
        count: 1,
        proposer: 2,
    };
    assert!(rt; version(rt.alloc(), b"1.2.3")? == Version { epoch, seq: 3 });
    for word in NO_VERSIONS {
        let fault = version(rt.alloc(), word).err();
        assert!(rt; fault == Some(WordError::Bad(Cause::Number)), "{word:?}");
    }
    Ok(())
}

#[test]
fn members_ascend(rt: HostRuntime) -> Result<(), Fail> {
    let alloc = rt.alloc();
    let words = line_words(alloc, b"1 3 12")?;
    assert!(rt; members(alloc, &words, 12).is_ok() && members(alloc, &words, 11).is_err());
    assert!(rt; view(alloc, &words, 12)?.members().len() == 3);
    let twice = line_words(alloc, b"1 1")?;
    assert!(rt; members(alloc, &twice, 12).err() == Some(WordError::Bad(Cause::Peers)));
    assert!(rt; line_words(alloc, b" a  b")?.len() == 4 && parts(alloc, b"1.2", b'.')?.len() == 2);
    Ok(())
}
