use coded_link::CodedLink;
use ens_base::{PeerId, View};
use environment::{Link, MemQueue};
use frame_codes::{Ensemble, FrameKeys, KeyFile, hmac_sha256};
use std::alloc::Global;
use std::test::Fail;

/// The test cases 1 to 7 of RFC 4231: how the secret and the message are made, and the code. Case 5 gives
/// its first 16 bytes.
const VECTORS: [(&str, &str, &str); 7] = [
    (
        "0b0b0b0b0b0b0b0b0b0b0b0b0b0b0b0b0b0b0b0b",
        "Hi There",
        "b0344c61d8db38535ca8afceaf0bf12b881dc200c9833da726e9376c2e32cff7",
    ),
    (
        "4a656665",
        "what do ya want for nothing?",
        "5bdcc146bf60754e6a042426089575c75a003f089d2739839dec58b964ec3843",
    ),
    (
        "aaaaaaaaaaaaaaaaaaaaaaaaaaaaaaaaaaaaaaaa",
        "dd*50",
        "773ea91e36800e46854db8ebd09181a72959098b3ef8c122d9635514ced565fe",
    ),
    (
        "0102030405060708090a0b0c0d0e0f10111213141516171819",
        "cd*50",
        "82558a389a443c0ea4cc819899f2083a85f0faa3e578f8077a2e3ff46729665b",
    ),
    (
        "0c0c0c0c0c0c0c0c0c0c0c0c0c0c0c0c0c0c0c0c",
        "Test With Truncation",
        "a3b6167473100ee06e0c796c2955552b",
    ),
    (
        "aa*131",
        "Test Using Larger Than Block-Size Key - Hash Key First",
        "60e431591ee0b67f0d8a26aacbf5b77f8e0bc6213728c5140546040f0ee37f54",
    ),
    (
        "aa*131",
        "This is a test using a larger than block-size key and a larger than block-size data. \
         The key needs to be hashed before being used by the HMAC algorithm.",
        "9b09ffa71b942fcb27635fbcd5b0e944bfdc63644f0713938a7f51535c3a35e2",
    ),
];

/// The first key of the tests: 64 digits 1.
const FIRST: &str = "1111111111111111111111111111111111111111111111111111111111111111";

/// The second: 64 digits 2.
const SECOND: &str = "2222222222222222222222222222222222222222222222222222222222222222";

/// The frame `beat`, sealed under the first key for the ensemble 00 01 .. 0f of the view 1 2 3, as Python's
/// `hmac` makes it.
const SEALED: &str = "626561749285a124856e736003e67aec3e4844f2";

/// The same under the second key.
const SEALED_SECOND: &str = "62656174f842027c66d7d4854dcbb93b78e32c7c";

/// The same under the first key, for the view 1 2.
const SEALED_ELSEWHERE: &str = "626561749fd14e994c012a4ed5223d9a6b817847";

/// The bytes of the digits.
fn bytes(alloc: Global, digits: &str) -> Result<Vec<u8>, Fail> {
    match hex::decode(alloc, digits.as_bytes()) {
        Ok(bytes) => Ok(bytes),
        Err(_) => Err("no digits".into()),
    }
}

/// The bytes that a column of the table stands for: a repeated byte, or what `plain` makes of the text.
fn column(alloc: Global, text: &str) -> Result<Vec<u8>, Fail> {
    match text {
        "aa*131" => Ok(vec![in alloc; 0xaa; 131]?),
        "dd*50" => Ok(vec![in alloc; 0xdd; 50]?),
        "cd*50" => Ok(vec![in alloc; 0xcd; 50]?),
        _ => Ok(Vec::from_slice(alloc, text.as_bytes())?),
    }
}

/// The secret of a row.
fn secret(alloc: Global, text: &str) -> Result<Vec<u8>, Fail> {
    if text == "aa*131" {
        column(alloc, text)
    } else {
        bytes(alloc, text)
    }
}

#[test]
fn codes_are_those_of_rfc_4231(rt: HostRuntime) -> Result<(), Fail> {
    let alloc = rt.alloc();
    for (key, message, code) in VECTORS {
        let found = hmac_sha256(&secret(alloc, key)?, &column(alloc, message)?);
        let code = bytes(alloc, code)?;
        assert!(rt; found.starts_with(&code), "{key}");
    }
    Ok(())
}

/// The ensemble 00 01 .. 0f of the members 1 to `most`.
fn ensemble(most: u32) -> Result<Ensemble, Fail> {
    let mut id = [0; 16];
    for place in 0..16u8 {
        id[usize::from(place)] = place;
    }
    let members = [PeerId(1), PeerId(2), PeerId(3)];
    Ok(Ensemble {
        id,
        opening: View::new(&members[..(most as usize).min(3)])?,
    })
}

/// The keys of a key file with these lines, for the ensemble of the members 1 to `most`.
fn keys(alloc: Global, lines: &[&str], most: u32) -> Result<FrameKeys, Fail> {
    let text = lines.join(alloc, "\n")?;
    let file = KeyFile::read(alloc, &text)?;
    Ok(FrameKeys::new(alloc, &ensemble(most)?, &file)?)
}

#[test]
fn frames_open_under_either_key_of_the_ensemble_alone(rt: HostRuntime) -> Result<(), Fail> {
    let alloc = rt.alloc();
    let both = keys(alloc, &[FIRST, SECOND], 3)?;
    let sealed = bytes(alloc, SEALED)?;
    assert_eq!(rt; both.seal(alloc, b"beat")?.as_slice(), sealed.as_slice());
    assert_eq!(rt; both.open(&sealed), Some(b"beat".as_slice()));
    let under_second = bytes(alloc, SEALED_SECOND)?;
    assert_eq!(rt; both.open(&under_second), Some(b"beat".as_slice()));
    let first = keys(alloc, &[FIRST], 3)?;
    assert!(rt; first.open(&under_second).is_none());
    assert!(rt; first.open(&bytes(alloc, SEALED_ELSEWHERE)?).is_none());
    assert!(rt;
        keys(alloc, &[FIRST], 2)?
            .open(&bytes(alloc, SEALED_ELSEWHERE)?)
            .is_some()
    );
    for place in 0..sealed.len() {
        let mut wrong = sealed.clone()?;
        wrong[place] ^= 0x80;
        assert!(rt; both.open(&wrong).is_none(), "byte {place}");
        assert!(rt; both.open(&sealed[..place]).is_none(), "cut at {place}");
    }
    Ok(())
}

#[test]
fn a_key_file_is_refused_with_its_line(rt: HostRuntime) -> Result<(), Fail> {
    let alloc = rt.alloc();
    let short = &FIRST[1..];
    let table = [
        (format!(in alloc; "{FIRST}")?, ""),
        (format!(in alloc; "{FIRST}\n{SECOND}\n")?, ""),
        (
            format!(in alloc; "")?,
            "the key file is empty: write a key of 64 hexadecimal digits into its first line",
        ),
        (
            format!(in alloc; "{FIRST}\n{short}\n")?,
            "line 2 of the key file has 63 bytes: a key is 64 hexadecimal digits, and nothing else",
        ),
        (
            format!(in alloc; "{short}x\n")?,
            "line 1 of the key file: byte 64 is no hexadecimal digit (0 to 9, a to f, A to F)",
        ),
        (
            format!(in alloc; "{FIRST}\n{FIRST}\n{FIRST}\n")?,
            "the key file has more than two lines: keep the key that seals, and below it one that only opens",
        ),
    ];
    for (text, refusal) in &table {
        match KeyFile::read(alloc, text) {
            Ok(_) => assert_eq!(rt; *refusal, ""),
            Err(e) => assert_eq!(rt; format!(in alloc; "{e}")?.as_str(), *refusal),
        }
    }
    Ok(())
}

#[test]
fn a_sealed_link_gives_what_was_sent_under_its_key(rt: HostRuntime) -> Result<(), Fail> {
    let alloc = rt.alloc();
    let mut queue = MemQueue::new(alloc, Vec::new(alloc));
    let Ok(()) = queue.send(alloc, 1, b"from nobody") else {
        return Err("not sent".into());
    };
    let mut link = CodedLink::new(queue, keys(alloc, &[FIRST], 3)?);
    assert!(rt; link.send(alloc, 1, b"beat").is_ok());
    assert!(rt; matches!(&link.receive(alloc), Ok(Some(bytes)) if bytes.is_empty()));
    assert!(rt;
        matches!(&link.receive(alloc), Ok(Some(bytes)) if bytes.as_slice() == b"beat".as_slice())
    );
    assert!(rt; matches!(&link.receive(alloc), Ok(None)));
    assert!(rt; link.refused() == 1);
    Ok(())
}
