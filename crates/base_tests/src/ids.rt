//! The worked rows of ids, and the published numbers of SplitMix64.
use lvm_id::{IdRefusal, LvmId, MemWords, MixWords, Words64, parse_hyphen, parse_plain};
use std::test::Fail;

// Draws through the bound.
fn five<N: Words64>(words: &mut N) -> [u64; 5] {
    [
        words.next(),
        words.next(),
        words.next(),
        words.next(),
        words.next(),
    ]
}

#[test]
fn draws_and_prints(rt: HostRuntime) -> Result<(), Fail> {
    let alloc = rt.alloc();
    let mut words = MemWords::new(vec![in alloc; 0, 1, 62, 3, 61, 36, 35, 10]?);
    let id = LvmId::from_words(&mut words);
    assert_eq!(rt;
        id.plain().as_slice(),
        b"00000000100000000100000030000000".as_slice()
    );
    assert_eq!(rt;
        id.hyphen().as_slice(),
        b"000000-0010-0000-0001-0000-0030-000000".as_slice()
    );
    let next = LvmId::from_words(&mut words);
    assert_eq!(rt;
        next.plain().as_slice(),
        b"Z0000000A0000000z0000000a0000000".as_slice()
    );
    let text = format!(in alloc; "{next}")?;
    assert_eq!(rt; text.as_str(), "Z00000-00A0-0000-00z0-0000-00a0-000000");
    let past_the_list = LvmId::from_words(&mut words);
    assert_eq!(rt;
        past_the_list.plain().as_slice(),
        b"00000000000000000000000000000000".as_slice()
    );
    assert_eq!(rt; parse_plain(&next.plain()), Ok(next));
    assert_eq!(rt; parse_hyphen(&next.hyphen()), Ok(next));
    Ok(())
}

#[test]
fn reads_every_character(rt: HostRuntime) {
    let rows: [&[u8]; 2] = [
        b"0123456789abcdefghijklmnopqrstuv",
        b"wxyzABCDEFGHIJKLMNOPQRSTUVWXYZ!#",
    ];
    for text in rows {
        let plain = parse_plain(text).map(|id| id.plain());
        assert_eq!(rt; plain.is_ok_and(|chars| chars.as_slice() == text), true);
    }
}

#[test]
fn refuses_plain(rt: HostRuntime) {
    let rows: [(&[u8], IdRefusal); 5] = [
        (b"", IdRefusal::BadLength(0)),
        (
            b"0123456789abcdefghijklmnopqrstuv-",
            IdRefusal::BadLength(33),
        ),
        (b"-123456789abcdefghijklmnopqrstuv", IdRefusal::BadChar(0)),
        (b"0123456789abcdefghijklmnopqrstu ", IdRefusal::BadChar(31)),
        (b"0123456789abc@efghijk-mnopqrstu-", IdRefusal::BadChar(13)),
    ];
    for (text, refusal) in rows {
        assert_eq!(rt; parse_plain(text), Err(refusal));
    }
}

#[test]
fn refuses_hyphenated(rt: HostRuntime) {
    let rows: [(&[u8], IdRefusal); 6] = [
        (
            b"00000000100000000100000030000000",
            IdRefusal::BadLength(32),
        ),
        (
            b"000000-0010-0000-0001-0000-0030-0000000",
            IdRefusal::BadLength(39),
        ),
        (
            b"000000_0010-0000-0001-0000-0030-000000",
            IdRefusal::BadHyphen(6),
        ),
        (
            b"00000--0010-0000-0001-0000-0030-000000",
            IdRefusal::BadChar(5),
        ),
        (
            b"000000-0010-0000-0001-0000-00300000000",
            IdRefusal::BadHyphen(31),
        ),
        (
            b"000000-0010-0000-0001-0000-0030-00000-",
            IdRefusal::BadChar(37),
        ),
    ];
    for (text, refusal) in rows {
        assert_eq!(rt; parse_hyphen(text), Err(refusal));
    }
}

#[test]
fn prints_each_refusal(rt: HostRuntime) -> Result<(), Fail> {
    let rows = [
        (IdRefusal::BadLength(31), "BadLength 31"),
        (IdRefusal::BadChar(5), "BadChar 5"),
        (IdRefusal::BadHyphen(6), "BadHyphen 6"),
    ];
    for (refusal, text) in rows {
        let said = format!(in rt.alloc(); "{refusal}")?;
        assert_eq!(rt; said.as_str(), text);
    }
    Ok(())
}

#[test]
fn mixes_as_published(rt: HostRuntime) {
    let mut words = MixWords { state: 1_234_567 };
    let want: [u64; 5] = [
        6_457_827_717_110_365_317,
        3_203_168_211_198_807_973,
        9_817_491_932_198_370_423,
        4_593_380_528_125_082_431,
        16_408_922_859_458_223_821,
    ];
    assert_eq!(rt; five(&mut words), want);
}
