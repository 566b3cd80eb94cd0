//! Stored keys, whose digests another program computed.
use crate::{DigestKeys, Keyspace, LONGEST_KEY, client_key, database_of, put_stored_key};
use std::alloc::Global;
use std::process::Abort;

fn stored_in<R: Abort>(
    rt: &R,
    alloc: Global,
    first: u64,
    second: u64,
    database: u8,
    key: &[u8],
) -> Vec<u8> {
    let mut stored = Vec::new(alloc);
    let keyspace = Keyspace {
        digest_keys: DigestKeys { first, second },
        database,
    };
    put_stored_key(keyspace, key, &mut stored).expect(rt, "memory");
    stored
}

fn stored<R: Abort>(rt: &R, alloc: Global, first: u64, second: u64, key: &[u8]) -> Vec<u8> {
    stored_in(rt, alloc, first, second, 0, key)
}

#[test]
fn digests_of_another_program(rt: HostRuntime) {
    let alloc = rt.alloc();
    let empty = stored(&rt, alloc, 0, 0, b"");
    assert_eq!(rt; empty.as_slice(), [0, 152, 69, 4, 70, 24, 189].as_slice());
    let short = stored(&rt, alloc, 1, 2, b"a");
    assert_eq!(rt;
        short.as_slice(),
        [97, 0, 124, 8, 44, 59, 189, 203].as_slice()
    );
    let binary = stored(&rt, alloc, 1, 2, &[0, 255, 13, 10, 0]);
    assert_eq!(rt;
        binary.as_slice(),
        [0, 255, 13, 10, 0, 0, 129, 119, 63, 184, 72, 109].as_slice()
    );
    let (first, second) = (0x0123_4567_89ab_cdef, 0xfedc_ba98_7654_3210);
    let user = stored(&rt, alloc, first, second, b"user:1");
    assert_eq!(rt;
        user.as_slice(),
        [117, 115, 101, 114, 58, 49, 0, 63, 80, 203, 63, 60, 208].as_slice()
    );
    assert_eq!(rt; client_key(user.as_slice()), b"user:1".as_slice());
}

#[test]
fn the_longest_key(rt: HostRuntime) {
    let alloc = rt.alloc();
    let mut key = Vec::new(alloc);
    for _ in 0..LONGEST_KEY {
        key.push(b'k').expect(&rt, "memory");
    }
    let longest = stored(&rt, alloc, 7, u64::MAX, key.as_slice());
    assert_eq!(rt; longest.len(), 65_535);
    assert_eq!(rt;
        &longest[LONGEST_KEY..],
        [0, 184, 185, 197, 47, 83, 11].as_slice()
    );
    assert_eq!(rt; client_key(longest.as_slice()), key.as_slice());
}

#[test]
fn databases(rt: HostRuntime) {
    let alloc = rt.alloc();
    let third = stored_in(&rt, alloc, 1, 2, 3, b"a");
    assert_eq!(rt;
        third.as_slice(),
        [97, 3, 21, 229, 18, 1, 183, 171].as_slice()
    );
    let last = stored_in(&rt, alloc, 1, 2, 255, b"a");
    assert_eq!(rt;
        last.as_slice(),
        [97, 255, 189, 255, 149, 189, 44, 29].as_slice()
    );
    assert_eq!(rt; client_key(last.as_slice()), b"a".as_slice());
    assert_eq!(rt; database_of(third.as_slice()), Some(3));
    assert_eq!(rt; database_of(last.as_slice()), Some(255));
    assert_eq!(rt; database_of(b"".as_slice()), None);
}
