// Varints by vectors of the format, the order of bytes, and the limits that no script comes to.
use ori_bytes::limits::*;
use ori_bytes::{Blob, ByteFault, Cursor, NoMemory, put_varint, varint_len};
use std::alloc::Global;

// Whether a number has this spelling, and is read from it, whatever follows.
fn is_spelled(alloc: Global, number: i64, spelling: &[u8]) -> Result<bool, NoMemory> {
    let mut out = Blob::new(alloc);
    put_varint(&mut out, number)?;
    let is_written = out.as_slice() == spelling && varint_len(number) == spelling.len();
    out.push(0x80)?;
    let mut cursor = Cursor::new(out.as_slice());
    Ok(is_written && cursor.take_varint() == Ok(number) && cursor.at() == spelling.len())
}

#[test]
fn varints(rt: HostRuntime) {
    let spellings: [(i64, &[u8]); 10] = [
        (0, &[0x00]),
        (1, &[0x02]),
        (-1, &[0x01]),
        (63, &[0x7e]),
        (64, &[0x80, 0x01]),
        (-64, &[0x7f]),
        (300, &[0xd8, 0x04]),
        (-300, &[0xd7, 0x04]),
        (
            i64::MAX,
            &[0xfe, 0xff, 0xff, 0xff, 0xff, 0xff, 0xff, 0xff, 0xff, 0x01],
        ),
        (
            i64::MIN,
            &[0xff, 0xff, 0xff, 0xff, 0xff, 0xff, 0xff, 0xff, 0xff, 0x01],
        ),
    ];
    for (number, spelling) in spellings {
        assert!(rt;
            is_spelled(rt.alloc(), number, spelling) == Ok(true),
            "{number}"
        );
    }
}

// What is read after the first byte.
fn read_after(bytes: &[u8]) -> Result<i64, ByteFault> {
    let mut cursor = Cursor::new(bytes);
    cursor.take_u8()?;
    cursor.take_varint()
}

#[test]
fn varint_faults(rt: HostRuntime) {
    let faults: [(&[u8], ByteFault); 6] = [
        (&[7], ByteFault::Short { at: 1 }),
        (&[7, 0x80], ByteFault::Short { at: 1 }),
        (&[7, 0x80, 0x00], ByteFault::LongForm { at: 1 }),
        (&[7, 0x81, 0x80, 0x00], ByteFault::LongForm { at: 1 }),
        (
            &[
                7, 0x80, 0x80, 0x80, 0x80, 0x80, 0x80, 0x80, 0x80, 0x80, 0x02,
            ],
            ByteFault::Range { at: 1 },
        ),
        (
            &[
                7, 0xff, 0xff, 0xff, 0xff, 0xff, 0xff, 0xff, 0xff, 0xff, 0xff, 0x01,
            ],
            ByteFault::Range { at: 1 },
        ),
    ];
    for (bytes, fault) in faults {
        assert!(rt; read_after(bytes) == Err(fault));
    }
}

// Numbers of two, four and eight bytes.
fn numbers_of(bytes: &[u8]) -> Result<(u16, u32, u64), ByteFault> {
    let mut cursor = Cursor::new(bytes);
    Ok((cursor.take_u16()?, cursor.take_u32()?, cursor.take_u64()?))
}

#[test]
fn the_high_byte_is_first(rt: HostRuntime) {
    let bytes = b"\x02\x03\x04\x05\x06\x07\x08\x09\x0a\x0b\x0c\x0d\x0e\x0f";
    assert!(rt; numbers_of(bytes) == Ok((0x0203, 0x0405_0607, 0x0809_0a0b_0c0d_0e0f)));
}

#[test]
fn limits(rt: HostRuntime) {
    let limits = [
        (u64::from(MAX_PAGES), 1_048_576),
        (MAX_LOG_BYTES, 1_073_741_824),
        (MAX_PAGES_BYTES, 4_294_967_296),
        (MAX_WEIGHT, 240_000),
        (BASE_WEIGHT, 100),
        (CHANGE_WEIGHT, 8),
        (BYTES_PER_WEIGHT, 3000),
        (MAX_POSITIONS, 250_000),
        (MAX_INPUT_BYTES, 1_073_741_824),
        (MAX_NESTING, 64),
        (MAX_FEED_ENTRIES, 1_048_576),
        (MAX_FEED_BYTES, 536_870_912),
        (CHANGE_FEED_BYTES, 64),
        (DEFINITION_FEED_BYTES, 256),
    ];
    for (limit, number) in limits {
        assert!(rt; limit == number, "{number}");
    }
}
