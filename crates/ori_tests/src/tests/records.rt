// Records by their bytes: worked out by hand, or made by `bench/records.py`, which shares nothing with the store.
use ori_bytes::{NoMemory, Rid};
use ori_model::{Row, Stored};
use ori_record::{RecordFault, read, spelled_writable, write};
use ori_text::row_json;
use std::alloc::Global;

pub const RID: Rid = Rid {
    cluster: 3,
    position: 1,
};

// A record as it is printed: its version, its class, its fields and the number of its bags.
fn printed(alloc: Global, stored: Stored, bags: usize) -> Result<String, NoMemory> {
    let (version, class) = (stored.version, stored.class);
    let row = row_json(
        alloc,
        &Row {
            columns: stored.fields,
        },
    )?;
    Ok(format!(in alloc; "{version} {} {} {bags}", class.as_str(), row.as_str())?)
}

// Whether a record is read from bytes that is printed so.
fn reads_as(alloc: Global, bytes: &[u8], want: &str) -> bool {
    let Ok((stored, bags)) = read(alloc, bytes, RID) else {
        return false;
    };
    match printed(alloc, stored, bags.as_slice().len()) {
        Ok(text) => text.as_str() == want,
        Err(_) => false,
    }
}

// Whether bytes are no record.
fn is_no_record(alloc: Global, bytes: &[u8]) -> bool {
    matches!(read(alloc, bytes, RID), Err(RecordFault::NotRecord))
}

// Whether writing what bytes spell gives the bytes again.
pub fn come_back(alloc: Global, bytes: &[u8]) -> bool {
    // What was read can be written.
    spelled_writable();
    let Ok((stored, bags)) = read(alloc, bytes, RID) else {
        return false;
    };
    let Ok(again) = write(alloc, &stored, &bags) else {
        return false;
    };
    again.as_slice() == bytes
}

#[test]
fn records_are_read(rt: HostRuntime) {
    let cases: [(&[u8], &str); 6] = [
        (
            b"\0\0\0\x01\0\x02V\x08name\0\0\0\x0e\x07\0\x06Ann",
            "1 V {\"name\":\"Ann\"} 0",
        ),
        (
            b"\0\0\0\x01\0\x06Doc\x02a\0\0\0\x14\x01\x02b\0\0\0\0\0\0\x0a",
            "1 Doc {\"a\":5,\"b\":null} 0",
        ),
        (
            b"\0\0\0\x01\0\x06Doc\x02l\0\0\0\x0d\x0d\0\x06\x02",
            "1 Doc {\"l\":\"#3:1\"} 0",
        ),
        (
            b"\0\0\x01\x02\0\x02V\x02n\0\0\0\x0b\x03\0\xfe\xff\xff\xff\xff\xff\xff\xff\xff\x01",
            "258 V {\"n\":9223372036854775807} 0",
        ),
        (
            b"\0\0\0\x07\0\x02V\x08in_E\0\0\0\x19\x16\x0aout_E\0\0\0\x1f\x16\0\0\x04\x04\0\x04\0\x01\0\0\0\x09R",
            "7 V {} 2",
        ),
        (b"\0\0\0\x01\0\x06Doc\0", "1 Doc {} 0"),
    ];
    for (bytes, want) in cases {
        assert!(rt; reads_as(rt.alloc(), bytes, want), "{want}");
    }
}

#[test]
fn records_come_back(rt: HostRuntime) {
    // Three rows worked out by hand, and twelve of `bench/records.py`.
    let rows: [&[u8]; 15] = [
        // worked out by hand
        b"\0\0\0\x01\0\x06Doc\x02a\0\0\0\x14\x01\x02b\0\0\0\0\0\0\x0a",
        // a link
        b"\0\0\0\x01\0\x06Doc\x02l\0\0\0\x0d\x0d\0\x06\x02",
        // bags of both forms, one identifier twice
        b"\0\0\0\x07\0\x02V\x08in_E\0\0\0\x19\x16\x0aout_E\0\0\0\x1f\x16\0\0\x04\x04\0\x04\0\x01\0\0\0\x09R",
        b"\xdfqB\xdc\0\0\x08in_E\0\0\0\x0d\x16\0\0\x04\x01\xff\xff\xff\xff\xff\xff\xff\xff\xff\x01\xfe\xff\x03\x03",
        b"\xed\xb1\xbd\xc5\0\x06Doc\x16out_gr\xc3\xb6\xc3\x9fe\0\0\0\x17\x16\0\0\x06\x02\x02\x04\0\x04\0",
        b"\xff?R\xb2\0\x02V\x08in_E\0\0\0\x19\x16\x0aout_E\0\0\0\x1b\x16\0\0\0\0\x04\x01\x02\x02\x02",
        b"SM\xc0\x83\0\x02V\x08in_E\0\0\0\x18\x16\x08name\0\0\0\x1e\x0f\0\x01\xd5\xb4\xc0\xcdR\0",
        b"\xdcw\x99%\0\x02V\x02a\0\0\0\0\0\x06in_\0\0\0\"\x16\x10in_Knows\0\0\0$\x16\0\0\0\0\0",
        b"g\x92\xde7\0\x02V\x08in_E\0\0\0\x0e\x16\0\0\x04\x01\xd8\x04\x02\xfe\xff\xff\xff\xff\xff\xff\xff\xff\x01",
        b"\x83\xc5\xcf|\0\x06Doc\x16out_gr\xc3\xb6\xc3\x9fe\0\0\0\x17\x16\0\0\0",
        b"\xaa\xcf6\x13\0\x02V\x06in_\0\0\0\x17\x16\x08in_E\0\0\0\x1d\x16\0\x01<\xae\xa9\xbc\0\x01\x995\x0d\x9d\0",
        b"\xf8X\x81\xe9\0\x06Doc\x10in_Knows\0\0\0\x14\x16\0\0\x02\xfe\xff\x03\0",
        b"=\x89\xee\xc6\0\0\x02B\0\0\0\x1c\x01\x08name\0\0\0\x1d\x0d\x04zz\0\0\0\x1f\x01\0\x01\x01\x02\x01",
        b"g\x856\xc5\0\0\x04in\0\0\0\0\0\x08name\0\0\0\x15\x01\0\xff\xff\xff\xff\x0f",
        b"\xf4\xa56\x1a\0\0\x06out\0\0\0\x1d\x07\x16out_gr\xc3\xb6\xc3\x9fe\0\0\0!\x16\0\x06Ann\x01w7z\xc8R",
    ];
    for bytes in rows {
        assert!(rt; come_back(rt.alloc(), bytes));
    }
}

#[test]
fn others_are_no_records(rt: HostRuntime) {
    let rows: [&[u8]; 17] = [
        // the byte that ends the header is 1
        b"\0\0\0\x01\0\x06Doc\x02a\0\0\0\x14\x01\x02b\0\0\0\0\x01\0\x0a",
        // a byte more
        b"\0\0\0\x01\0\x06Doc\x02a\0\0\0\x14\x01\x02b\0\0\0\0\0\0\x0a\0",
        // a byte less
        b"\0\0\0\x01\0\x06Doc\x02a\0\0\0\x14\x01\x02b\0\0\0\0\0\0",
        // no field, and a byte more
        b"\0\0\0\x01\0\x06Doc\0\0",
        // another number than 0 after the version
        b"\0\0\0\x01\x01\x06Doc\x02a\0\0\0\x14\x01\x02b\0\0\0\0\0\0\x0a",
        // a number in two groups where one serves
        b"\0\0\0\x01\0\x06Doc\x02a\0\0\0\x14\x01\x02b\0\0\0\0\0\0\x8a\0",
        // names fall
        b"\0\0\0\x01\0\x06Doc\x02b\0\0\0\0\0\x02a\0\0\0\x14\x01\0\x0a",
        // one name twice
        b"\0\0\0\x01\0\x06Doc\x02a\0\0\0\0\0\x02a\0\0\0\x14\x01\0\x0a",
        // a pointer one too large
        b"\0\0\0\x01\0\x06Doc\x02a\0\0\0\x15\x01\x02b\0\0\0\0\0\0\x0a",
        // a null with a pointer
        b"\0\0\0\x01\0\x06Doc\x02a\0\0\0\x14\x01\x02b\0\0\0\x01\0\0\x0a",
        // a name of no bytes
        b"\0\0\0\x01\0\x06Doc\0\0\0\0\x0c\x01\0\x0a",
        // an INTEGER over 32 bits
        b"\0\0\0\x01\0\x06Doc\x02a\0\0\0\x0d\x01\0\x80\x80\x80\x80\x80@",
        // a set whose links do not rise
        b"\0\0\0\x01\0\x06Doc\x02a\0\0\0\x0d\x0f\0\x04\x02\0\x02\0",
        // a bag whose links fall
        b"\0\0\0\x01\0\x02V\x08in_E\0\0\0\x0e\x16\0\0\x04\x04\x06\x04\0",
        // a bag's name on a number
        b"\0\0\0\x01\0\x02V\x08in_E\0\0\0\x0e\x01\0\x0a",
        // another name on a bag
        b"\0\0\0\x01\0\x02V\x02E\0\0\0\x0b\x16\0\0\0",
        // a bag of a third form
        b"\0\0\0\x01\0\x02V\x0aout_E\0\0\0\x0f\x16\0\x02\0\0\0\x09R",
    ];
    for bytes in rows {
        assert!(rt; is_no_record(rt.alloc(), bytes));
    }
}
