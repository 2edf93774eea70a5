// Inputs and their listings: each refusal at its edge, the order of the checks, frames of every kind.
use listing::list::listing;
use std::test::*;

// An input is some bytes of 55, and then a tail.
#[derive(Clone, Copy)]
struct Case {
    name: &'static str,
    padding: usize,
    tail: &'static [u8],
    text: &'static str,
}

const CASES: &[Case] = &[
    // nothing, and whole files
    Case {
        name: "empty file",
        padding: 0,
        tail: b"",
        text: "end 0\n",
    },
    Case {
        name: "two frames",
        padding: 0,
        tail: b"\x55\x55\x00\x00\x00\x00\x00\x02\x00\xA7\xAA\xFF\x55\x00\x00\x00\x01\x04\x00\x00\x00\x01\x03\xA7",
        text: "0 3 10 14\n1 0 0 10\nend 2\n",
    },
    Case {
        name: "two frames behind three bytes",
        padding: 0,
        tail: b"\x01\x02\x03\x55\x55\x00\x00\x00\x00\x00\x02\x00\xA7\xAA\xFF\x55\x00\x00\x00\x01\x04\x00\x00\x00\x01\x03\xA7",
        text: "0 3 13 14\n1 0 3 10\nfault 7 3\n",
    },
    Case {
        name: "all four parts",
        padding: 14,
        tail: b"\x02\x05\x00\x03\x00\x04\x02\xA7",
        text: "0 2 0 22\nend 1\n",
    },
    Case {
        name: "two-byte header length",
        padding: 262,
        tail: b"\x00\x04\x01\x02\x00\x00\x03\xA7",
        text: "0 3 0 270\nend 1\n",
    },
    Case {
        name: "two-byte body length",
        padding: 262,
        tail: b"\x00\x04\x00\x00\x01\x02\x03\xA7",
        text: "0 3 0 270\nend 1\n",
    },
    // idle frames, their fill of any bytes
    Case {
        name: "idle with no fill",
        padding: 0,
        tail: b"\x00\x00\x00\x00\x00\x00\x00\xA7",
        text: "0 0 0 8\nend 1\n",
    },
    Case {
        name: "idle, its fill a trailer",
        padding: 0,
        tail: b"\x00\x00\x00\x00\x00\x00\x00\xA7\x00\x00\x00\x00\x00\x08\x00\xA7",
        text: "0 0 0 16\nend 1\n",
    },
    Case {
        name: "idle behind idle",
        padding: 0,
        tail: b"\x00\x00\x00\x00\x00\x00\x00\xA7\x00\x00\x00\x00\x00\x00\x00\xA7",
        text: "0 0 8 8\n1 0 0 8\nend 2\n",
    },
    // 7: one to seven bytes left
    Case {
        name: "one byte left",
        padding: 1,
        tail: b"",
        text: "fault 7 1\n",
    },
    Case {
        name: "seven bytes left",
        padding: 0,
        tail: b"\x00\x00\x00\x00\x00\x00\xA7",
        text: "fault 7 7\n",
    },
    // 8: last byte not the mark
    Case {
        name: "mark A6",
        padding: 0,
        tail: b"\x00\x00\x00\x00\x00\x00\x00\xA6",
        text: "fault 8 8\n",
    },
    Case {
        name: "mark A8",
        padding: 0,
        tail: b"\x00\x00\x00\x00\x00\x00\x00\xA8",
        text: "fault 8 8\n",
    },
    // 9: kind above 3
    Case {
        name: "kind 3",
        padding: 4,
        tail: b"\x00\x04\x00\x00\x00\x00\x03\xA7",
        text: "0 3 0 12\nend 1\n",
    },
    Case {
        name: "kind 4",
        padding: 4,
        tail: b"\x00\x04\x00\x00\x00\x00\x04\xA7",
        text: "fault 9 12\n",
    },
    Case {
        name: "kind 255",
        padding: 4,
        tail: b"\x00\x04\x00\x00\x00\x00\xFF\xA7",
        text: "fault 9 12\n",
    },
    // 10: header over 2048
    Case {
        name: "header 2048",
        padding: 2052,
        tail: b"\x00\x04\x08\x00\x00\x00\x03\xA7",
        text: "0 3 0 2060\nend 1\n",
    },
    Case {
        name: "header 2049",
        padding: 2053,
        tail: b"\x00\x04\x08\x01\x00\x00\x03\xA7",
        text: "fault 10 2061\n",
    },
    // 10: body over 4096
    Case {
        name: "body 4096",
        padding: 4100,
        tail: b"\x00\x04\x00\x00\x10\x00\x03\xA7",
        text: "0 3 0 4108\nend 1\n",
    },
    Case {
        name: "body 4097",
        padding: 4101,
        tail: b"\x00\x04\x00\x00\x10\x01\x03\xA7",
        text: "fault 10 4109\n",
    },
    Case {
        name: "idle body 4096",
        padding: 4096,
        tail: b"\x00\x00\x00\x00\x10\x00\x00\xA7",
        text: "0 0 0 4104\nend 1\n",
    },
    Case {
        name: "idle body 4097",
        padding: 4097,
        tail: b"\x00\x00\x00\x00\x10\x01\x00\xA7",
        text: "fault 10 4105\n",
    },
    // 10: tag outside 4 to n
    Case {
        name: "AES-128, tag 3",
        padding: 3,
        tail: b"\x00\x03\x00\x00\x00\x00\x01\xA7",
        text: "fault 10 11\n",
    },
    Case {
        name: "AES-128, tag 4",
        padding: 4,
        tail: b"\x00\x04\x00\x00\x00\x00\x01\xA7",
        text: "0 1 0 12\nend 1\n",
    },
    Case {
        name: "AES-128, tag 16",
        padding: 16,
        tail: b"\x00\x10\x00\x00\x00\x00\x01\xA7",
        text: "0 1 0 24\nend 1\n",
    },
    Case {
        name: "AES-128, tag 17",
        padding: 17,
        tail: b"\x00\x11\x00\x00\x00\x00\x01\xA7",
        text: "fault 10 25\n",
    },
    Case {
        name: "PRESENT-80, tag 3",
        padding: 3,
        tail: b"\x00\x03\x00\x00\x00\x00\x02\xA7",
        text: "fault 10 11\n",
    },
    Case {
        name: "PRESENT-80, tag 4",
        padding: 4,
        tail: b"\x00\x04\x00\x00\x00\x00\x02\xA7",
        text: "0 2 0 12\nend 1\n",
    },
    Case {
        name: "PRESENT-80, tag 8",
        padding: 8,
        tail: b"\x00\x08\x00\x00\x00\x00\x02\xA7",
        text: "0 2 0 16\nend 1\n",
    },
    Case {
        name: "PRESENT-80, tag 9",
        padding: 9,
        tail: b"\x00\x09\x00\x00\x00\x00\x02\xA7",
        text: "fault 10 17\n",
    },
    Case {
        name: "bench, tag 3",
        padding: 3,
        tail: b"\x00\x03\x00\x00\x00\x00\x03\xA7",
        text: "fault 10 11\n",
    },
    Case {
        name: "bench, tag 4",
        padding: 4,
        tail: b"\x00\x04\x00\x00\x00\x00\x03\xA7",
        text: "0 3 0 12\nend 1\n",
    },
    Case {
        name: "bench, tag 8",
        padding: 8,
        tail: b"\x00\x08\x00\x00\x00\x00\x03\xA7",
        text: "0 3 0 16\nend 1\n",
    },
    Case {
        name: "bench, tag 9",
        padding: 9,
        tail: b"\x00\x09\x00\x00\x00\x00\x03\xA7",
        text: "fault 10 17\n",
    },
    // 10: an idle frame without its four 00
    Case {
        name: "idle with a nonce",
        padding: 1,
        tail: b"\x01\x00\x00\x00\x00\x00\x00\xA7",
        text: "fault 10 9\n",
    },
    Case {
        name: "idle with a tag",
        padding: 4,
        tail: b"\x00\x04\x00\x00\x00\x00\x00\xA7",
        text: "fault 10 12\n",
    },
    Case {
        name: "idle with a header",
        padding: 1,
        tail: b"\x00\x00\x00\x01\x00\x00\x00\xA7",
        text: "fault 10 9\n",
    },
    Case {
        name: "idle with a header of 256",
        padding: 256,
        tail: b"\x00\x00\x01\x00\x00\x00\x00\xA7",
        text: "fault 10 264\n",
    },
    // 11: parts longer than the bytes before the trailer
    Case {
        name: "parts that fit",
        padding: 259,
        tail: b"\xFF\x04\x00\x00\x00\x00\x03\xA7",
        text: "0 3 0 267\nend 1\n",
    },
    Case {
        name: "parts one byte too long",
        padding: 258,
        tail: b"\xFF\x04\x00\x00\x00\x00\x03\xA7",
        text: "fault 11 266\n",
    },
    Case {
        name: "tag one byte too long",
        padding: 3,
        tail: b"\x00\x04\x00\x00\x00\x00\x03\xA7",
        text: "fault 11 11\n",
    },
    Case {
        name: "fill one byte too long",
        padding: 1,
        tail: b"\x00\x00\x00\x00\x00\x02\x00\xA7",
        text: "fault 11 9\n",
    },
    // 14: input over 65536 bytes
    Case {
        name: "65536 bytes",
        padding: 65536,
        tail: b"",
        text: "fault 8 65536\n",
    },
    Case {
        name: "65536 bytes, with a frame",
        padding: 65528,
        tail: b"\x00\x00\x00\x00\x00\x00\x00\xA7",
        text: "0 0 65528 8\nfault 8 65528\n",
    },
    Case {
        name: "65537 bytes",
        padding: 65537,
        tail: b"",
        text: "fault 14 65536\n",
    },
    Case {
        name: "65537 bytes, with a frame",
        padding: 65529,
        tail: b"\x00\x00\x00\x00\x00\x00\x00\xA7",
        text: "fault 14 65536\n",
    },
    // an input that offends two checks shows the first
    Case {
        name: "7 before 8",
        padding: 7,
        tail: b"",
        text: "fault 7 7\n",
    },
    Case {
        name: "8 before 9",
        padding: 8,
        tail: b"",
        text: "fault 8 8\n",
    },
    Case {
        name: "9 before 10",
        padding: 0,
        tail: b"\x00\x04\x08\x01\x00\x00\x04\xA7",
        text: "fault 9 8\n",
    },
    Case {
        name: "10 before 11",
        padding: 0,
        tail: b"\x00\x04\x08\x01\x00\x00\x03\xA7",
        text: "fault 10 8\n",
    },
];

#[test]
fn listings(rt: HostRuntime) -> Result<(), Fail> {
    let heap = rt.alloc();
    for case in CASES {
        let mut input = vec![in heap; 0x55u8; case.padding]?;
        input.extend_from_slice(case.tail)?;
        let text = listing(heap, input.as_slice())?;
        assert_eq!(rt; text.as_str(), case.text, "{}", case.name);
    }
    Ok(())
}
