// The table of accented Latin-1 letters.
use crate::letters::Letter;

// In ascending order of `composed`, as Unicode decomposes them.
pub const LETTERS: [Letter; 53] = [
    Letter {
        composed: 0xC0,
        base: 0x41,
        mark: 0x0300,
    },
    Letter {
        composed: 0xC1,
        base: 0x41,
        mark: 0x0301,
    },
    Letter {
        composed: 0xC2,
        base: 0x41,
        mark: 0x0302,
    },
    Letter {
        composed: 0xC3,
        base: 0x41,
        mark: 0x0303,
    },
    Letter {
        composed: 0xC4,
        base: 0x41,
        mark: 0x0308,
    },
    Letter {
        composed: 0xC5,
        base: 0x41,
        mark: 0x030A,
    },
    Letter {
        composed: 0xC7,
        base: 0x43,
        mark: 0x0327,
    },
    Letter {
        composed: 0xC8,
        base: 0x45,
        mark: 0x0300,
    },
    Letter {
        composed: 0xC9,
        base: 0x45,
        mark: 0x0301,
    },
    Letter {
        composed: 0xCA,
        base: 0x45,
        mark: 0x0302,
    },
    Letter {
        composed: 0xCB,
        base: 0x45,
        mark: 0x0308,
    },
    Letter {
        composed: 0xCC,
        base: 0x49,
        mark: 0x0300,
    },
    Letter {
        composed: 0xCD,
        base: 0x49,
        mark: 0x0301,
    },
    Letter {
        composed: 0xCE,
        base: 0x49,
        mark: 0x0302,
    },
    Letter {
        composed: 0xCF,
        base: 0x49,
        mark: 0x0308,
    },
    Letter {
        composed: 0xD1,
        base: 0x4E,
        mark: 0x0303,
    },
    Letter {
        composed: 0xD2,
        base: 0x4F,
        mark: 0x0300,
    },
    Letter {
        composed: 0xD3,
        base: 0x4F,
        mark: 0x0301,
    },
    Letter {
        composed: 0xD4,
        base: 0x4F,
        mark: 0x0302,
    },
    Letter {
        composed: 0xD5,
        base: 0x4F,
        mark: 0x0303,
    },
    Letter {
        composed: 0xD6,
        base: 0x4F,
        mark: 0x0308,
    },
    Letter {
        composed: 0xD9,
        base: 0x55,
        mark: 0x0300,
    },
    Letter {
        composed: 0xDA,
        base: 0x55,
        mark: 0x0301,
    },
    Letter {
        composed: 0xDB,
        base: 0x55,
        mark: 0x0302,
    },
    Letter {
        composed: 0xDC,
        base: 0x55,
        mark: 0x0308,
    },
    Letter {
        composed: 0xDD,
        base: 0x59,
        mark: 0x0301,
    },
    Letter {
        composed: 0xE0,
        base: 0x61,
        mark: 0x0300,
    },
    Letter {
        composed: 0xE1,
        base: 0x61,
        mark: 0x0301,
    },
    Letter {
        composed: 0xE2,
        base: 0x61,
        mark: 0x0302,
    },
    Letter {
        composed: 0xE3,
        base: 0x61,
        mark: 0x0303,
    },
    Letter {
        composed: 0xE4,
        base: 0x61,
        mark: 0x0308,
    },
    Letter {
        composed: 0xE5,
        base: 0x61,
        mark: 0x030A,
    },
    Letter {
        composed: 0xE7,
        base: 0x63,
        mark: 0x0327,
    },
    Letter {
        composed: 0xE8,
        base: 0x65,
        mark: 0x0300,
    },
    Letter {
        composed: 0xE9,
        base: 0x65,
        mark: 0x0301,
    },
    Letter {
        composed: 0xEA,
        base: 0x65,
        mark: 0x0302,
    },
    Letter {
        composed: 0xEB,
        base: 0x65,
        mark: 0x0308,
    },
    Letter {
        composed: 0xEC,
        base: 0x69,
        mark: 0x0300,
    },
    Letter {
        composed: 0xED,
        base: 0x69,
        mark: 0x0301,
    },
    Letter {
        composed: 0xEE,
        base: 0x69,
        mark: 0x0302,
    },
    Letter {
        composed: 0xEF,
        base: 0x69,
        mark: 0x0308,
    },
    Letter {
        composed: 0xF1,
        base: 0x6E,
        mark: 0x0303,
    },
    Letter {
        composed: 0xF2,
        base: 0x6F,
        mark: 0x0300,
    },
    Letter {
        composed: 0xF3,
        base: 0x6F,
        mark: 0x0301,
    },
    Letter {
        composed: 0xF4,
        base: 0x6F,
        mark: 0x0302,
    },
    Letter {
        composed: 0xF5,
        base: 0x6F,
        mark: 0x0303,
    },
    Letter {
        composed: 0xF6,
        base: 0x6F,
        mark: 0x0308,
    },
    Letter {
        composed: 0xF9,
        base: 0x75,
        mark: 0x0300,
    },
    Letter {
        composed: 0xFA,
        base: 0x75,
        mark: 0x0301,
    },
    Letter {
        composed: 0xFB,
        base: 0x75,
        mark: 0x0302,
    },
    Letter {
        composed: 0xFC,
        base: 0x75,
        mark: 0x0308,
    },
    Letter {
        composed: 0xFD,
        base: 0x79,
        mark: 0x0301,
    },
    Letter {
        composed: 0xFF,
        base: 0x79,
        mark: 0x0308,
    },
];
