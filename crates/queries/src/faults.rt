// The words of faults.
use query::{Query, read};

// A text, and the word of its fault.
const WORDS: [(&[u8], &str); 11] = [
    (b"EVENT SEQ(START x) WITHIN 5 #", "stray byte"),
    (b"EVENT SEQ(START x) WITHIN 2147483648", "long number"),
    (b"", "wrong token"),
    (b"EVENT SEQ(START x) WHERE (((((((((1=1", "too deep"),
    (b"EVENT SEQ(JUMP x) WITHIN 5", "unknown kind"),
    (b"EVENT SEQ(START x, STOP x) WITHIN 5", "doubled"),
    (b"EVENT SEQ(START x) WHERE y.r0 = 1 WITHIN 5", "unbound"),
    (b"EVENT SEQ(!(START x)) WITHIN 5", "shape"),
    (
        b"EVENT SEQ(START x) WHERE (1=1 OR 1=1 OR 1=1 OR 1=1 OR 1=1) AND (1=1 OR 1=1 OR 1=1 OR 1=1 OR 1=1) AND (1=1 OR 1=1 OR 1=1 OR 1=1 OR 1=1) AND (1=1 OR 1=1 OR 1=1 OR 1=1 OR 1=1) AND (1=1 OR 1=1 OR 1=1 OR 1=1 OR 1=1) WITHIN 5",
        "many tests",
    ),
    (
        b"EVENT SEQ(!(STOP n), START x, !(STOP m), START y) WHERE n.r0 = m.r0 WITHIN 5",
        "two negatives",
    ),
    (b"EVENT SEQ(START x) WITHIN 0", "window"),
];

fn word_of(text: &[u8]) -> Option<&'static str> {
    let fault = read(text, &mut Query::new()).err()?;
    Some(fault.word())
}

#[test]
fn faults_have_words(rt: HostRuntime) {
    for (text, word) in WORDS {
        assert_eq!(rt; word_of(text), Some(word));
    }
    assert_eq!(rt; word_of(&[b' '; 4097]), Some("long text"));
}
